//! Systems of inequalities that are drawn, with answers from another solver, and small systems that clash or do not, that
//! are solved, or whose solutions are far off.

ghost use Rattle.std.specs.Prelude.{IfOk};
ghost use Rattle.cooper_solve.specs.Views.{IsSystem};

use cooper_solve::{Constraint, Found, Relation, is_hopeless, reach_of, solve};
use fast_fault::{LabelInt, Memory};
use lin_reduce::{Explored, clashes, explore};
use std::alloc::Global;
use std::test::Fail;

/// The next number of a sequence by a linear congruence.
fn next(seed: &mut u64) -> u64 {
    *seed = seed
        .wrapping_mul(6364136223846793005)
        .wrapping_add(1442695040888963407);
    *seed >> 33
}

/// A number from 0 to the greatest.
fn up_to(seed: &mut u64, greatest: u64) -> i128 {
    let span = greatest.saturating_add(1);
    if span == 0 {
        return 0;
    }
    (next(seed) % span) as i128
}

/// A number of either sign.
fn about(seed: &mut u64, greatest: u64) -> i128 {
    up_to(seed, greatest.saturating_mul(2)).saturating_sub(greatest as i128)
}

/// A row of numbers from -9 to 9, and the sum of its products with others.
fn drawn_row(alloc: Global, seed: &mut u64, others: &[i128]) -> Result<(Vec<i128>, i128), Memory> {
    let mut row = Vec::new(alloc);
    let mut sum: i128 = 0;
    for other in others {
        let own = about(seed, 9);
        sum = sum.saturating_add(own.saturating_mul(*other));
        row.push(own)?;
    }
    Ok((row, sum))
}

/// Inequalities over so many variables. Where there is a slack, a point is drawn from which none is further off.
fn half_spaces(
    alloc: Global,
    first: u64,
    count: usize,
    slack: u64,
) -> Result<Vec<Constraint>, Memory> {
    let mut seed = first;
    let mut point = Vec::new(alloc);
    for _ in 0..count {
        point.push(about(&mut seed, 20))?;
    }
    let mut out = Vec::new(alloc);
    for _ in 0..24 {
        let (coefficients, sum) = drawn_row(alloc, &mut seed, &point)?;
        let constant = if slack == 0 {
            about(&mut seed, 100)
        } else {
            up_to(&mut seed, slack).saturating_sub(sum)
        };
        out.push(Constraint {
            relation: Relation::AtLeast,
            constant,
            coefficients,
        })?;
    }
    Ok(out)
}

fn holds(condition: &Constraint, values: &[i128]) -> bool {
    let mut sum = condition.constant;
    for i in 0..condition.coefficients.len() {
        let own = values.get(i).copied().unwrap_or(0);
        sum = sum.saturating_add(condition.coefficients[i].saturating_mul(own));
    }
    sum >= 0
}

/// What is found of the inequalities, where values are tried.
fn told(alloc: Global, system: &[Constraint], count: usize) -> Result<&'static str, Memory> {
    match explore(alloc, system, count)? {
        Explored::Never => Ok("none"),
        Explored::Open => Ok("open"),
        Explored::Maybe(values) => {
            let mut wide = Vec::new(alloc);
            for value in &values {
                wide.push(*value as i128)?;
            }
            for condition in system {
                if !holds(condition, &wide) {
                    return Ok("values that break one");
                }
            }
            Ok("values")
        }
    }
}

/// 24 inequalities over four to eight variables: the answers are those of an SMT solver for the same numbers. Rational values
/// meet two systems that no whole ones do.
#[test]
fn many_inequalities_are_decided(rt: HostRuntime) -> Result<(), Fail> {
    let cases: &[(usize, u64, u64, &str)] = &[
        (4, 0, 1, "none"),
        (4, 8, 2, "values"),
        (4, 200, 2, "values"),
        (6, 0, 2, "none"),
        (6, 18, 1, "values"),
        (6, 200, 3, "values"),
        (8, 0, 1, "none"),
        (8, 0, 3, "none"),
        (8, 0, 50, "values"),
        (7, 0, 148, "none"),
        (8, 0, 294, "none"),
        (8, 8, 3, "values"),
        (8, 200, 4, "values"),
    ];
    for (count, slack, seed, want) in cases {
        let system = half_spaces(rt.alloc(), *seed, *count, *slack)?;
        let found = told(rt.alloc(), &system, *count)?;
        assert!(rt; found == *want, "{count} {slack} {seed}: {found}");
    }
    Ok(())
}

/// A condition: what divides the sum, or 0 where it is at least 0, the constant, and the coefficients.
type Row = (i128, i128, [i128; 2]);

fn system_of(alloc: Global, rows: &[Row]) -> Result<Vec<Constraint>, Memory> {
    let mut out = Vec::new(alloc);
    for (divisor, constant, coefficients) in rows {
        let relation = if *divisor > 0 {
            Relation::Divided(*divisor)
        } else {
            Relation::AtLeast
        };
        out.push(Constraint {
            relation,
            constant: *constant,
            coefficients: Vec::from_slice(alloc, coefficients)?,
        })?;
    }
    Ok(out)
}

/// Where x - 3 is the remainder of x by 26, 26 divides 3. Where 26 divides y - 2 x + 58, y is even.
#[test]
fn equations_and_multiples_clash(rt: HostRuntime) -> Result<(), Fail> {
    let cases: &[(&[Row], bool)] = &[
        (&[(0, -3, [1, -1]), (0, 3, [-1, 1]), (26, 0, [1, -1])], true),
        (&[(0, -3, [1, -1]), (0, 3, [-1, 1]), (26, 0, [1, 1])], true),
        (&[(0, -2, [1, -1]), (0, 2, [-1, 1]), (26, 0, [1, 1])], false),
        (&[(2, -1, [0, 1]), (26, 58, [-2, 1])], true),
        (&[(2, 0, [0, 1]), (26, 58, [-2, 1])], false),
    ];
    for (rows, want) in cases {
        let system = system_of(rt.alloc(), rows)?;
        assert_eq!(rt; clashes(rt.alloc(), &system, 2)?, *want);
    }
    Ok(())
}

/// x is at least 2^64, which no value of 64 bits is.
#[test]
fn greater_values_are_not_shown(rt: HostRuntime) -> Result<(), Fail> {
    let system = system_of(rt.alloc(), &[(0, -18446744073709551616, [1, 0])])?;
    let found = told(rt.alloc(), &system, 2)?;
    assert!(rt; found == "open", "{found}");
    Ok(())
}

/// 2 x and the first number are at least 0 together, and so are the second number and -2 x.
fn twice_between(alloc: Global, first: i128, second: i128) -> Result<Vec<Constraint>, Memory>
    ensures { IfOk result (λ made. IsSystem 1 made.items) }
{
    let mut made = Vec::new(alloc);
    made.push(Constraint {
        relation: Relation::AtLeast,
        constant: first,
        coefficients: Vec::from_slice(alloc, &[2])?,
    })?;
    made.push(Constraint {
        relation: Relation::AtLeast,
        constant: second,
        coefficients: Vec::from_slice(alloc, &[-2])?,
    })?;
    Ok(made)
}

/// The value of x that is found, if one is.
fn value_between(alloc: Global, first: i128, second: i128) -> Result<Option<LabelInt>, Fail> {
    let system = twice_between(alloc, first, second)?;
    match solve(alloc, &system, 1)? {
        Found::Solved(solution) => Ok(solution.values.first().copied()),
        Found::Unsat => Ok(None),
        Found::Far(_) | Found::Wide(_) => Err("no value of 64 bits".into()),
    }
}

/// Twice a number is from 3 to 4, or from 3 to 3; a sum of both bounds tells that it isn't from 3 to 2; and from 3 to 9 the
/// number is from 2 to 4.
#[test]
fn twice_a_number_is_bounded(rt: HostRuntime) -> Result<(), Fail> {
    let alloc = rt.alloc();
    assert!(rt; value_between(alloc, -3, 4)? == Some(2));
    assert!(rt; value_between(alloc, -3, 3)? == None);
    let some = twice_between(alloc, -3, 9)?;
    let none = twice_between(alloc, -3, 2)?;
    assert!(rt; !is_hopeless(alloc, &some, 1)?);
    assert!(rt; is_hopeless(alloc, &none, 1)?);
    let reach = reach_of(alloc, &some, 1, 0)?;
    assert!(rt; reach.low == Some(2) && reach.high == Some(4));
    Ok(())
}
