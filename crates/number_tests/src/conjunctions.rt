use fast_fault::Memory;
use label_core::{Lit, Verdict};
use lin_form::{Form, FormStop, Signed};
use lin_solve::{Compare, Memo, Relation, Width, decide};
use std::alloc::Global;
use std::test::Fail;

fn number(alloc: Global, value: i64) -> Result<Form, Memory> {
    Form::number(alloc, value as i128)
}

/// The field, or 0 where there is no such field.
fn field(alloc: Global, field: u32) -> Result<Form, Memory> {
    if field < 8 {
        return Form::field(alloc, field);
    }
    Form::number(alloc, 0)
}

/// The sum, or want of memory where there are too many parts.
fn of_parts(alloc: Global, parts: &[Signed]) -> Result<Form, FormStop> {
    if parts.len() > 1048576 {
        return Err(FormStop::Memory);
    }
    Form::of_sum(alloc, parts)
}

/// The form of a constant and of coefficients of fields.
fn linear(alloc: Global, constant: i64, terms: &[(i64, u32)]) -> Result<Form, FormStop> {
    let mut parts = Vec::new(alloc);
    let form = number(alloc, constant)?;
    parts.push(Signed { minus: false, form })?;
    for term in terms {
        let form = field(alloc, term.1)?.scaled(alloc, term.0 as i128)?;
        parts.push(Signed { minus: false, form })?;
    }
    of_parts(alloc, &parts)
}

fn push(
    literals: &mut Vec<Lit<Compare>>,
    left: Form,
    relation: Relation,
    right: Form,
    sign: bool,
) -> Result<(), Memory> {
    let atom = Compare {
        left,
        relation,
        right,
    };
    literals.push(Lit { atom, sign })?;
    Ok(())
}

/// What is decided, also where it was found before.
fn told(alloc: Global, literals: &[Lit<Compare>]) -> Result<&'static str, Memory> {
    let memo = Memo::new(alloc);
    let first = told_with(alloc, &memo, literals)?;
    if told_with(alloc, &memo, literals)? == first {
        Ok(first)
    } else {
        Ok("another answer")
    }
}

/// What is decided: values that satisfy the literals, that there are none, or the width that is passed.
fn told_with(
    alloc: Global,
    memo: &Memo,
    literals: &[Lit<Compare>],
) -> Result<&'static str, Memory> {
    match decide(alloc, memo, literals)? {
        Verdict::Sat(values) => {
            for literal in literals {
                if literal.atom.holds(&values) != literal.sign {
                    return Ok("values that don't satisfy a literal");
                }
            }
            Ok("values")
        }
        Verdict::Unsat => Ok("none"),
        Verdict::Wide(chain) => {
            if chain.literals.len() < literals.len() {
                return Ok("a chain of fewer literals");
            }
            if chain.width == Width::Solution {
                Ok("far")
            } else {
                Ok("wide")
            }
        }
    }
}

/// One literal of a table: both sides' constants and terms.
#[derive(Clone, Copy)]
struct Row<'a> {
    left: (i64, &'a [(i64, u32)]),
    relation: Relation,
    right: (i64, &'a [(i64, u32)]),
    sign: bool,
}

fn pair<'a>(
    constant: i64,
    terms: &'a [(i64, u32)],
    relation: Relation,
    other: i64,
    others: &'a [(i64, u32)],
) -> Row<'a> {
    Row {
        left: (constant, terms),
        relation,
        right: (other, others),
        sign: true,
    }
}

fn told_of(alloc: Global, rows: &[Row<'_>]) -> Result<&'static str, FormStop> {
    let mut literals = Vec::new(alloc);
    for row in rows {
        let left = linear(alloc, row.left.0, row.left.1)?;
        let right = linear(alloc, row.right.0, row.right.1)?;
        push(&mut literals, left, row.relation, right, row.sign)?;
    }
    Ok(told(alloc, &literals)?)
}

const MOST: i64 = 9223372036854775807;

/// Each answer, and that a literal that is given twice stands once in a chain. The answers were found by hand.
#[test]
fn decides_literals(rt: HostRuntime) -> Result<(), Fail> {
    use Relation::{AtMost, Equal, Less};
    let alloc = rt.alloc();
    let x: &[(i64, u32)] = &[(1, 0)];
    let cases: &[(&str, &[Row<'_>], &str)] = &[
        ("x > 2^63 - 1", &[pair(MOST, &[], Less, 0, x)], "far"),
        (
            "x > 2^63 - 1, twice",
            &[pair(MOST, &[], Less, 0, x), pair(MOST, &[], Less, 0, x)],
            "a chain of fewer literals",
        ),
        (
            "2x = 2y + 1",
            &[pair(0, &[(2, 0)], Equal, 1, &[(2, 1)])],
            "none",
        ),
        ("x >= 2^63 - 1", &[pair(MOST, &[], AtMost, 0, x)], "values"),
        (
            // x is a multiple of five primes near 2^31, so it is above 2^127
            "five products of primes, x > 0",
            &[
                pair(0, &[(2147483647, 0)], Equal, 0, &[(2147483629, 1)]),
                pair(0, &[(2147483587, 1)], Equal, 0, &[(2147483579, 2)]),
                pair(0, &[(2147483563, 2)], Equal, 0, &[(2147483549, 3)]),
                pair(0, &[(2147483543, 3)], Equal, 0, &[(2147483497, 4)]),
                pair(0, &[(2147483489, 4)], Equal, 0, &[(2147483477, 5)]),
                pair(0, &[], Less, 0, x),
            ],
            "wide",
        ),
    ];
    for (place, (_, rows, want)) in cases.iter().enumerate() {
        let Ok(found) = told_of(alloc, rows) else {
            panic!(rt; "case {place}: no form");
        };
        assert!(rt; found == *want, "case {place}");
    }
    Ok(())
}
