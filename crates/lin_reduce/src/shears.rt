//! Systems in which one variable less so many times another stands for it.

ghost use Rattle.std.specs.Prelude.{ℤ, List, MatchResult, slice_set};
ghost use Rattle.math_cooper.specs.System.{Holds, Solves};
ghost use Rattle.lin_reduce.specs.Parts.{IsSheared};

use crate::line::{Stop, plus_times};
use crate::moves::Shear;
use crate::residues::times_for;
use cooper_solve::{Constraint, Relation};
use std::alloc::Global;

// The condition with a new variable.
fn sheared(condition: Constraint, shear: Shear) -> Result<Constraint, Stop>
    ensures { MatchResult result (λ r. (vs : List ℤ) (w : ℤ) → IsSheared shear vs w → Holds vs condition → Holds (slice_set vs shear.of w) r) (λ _. Unit {0}) }
{
    let mut coefficients = condition.coefficients;
    if shear.of >= coefficients.len() || shear.by >= coefficients.len() || shear.of == shear.by {
        return Err(Stop::TooWide);
    }
    let own = coefficients[shear.of];
    let other = coefficients[shear.by];
    coefficients[shear.by] = plus_times(other, own, shear.times)?;
    Ok(Constraint {
        relation: condition.relation,
        constant: condition.constant,
        coefficients,
    })
}

/// The system with a new variable.
pub(crate) fn sheared_each(
    alloc: Global,
    system: Vec<Constraint>,
    shear: Shear,
) -> Result<Vec<Constraint>, Stop>
    ensures { MatchResult result (λ r. (vs : List ℤ) (w : ℤ) → IsSheared shear vs w → Solves vs system.items → Solves (slice_set vs shear.of w) r.items) (λ _. Unit {0}) }
{
    let mut out = Vec::new(alloc);
    for condition in system {
        out.push(sheared(condition, shear)?)?;
    }
    Ok(out)
}

// Whether a coefficient matters where a sum is 0, or a multiple of the divisor.
fn is_open(coefficient: i128, divisor: i128) -> bool {
    if divisor == 0 {
        coefficient != 0
    } else {
        times_for(coefficient, divisor) > 1
    }
}

fn divisor_of(condition: &Constraint) -> i128 {
    match condition.relation {
        Relation::AtLeast => 0,
        Relation::Divided(divisor) => divisor,
    }
}

// The variable whose coefficient matters and is the least.
fn least_open(row: &[i128], divisor: i128) -> Option<usize> {
    let mut best = None;
    let mut size = u128::MAX;
    for (of, coefficient) in row.iter().enumerate() {
        let own = coefficient.unsigned_abs();
        if own < size && is_open(*coefficient, divisor) {
            size = own;
            best = Some(of);
        }
    }
    best
}

/// How many variables matter in a condition that a sum is 0, or a multiple.
pub(crate) fn count_open(condition: &Constraint) -> usize {
    let divisor = divisor_of(condition);
    let mut many: usize = 0;
    for coefficient in &condition.coefficients {
        if is_open(*coefficient, divisor) {
            many = many.saturating_add(1);
        }
    }
    many
}

/// The change after which another coefficient is less, by Euclid's step; none where one variable matters at most.
pub(crate) fn shear_for(condition: &Constraint) -> Option<Shear> {
    let divisor = divisor_of(condition);
    let row = condition.coefficients.as_slice();
    let of = least_open(row, divisor)?;
    let own = row.get(of).copied()?;
    for (by, coefficient) in row.iter().enumerate() {
        if by != of && is_open(*coefficient, divisor) {
            let times = coefficient.checked_div(own)?.checked_neg()?;
            return Some(Shear { of, by, times });
        }
    }
    None
}
