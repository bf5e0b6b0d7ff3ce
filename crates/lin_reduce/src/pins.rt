//! Variables that have one value, as a sum and its opposite are both at least 0.

ghost use Rattle.std.specs.Prelude.{◌≡◌, ◌<◌, pos, ℤ, List, MatchResult, IsTrue, IfSome, length, slice_index_or};
ghost use Rattle.math_cooper.specs.System.{Holds, Solves};
ghost use Rattle.lin_reduce.specs.Parts.{IsPart, IsWithin};

use crate::cut::{Bound, single};
use crate::line::{Stop, plus_times};
use crate::moves::Scale;
use crate::shears::count_open;
use cooper_solve::{Constraint, Relation};
use std::alloc::Global;
use wide_num::add;

// A variable, and the value at which so many times it, and a constant, are 0.
#[derive(Clone, Copy)]
struct Pin {
    of: usize,
    times: i128,
    constant: i128,
    value: i128,
}

fn same_rows(one: &[i128], two: &[i128]) -> bool
    ensures { IsTrue result → one.now ≡ two.now }
{
    one == two
}

// Whether the condition is the bound.
fn is_bound(alloc: Global, condition: &Constraint, bound: Bound, count: usize) -> Result<bool, Stop>
    ensures { MatchResult result (λ yes. IsTrue yes → (vs : List ℤ) → length vs ≡ count → Holds vs condition.now → IsWithin bound vs) (λ _. Unit {0}) }
{
    let Relation::AtLeast = condition.relation else {
        return Ok(false);
    };
    if condition.constant != bound.constant
        || condition.coefficients.get(bound.of).copied() != Some(bound.times)
    {
        return Ok(false);
    }
    let row = single(alloc, count, bound.of, bound.times)?;
    Ok(same_rows(&condition.coefficients, &row))
}

// Whether the two conditions are that the sum, and that its opposite, is at least 0.
fn is_pinned(
    alloc: Global,
    one: &Constraint,
    two: &Constraint,
    pin: Pin,
    count: usize,
) -> Result<bool, Stop>
    ensures { MatchResult result (λ yes. IsTrue yes → (vs : List ℤ) → length vs ≡ count → Holds vs one.now → Holds vs two.now → slice_index_or vs pin.of (pos 0) ≡ pin.value) (λ _. Unit {0}) }
{
    let (Some(times), Some(constant)) = (pin.times.checked_neg(), pin.constant.checked_neg()) else {
        return Ok(false);
    };
    if pin.times == 0 || plus_times(pin.constant, pin.times, pin.value)? != 0 {
        return Ok(false);
    }
    let low = Bound {
        of: pin.of,
        times: pin.times,
        constant: pin.constant,
    };
    let high = Bound {
        of: pin.of,
        times,
        constant,
    };
    Ok(is_bound(alloc, one, low, count)? && is_bound(alloc, two, high, count)?)
}

// The value of the only variable of a sum that is 0.
fn pin_of(condition: &Constraint) -> Option<Pin> {
    for (of, times) in condition.coefficients.iter().enumerate() {
        if *times != 0 {
            let value = condition.constant.checked_div(*times)?.checked_neg()?;
            return Some(Pin {
                of,
                times: *times,
                constant: condition.constant,
                value,
            });
        }
    }
    None
}

/// The variable of the condition at the place and its value, if it has one alone and another condition is the opposite.
pub(crate) fn pinned_at(
    alloc: Global,
    system: &[Constraint],
    place: usize,
    count: usize,
) -> Result<Option<Scale>, Stop>
    ensures { MatchResult result (λ found. IfSome found (λ s. (vs : List ℤ) → length vs ≡ count → Solves vs system.now → IsPart s vs (pos 0))) (λ _. Unit {0}) }
{
    if place >= system.len() {
        return Ok(None);
    }
    let Some(pin) = pin_of(&system[place]) else {
        return Ok(None);
    };
    if pin.of >= count {
        return Ok(None);
    }
    for i in 0..system.len() {
        if is_pinned(alloc, &system[place], &system[i], pin, count)? {
            return Ok(Some(Scale {
                of: pin.of,
                times: 0,
                rest: pin.value,
            }));
        }
    }
    Ok(None)
}

// Whether the one sum is the other with all signs turned, and both are at least 0.
fn are_opposite(one: &Constraint, two: &Constraint) -> bool {
    let (Relation::AtLeast, Relation::AtLeast) = (one.relation, two.relation) else {
        return false;
    };
    if add(one.constant, two.constant) != Some(0)
        || one.coefficients.len() != two.coefficients.len()
    {
        return false;
    }
    for i in 0..one.coefficients.len() {
        if add(one.coefficients[i], two.coefficients[i]) != Some(0) {
            return false;
        }
    }
    true
}

// Whether nothing is to be done for a sum that is 0: it has no variables, or one that has no whole value.
fn is_settled(condition: &Constraint) -> bool {
    match count_open(condition) {
        0 => true,
        1 => match pin_of(condition) {
            Some(pin) => pin.constant.checked_rem(pin.times) != Some(0),
            None => true,
        },
        _ => false,
    }
}

fn has_opposite(system: &[Constraint], condition: &Constraint) -> bool {
    if let Relation::Divided(_) = condition.relation {
        return false;
    }
    for other in system {
        if are_opposite(condition, other) {
            return true;
        }
    }
    false
}

/// The place of a sum that is at least 0 and whose opposite is too, if it isn't settled.
pub(crate) fn first_equation(system: &[Constraint]) -> Option<usize> {
    for place in 0..system.len() {
        let condition = &system[place];
        if has_opposite(system, condition) && !is_settled(condition) {
            return Some(place);
        }
    }
    None
}

/// The place of a condition on multiples in which several variables matter.
pub(crate) fn first_multiple(system: &[Constraint]) -> Option<usize> {
    for place in 0..system.len() {
        let condition = &system[place];
        if let Relation::Divided(_) = condition.relation {
            if count_open(condition) > 1 {
                return Some(place);
            }
        }
    }
    None
}
