//! Systems of which a variable is split by its remainders: it is so many times a new variable and a rest, and each rest is
//! looked at by itself. So conditions that a sum is a multiple are settled, and inequalities are rounded.

ghost use Rattle.std.specs.Prelude.{◌≡◌, ◌+ℤ◌, ◌*ℤ◌, ◌<◌, pos, ℤ, MatchResult, length, List, slice_index_or, slice_set};
ghost use Rattle.math_cooper.specs.System.{Holds, Solves};
ghost use Rattle.lin_reduce.specs.Parts.{IsPart};

use crate::line::{Stop, plus_times};
use crate::moves::Scale;
use cooper_solve::{Constraint, Relation};
use std::alloc::Global;
use wide_num::{gcd, mul};

// By how many remainders a variable is split at most: where one condition is settled by it, all of them but one are lost at
// once.
const MOST: i128 = 64;

const MOST_ALONE: i128 = 5000;

/// The variable that is split, by how many remainders, and the place of the condition for which it is, which may have no other
/// one that is to be split.
#[derive(Clone, Copy)]
pub(crate) struct Split {
    pub(crate) of: usize,
    pub(crate) times: i128,
    pub(crate) place: usize,
    pub(crate) alone: bool,
}

/// The condition with a new variable.
pub(crate) fn scaled(
    alloc: Global,
    condition: &Constraint,
    scale: Scale,
) -> Result<Constraint, Stop>
    ensures { MatchResult result (λ r. (vs : List ℤ) (w : ℤ) → IsPart scale vs w → Holds vs condition.now → Holds (slice_set vs scale.of w) r) (λ _. Unit {0}) }
{
    let mut coefficients = Vec::from_slice(alloc, &condition.coefficients)?;
    if scale.of >= coefficients.len() {
        return Err(Stop::TooWide);
    }
    let own = coefficients[scale.of];
    let constant = plus_times(condition.constant, own, scale.rest)?;
    let Some(product) = mul(own, scale.times) else {
        return Err(Stop::TooWide);
    };
    coefficients[scale.of] = product;
    Ok(Constraint {
        relation: condition.relation,
        constant,
        coefficients,
    })
}

/// The same system again.
pub(crate) fn copy_each(alloc: Global, system: &[Constraint]) -> Result<Vec<Constraint>, Stop>
    ensures { MatchResult result (λ r. r.items ≡ system.now) (λ _. Unit {0}) }
{
    let mut out = Vec::new(alloc);
    for condition in system {
        out.push(Constraint {
            relation: condition.relation,
            constant: condition.constant,
            coefficients: Vec::from_slice(alloc, &condition.coefficients)?,
        })?;
    }
    Ok(out)
}

/// The system with a new variable.
pub(crate) fn scaled_each(
    alloc: Global,
    system: &[Constraint],
    scale: Scale,
) -> Result<Vec<Constraint>, Stop>
    ensures { MatchResult result (λ r. (vs : List ℤ) (w : ℤ) → IsPart scale vs w → Solves vs system.now → Solves (slice_set vs scale.of w) r.items) (λ _. Unit {0}) }
{
    let mut out = Vec::new(alloc);
    for condition in system {
        out.push(scaled(alloc, condition, scale)?)?;
    }
    Ok(out)
}

/// By how many remainders a variable with this coefficient is to be split.
pub(crate) fn times_for(coefficient: i128, divisor: i128) -> i128 {
    match coefficient {
        0 => return 1,
        1 | -1 => return divisor,
        _ => {}
    }
    let common = gcd(coefficient, divisor).unwrap_or(1);
    divisor.checked_div(common).unwrap_or(1)
}

// The first variable of the row that is to be split, and how many are.
fn unsettled(row: &[i128], divisor: i128, place: usize) -> Option<(Split, usize)> {
    let mut first = None;
    let mut many: usize = 0;
    for (of, coefficient) in row.iter().enumerate() {
        let times = times_for(*coefficient, divisor);
        if times > 1 {
            many = many.saturating_add(1);
            if first.is_none() {
                first = Some((of, times));
            }
        }
    }
    let (of, times) = first?;
    let alone = many == 1;
    Some((
        Split {
            of,
            times,
            place,
            alone,
        },
        many,
    ))
}

// Whether the split has fewer others beside it, or as few and fewer remainders.
fn is_better(split: Split, many: usize, best: Option<Split>, fewest: usize) -> bool {
    match best {
        None => true,
        Some(other) => many < fewest || (many == fewest && split.times < other.times),
    }
}

/// A variable of a condition that is not settled, of which as few others as may be are to be split.
pub(crate) fn split_of(system: &[Constraint]) -> Option<Split> {
    let mut best: Option<Split> = None;
    let mut fewest = usize::MAX;
    for (place, condition) in system.iter().enumerate() {
        if let Relation::Divided(divisor) = condition.relation {
            if let Some((split, many)) = unsettled(&condition.coefficients, divisor, place) {
                let most = if split.alone { MOST_ALONE } else { MOST };
                if split.times <= most && is_better(split, many, best, fewest) {
                    best = Some(split);
                    fewest = many;
                }
            }
        }
    }
    best
}
