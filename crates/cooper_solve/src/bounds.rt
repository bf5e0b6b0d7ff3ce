//! The bounds of the last variable from which it is put.

ghost use Rattle.std.specs.Prelude.{◌≡◌, ◌+◌, ◌<◌, ◌↔◌, IfOk, IsTrue, length, slice_index_or, ℕ};
ghost use Rattle.std.specs.List.{All, Contains};
ghost use Rattle.math_cooper.specs.System.{HasWidth, Condition};
ghost use Rattle.cooper_solve.specs.Views.{IsBoundAt, AreBounds, AreBases, no_condition};

use crate::constraint::{Constraint, Direction, Relation};
use std::alloc::{AllocError, Global};

// Whether the condition bounds the last variable from below, or else from above.
fn is_bound(constraint: &Constraint, last: usize, low: bool) -> bool
    requires { HasWidth (last + 1) constraint.now }
    ensures { IsTrue result ↔ IsBoundAt low last constraint.now }
{
    match constraint.relation {
        Relation::AtLeast => {
            let lead = constraint.lead(last);
            if low { lead == 1 } else { lead == -1 }
        }
        Relation::Divided(_) => false,
    }
}

fn is_same_relation(one: Relation, other: Relation) -> bool
    ensures { IsTrue result → one ≡ other }
{
    match (one, other) {
        (Relation::AtLeast, Relation::AtLeast) => true,
        (Relation::Divided(m), Relation::Divided(n)) => m == n,
        _ => false,
    }
}

fn is_same_row(one: &[i128], other: &[i128]) -> bool
    ensures { IsTrue result → one.now ≡ other.now }
{
    one == other
}

fn is_same(one: &Constraint, other: &Constraint) -> bool
    ensures { IsTrue result → one.now ≡ other.now }
{
    if !is_same_relation(one.relation, other.relation) {
        return false;
    }
    if one.constant != other.constant {
        return false;
    }
    is_same_row(&one.coefficients, &other.coefficients)
}

// Whether an equal condition is among those with these numbers.
fn is_listed(system: &[Constraint], bounds: &[usize], constraint: &Constraint) -> bool
    requires { All (λ k. k < length system.now) bounds.now }
    ensures { IsTrue result → (k : ℕ) × Contains bounds.now k × (slice_index_or system.now k no_condition ≡ constraint.now) }
{
    for bound in bounds {
        if is_same(&system[*bound], constraint) {
            return true;
        }
    }
    false
}

// The number of one more condition, if it is a bound and no equal one is listed.
fn list_bound(
    system: &[Constraint],
    last: usize,
    low: bool,
    number: usize,
    bounds: &mut Vec<usize>,
) -> Result<(), AllocError>
    requires wide { All (HasWidth (last + 1)) system.now }
    requires within { number < length system.now }
    requires before { AreBounds low last system.now number bounds.old.items }
    ensures { IfOk result (λ _. AreBounds low last system.now (number + 1) bounds.new.items) }
{
    let constraint = &system[number];
    if !is_bound(constraint, last, low) {
        return Ok(());
    }
    if is_listed(system, bounds, constraint) {
        return Ok(());
    }
    bounds.push(number)?;
    Ok(())
}

fn bounds(
    alloc: Global,
    system: &[Constraint],
    last: usize,
    low: bool,
) -> Result<Vec<usize>, AllocError>
    requires { All (HasWidth (last + 1)) system.now }
    ensures { IfOk result (λ r. AreBounds low last system.now (length system.now) r.items) }
{
    let mut out = Vec::new(alloc);
    for number in 0..system.len() {
        list_bound(system, last, low, number, &mut out)?;
    }
    Ok(out)
}

/// From which conditions the last variable is put, and in which direction. Where there is no bound, the one number is
/// the count of conditions.
#[derive(Drop)]
pub(crate) struct Bases {
    pub(crate) direction: Direction,
    pub(crate) bounds: Vec<usize>,
}

/// The lower bounds, else the upper ones, else none; of equal ones the first.
pub(crate) fn find_bases(
    alloc: Global,
    system: &[Constraint],
    last: usize,
) -> Result<Bases, AllocError>
    requires { All (HasWidth (last + 1)) system.now }
    ensures { IfOk result (λ b. AreBases last system.now b.direction b.bounds.items) }
{
    let lows = bounds(alloc, system, last, true)?;
    if lows.len() != 0 {
        return Ok(Bases {
            direction: Direction::Low,
            bounds: lows,
        });
    }
    let highs = bounds(alloc, system, last, false)?;
    if highs.len() != 0 {
        return Ok(Bases {
            direction: Direction::High,
            bounds: highs,
        });
    }
    let mut bounds = Vec::new(alloc);
    bounds.push(system.len())?;
    Ok(Bases {
        direction: Direction::Free,
        bounds,
    })
}
