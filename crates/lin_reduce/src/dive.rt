//! Values at which inequalities hold, found by giving one variable after another a value that leaves values for the others.

use crate::line::Stop;
use crate::moves::Scale;
use crate::residues::{copy_each, scaled_each};
use cooper_solve::{Constraint, Reach, is_hopeless, reach_of};
use std::alloc::Global;

// How many values of a variable are tried.
const TRIES: usize = 6;

fn occurs(system: &[Constraint], variable: usize) -> bool {
    for condition in system {
        if condition.coefficients.get(variable).copied().unwrap_or(0) != 0 {
            return true;
        }
    }
    false
}

// The number within the reach that is next to nought, and which way to go on from there.
fn first_value(reach: Reach) -> (i128, bool) {
    if let Some(low) = reach.low {
        if low > 0 {
            return (low, false);
        }
    }
    match reach.high {
        Some(high) => { if high <= 0 { (high, true) } else { (0, false) } }
        None => (0, false),
    }
}

// The system in which the variable has a value that leaves values for the others, and the value.
fn given(
    alloc: Global,
    system: &[Constraint],
    count: usize,
    of: usize,
) -> Result<Option<(Vec<Constraint>, i128)>, Stop> {
    let (mut value, turned) = first_value(reach_of(alloc, system, count, of)?);
    for _ in 0..TRIES {
        let scale = Scale {
            of,
            times: 0,
            rest: value,
        };
        let next = scaled_each(alloc, system, scale)?;
        if !is_hopeless(alloc, &next, count)? {
            return Ok(Some((next, value)));
        }
        value = if turned {
            value.saturating_sub(1)
        } else {
            value.saturating_add(1)
        };
    }
    Ok(None)
}

/// Values of so many variables at which the inequalities of the system hold, if some are found.
pub(crate) fn dived(
    alloc: Global,
    system: &[Constraint],
    count: usize,
) -> Result<Option<Vec<i128>>, Stop> {
    let mut own = copy_each(alloc, system)?;
    let mut values = Vec::new(alloc);
    for of in 0..count {
        if !occurs(&own, of) {
            values.push(0)?;
            continue;
        }
        match given(alloc, &own, count, of)? {
            None => return Ok(None),
            Some((next, value)) => {
                own = next;
                values.push(value)?;
            }
        }
    }
    Ok(Some(values))
}
