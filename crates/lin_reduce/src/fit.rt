//! Values at which inequalities hold, found by moving one variable of each that doesn't.

use crate::line::{Kind, Line, Stop, plus_times};
use std::alloc::Global;

// How often the lines are gone through.
const TURNS: usize = 64;

/// The sum of a constant and of coefficients times values.
pub(crate) fn plain_sum(
    constant: i128,
    coefficients: &[i128],
    values: &[i128],
) -> Result<i128, Stop> {
    let mut sum = constant;
    for i in 0..coefficients.len() {
        let own = values.get(i).copied().unwrap_or(0);
        sum = plus_times(sum, coefficients[i], own)?;
    }
    Ok(sum)
}

/// The value of the line.
pub(crate) fn value_of(line: &Line, values: &[i128]) -> Result<i128, Stop> {
    plain_sum(line.constant, &line.coefficients, values)
}

// The next variable of the line behind a place, or the first one.
fn variable_behind(line: &Line, place: usize) -> Option<usize> {
    for i in place..line.coefficients.len() {
        if line.coefficients[i] != 0 {
            return Some(i);
        }
    }
    for i in 0..line.coefficients.len() {
        if line.coefficients[i] != 0 {
            return Some(i);
        }
    }
    None
}

// The least number, away from nought, that makes so many times it at least what is missing.
fn step_for(missing: i128, coefficient: i128) -> Option<i128> {
    let quotient = missing.checked_div(coefficient)?;
    if quotient.checked_mul(coefficient)? >= missing {
        return Some(quotient);
    }
    if coefficient > 0 {
        quotient.checked_add(1)
    } else {
        quotient.checked_sub(1)
    }
}

// Moves a variable of the line so that it holds: whether one was to be moved.
fn repair(line: &Line, values: &mut Vec<i128>, turn: usize) -> Result<bool, Stop> {
    let value = value_of(line, values)?;
    if value >= 0 {
        return Ok(false);
    }
    let Some(variable) = variable_behind(line, turn) else {
        return Err(Stop::TooWide);
    };
    let Some(missing) = value.checked_neg() else {
        return Err(Stop::TooWide);
    };
    let Some(step) = step_for(missing, line.at(variable)) else {
        return Err(Stop::TooWide);
    };
    if variable < values.len() {
        values[variable] = plus_times(values[variable], 1, step)?;
    }
    Ok(true)
}

// Goes once through the lines: whether one was to be repaired.
fn repair_each(lines: &[Line], values: &mut Vec<i128>, turn: usize) -> Result<bool, Stop> {
    let mut any = false;
    for line in lines {
        if matches!(line.kind, Kind::AtLeast) {
            any = repair(line, values, turn)? || any;
        }
    }
    Ok(any)
}

/// Values of so many variables at which all lines that are at least 0 hold, if some are found.
pub(crate) fn fitted(
    alloc: Global,
    lines: &[Line],
    count: usize,
) -> Result<Option<Vec<i128>>, Stop> {
    let mut values = vec![in alloc; 0; count]?;
    for turn in 0..TURNS {
        if !repair_each(lines, &mut values, turn % 8)? {
            return Ok(Some(values));
        }
    }
    Ok(None)
}
