//! Equations that two inequalities make.

use crate::line::{Kind, Line};
use std::alloc::{AllocError, Global};
use wide_num::add;

// Whether the numbers are opposite.
fn cancel(one: i128, two: i128) -> bool {
    match add(one, two) {
        Some(sum) => sum == 0,
        None => false,
    }
}

fn rows_cancel(one: &[i128], two: &[i128]) -> bool {
    if one.len() != two.len() {
        return false;
    }
    for i in 0..one.len() {
        if !cancel(one[i], two[i]) {
            return false;
        }
    }
    true
}

// Whether the one is the other with all signs turned.
fn are_opposite(one: &Line, two: &Line) -> bool {
    cancel(one.constant, two.constant) && rows_cancel(&one.coefficients, &two.coefficients)
}

fn is_at_least(line: &Line) -> bool {
    matches!(line.kind, Kind::AtLeast)
}

// Whether one of the lines is at least 0, and has its values with all signs turned.
fn has_opposite(lines: &[Line], line: &Line) -> bool {
    for other in lines {
        if is_at_least(other) && are_opposite(line, other) {
            return true;
        }
    }
    false
}

// The line, which is 0 where one of the lines is opposite.
fn paired_one(alloc: Global, lines: &[Line], line: &Line) -> Result<Line, AllocError> {
    if is_at_least(line) && has_opposite(lines, line) {
        return line.copy_as(alloc, Kind::Multiple(0));
    }
    line.copy_as(alloc, line.kind)
}

/// The lines, where two that are opposite and at least 0 make one that is 0.
pub(crate) fn paired(alloc: Global, lines: &[Line]) -> Result<Vec<Line>, AllocError> {
    let mut out = Vec::new(alloc);
    for line in lines {
        out.push(paired_one(alloc, lines, line)?)?;
    }
    Ok(out)
}
