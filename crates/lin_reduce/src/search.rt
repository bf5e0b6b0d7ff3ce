//! The search.

use crate::class::{Class, class_of, only};
use crate::fit::{fitted, value_of};
use crate::line::{Kind, Line, Stop, lines_of};
use crate::moves::{Shear, release, scale_all, shear_all};
use crate::pairs::paired;
use crate::rows::Rows;
use crate::space::space_of;
use cooper_solve::Constraint;
use fast_fault::{LabelInt, Memory};
use std::alloc::Global;

// How many lines are solved, and how many steps one takes.
const ROUNDS: usize = 400;

const TURNS: usize = 300;

// How many linear programs are solved.
const MOST_TRIED: usize = 60;

// The place of a line that says of its value that it is a multiple.
fn first_multiple(lines: &[Line]) -> Option<usize> {
    let mut fallback = None;
    for i in 0..lines.len() {
        if let Kind::Multiple(m) = lines[i].kind {
            if m == 0 {
                return Some(i);
            }
            if fallback.is_none() {
                fallback = Some(i);
            }
        }
    }
    fallback
}

// The variable with the least coefficient but 0.
fn least(line: &Line) -> Option<usize> {
    let mut best = None;
    let mut size = u128::MAX;
    for i in 0..line.coefficients.len() {
        let own = line.coefficients[i].unsigned_abs();
        if own != 0 && own < size {
            size = own;
            best = Some(i);
        }
    }
    best
}

// The change after which another coefficient is less.
fn shear_for(line: &Line) -> Option<Shear> {
    let of = least(line)?;
    for by in 0..line.coefficients.len() {
        if by != of && line.at(by) != 0 {
            let times = line.at(by).checked_div(line.at(of))?.checked_neg()?;
            return Some(Shear { of, by, times });
        }
    }
    None
}

// The lines where a line has one variable at most.
fn narrowed(alloc: Global, given: Vec<Line>, place: usize) -> Result<Vec<Line>, Stop> {
    let mut lines = given;
    for _ in 0..TURNS {
        if place >= lines.len() {
            return Err(Stop::TooWide);
        }
        match shear_for(&lines[place]) {
            None => return Ok(lines),
            Some(shear) => lines = shear_all(alloc, lines, shear)?,
        }
    }
    Err(Stop::TooWide)
}

// The lines after one that is a multiple, with one variable at most, is solved. None where it never holds.
fn solved(alloc: Global, lines: &[Line], place: usize) -> Result<Option<Vec<Line>>, Stop> {
    if place >= lines.len() {
        return Err(Stop::TooWide);
    }
    let Some(of) = only(&lines[place]) else {
        return Ok(Some(release(alloc, lines, place)?));
    };
    match class_of(&lines[place], of) {
        Class::Never => Ok(None),
        Class::Open => Err(Stop::TooWide),
        Class::Is(scale) => {
            let scaled = scale_all(alloc, lines, scale)?;
            Ok(Some(release(alloc, &scaled, place)?))
        }
    }
}

// Inequalities alone: each line that is a multiple is solved.
fn solve_each(alloc: Global, given: Vec<Line>) -> Result<Option<Vec<Line>>, Stop> {
    let mut lines = given;
    for _ in 0..ROUNDS {
        let pairs = paired(alloc, &lines)?;
        let Some(place) = first_multiple(&pairs) else {
            return Ok(Some(pairs));
        };
        let narrow = narrowed(alloc, pairs, place)?;
        match solved(alloc, &narrow, place)? {
            None => return Ok(None),
            Some(more) => lines = more,
        }
    }
    Ok(None)
}

// The values of the first eight lines.
fn shown(alloc: Global, lines: &[Line], values: &[i128]) -> Result<Vec<LabelInt>, Stop> {
    let mut out = Vec::new(alloc);
    for i in 0..8 {
        if i < lines.len() {
            match LabelInt::try_from(value_of(&lines[i], values)?) {
                Ok(value) => out.push(value)?,
                Err(_) => return Err(Stop::TooWide),
            }
        }
    }
    Ok(out)
}

// How many lines are solved, of which nothing is said any more.
fn released(lines: &[Line]) -> usize {
    let mut many: usize = 0;
    for line in lines {
        if matches!(line.kind, Kind::Free) {
            many = many.saturating_add(1);
        }
    }
    many
}

// Values of the variables, found by linear programs, where some lines beside the first eight are solved: else they were tried.
fn spacious(alloc: Global, lines: &[Line], count: usize) -> Result<Option<Vec<i128>>, Stop> {
    if released(lines) <= 8 {
        return Ok(None);
    }
    let space = space_of(alloc, Rows::of_lines(alloc, lines, count), 0)?;
    Ok(space.whole(alloc, MOST_TRIED)?)
}

fn run(
    alloc: Global,
    parts: &[Line],
    system: &[Constraint],
    count: usize,
) -> Result<Option<Vec<LabelInt>>, Stop> {
    let lines = lines_of(alloc, parts, system)?;
    let Some(solved) = solve_each(alloc, lines)? else {
        return Ok(None);
    };
    let found = match fitted(alloc, &solved, count)? {
        Some(values) => Some(values),
        None => spacious(alloc, &solved, count)?,
    };
    match found {
        Some(values) => Ok(Some(shown(alloc, &solved, &values)?)),
        None => Ok(None),
    }
}

/// The values of eight lines where so many variables may meet the system, if some are found.
pub(crate) fn sketch(
    alloc: Global,
    parts: &[Line],
    system: &[Constraint],
    count: usize,
) -> Result<Option<Vec<LabelInt>>, Memory> {
    match run(alloc, parts, system, count) {
        Ok(found) => Ok(found),
        Err(Stop::TooWide) => Ok(None),
        Err(Stop::Memory) => Err(Memory),
    }
}
