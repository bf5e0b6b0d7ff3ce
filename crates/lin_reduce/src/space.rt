//! Values of many inequalities at once, or how often to take each so that their sum shows that there are none.
//!
//! Rational values with half of each inequality's size to spare are rounded. Else one variable after the other is given a whole
//! number about its value, first those that are nearest to one, and another where none is left for the others. A variable that is
//! far from whole numbers is one to cut.

use crate::cut::Cut;
use crate::line::Stop;
use crate::program::{Near, Program};
use crate::rows::Rows;
use fast_fault::Memory;
use std::alloc::Global;

/// What is found of inequalities. Nothing is promised of it.
#[derive(Drop)]
pub(crate) enum Space {
    /// No values, where each condition is taken so many times.
    Empty(Vec<i128>),
    Values(Vec<i128>),
    /// Rational values with little room about them.
    Thin(Thin),
    Open,
}

/// Inequalities and their program.
#[derive(Drop)]
pub(crate) struct Thin {
    part: Part,
    program: Program,
}

// Inequalities in which some variables have values.
#[derive(Drop)]
struct Part {
    rows: Rows,
    given: Vec<Option<i128>>,
}

impl Part {
    // The values given, and for the others the nearest to those of the program.
    fn rounded(&self, alloc: Global, program: &Program) -> Result<Vec<i128>, Stop> {
        let mut out = Vec::new(alloc);
        for variable in 0..self.given.len() {
            let value = match self.given[variable] {
                Some(value) => value,
                None => program.near(variable).value,
            };
            out.push(value)?;
        }
        Ok(out)
    }

    // The variable with no value whose value is nearest to a whole number.
    fn nearest(&self, program: &Program) -> Option<(usize, Near)> {
        let mut best: Option<(usize, Near)> = None;
        for variable in 0..self.given.len() {
            if self.given[variable].is_none() {
                let near = program.near(variable);
                let is_first = match best {
                    None => true,
                    Some((_, other)) => near.off < other.off,
                };
                if is_first {
                    best = Some((variable, near));
                }
            }
        }
        best
    }

    // The part where the variable has the value.
    fn put(&self, alloc: Global, variable: usize, value: i128) -> Result<Part, Stop> {
        let rows = self.rows.put(alloc, variable, value)?;
        let mut given = Vec::from_slice(alloc, &self.given)?;
        if variable < given.len() {
            given[variable] = Some(value);
        }
        Ok(Part { rows, given })
    }

    // The parts where a variable has the one and the other number about its value, the nearer at the end.
    fn push_sides(
        &self,
        alloc: Global,
        program: &Program,
        pending: &mut Vec<Part>,
    ) -> Result<(), Stop> {
        if let Some((variable, near)) = self.nearest(program) {
            pending.push(self.put(alloc, variable, near.other)?)?;
            pending.push(self.put(alloc, variable, near.value)?)?;
        }
        Ok(())
    }
}

// The program of the rows, unless a number is too wide.
fn solved(alloc: Global, rows: &Rows) -> Result<Option<Program>, Stop> {
    match Program::solved(alloc, rows) {
        Ok(program) => Ok(Some(program)),
        Err(Stop::TooWide) => Ok(None),
        Err(Stop::Memory) => Err(Stop::Memory),
    }
}

// Whole values, found by giving variables values in turn, with so many programs.
fn whole(alloc: Global, thin: Thin, most: usize) -> Result<Option<Vec<i128>>, Stop> {
    let mut known = Some(thin.program);
    let mut pending = Vec::new(alloc);
    pending.push(thin.part)?;
    for _ in 0..most {
        let Some(part) = pending.pop() else {
            return Ok(None);
        };
        let next = match known.take() {
            Some(program) => Some(program),
            None => solved(alloc, &part.rows)?,
        };
        if let Some(own) = next {
            if !own.is_empty() {
                let values = part.rounded(alloc, &own)?;
                if part.rows.hold_at(&values) {
                    return Ok(Some(values));
                }
                part.push_sides(alloc, &own, &mut pending)?;
            }
        }
    }
    Ok(None)
}

impl Space {
    /// Whole values of the variables, if some are found with so many programs.
    pub(crate) fn whole(self, alloc: Global, most: usize) -> Result<Option<Vec<i128>>, Memory> {
        match self {
            Space::Values(values) => Ok(Some(values)),
            Space::Thin(thin) => match whole(alloc, thin, most) {
                Ok(found) => Ok(found),
                Err(Stop::TooWide) => Ok(None),
                Err(Stop::Memory) => Err(Memory),
            },
            Space::Empty(_) | Space::Open => Ok(None),
        }
    }
}

fn run(alloc: Global, rows: Rows, many: usize) -> Result<Space, Stop> {
    let program = Program::solved(alloc, &rows)?;
    if program.is_empty() {
        return Ok(Space::Empty(program.times(alloc, &rows, many)?));
    }
    let given = vec![in alloc; None; rows.count]?;
    let part = Part { rows, given };
    let values = part.rounded(alloc, &program)?;
    if part.rows.hold_at(&values) {
        return Ok(Space::Values(values));
    }
    if program.is_flat() {
        return Ok(Space::Open);
    }
    Ok(Space::Thin(Thin { part, program }))
}

/// What is found of rows that are those of so many conditions.
pub(crate) fn space_of(
    alloc: Global,
    rows: Result<Rows, Stop>,
    many: usize,
) -> Result<Space, Memory> {
    let found = match rows {
        Ok(rows) => run(alloc, rows, many),
        Err(stop) => Err(stop),
    };
    match found {
        Ok(space) => Ok(space),
        Err(Stop::TooWide) => Ok(Space::Open),
        Err(Stop::Memory) => Err(Memory),
    }
}

// The variable of the program that is furthest from whole numbers.
fn furthest(program: &Program, count: usize) -> Option<Cut> {
    let mut best = None;
    let mut off = 0;
    for of in 0..count {
        let near = program.near(of);
        if near.off > off {
            off = near.off;
            best = Some(Cut {
                of,
                most: near.value.min(near.other),
            });
        }
    }
    best
}

/// A variable of the rows that is between whole numbers where all are met as far as can be, if some is: where there is no room,
/// only if that is allowed.
pub(crate) fn cut_of(
    alloc: Global,
    rows: Result<Rows, Stop>,
    flat: bool,
) -> Result<Option<Cut>, Memory> {
    let found = match rows {
        Ok(rows) => solved(alloc, &rows),
        Err(stop) => Err(stop),
    };
    match found {
        Ok(Some(program)) => {
            if program.is_flat() && !flat {
                return Ok(None);
            }
            Ok(furthest(&program, program.count()))
        }
        Ok(None) | Err(Stop::TooWide) => Ok(None),
        Err(Stop::Memory) => Err(Memory),
    }
}
