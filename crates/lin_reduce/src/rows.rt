//! Inequalities as the rows of one table.

use crate::fit::plain_sum;
use crate::line::{Kind, Line, Stop, plus_times};
use cooper_solve::{Constraint, Relation};
use std::alloc::Global;

// How many inequalities and variables a table may have.
const MOST: usize = 96;

const MOST_VARIABLES: usize = 24;

/// Rows of coefficients, and of a constant at the end of each: their sum is at least 0.
#[derive(Drop)]
pub(crate) struct Rows {
    pub(crate) count: usize,
    cells: Vec<i128>,
    /// Where the conditions of the rows stand.
    pub(crate) places: Vec<usize>,
}

// Whether there is a number but 0.
fn any(row: &[i128]) -> bool {
    for number in row {
        if *number != 0 {
            return true;
        }
    }
    false
}

impl Rows {
    /// No rows of so many variables.
    pub(crate) fn new(alloc: Global, count: usize) -> Result<Rows, Stop> {
        if count > MOST_VARIABLES {
            return Err(Stop::TooWide);
        }
        Ok(Rows {
            count,
            cells: Vec::new(alloc),
            places: Vec::new(alloc),
        })
    }

    // A row at the end, unless it has no variable and holds.
    fn push(&mut self, place: usize, coefficients: &[i128], constant: i128) -> Result<(), Stop> {
        if coefficients.len() != self.count || self.places.len() >= MOST {
            return Err(Stop::TooWide);
        }
        if constant < 0 || any(coefficients) {
            self.cells.extend_from_slice(coefficients)?;
            self.cells.push(constant)?;
            self.places.push(place)?;
        }
        Ok(())
    }

    /// The inequalities of a system.
    pub(crate) fn of_system(
        alloc: Global,
        system: &[Constraint],
        count: usize,
    ) -> Result<Rows, Stop> {
        let mut rows = Rows::new(alloc, count)?;
        for place in 0..system.len() {
            let condition = &system[place];
            if condition.relation == Relation::AtLeast {
                rows.push(place, &condition.coefficients, condition.constant)?;
            }
        }
        Ok(rows)
    }

    /// The inequalities among lines.
    pub(crate) fn of_lines(alloc: Global, lines: &[Line], count: usize) -> Result<Rows, Stop> {
        let mut rows = Rows::new(alloc, count)?;
        for place in 0..lines.len() {
            let line = &lines[place];
            if matches!(line.kind, Kind::AtLeast) {
                rows.push(place, &line.coefficients, line.constant)?;
            }
        }
        Ok(rows)
    }

    /// The rows where a variable has a value.
    pub(crate) fn put(&self, alloc: Global, variable: usize, value: i128) -> Result<Rows, Stop> {
        let mut rows = Rows::new(alloc, self.count)?;
        for place in 0..self.places.len() {
            let mut own = Vec::from_slice(alloc, self.coefficients(place))?;
            let mut constant = self.constant(place);
            if variable < own.len() {
                constant = plus_times(constant, own[variable], value)?;
                own[variable] = 0;
            }
            rows.push(self.places[place], &own, constant)?;
        }
        Ok(rows)
    }

    /// How many rows there are.
    pub(crate) fn len(&self) -> usize {
        self.places.len()
    }

    // Where a row begins.
    fn start(&self, place: usize) -> usize {
        place.saturating_mul(self.count.saturating_add(1))
    }

    /// The coefficients of a row.
    pub(crate) fn coefficients(&self, place: usize) -> &[i128] {
        let start = self.start(place);
        let end = start.saturating_add(self.count);
        self.cells.get(start..end).unwrap_or(&[])
    }

    /// The constant of a row.
    pub(crate) fn constant(&self, place: usize) -> i128 {
        let at = self.start(place).saturating_add(self.count);
        self.cells.get(at).copied().unwrap_or(0)
    }

    /// Whether all rows are at least 0 at the values.
    pub(crate) fn hold_at(&self, values: &[i128]) -> bool {
        for place in 0..self.len() {
            match plain_sum(self.constant(place), self.coefficients(place), values) {
                Ok(sum) if sum >= 0 => {}
                _ => return false,
            }
        }
        true
    }
}
