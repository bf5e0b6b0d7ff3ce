//! The table of a linear program in whole numbers.
//!
//! All its cells have one denominator, the last pivot, and are minors of the table that it began as: so each new cell is
//! divided by the denominator before with no rest (Bareiss' elimination, and Edmonds' whole pivots).

use crate::exact::Divisor;
use crate::line::Stop;
use crate::rows::Rows;
use std::alloc::Global;

// No cell may be greater: long before, products of two need not be those of the cells.
const WIDEST: u128 = 1 << 100;

/// So many times what stands at a row is the sum of its cells times what stands at their columns, and of its last cell.
///
/// With n variables `n` is the least of all rows in proportion to their sizes, which is at most 1, as the first row says; what
/// comes behind is how far each row is above it.
#[derive(Drop)]
pub(crate) struct Tableau {
    cells: Vec<i128>,
    width: usize,
    scale: i128,
    /// What stands at each row.
    pub(crate) base: Vec<usize>,
    /// What stands at each column.
    pub(crate) free: Vec<usize>,
    own: Vec<i128>,
}

// What is done to each row but that of the pivot.
#[derive(Clone, Copy)]
struct Step {
    pivot: i128,
    turned: bool,
    column: usize,
    divisor: Divisor,
}

// The size of a row: by how much its value may differ where each variable does by 1.
fn size_of(row: &[i128]) -> i128 {
    let mut sum: i128 = 0;
    for number in row {
        sum = sum.saturating_add(number.saturating_abs());
    }
    sum.max(1)
}

fn turned_if(turned: bool, number: i128) -> i128 {
    if turned {
        number.wrapping_neg()
    } else {
        number
    }
}

impl Step {
    // The row where what stands at the pivot's row is put for what stands at its column. The greatest cell without its sign.
    fn put(self, row: &mut [i128], own: &[i128]) -> u128 {
        let lead = row.get(self.column).copied().unwrap_or(0);
        let factor = turned_if(self.turned, lead);
        let mut widest = 0;
        for i in 0..row.len() {
            if i < own.len() {
                let kept = self.pivot.wrapping_mul(row[i]);
                let cell = self
                    .divisor
                    .quotient(kept.wrapping_sub(factor.wrapping_mul(own[i])));
                widest = widest.max(cell.unsigned_abs());
                row[i] = cell;
            }
        }
        if self.column < row.len() {
            row[self.column] = factor;
        }
        widest
    }

    // The row of the pivot, solved for what stood at its column.
    fn solve(self, row: &mut [i128], scale: i128) {
        for i in 0..row.len() {
            row[i] = turned_if(!self.turned, row[i]);
        }
        if self.column < row.len() {
            row[self.column] = turned_if(self.turned, scale);
        }
    }
}

impl Tableau {
    // The row that says that the least isn't above 1, alone.
    fn bounded(alloc: Global, count: usize) -> Result<Tableau, Stop> {
        let mut cells = vec![in alloc; 0; count]?;
        cells.push(-1)?;
        cells.push(1)?;
        let mut free = Vec::new(alloc);
        for variable in 0..count {
            free.push(variable)?;
        }
        free.push(count)?;
        let mut base = Vec::new(alloc);
        base.push(count.saturating_add(1))?;
        Ok(Tableau {
            width: cells.len(),
            cells,
            scale: 1,
            base,
            free,
            own: Vec::new(alloc),
        })
    }

    /// The table of these rows.
    pub(crate) fn of(alloc: Global, rows: &Rows) -> Result<Tableau, Stop> {
        let mut out = Tableau::bounded(alloc, rows.count)?;
        for place in 0..rows.len() {
            let own = rows.coefficients(place);
            out.cells.extend_from_slice(own)?;
            out.cells.push(size_of(own).wrapping_neg())?;
            out.cells.push(rows.constant(place))?;
            out.base
                .push(rows.count.saturating_add(2).saturating_add(place))?;
        }
        Ok(out)
    }

    /// How many rows there are.
    pub(crate) fn height(&self) -> usize {
        self.base.len()
    }

    /// The common denominator.
    pub(crate) fn scale(&self) -> i128 {
        self.scale
    }

    /// The cell at a row and a column.
    pub(crate) fn at(&self, place: usize, column: usize) -> i128 {
        let at = place.saturating_mul(self.width).saturating_add(column);
        self.cells.get(at).copied().unwrap_or(0)
    }

    /// The last cell of a row.
    pub(crate) fn last(&self, place: usize) -> i128 {
        self.at(place, self.width.saturating_sub(1))
    }

    // Goes through the rows but that of the pivot. The greatest cell without its sign.
    fn put_each(&mut self, place: usize, step: Step) -> u128 {
        let mut widest = 0;
        let mut start: usize = 0;
        for other in 0..self.base.len() {
            let end = start.saturating_add(self.width);
            if start <= end && end <= self.cells.len() {
                let row = &mut self.cells[start..end];
                if other == place {
                    step.solve(row, self.scale);
                } else {
                    widest = widest.max(step.put(row, &self.own));
                }
            }
            start = end;
        }
        widest
    }

    // The row, for the steps on the others.
    fn take(&mut self, place: usize) -> Result<(), Stop> {
        let start = place.saturating_mul(self.width);
        let end = start.saturating_add(self.width);
        self.own.clear();
        if start <= end && end <= self.cells.len() {
            self.own.extend_from_slice(&self.cells[start..end])?;
        }
        Ok(())
    }

    // Changes what stands at the row and at the column.
    fn exchange(&mut self, place: usize, column: usize) {
        if place < self.base.len() && column < self.free.len() {
            let before = self.base[place];
            self.base[place] = self.free[column];
            self.free[column] = before;
        }
    }

    /// Solves a row for what stands at the column, and puts that in the others.
    pub(crate) fn pivot(&mut self, place: usize, column: usize) -> Result<(), Stop> {
        let pivot = self.at(place, column);
        if pivot == 0 || place >= self.base.len() || column >= self.free.len() {
            return Err(Stop::TooWide);
        }
        self.take(place)?;
        let step = Step {
            pivot: pivot.wrapping_abs(),
            turned: pivot < 0,
            column,
            divisor: Divisor::of(self.scale),
        };
        if self.put_each(place, step) > WIDEST {
            return Err(Stop::TooWide);
        }
        self.exchange(place, column);
        self.scale = step.pivot;
        Ok(())
    }
}
