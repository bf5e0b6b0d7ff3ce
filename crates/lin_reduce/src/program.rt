//! A linear program: how far inequalities can be met at once, in proportion to their sizes, by rational values.
//!
//! Dantzig's simplex method. Variables of either sign come in once and stay; the number of steps is bounded, so it ends. Where
//! the most that can be had is negative, the multipliers of the inequalities in it show that there are no values (Farkas'
//! lemma).

use crate::line::Stop;
use crate::rows::Rows;
use crate::tableau::Tableau;
use std::alloc::Global;

// How many steps are taken.
const MOST: usize = 200;

/// A table after its steps, the row of what is to be great, and how many variables there are.
#[derive(Drop)]
pub(crate) struct Program {
    tableau: Tableau,
    goal: usize,
    count: usize,
}

/// The whole numbers about a value: the nearest, the next one, and how far the nearest is, in parts that are the same for all
/// variables.
#[derive(Clone, Copy)]
pub(crate) struct Near {
    pub(crate) value: i128,
    pub(crate) other: i128,
    pub(crate) off: i128,
}

// A quotient that isn't negative.
#[derive(Clone, Copy)]
struct Ratio {
    of: u128,
    by: u128,
}

impl Ratio {
    // By Euclid's steps, so that no product is needed.
    fn is_less(self, than: Ratio) -> bool {
        let (mut one, mut two) = (self, than);
        for _ in 0..300 {
            if one.by == 0 || two.by == 0 {
                return false;
            }
            let (first, second) = (one.of / one.by, two.of / two.by);
            if first != second {
                return first < second;
            }
            let (rest, other) = (one.of % one.by, two.of % two.by);
            if other == 0 || rest == 0 {
                return rest < other;
            }
            let turned = Ratio {
                of: two.by,
                by: other,
            };
            two = Ratio {
                of: one.by,
                by: rest,
            };
            one = turned;
        }
        false
    }
}

// The variables come first, and then the goal.
fn is_better(slope: i128, is_variable: bool, best: Option<(i128, bool)>) -> bool {
    match best {
        None => true,
        Some((other, variable)) => {
            is_variable && !variable || is_variable == variable && slope > other
        }
    }
}

impl Program {
    // The row that allows the goal the least where all variables are 0.
    fn tightest(tableau: &Tableau, count: usize) -> Result<usize, Stop> {
        let mut best = 0;
        for place in 1..tableau.height() {
            let (Some(one), Some(two)) = (
                tableau
                    .last(place)
                    .checked_mul(tableau.at(best, count).wrapping_neg()),
                tableau
                    .last(best)
                    .checked_mul(tableau.at(place, count).wrapping_neg()),
            ) else {
                return Err(Stop::TooWide);
            };
            if one < two {
                best = place;
            }
        }
        Ok(best)
    }

    // Whether what stands at the row or column is no variable, so that it isn't negative.
    fn is_natural(&self, label: usize) -> bool {
        label > self.count
    }

    // The column by which the goal grows.
    fn entering(&self) -> Option<usize> {
        let mut best = None;
        let mut found = None;
        for column in 0..self.tableau.free.len() {
            let slope = self.tableau.at(self.goal, column);
            let is_variable = !self.is_natural(self.tableau.free[column]);
            let size = if is_variable {
                slope.saturating_abs()
            } else {
                slope
            };
            if size > 0 && is_better(size, is_variable, found) {
                found = Some((size, is_variable));
                best = Some(column);
            }
        }
        best
    }

    // How far what stands at a column may go until the row is 0.
    fn ratio(&self, place: usize, column: usize, turned: bool) -> Option<Ratio> {
        if !self.is_natural(self.tableau.base.get(place).copied()?) {
            return None;
        }
        let cell = self.tableau.at(place, column);
        if cell == 0 || (cell > 0) != turned {
            return None;
        }
        Some(Ratio {
            of: self.tableau.last(place).unsigned_abs(),
            by: cell.unsigned_abs(),
        })
    }

    // The row that is 0 first.
    fn leaving(&self, column: usize) -> Option<usize> {
        let turned = self.tableau.at(self.goal, column) < 0;
        let mut best = None;
        let mut least: Option<Ratio> = None;
        for place in 0..self.tableau.height() {
            if let Some(ratio) = self.ratio(place, column, turned) {
                let is_first = match least {
                    None => true,
                    Some(other) => ratio.is_less(other),
                };
                if is_first {
                    least = Some(ratio);
                    best = Some(place);
                }
            }
        }
        best
    }

    // Whether the goal is half or more, so that values may be rounded.
    fn is_roomy(&self) -> bool {
        let own = self.tableau.last(self.goal);
        own >= self.tableau.scale().saturating_sub(own)
    }

    fn run(&mut self) -> Result<(), Stop> {
        for _ in 0..MOST {
            if self.is_roomy() {
                return Ok(());
            }
            let Some(column) = self.entering() else {
                return Ok(());
            };
            let Some(place) = self.leaving(column) else {
                return Err(Stop::TooWide);
            };
            self.tableau.pivot(place, column)?;
        }
        Err(Stop::TooWide)
    }

    /// The rows, solved.
    pub(crate) fn solved(alloc: Global, rows: &Rows) -> Result<Program, Stop> {
        let tableau = Tableau::of(alloc, rows)?;
        let goal = Program::tightest(&tableau, rows.count)?;
        let mut out = Program {
            tableau,
            goal,
            count: rows.count,
        };
        out.tableau.pivot(goal, rows.count)?;
        out.run()?;
        Ok(out)
    }

    /// How many variables there are.
    pub(crate) fn count(&self) -> usize {
        self.count
    }

    /// Whether no values are found, and whether some are with no room about them.
    pub(crate) fn is_empty(&self) -> bool {
        self.tableau.last(self.goal) < 0
    }

    pub(crate) fn is_flat(&self) -> bool {
        self.tableau.last(self.goal) == 0
    }

    /// How many times each condition is in what shows that there are no values.
    pub(crate) fn times(&self, alloc: Global, rows: &Rows, many: usize) -> Result<Vec<i128>, Stop> {
        let mut out = vec![in alloc; 0; many]?;
        for column in 0..self.tableau.free.len() {
            let first = self.count.saturating_add(2);
            let label = self.tableau.free[column];
            if label >= first {
                let place = rows.places.get(label - first).copied().unwrap_or(many);
                if place < out.len() {
                    out[place] = self.tableau.at(self.goal, column).wrapping_neg();
                }
            }
        }
        Ok(out)
    }

    // The value of a variable, times the denominator.
    fn value(&self, variable: usize) -> i128 {
        for place in 0..self.tableau.base.len() {
            if self.tableau.base[place] == variable {
                return self.tableau.last(place);
            }
        }
        0
    }

    /// The whole numbers about the value of a variable.
    pub(crate) fn near(&self, variable: usize) -> Near {
        let scale = self.tableau.scale().max(1);
        let value = self.value(variable);
        let low = value.div_euclid(scale);
        let over = value.rem_euclid(scale);
        let under = scale.saturating_sub(over);
        if over < under {
            Near {
                value: low,
                other: low.saturating_add(1),
                off: over,
            }
        } else {
            Near {
                value: low.saturating_add(1),
                other: low,
                off: under,
            }
        }
    }
}
