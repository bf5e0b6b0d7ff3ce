//! Sums of inequalities, each taken so many times, that show that no values meet them.
//!
//! By Farkas' lemma there is such a sum wherever inequalities have no rational solution: it has no variable, and says that a
//! negative number is at least 0. Here a sum is only checked, whatever found the times.

ghost use Rattle.std.specs.Prelude.{◌≡◌, ◌≤ℤ◌, pos, ℤ, List, IfOk, IsTrue, MatchResult, length};
ghost use Rattle.math_cooper.specs.System.{Holds, Solves, add_times};
ghost use Rattle.lin_reduce.specs.Sums.{IsAtLeast};

use crate::line::{Stop, plus_times};
use cooper_solve::{Constraint, Relation, zeros};
use fast_fault::Memory;
use std::alloc::Global;

/// A constant and coefficients, whose sum is at least 0.
#[derive(Drop)]
pub(crate) struct Sum {
    pub(crate) constant: i128,
    pub(crate) coefficients: Vec<i128>,
}

// The row and so many times the other.
fn added_row(alloc: Global, row: &[i128], times: i128, other: &[i128]) -> Result<Vec<i128>, Stop>
    requires { length row.now ≡ length other.now }
    ensures { MatchResult result (λ r. r.items ≡ add_times times row.now other.now) (λ _. Unit {0}) }
{
    let mut out = Vec::new(alloc);
    for i in 0..row.len() {
        out.push(plus_times(row[i], times, other[i])?)?;
    }
    Ok(out)
}

impl Sum {
    // The sum and so many times an inequality.
    fn plus(self, alloc: Global, times: i128, condition: &Constraint) -> Result<Sum, Stop>
        requires { pos 0 ≤ℤ times }
        ensures { MatchResult result (λ r. (vs : List ℤ) → IsAtLeast vs self → Holds vs condition.now → IsAtLeast vs r) (λ _. Unit {0}) }
    {
        if self.coefficients.len() != condition.coefficients.len() {
            return Err(Stop::TooWide);
        }
        match condition.relation {
            Relation::Divided(_) => Err(Stop::TooWide),
            Relation::AtLeast => Ok(Sum {
                constant: plus_times(self.constant, times, condition.constant)?,
                coefficients: added_row(alloc, &self.coefficients, times, &condition.coefficients)?,
            }),
        }
    }

    // Whether a negative constant would be at least 0.
    fn is_false(&self) -> bool
        ensures { IsTrue result → (vs : List ℤ) → IsAtLeast vs self.now → ⊥ }
    {
        for number in &self.coefficients {
            if *number != 0 {
                return false;
            }
        }
        self.constant < 0
    }
}

// The sum of the inequalities, each so many times, where that is more than none.
fn summed(alloc: Global, system: &[Constraint], times: &[i128], count: usize) -> Result<Sum, Stop>
    ensures { MatchResult result (λ r. (vs : List ℤ) → Solves vs system.now → IsAtLeast vs r) (λ _. Unit {0}) }
{
    let mut sum = Sum {
        constant: 0,
        coefficients: zeros(alloc, count)?,
    };
    for place in 0..system.len() {
        let own = times.get(place).copied().unwrap_or(0);
        if own > 0 {
            sum = sum.plus(alloc, own, &system[place])?;
        }
    }
    Ok(sum)
}

/// Whether the sum of the inequalities, each so many times, shows that no values meet the system.
pub(crate) fn refutes(
    alloc: Global,
    system: &[Constraint],
    times: &[i128],
    count: usize,
) -> Result<bool, Memory>
    ensures { IfOk result (λ yes. IsTrue yes → (vs : List ℤ) → Solves vs system.now → ⊥) }
{
    match summed(alloc, system, times, count) {
        Ok(sum) => Ok(sum.is_false()),
        Err(Stop::TooWide) => Ok(false),
        Err(Stop::Memory) => Err(Memory),
    }
}
