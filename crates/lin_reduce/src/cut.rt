//! Cuts: whole numbers of a variable that are at most a number, or more.

ghost use Rattle.std.specs.Prelude.{◌≡◌, ◌*ℤ◌, ◌+ℤ◌, ◌≤ℤ◌, ◌<ℤ◌, pos, ℤ, List, length, MatchResult, slice_index_or};
ghost use Rattle.math_cooper.specs.System.{Holds, dot};
ghost use Rattle.lin_reduce.specs.Parts.{IsWithin};

use crate::line::Stop;
use cooper_solve::{Constraint, Relation, zeros};
use std::alloc::Global;

/// A variable, and a number that it may pass.
#[derive(Clone, Copy)]
pub(crate) struct Cut {
    pub(crate) of: usize,
    pub(crate) most: i128,
}

/// So many times a variable and a constant are at least 0.
#[derive(Clone, Copy)]
pub(crate) struct Bound {
    pub(crate) of: usize,
    pub(crate) times: i128,
    pub(crate) constant: i128,
}

/// The coefficients of so many times a variable.
pub(crate) fn single(alloc: Global, count: usize, of: usize, times: i128) -> Result<Vec<i128>, Stop>
    ensures { MatchResult result (λ r. (vs : List ℤ) → length vs ≡ count → dot r.items vs ≡ times *ℤ slice_index_or vs of (pos 0)) (λ _. Unit {0}) }
{
    let mut row = zeros(alloc, count)?;
    if of >= row.len() {
        return Err(Stop::TooWide);
    }
    row[of] = times;
    Ok(row)
}

impl Bound {
    /// The bound as a condition on so many variables.
    pub(crate) fn condition(self, alloc: Global, count: usize) -> Result<Constraint, Stop>
        ensures { MatchResult result (λ r. (vs : List ℤ) → length vs ≡ count → IsWithin self vs → Holds vs r) (λ _. Unit {0}) }
    {
        Ok(Constraint {
            relation: Relation::AtLeast,
            constant: self.constant,
            coefficients: single(alloc, count, self.of, self.times)?,
        })
    }
}

impl Cut {
    /// That the variable is at most the number.
    pub(crate) fn below(self) -> Bound
        ensures { (vs : List ℤ) → slice_index_or vs self.of (pos 0) ≤ℤ self.most → IsWithin result vs }
    {
        Bound {
            of: self.of,
            times: -1,
            constant: self.most,
        }
    }

    /// That it is more.
    pub(crate) fn above(self) -> Result<Bound, Stop>
        ensures { MatchResult result (λ r. (vs : List ℤ) → self.most <ℤ slice_index_or vs self.of (pos 0) → IsWithin r vs) (λ _. Unit {0}) }
    {
        let Some(least) = self.most.checked_neg() else {
            return Err(Stop::TooWide);
        };
        match least.checked_sub(1) {
            Some(constant) => Ok(Bound {
                of: self.of,
                times: 1,
                constant,
            }),
            None => Err(Stop::TooWide),
        }
    }
}
