//! Chains of Cooper's method as plain data: what literals over linear forms say, the conditions that they become, and
//! the choices that lead from these to a solution or to a number that is too wide.
//!
//! The crate promises nothing that runs: it proves that literals hold exactly where their conditions do, and that the
//! literals of a far chain hold at values outside the label range.
#![tactic(auto)]

ghost use Rattle.model_chain.specs.Laws.{HoldWhereSolved, FarHasValues};

/// Literals hold at values of the fields exactly where their conditions hold there, with some sides and some values of
/// the new variables.
pub fn laws_of_literals()
    ensures solved { HoldWhereSolved }
    ensures far { FarHasValues }
{}
