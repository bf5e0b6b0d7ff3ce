//! Cooper's method for conditions on whole numbers, as definitions and laws on lists: a step that removes a variable,
//! the systems and numbers that chosen steps give, and their solution.
//!
//! The crate promises nothing that runs: it proves that a step keeps solvability both ways, and that the solution of a
//! list of steps is one of the system that they begin with.
#![tactic(auto)]

ghost use Rattle.math_cooper.specs.Laws.{StepDecides, SolutionSolves};

/// A system has a solution exactly where the system after one of the puts of its last variable has; and what is found
/// at the end of puts is a solution of the first system.
pub fn laws_of_steps()
    ensures decides { StepDecides }
    ensures solves { SolutionSolves }
{}
