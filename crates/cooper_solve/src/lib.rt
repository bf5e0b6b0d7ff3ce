//! The search of Cooper's method: whether a system of linear conditions on whole numbers has a solution, and by which
//! puts.
//!
//! Its promise: a solution that is found is the exact one of its puts, and where none is found the system has none;
//! else the puts that led to a number outside 128 bits are told.
#![tactic(auto)]

mod bounds;
mod constraint;
mod fit;
mod found;
mod hopeless;
mod lcm;
mod put;
mod scale;
mod search;
mod skip;

pub use constraint::{Constraint, Relation};
pub use found::{Found, Put, Solution};
pub use hopeless::{Reach, is_hopeless, reach_of};
pub use scale::zeros;
pub use search::solve;
pub use skip::is_refuted;
