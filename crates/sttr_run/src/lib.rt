//! A second transducer that runs over an output term of a first one: the ways in which it can, over any label theory.
//!
//! Its promise: some way works for each tree between the two that meets the demands, and a way that works has one, where
//! the two can be composed.
#![tactic(auto)]

mod drafts;
mod finish;
mod leaves;
mod over;
mod picks;
mod running;
mod states;
mod triples;

pub use running::{RunStop, Second, ways};
pub use triples::{Head, Triple, Way, WayTerm};
