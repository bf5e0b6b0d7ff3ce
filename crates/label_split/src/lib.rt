//! Sign rows: which truth values some formulas have together at some label.
//!
//! Its promise: `find` decides a conjunction of formulas, and `split` lists exactly the rows of signs that some label
//! has, each once. Both know nothing of labels but the laws of their theory.
#![tactic(auto)]

mod conjunction;
mod force;
mod known;
mod numbers;
mod rows;
mod search;

pub use conjunction::find;
pub use rows::{SignRow, SplitStop, split};
