//! Expressions of languages and transformations, and statements of them: which automaton or transducer an expression has,
//! whether a statement is true, which tree a language has and whether a tree is in it, and what a transformation gives.
//!
//! Its promise: an automaton or a transducer was built for the whole expression, and a stop has a cause in it.
#![tactic(auto)]

mod applied;
mod assertions;
mod broken;
mod built;
mod definitions;
mod evaluation;
mod images;
mod names;
mod scopes;
mod statements;
mod stops;
mod table;
mod witnesses;

pub use applied::outputs;
pub use assertions::judge;
pub use built::Built;
pub use definitions::define;
pub use scopes::{Ends, ends_of, type_of};
pub use stops::{EvalStop, OutputStop};
pub use table::Table;
pub use witnesses::{belongs, witness};
