//! What a transducer gives on a tree, as cuts that lend each part that is unchanged.
//!
//! Its promise: the outputs of a call are listed exactly, each once and in order; or a number of an output that is
//! outside its range is told, or a limit that a call reached from there passes.
#![tactic(auto)]

mod apply;
mod calls;
mod copies;
mod merge;
mod nodes;
mod outs;
mod products;
mod scene;
mod sizes;
mod solve;
mod stop;
mod terms;

pub use apply::outputs;
pub use outs::{Load, MOST_LEVELS, MOST_NODES};
pub use stop::ApplyStop;
