//! Values of tree expressions: literals, names of trees that were printed, trees of languages, outputs of transformations;
//! and whether they are in languages.
//!
//! Its promise: the tree that is given is a value of the expression, it has the type and can be shown, and no refusal is owed of
//! the expression; and a stop has a cause in it.
#![tactic(auto)]

mod applied;
mod labels;
mod literals;
mod members;
mod nodes;
mod sizes;
mod stops;
mod trees;
mod values;

pub use members::{Membership, member};
pub use stops::{TwoOutputs, TypedTree, ValueStop};
pub use trees::Trees;
pub use values::{Given, value};
