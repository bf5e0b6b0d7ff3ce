//! Files of trees of a type.
//!
//! Its promise: what is given back is the trees that the text spells, each with the place where it starts, and each a tree of
//! the type; any other text is refused, with what the reader refuses or the failing condition that comes first in it.
#![tactic(auto)]

mod check;
mod files;
mod first;
mod labels;
mod make;
mod types;

use fast_fault::Pos;
use fast_tree::{Label, Tree};
pub use files::read_typed;

/// A tree of a file, and where it starts.
#[derive(Drop)]
pub struct PlacedTree {
    pub place: Pos,
    pub tree: Tree<Label>,
}
