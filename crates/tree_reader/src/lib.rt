//! Trees of a file, read from tokens.
//!
//! Its promise: what is read is what the tokens spell, and the only trees that they spell; other tokens are refused at the
//! first one with which no tree file's tokens begin. One function and one clause stand for each form of the grammar.
#![tactic(auto)]

mod constants;
mod trees;

use fast_fault::{Pos, Text};
use fast_syntax::Name;
pub use trees::read_trees;

/// A label of a file's tree, where it stands.
#[derive(Drop)]
pub struct Constant {
    pub place: Pos,
    pub value: Value,
}

/// What a label is, before its field is known.
#[derive(Drop)]
pub enum Value {
    Number(i128),
    Text(Text),
    Truth(bool),
}

/// A tree as a file spells it. Its place is that of its `(`.
#[derive(Drop)]
pub struct FileTree {
    pub place: Pos,
    pub name: Name,
    pub labels: Vec<Constant>,
    pub children: Vec<FileTree>,
}
