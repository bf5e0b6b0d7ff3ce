//! Which states of an automaton accept the subtree at each node of a tree, in one pass from the leaves up.
//!
//! Its promise: a node has the marks of exactly the states that accept the subtree at it.
#![tactic(auto)]

mod marks;
mod pass;
mod rules;

pub use marks::Marks;
pub use pass::mark_nodes;
