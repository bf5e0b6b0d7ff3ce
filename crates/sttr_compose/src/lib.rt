//! Composition of tree transducers, over any label theory.
//!
//! Its promise: the result relates a tree to another exactly where some tree between them does, under the condition that the
//! first gives at most one tree or the second uses no child twice; with lookahead on both sides, deletion and copying.
#![tactic(auto)]

mod fused;

pub use fused::compose;
