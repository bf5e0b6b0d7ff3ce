//! Rules of a tree transducer that meet, over any label theory: two rules of one state with different terms that both apply
//! to some tree.
//!
//! Its promise: that no rules meet is said only where none do; two that are named do meet, at the tree that is shown; and a
//! stop has its cause.
#![tactic(auto)]

mod demands;
mod joints;
mod meetings;
mod same;
mod states;

pub use meetings::{Meeting, OverlapFound, overlap};
