//! Tests of the outside of the tool, of trees, and of trees over parts of another tree.
//!
//! It carries no promise of its own. It stands on the built libraries, so that none of them is proved a second time with
//! its tests; what is printed, taken and put is told by hand.
#![tactic(auto)]

#[cfg(test)]
mod cuts;
#[cfg(test)]
mod outside;
#[cfg(test)]
mod trees;
