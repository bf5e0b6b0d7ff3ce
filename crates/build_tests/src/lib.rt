//! Tests of automata and transducers that are built for programs in texts.
//!
//! It carries no promise of its own. How many states there are, and which rule uses a child twice, is told by hand.
#![tactic(auto)]

#[cfg(test)]
mod tests;
