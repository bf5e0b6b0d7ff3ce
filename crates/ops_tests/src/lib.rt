//! Tests of operations on languages over labels of truth values.
//!
//! It carries no promise of its own. What the operations make is compared with what is known of small languages by hand:
//! which trees they have, and how many states and classes.
#![tactic(auto)]

#[cfg(test)]
mod alphabet;
#[cfg(test)]
mod rules;
#[cfg(test)]
mod tests;
