//! The least deterministic and complete automaton of a language, over any label theory.
//!
//! Its promise: the automaton has the language, no deterministic and complete one with it has fewer states, and their
//! count is the greatest number of trees that contexts tell apart pairwise.
#![tactic(auto)]

mod demands;
mod dense;
mod firsts;
mod heads;
mod joined;
mod kinds;
mod least;
mod lists;
mod nodes;
mod parents;
mod partition;
mod probes;
mod rounds;
mod steps;
mod targets;
mod values;
mod written;

pub use least::{Minimal, classes_of, minimize};
