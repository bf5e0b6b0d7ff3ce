//! Automata, transducers, sign rows and class tables at concrete theories: what no clause says, and each call once with
//! ample memory.
//!
//! It promises that an automaton it lets through fits; the tests compare tables with what is known of small languages, and
//! tell which rules use a child twice.
#![tactic(auto)]

mod fitting;

pub use fitting::checked;

#[cfg(test)]
mod automata;
#[cfg(test)]
mod tables;
#[cfg(test)]
mod transducers;
