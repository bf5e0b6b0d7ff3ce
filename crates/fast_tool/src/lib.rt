//! The top call: a command line, texts and a sink make a report.
//!
//! Its promise is the clause of `run`: what was written is, with the status, a legal report.
#![tactic(auto)]

mod answers;
mod applied;
mod asked;
mod counted;
mod generator;
mod items;
mod lines;
mod named;
mod reading;
mod refusals;
mod top;
mod words;

pub use top::run;
