//! Programs of the whole language, read from tokens.
//!
//! Its promise: what is read is what the tokens spell, and the only program that they spell; other tokens are refused at
//! the first one with which no program's tokens begin. One function and one clause stand for each form of the grammar.
#![tactic(auto)]

mod assertions;
mod items;
mod labels;
mod names;
mod operations;
mod outputs;
mod rules;
mod terms;
mod types;

pub use items::read_items;
