//! Names, constants and label expressions, read from tokens.
//!
//! Its promise: each reader has one clause, which says what it read, that no other front of the tokens spells anything, or
//! the first token with which no spelling goes on (`Reads` in `specs/Results.antt`).
#![tactic(auto)]

mod constants;
mod keep;
mod levels;
mod lists;
mod operands;
mod operators;
mod reader;
mod stop;

pub use constants::{read_numeral, read_string};
pub use keep::{kept, kept_if, pushed, to_close};
pub use levels::read_level;
pub use lists::{Between, Items, read_any, read_some, read_to};
pub use reader::{Reader, is_same};
pub use stop::{ReadTokensStop, Stop};
