//! Programs and tree files, read from the bytes of a text.
//!
//! Its promise: what is read is what the text spells, and all that it spells. A text is refused exactly where it isn't
//! one, and the refusal is the first that holds of: too long, no characters, no tokens, nested too deep, no such form
//! (`IsRefusal` in `model_refusals/specs/Refusals.antt`).
#![tactic(auto)]

mod nesting;
mod programs;
mod texts;
mod trees;

pub use nesting::nested;
pub use programs::read;
pub use texts::ReadStop;
pub use trees::read_trees;
