//! Tree transducers with lookahead over any label theory: their rules, and which of them use a child twice.
//!
//! Its promise: in contracts each transducer is the plain data that it stands for; nothing here takes memory.
#![tactic(auto)]

mod linear;
mod sttr;
mod term;

pub use linear::{RuleNo, not_linear};
pub use sttr::{Sttr, SttrRule, Trans};
pub use term::Term;
