//! Operations on languages of alternating tree automata, over any label theory.
//!
//! Its promise: an answer says of the language's trees, over all labels of the meaning, exactly what is asked.
#![tactic(auto)]

mod begun;
mod comparison;
mod complements;
mod copies;
mod doubled;
mod emptiness;
mod joins;
mod numbers;
mod opposites;
mod pairs;
mod trim;

pub use comparison::compare;
pub use complements::{complement, difference};
pub use emptiness::{Found, Wanted, empty};
pub use joins::{intersect, union};
