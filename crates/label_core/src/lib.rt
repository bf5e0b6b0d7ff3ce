//! Label theories: which labels a tree type has, which atoms speak of them, and how a conjunction of literals is decided.
//!
//! All that stands above is generic in `Theory`. Its promise: whatever is proved for a theory is proved from the laws of
//! the trait alone, so a new kind of label is one more implementation of it.
#![tactic(auto)]

mod copies;
mod formula;
mod labels;
mod made;
mod pair;
mod puts;
mod same;
mod theory;

pub use copies::Duplicate;
pub use formula::{DEEPEST, Formula, conjunction, disjunction, negation};
pub use labels::{Applied, Labels, Put, PutMap};
pub use made::{added, both};
pub use pair::{Pair, PairAtom, PairChain, PairValue};
pub use puts::put_formula;
pub use theory::{Lit, Theory, Verdict};
