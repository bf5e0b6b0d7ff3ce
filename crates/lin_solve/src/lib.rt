//! Conjunctions of comparisons of forms, decided by Cooper's method.
//!
//! Its promise: `decide` gives values that satisfy the literals, says that no whole numbers do, or shows a chain of the
//! literals, none of them twice, that passes its width.
#![tactic(auto)]

mod apart;
mod bounds;
mod branches;
mod cases;
mod chain;
mod columns;
mod compare;
mod cores;
mod decision;
mod equations;
mod found;
mod gaps;
mod guess;
mod ints;
mod memo;
mod mend;
mod near;
mod numbering;
mod over;
mod puts;
mod ranges;
mod repeats;
mod rows;
mod said;
mod splits;
mod system;
mod tried;

pub use chain::{Chain, Choice, Width};
pub use compare::{Compare, Relation};
pub use decision::decide;
pub use ints::Ints;
pub use memo::Memo;
