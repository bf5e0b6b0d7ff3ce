//! Class tables: which sets of states the trees of a type have, for an alternating automaton over any label theory.
//!
//! Its promise: a table has exactly the sets that trees have, each once, and of each class it shows a least tree and
//! gives the labels over which trees of given classes make one of it.
#![tactic(auto)]

mod class;
mod formula;
mod keep;
mod known;
mod likes;
mod lists;
mod pending;
mod place;
mod row;
mod rules;
mod search;
mod splits;
mod stop;
mod table;

pub use class::CAP;
pub use stop::ClassStop;
pub use table::{Table, classes, kinds_are_enough};
