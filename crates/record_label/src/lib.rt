//! Labels of several fields, whole numbers, truth values and texts in the order of their type: the theory whose values are
//! the labels of trees, and the guards over it.
//!
//! Its promise: a conjunction over the fields is decided exactly, whatever the order of their sorts, or shown to grow too
//! wide; a guard holds of exactly the labels at which its expression is true; and a map makes of a label what its
//! expressions are there, also where it is put into atoms and other maps.
#![tactic(auto)]

mod applies;
mod copies;
mod fits;
mod forms;
mod guards;
mod labels;
mod lookups;
mod made;
mod maps;
mod merges;
mod puts;
mod reads;
mod rows;
mod written;

pub use forms::form_of;
pub use guards::guard_of;
pub use maps::{RowEntry, RowMap, map_of};
pub use rows::{RowAtom, RowLabels};
pub use written::{Mark, Written, written_alike};
