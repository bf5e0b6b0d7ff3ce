//! Domains, pre-images and restrictions of tree transducers, over any label theory.
//!
//! Its promise: each result has exactly the language or the relation of its operation, for every transducer, whether it
//! gives one output or many, copies, deletes or looks ahead; and so has each of its states. An `Image` runs a second
//! transducer over outputs of a first one, with states for what is reached.
#![tactic(auto)]

mod apart;
mod called;
mod image;
mod images;
mod kept;
mod names;
mod outs;
mod restrictions;
mod rules;
mod sets;
mod terms;

pub use called::Called;
pub use image::{Image, looks_of};
pub use images::{domain, preimage};
pub use restrictions::{restrict, restrict_out};
