//! Automata and transducers of programs: for a language, one automaton with one state for each language that it reaches, and
//! for a transformation, one transducer with one state for each transformation that it reaches.
//!
//! Its promise: a state of the automaton accepts exactly the trees of the type that are in the language of its number, and a
//! state of the transducer gives exactly the outputs of the transformation of its number.
#![tactic(auto)]

mod automaton;
mod called;
mod looked;
mod named;
mod numbers;
mod out_rules;
mod reached;
mod rules;
mod terms;
mod transducer;

pub use automaton::languages;
pub use named::{lang, trans};
pub use reached::add_name;
pub use transducer::{BuiltTrans, transformation};
