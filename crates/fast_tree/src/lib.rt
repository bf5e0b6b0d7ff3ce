//! Trees that carry data: labels, signatures, and trees with their order, copies and printed text.
//!
//! Its promise: in contracts each tree is the plain tree that it stands for, so what is counted, compared, copied or
//! printed is said of that tree alone. Nothing here but copies and printed text takes memory.
#![tactic(auto)]

mod label;
mod print;
mod signature;
mod tree;

pub use label::{Label, Value};
pub use print::print_tree;
pub use signature::{CtorOf, FieldOf, Signature, Sort};
pub use tree::Tree;
