//! The checker: which programs are well-formed, and why another is refused.
//!
//! Its promise: a program passes exactly where none of the conditions on programs fails, and comes back as it was; any
//! other is refused with the failing condition that comes first in its text.
#![tactic(auto)]

mod checked;
mod checker;
mod context;
mod ctors;
mod declarations;
mod expressions;
mod heads;
mod items;
mod labels;
mod limits;
mod named;
mod names;
mod outputs;
mod programs;
mod rules;
mod signatures;
mod types;
mod vars;
mod waiting;

pub use checked::Kind3;
pub use programs::{CheckStop, Checked, check};
