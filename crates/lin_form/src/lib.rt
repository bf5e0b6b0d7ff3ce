//! Linear forms over whole numbers.
//!
//! Its promise: each call gives the form that the definitions say, or a number of that form that is outside its range;
//! and the value of a form is exact.
#![tactic(auto)]

mod form;
mod product;
mod same;
mod simpler;
mod stop;
mod subst;
mod sum;
mod value;

pub use form::{DEEPEST, Dividend, FieldTerm, Form, GREATEST_DIVISOR, MOST_PARTS, RemTerm};
pub use stop::FormStop;
pub use sum::Signed;
