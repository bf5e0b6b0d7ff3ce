//! Labels whose fields are all of one sort: truth values, or texts. Each theory decides every conjunction exactly, so no
//! answer of it is ever too wide.
#![tactic(auto)]

mod bools;
mod classes;
mod fresh;
mod never;
mod texts;

pub use bools::{BoolAtom, Bools};
pub use never::Never;
pub use texts::{TextAtom, TextSide, Texts};
