//! The items of a program one by one: what each gives, with the trees that its line shows, or why the work stops at it.
//!
//! Its promise: a line is one that the item may have after those before it, no line comes exactly where the item has none, and a
//! stop has its cause. Of an item that is done no refusal is owed. Whether an item's compositions can be made is asked before
//! anything is done for it. Where a session is asked for one name, it builds what that name needs and no more; then it says of
//! each tree whether it is in the language, or what the outputs of the transformation are.
#![tactic(auto)]

mod answers;
mod compositions;
mod inside;
mod items;
mod needed;
mod outputs;
mod preparing;
mod session;
mod stops;
mod trees;
mod verdicts;

pub use answers::{Cause, Ending, Halt, Line, Step, Stopped};
pub use session::Session;
