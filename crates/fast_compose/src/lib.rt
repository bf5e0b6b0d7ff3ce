//! Which compositions of a program can be made: the first transformation is plain, or the second linear.
//!
//! Its promise: that all compositions of an item can be made is said only where they can; two rules that are named do meet, at
//! the tree that is shown, and the rule beside them is the first that uses a child twice; and a stop has its cause.
#![tactic(auto)]

mod checks;
mod copying;
mod meetings;
mod sources;
mod stops;

pub use checks::composable;
pub use stops::{ComposeStop, Copying, Meeting, Uncomposable};
