//! Answers whether some values meet a system of conditions on whole numbers, where equations and conditions that a sum
//! is a multiple are solved first.
//!
//! The promise is that of `explore`: where it says never, no values meet the system. It splits variables by their
//! remainders.
//!
//! Each equation and each condition on multiples is brought to one variable by Euclid's steps on its coefficients, which
//! change variables everywhere, and that variable is put; so conditions by several numbers become one. The values that
//! come out of it are guesses without a promise: who takes them tries them.
//!
//! What many inequalities leave is found by linear programs: values, which are guesses too, or how often to take each so that
//! their sum shows that there are none. That sum is made again and looked at, and so counts. Where only rational values are
//! found, a variable is cut in two.
#![tactic(auto)]

mod certificate;
mod clash;
mod class;
mod cut;
mod dive;
mod exact;
mod fit;
mod line;
mod moves;
mod nodes;
mod pairs;
mod pins;
mod program;
mod residues;
mod rows;
mod search;
mod shears;
mod space;
mod tableau;
mod thin;

pub use clash::clashes;
pub use nodes::{Explored, explore};
