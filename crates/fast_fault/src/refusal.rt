//! Refusals and their places.

use crate::{Code, Pos};

/// A refusal of a program, of trees or of a run, and the place that it speaks of.
#[derive(Clone, Copy, Debug, PartialEq, Eq)]
pub struct Refusal {
    pub code: Code,
    pub place: Pos,
}
