//! The label range.

/// A whole number that a label may hold, or a written constant: from -2^63 to 2^63 - 1.
pub type LabelInt = i64;

/// How many bits a `LabelInt` has, its sign included.
pub const LABEL_BITS: u32 = 64;
