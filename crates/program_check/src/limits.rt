//! How much a program may have, as the conditions on programs say.

/// Items of a program.
pub(crate) const MOST_ITEMS: usize = 10_000;

/// Rules of a language or a transformation.
pub(crate) const MOST_RULES: usize = 4_096;

/// Fields of a type.
pub(crate) const MOST_FIELDS: usize = 8;

/// Children of a constructor.
pub(crate) const MOST_CHILDREN: i128 = 8;

/// Operations around an operation.
pub(crate) const MOST_AROUND: usize = 64;

/// Bytes of a text in a label.
pub(crate) const LONGEST_TEXT: usize = 4_096;
