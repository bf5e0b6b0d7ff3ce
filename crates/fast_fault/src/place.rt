//! Places in a text.

/// A place: a line from 1 and a column from 1. A line feed ends a line, and a column counts characters.
#[derive(Clone, Copy, Debug, PartialEq, Eq, PartialOrd, Ord)]
pub struct Pos {
    pub line: u32,
    pub column: u32,
}
