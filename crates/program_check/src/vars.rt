//! The child variables of a rule: whether a name is one of them is known in constant time.

use crate::names::Names;
use fast_syntax::Name;

/// The child variables of a rule. Unless memory ran out, the names are theirs.
#[derive(Drop)]
pub(crate) struct Vars<'r> {
    pub(crate) all: &'r [Name],
    pub(crate) names: Names,
}
