//! What an item says first that declares a language, a transformation, a definition or a tree: its name, what it is, and of
//! which types.

ghost use Rattle.std.specs.Prelude.{◌≡◌};
ghost use Rattle.std.specs.Option.{option_map};
ghost use Rattle.fast_syntax.specs.Plain.{plain_item};
ghost use Rattle.program_check.specs.Heads.{plain_head, head_of};

use crate::expressions::{Kind, defined_kind};
use fast_syntax::Name;
use fast_syntax::items::{Body, Item};

/// The head of an item.
#[derive(Clone, Copy)]
pub(crate) struct Head<'p> {
    pub(crate) name: &'p Name,
    pub(crate) kind: Kind,
    /// The type of the trees of a language, of the inputs of a transformation, or of a tree.
    pub(crate) input: &'p Name,
    /// The type of the outputs of a transformation.
    pub(crate) output: Option<&'p Name>,
    /// Whether it has rules. Otherwise it has an expression.
    pub(crate) has_rules: bool,
}

pub(crate) fn head_of(item: &Item) -> Option<Head<'_>>
    ensures { option_map plain_head result ≡ head_of (plain_item item.now).body }
{
    match &item.body {
        Body::Sorts(_) | Body::Assert(_) => None,
        Body::Tree(own) => Some(Head {
            name: &own.name,
            kind: Kind::Tree,
            input: &own.of,
            output: None,
            has_rules: false,
        }),
        Body::Lang(own) => Some(Head {
            name: &own.name,
            kind: Kind::Language,
            input: &own.of,
            output: None,
            has_rules: true,
        }),
        Body::Trans(own) => Some(Head {
            name: &own.name,
            kind: Kind::Transformation,
            input: &own.from,
            output: Some(&own.into),
            has_rules: true,
        }),
        Body::Def(own) => Some(Head {
            name: &own.name,
            kind: defined_kind(&own.into),
            input: &own.from,
            output: own.into.as_ref(),
            has_rules: false,
        }),
    }
}
