//! What a checked program tells of its names.

ghost use Rattle.std.specs.Prelude.{◌≡◌, Some, None};
ghost use Rattle.std.specs.Option.{option_map, option_and_then};
ghost use Rattle.model_names.specs.Declared.{find_type, find_item};
ghost use Rattle.fast_syntax.specs.Plain.{plain_item, plain_program};
ghost use Rattle.fast_tree.specs.Signatures.{plain_signature};
ghost use Rattle.model_meaning.specs.Types.{signature_of};
ghost use Rattle.program_check.specs.Tells.{kind_view, stands_for};

use crate::programs::Checked;
use fast_fault::Text;
use fast_syntax::items::{Body, Item, Program};
use fast_tree::Signature;

/// What a name stands for, with the names of its types: of the trees of a language, of the inputs and the outputs of a
/// transformation, or of a tree.
#[derive(Drop)]
pub enum Kind3<'c> {
    Language(&'c Text),
    Transformation(&'c Text, &'c Text),
    Tree(&'c Text),
}

impl Checked {
    /// The program, as it was handed in.
    pub fn program(&self) -> &Program
        ensures { result.now ≡ self.now.program }
    {
        &self.program
    }

    /// What this name of a language, transformation, definition or tree stands for.
    pub fn kind<'c>(&'c self, name: &Text) -> Option<Kind3<'c>>
        ensures { option_map kind_view result ≡ option_and_then (λ item. stands_for item.body) (find_item (plain_program self.now.program) name.now) }
    {
        let Some(item) = self.item(name) else {
            return None;
        };
        match &item.body {
            Body::Sorts(_) | Body::Assert(_) => None,
            Body::Tree(own) => Some(Kind3::Tree(&own.of.text)),
            Body::Lang(own) => Some(Kind3::Language(&own.of.text)),
            Body::Trans(own) => Some(Kind3::Transformation(&own.from.text, &own.into.text)),
            Body::Def(own) => match &own.into {
                Some(into) => Some(Kind3::Transformation(&own.from.text, &into.text)),
                None => Some(Kind3::Language(&own.from.text)),
            },
        }
    }

    /// The signature of the type of this name.
    pub fn signature(&self, name: &Text) -> Option<&Signature>
        ensures { option_map (λ s. plain_signature s.now) result ≡ option_map signature_of (find_type (plain_program self.now.program) name.now) }
    {
        match self.declared.types.place(name) {
            Some(place) => match self.signatures.get(place) {
                Some(signature) => signature.as_ref(),
                None => None,
            },
            None => None,
        }
    }

    /// The item that declares this name of a language, transformation, definition or tree.
    pub fn item(&self, name: &Text) -> Option<&Item>
        ensures { option_map (λ item. plain_item item.now) result ≡ find_item (plain_program self.now.program) name.now }
    {
        match self.declared.names.place(name) {
            Some(place) => self.program.items.get(place),
            None => None,
        }
    }
}
