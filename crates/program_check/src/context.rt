//! The program that is checked, as one of its items sees it.
//!
//! What a name stands for is found in constant time, and so is whether it stands before the item.

ghost use Rattle.std.specs.Prelude.{◌≡◌, None, MatchOption, map, is_some};
ghost use Rattle.std.specs.Option.{option_map};
ghost use Rattle.std.proofs.Props.{props};
ghost use Rattle.model_names.specs.Declared.{find_item};
ghost use Rattle.fast_syntax.specs.Plain.{plain_item};
ghost use Rattle.program_check.specs.Numbered.{AreNumbered, type_there};
ghost use Rattle.program_check.specs.Typed.{plain_option};
ghost use Rattle.program_check.specs.Heads.{plain_head, head_named, StandsBy, IsHead};

use crate::declarations::{Declarations, own_type};
use crate::expressions::Standing;
use crate::heads::{Head, head_of};
use fast_fault::Text;
use fast_syntax::TypeItem;
use fast_syntax::items::Item;

/// The items of a program with their declarations, and how many items stand before the one that is looked at.
#[derive(Clone, Copy)]
pub(crate) struct Context<'p> {
    pub(crate) items: &'p [Item],
    pub(crate) declared: &'p Declarations,
    pub(crate) before: usize,
    ghost numbered: { AreNumbered (map plain_item items.now) declared.now } by { Prim.hlevel props },
}

impl<'p> Context<'p> {
    ghost use Rattle.program_check.specs.Contexts.{items_of, before_of};

    /// The type of this number.
    pub(crate) fn type_at(&self, number: Option<usize>) -> Option<&'p TypeItem>
        ensures { plain_option result ≡ type_there (items_of self.now) number }
    {
        match number {
            Some(number) => match self.items.get(number) {
                Some(item) => own_type(item),
                None => None,
            },
            None => None,
        }
    }

    /// What an item stands for that has this head.
    pub(crate) fn standing_of(&self, head: &Head) -> Standing
        ensures { StandsBy (items_of self.now) (plain_head head.now) result }
    {
        let types = &self.declared.types;
        let (kind, input) = (Some(head.kind), types.place(&head.input.text));
        match head.output {
            Some(output) => Standing {
                kind,
                input,
                output: types.place(&output.text),
            },
            None => Standing {
                kind,
                input,
                output: None,
            },
        }
    }

    /// What this name of a language, transformation, definition or tree stands for, and whether that has rules.
    pub(crate) fn find(&self, name: &Text) -> Option<(Standing, bool)>
        ensures { MatchOption result (head_named (items_of self.now) name.now ≡ None) (λ found. IsHead (items_of self.now) name.now found.0 found.1) }
    {
        let Some(place) = self.declared.names.place(name) else {
            return None;
        };
        let Some(item) = self.items.get(place) else {
            return None;
        };
        let Some(head) = head_of(item) else {
            return None;
        };
        Some((self.standing_of(&head), head.has_rules))
    }

    /// Whether the name of a language, transformation, definition or tree stands before.
    pub(crate) fn has_item_before(&self, name: &Text) -> bool
        ensures { result ≡ is_some (find_item (before_of self.now) name.now) }
    {
        self.declared.names.is_before(name, self.before)
    }
}
