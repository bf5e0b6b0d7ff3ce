//! What a program declares: each name is numbered once, and found in constant time from then on.

ghost use Rattle.std.specs.Prelude.{◌≡◌, [], Some, None, IfOk, OnOk, map};
ghost use Rattle.std.specs.Option.{option_map};
ghost use Rattle.fast_syntax.specs.View.{plain_type};
ghost use Rattle.fast_syntax.specs.Plain.{plain_item};
ghost use Rattle.program_check.specs.Numbered.{own_type_item, own_ctors, HasCtors, AreNumbered, Declares};

use crate::heads::head_of;
use crate::names::Names;
use fast_fault::Memory;
use fast_syntax::items::{Body, Item};
use fast_syntax::{CtorItem, TypeItem};
use std::alloc::Global;

/// The number of the first item that declares each type, that of the first that declares each other name, and, for each
/// item, the numbers of its constructors, where it is a type.
#[derive(Drop)]
pub(crate) struct Declarations {
    pub(crate) types: Names,
    pub(crate) names: Names,
    pub(crate) ctors: Vec<Names>,
}

/// The type that an item is.
pub(crate) fn own_type(item: &Item) -> Option<&TypeItem>
    ensures { option_map (λ t. plain_type t.now) result ≡ own_type_item (plain_item item.now).body }
{
    match &item.body {
        Body::Sorts(own) => Some(own),
        _ => None,
    }
}

/// The numbers of the constructors of an item, where it is a type.
fn number_ctors(alloc: Global, item: &Item) -> Result<Names, Memory>
    ensures { IfOk result (HasCtors (own_ctors (plain_item item.now))) }
{
    let mut names = Names::new(alloc);
    let Some(own) = own_type(item) else {
        return Ok(names);
    };
    let ctors: &[CtorItem] = &own.ctors;
    'ctors: for (place, ctor) in ctors.iter().enumerate() {
        names.add(alloc, &ctor.name.text, place)?;
    }
    Ok(names)
}

impl Declarations {
    /// What no items declare.
    pub(crate) fn new(alloc: Global) -> Declarations
        ensures { AreNumbered [] result }
    {
        Declarations {
            types: Names::new(alloc),
            names: Names::new(alloc),
            ctors: Vec::new(alloc),
        }
    }

    /// Adds what the item at this place declares.
    fn add(&mut self, alloc: Global, item: &Item, place: usize) -> Result<(), Memory>
        ensures { OnOk result (Declares self.old self.new (plain_item item.now) place) }
    {
        self.ctors.push(number_ctors(alloc, item)?)?;
        if let Some(own) = own_type(item) {
            return self.types.add(alloc, &own.name.text, place);
        }
        match head_of(item) {
            Some(head) => self.names.add(alloc, &head.name.text, place),
            None => Ok(()),
        }
    }

    /// Numbers what the items declare, where nothing has a number so far.
    pub(crate) fn number(&mut self, alloc: Global, items: &[Item]) -> Result<(), Memory>
        requires { AreNumbered [] self.old }
        ensures { OnOk result (AreNumbered (map plain_item items.now) self.new) }
    {
        'items: for (place, item) in items.iter().enumerate() {
            self.add(alloc, item, place)?;
        }
        Ok(())
    }
}
