//! The signature of each type of a program: its fields with their sorts, and its constructors with their ranks.

ghost use Rattle.std.specs.Prelude.{◌≡◌, IfOk, map};
ghost use Rattle.fast_tree.specs.Signatures.{plain_sort};
ghost use Rattle.fast_syntax.specs.View as syntax;
ghost use Rattle.model_names.specs.Sorts.{own_sort};
ghost use Rattle.program_check.specs.Signed.{EachFits};

use crate::declarations::own_type;
use crate::types::sort_named;
use fast_fault::Memory;
use fast_syntax::items::Item;
use fast_syntax::{CtorItem, FieldItem};
use fast_tree::{CtorOf, FieldOf, Signature, Sort};
use std::alloc::Global;

/// A part of a program of which a part of a signature is made.
pub(crate) trait Signed {
    type Made: Drop;

    // What is made, and what it is to be.
    ghost Plain: { Type 0 };

    ghost plain: { Self.Made → Plain };

    ghost signed: { Self → Plain };

    // Where it can be made.
    ghost Fits: { Self → Type 0 };

    fn made(&self, alloc: Global) -> Result<Self::Made, Memory>
        requires { Fits self.now }
        ensures { IfOk result (λ made. plain made ≡ signed self.now) };
}

impl Signed for FieldItem {
    ghost use Rattle.model_tree.specs.Signature.{PlainField};
    ghost use Rattle.fast_tree.specs.Signatures.{plain_field};
    ghost use Rattle.fast_syntax.specs.View as syntax;
    ghost use Rattle.program_check.specs.Signed.{field_of};

    type Made = FieldOf;

    ghost Plain = { PlainField };

    ghost plain = { plain_field };

    ghost signed = { λ f. field_of (syntax.plain_field f) };

    ghost Fits = { λ f. Unit {0} };

    fn made(&self, alloc: Global) -> Result<FieldOf, Memory> {
        Ok(FieldOf {
            name: self.name.text.copy(alloc)?,
            sort: own_sort(self),
        })
    }
}

impl Signed for CtorItem {
    ghost use Rattle.std.specs.Prelude.{◌≡◌, true};
    ghost use Rattle.model_tree.specs.Signature.{PlainConstructor};
    ghost use Rattle.model_checks.specs.Types.{is_rank_in_range};
    ghost use Rattle.fast_tree.specs.Signatures.{plain_constructor};
    ghost use Rattle.fast_syntax.specs.View as syntax;
    ghost use Rattle.program_check.specs.Signed.{constructor_of};

    type Made = CtorOf;

    ghost Plain = { PlainConstructor };

    ghost plain = { plain_constructor };

    ghost signed = { λ c. constructor_of (syntax.plain_ctor c) };

    ghost Fits = { λ c. is_rank_in_range c.rank ≡ true };

    fn made(&self, alloc: Global) -> Result<CtorOf, Memory> {
        Ok(CtorOf {
            name: self.name.text.copy(alloc)?,
            rank: self.rank as u32,
        })
    }
}

/// An item has a signature where it is a type.
impl Signed for Item {
    ghost use Rattle.std.specs.Prelude.{Option};
    ghost use Rattle.std.specs.Option.{option_map};
    ghost use Rattle.model_tree.specs.Signature.{PlainSignature};
    ghost use Rattle.fast_tree.specs.Signatures.{plain_signature};
    ghost use Rattle.fast_syntax.specs.Plain.{plain_item};
    ghost use Rattle.program_check.specs.Signed.{own_signature, HasRanks};

    type Made = Option<Signature>;

    ghost Plain = { Option PlainSignature };

    ghost plain = { option_map plain_signature };

    ghost signed = { λ item. own_signature (plain_item item) };

    ghost Fits = { λ item. HasRanks (plain_item item) };

    fn made(&self, alloc: Global) -> Result<Option<Signature>, Memory> {
        match own_type(self) {
            Some(own) => Ok(Some(Signature {
                name: own.name.text.copy(alloc)?,
                fields: all_made(alloc, &own.fields)?,
                constructors: all_made(alloc, &own.ctors)?,
            })),
            None => Ok(None),
        }
    }
}

/// What is made of each of these.
pub(crate) fn all_made<S: Signed>(alloc: Global, all: &[S]) -> Result<Vec<S::Made>, Memory>
    requires { EachFits S.Fits all.now }
    ensures { IfOk result (λ made. map S.plain made.items ≡ map S.signed all.now) }
{
    let mut made = Vec::new(alloc);
    'all: for one in all {
        made.push(one.made(alloc)?)?;
    }
    Ok(made)
}

/// The sort of a field, in a type whose sorts are known.
pub(crate) fn own_sort(field: &FieldItem) -> Sort
    ensures { plain_sort result ≡ own_sort (syntax.plain_field field.now) }
{
    match sort_named(&field.sort.text) {
        Some(sort) => sort,
        None => Sort::Text,
    }
}
