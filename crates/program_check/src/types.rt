//! What may fail in a type by itself: a leaf that is missing, names that stand twice, unknown sorts, and numbers of fields
//! and children that are too great.

ghost use Rattle.std.specs.Prelude.{◌≡◌, ◌++◌};
ghost use Rattle.std.specs.Option.{option_map};
ghost use Rattle.fast_tree.specs.Signatures.{plain_sort};
ghost use Rattle.fast_syntax.specs.View.{plain_name, plain_type};
ghost use Rattle.model_names.specs.Sorts.{sort_named};
ghost use Rattle.model_checks.specs.Types.{is_rank, is_rank_in_range, type_failures};
ghost use Rattle.model_checks.specs.Programs.{type_again};
ghost use Rattle.program_check.specs.Contexts.{items_of, before_of};
ghost use Rattle.program_check.specs.Notes.{Notes};
ghost use Rattle.program_check.specs.Nodes.{ctors_failures};

use crate::checker::Checker;
use crate::context::Context;
use crate::ctors::has_leaf;
use crate::limits::{MOST_CHILDREN, MOST_FIELDS};
use fast_fault::{Code, Text};
use fast_syntax::{FieldItem, TypeItem};
use fast_tree::Sort;

/// The sort of this name.
pub(crate) fn sort_named(name: &Text) -> Option<Sort>
    ensures { option_map plain_sort result ≡ sort_named name.now }
{
    if name.is("Int") {
        return Some(Sort::Int);
    }
    if name.is("Bool") {
        return Some(Sort::Bool);
    }
    if name.is("String") {
        return Some(Sort::Text);
    }
    None
}

/// Whether it is the rank of a constructor with so many children.
pub(crate) fn is_rank(count: usize, rank: i128) -> bool
    ensures { result ≡ is_rank count rank }
{
    rank == count as i128
}

fn is_rank_in_range(rank: i128) -> bool
    ensures { result ≡ is_rank_in_range rank }
{
    0 <= rank && rank <= MOST_CHILDREN
}

impl Checker {
    /// The names of the constructors are different, and one of them has no children.
    fn check_ctors(&mut self, item: &TypeItem)
        ensures { Notes self.old self.new (ctors_failures (plain_type item.now)) }
    {
        let numbers = self.check_repeated(Code::DuplicateName, &item.ctors);
        let leaf = has_leaf(&item.ctors, &numbers);
        self.note_if(!leaf, Code::NoLeaf, item.name.place);
    }

    /// Notes what fails in a type.
    pub(crate) fn check_type(&mut self, context: &Context, item: &TypeItem)
        ensures { Notes self.old self.new (type_again (items_of context.now) (before_of context.now) (plain_name item.now.name) ++ type_failures (plain_type item.now)) }
    {
        let types = &context.declared.types;
        let again = types.is_before(&item.name.text, context.before);
        self.note_if(again, Code::DuplicateType, item.name.place);
        let fields: &[FieldItem] = &item.fields;
        self.check_repeated(Code::DuplicateName, fields);
        'fields: for field in fields {
            let known = sort_named(&field.sort.text).is_some();
            self.note_if(!known, Code::UnknownName, field.sort.place);
        }
        if fields.len() > MOST_FIELDS {
            self.note(Code::TooMany, fields[MOST_FIELDS].name.place);
        }
        self.check_ctors(item);
        'ctors: for ctor in &item.ctors {
            let within = is_rank_in_range(ctor.rank);
            self.note_if(!within, Code::TooMany, ctor.name.place);
        }
    }
}
