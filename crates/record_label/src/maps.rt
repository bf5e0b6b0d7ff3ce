//! Maps of labels: an entry for each field of the labels that they make.

ghost use Rattle.std.specs.Prelude.{◌≡◌, ◌≤◌, true, map, IfOk, length};
ghost use Rattle.model_tree.specs.Limits.{most_fields};
ghost use Rattle.model_tree.specs.Signature.{sorts_of};
ghost use Rattle.model_guard.specs.Forms.{forms_in};
ghost use Rattle.fast_tree.specs.Signatures.{plain_signature, plain_sort};
ghost use Rattle.fast_syntax.specs.Plain.{plain_expr};
ghost use Rattle.record_label.specs.Maps.{is_of_sort, AreOfSorts, forms_in_each, IsEntryOf, AreEntriesOf};
ghost use Rattle.record_label.specs.Parts.{AreWithin};
ghost use Rattle.record_label.specs.PlainMaps.{plain_entry};
ghost use Rattle.record_label.specs.Written.{plain_written, written_for, written_for_each};

use crate::forms::form_of;
use crate::guards::{guard_of, side};
use crate::rows::RowAtom;
use crate::written::Written;
use fast_fault::Memory;
use fast_syntax::expressions::Expr;
use fast_tree::{Signature, Sort};
use flat_label::TextSide;
use label_core::{Formula, added};
use lin_form::{Form, FormStop};
use std::alloc::Global;

/// What a map makes one field of: the value of a form, whether a formula holds, or a field or a constant.
#[derive(PartialEq, Eq, Drop)]
pub enum RowEntry {
    Number(Form),
    Truth(Formula<RowAtom>),
    Text(TextSide),
}

/// A map into the labels of a type: an entry for each of its fields, and beside each truth value what is written there,
/// places aside.
#[derive(PartialEq, Eq, Drop)]
pub struct RowMap {
    pub entries: Vec<RowEntry>,
    pub written: Vec<Written>,
}

/// The entry that an expression of this sort is.
fn entry_of(alloc: Global, expr: &Expr, sort: Sort, from: &Signature) -> Result<RowEntry, Memory>
    requires few { length from.now.fields.items ≤ most_fields }
    requires sorted { is_of_sort (plain_signature from.now).fields (plain_sort sort) (plain_expr expr.now) ≡ true }
    requires within { AreWithin (forms_in (plain_signature from.now).fields (plain_expr expr.now)) }
    ensures { IfOk result (λ entry. IsEntryOf (plain_signature from.now).fields (plain_expr expr.now) (plain_sort sort) (plain_entry entry)) }
{
    match sort {
        Sort::Int => match form_of(alloc, expr, from) {
            Ok(form) => Ok(RowEntry::Number(form)),
            Err(FormStop::Memory) => Err(Memory),
            Err(FormStop::Range(_)) => unreachable!(),
        }
        Sort::Bool => match guard_of(alloc, expr, from) {
            Ok(guard) => Ok(RowEntry::Truth(guard)),
            Err(want) => Err(want),
        }
        Sort::Text => match side(alloc, expr, from) {
            Ok(Some(side)) => Ok(RowEntry::Text(side)),
            Ok(None) => unreachable!(),
            Err(want) => Err(want),
        },
    }
}

/// What is kept of an expression of this sort as it is written.
fn kept_of(alloc: Global, expr: &Expr, sort: Sort) -> Result<Written, Memory>
    ensures { IfOk result (λ kept. plain_written kept ≡ written_for (plain_sort sort) (plain_expr expr.now)) }
{
    match sort {
        Sort::Bool => Written::of(alloc, expr),
        Sort::Int | Sort::Text => Ok(Written::nothing(alloc)),
    }
}

/// What is kept of each of the expressions.
fn kept_of_each(alloc: Global, labels: &[Expr], into: &Signature) -> Result<Vec<Written>, Memory>
    requires { length labels.now ≡ length into.now.fields.items }
    ensures { IfOk result (λ written. map plain_written written.items ≡ written_for_each (sorts_of (plain_signature into.now)) (map plain_expr labels.now)) }
{
    let mut written = Vec::new(alloc);
    for i in 0..labels.len() {
        let kept = kept_of(alloc, &labels[i], into.fields[i].sort);
        added(&mut written, kept)?;
    }
    Ok(written)
}

/// The map that label expressions are, one for each field of the labels made.
pub fn map_of(
    alloc: Global,
    labels: &[Expr],
    from: &Signature,
    into: &Signature,
) -> Result<RowMap, Memory>
    requires few { length from.now.fields.items ≤ most_fields }
    requires sorted { AreOfSorts (plain_signature from.now).fields (map plain_expr labels.now) (sorts_of (plain_signature into.now)) }
    requires within { AreWithin (forms_in_each (plain_signature from.now).fields (map plain_expr labels.now)) }
    ensures entries { IfOk result (λ made. AreEntriesOf (plain_signature from.now).fields (map plain_expr labels.now) (sorts_of (plain_signature into.now)) (map plain_entry made.entries.items)) }
    ensures written { IfOk result (λ made. map plain_written made.written.items ≡ written_for_each (sorts_of (plain_signature into.now)) (map plain_expr labels.now)) }
{
    let mut entries = Vec::new(alloc);
    for i in 0..labels.len() {
        let entry = entry_of(alloc, &labels[i], into.fields[i].sort, from);
        added(&mut entries, entry)?;
    }
    let written = kept_of_each(alloc, labels, into)?;
    Ok(RowMap { entries, written })
}
