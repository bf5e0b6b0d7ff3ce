//! Atoms, formulas and maps with a map's entries put for the fields.

ghost use Rattle.std.specs.Prelude.{◌≡◌, IfOk, map, slice_index_or, slice_get};
ghost use Rattle.std.specs.Option.{option_map};
ghost use Rattle.model_tree.specs.Formula as plain;
ghost use Rattle.label_core.specs.Formula.{plain_formula};
ghost use Rattle.record_label.specs.Follows.{UnlessMemory};
ghost use Rattle.record_label.specs.Guards.{joined_of};
ghost use Rattle.record_label.specs.Maps.{forms_of, formulas_in, sides_in, are_one, put_compare, put_side, put_atom, put_formula, put_entry, IsOutsideCompared, IsOutsidePut, IsOutsideOf, IsOutsideEntry, SomeOutside};
ghost use Rattle.record_label.specs.PlainMaps.{plain_entry, Gives};
ghost use Rattle.record_label.specs.Written.{plain_written};
ghost use Rattle.label_core.specs.declared.pair.PairAtom.{PairAtom};

use crate::copies::copy_written;
use crate::guards::{copied, denied, joined};
use crate::made::added;
use crate::maps::{RowEntry, RowMap};
use crate::rows::RowAtom;
use fast_fault::{Memory, Text};
use flat_label::{TextAtom, TextSide};
use label_core::{DEEPEST, Formula, PairAtom, both};
use lin_form::{Form, FormStop};
use lin_solve::Compare;
use std::alloc::Global;

/// The forms of the entries, in their order.
pub fn forms_of(alloc: Global, entries: &[RowEntry]) -> Result<Vec<Form>, Memory>
    ensures { IfOk result (λ forms. forms.items ≡ forms_of (map plain_entry entries.now)) }
{
    let mut forms = Vec::new(alloc);
    for entry in entries {
        if let RowEntry::Number(form) = entry {
            label_core::added(&mut forms, form.copy(alloc))?;
        }
    }
    Ok(forms)
}

/// The formula of the truth value with this number.
fn formula_at(entries: &[RowEntry], number: u32) -> Option<&Formula<RowAtom>>
    ensures { option_map (λ formula. plain_formula formula.now) result ≡ slice_get (formulas_in (map plain_entry entries.now)) number }
{
    let mut before = number;
    for entry in entries {
        if let RowEntry::Truth(formula) = entry {
            if before == 0 {
                return Some(formula);
            }
            before -= 1;
        }
    }
    None
}

/// The side of the text with this number.
fn side_at(entries: &[RowEntry], number: u32) -> Option<&TextSide>
    ensures { option_map (λ side. side.now) result ≡ slice_get (sides_in (map plain_entry entries.now)) number }
{
    let mut before = number;
    for entry in entries {
        if let RowEntry::Text(side) = entry {
            if before == 0 {
                return Some(side);
            }
            before -= 1;
        }
    }
    None
}

/// The formula that is put for the truth value with this number. One that there is not is false.
fn put_truth(alloc: Global, number: u32, entries: &[RowEntry]) -> Result<Formula<RowAtom>, FormStop>
    ensures { UnlessMemory result (λ made. plain_formula made ≡ slice_index_or (formulas_in (map plain_entry entries.now)) number plain.no) }
{
    match formula_at(entries, number) {
        Some(formula) => copied(alloc, formula),
        None => Ok(Formula::No),
    }
}

/// The side that is put for a side. A text that there is not is empty.
fn put_side(alloc: Global, side: &TextSide, entries: &[RowEntry]) -> Result<TextSide, Memory>
    ensures { IfOk result (λ made. made ≡ put_side (map plain_entry entries.now) side.now) }
{
    match side {
        TextSide::Field(number) => match side_at(entries, *number) {
            Some(side) => side.copy(alloc),
            None => Ok(TextSide::Constant(Text::of(alloc, "")?)),
        }
        TextSide::Constant(_) => side.copy(alloc),
    }
}

/// The atom that two texts are one.
fn one_text(left: TextSide, right: TextSide) -> Formula<RowAtom>
    ensures { plain_formula result ≡ plain.atom (PairAtom.Right (PairAtom.Right (record { left = left; right = right }))) }
{
    let atom = TextAtom { left, right };
    Formula::Atom(PairAtom::Right(PairAtom::Right(atom)))
}

/// That two texts are one, which two constants decide.
fn are_one(left: TextSide, right: TextSide) -> Formula<RowAtom>
    ensures { plain_formula result ≡ are_one left right }
{
    match left {
        TextSide::Field(field) => one_text(TextSide::Field(field), right),
        TextSide::Constant(first) => match right {
            TextSide::Field(field) => one_text(TextSide::Constant(first), TextSide::Field(field)),
            TextSide::Constant(second) => {
                if first == second {
                    return Formula::Yes;
                }
                Formula::No
            }
        }
    }
}

/// A comparison of texts with the entries put for the fields.
fn put_texts(
    alloc: Global,
    atom: &TextAtom,
    entries: &[RowEntry],
) -> Result<Formula<RowAtom>, FormStop>
    ensures { UnlessMemory result (λ made. plain_formula made ≡ are_one (put_side (map plain_entry entries.now) atom.now.left) (put_side (map plain_entry entries.now) atom.now.right)) }
{
    let (left, right) = both(
        put_side(alloc, &atom.left, entries),
        put_side(alloc, &atom.right, entries),
    )?;
    Ok(are_one(left, right))
}

/// A comparison with the forms put for its fields.
fn put_compare(
    alloc: Global,
    compare: &Compare,
    forms: &[Form],
) -> Result<Formula<RowAtom>, FormStop>
    ensures { Gives plain_formula (plain.atom (PairAtom.Left (put_compare forms.now compare.now))) (IsOutsideCompared forms.now compare.now) result }
{
    let (left, right) = both(
        compare.left.subst(alloc, forms),
        compare.right.subst(alloc, forms),
    )?;
    let made = Compare {
        left,
        relation: compare.relation,
        right,
    };
    Ok(Formula::Atom(PairAtom::Left(made)))
}

/// What an atom says with the entries put for the fields, whose forms are given.
pub fn put_atom(
    alloc: Global,
    atom: &RowAtom,
    entries: &[RowEntry],
    forms: &[Form],
) -> Result<Formula<RowAtom>, FormStop>
    requires { forms.now ≡ forms_of (map plain_entry entries.now) }
    ensures { Gives plain_formula (put_atom (map plain_entry entries.now) atom.now) (IsOutsidePut (map plain_entry entries.now) atom.now) result }
{
    match atom {
        PairAtom::Left(compare) => put_compare(alloc, compare, forms),
        PairAtom::Right(PairAtom::Left(truth)) => put_truth(alloc, truth.field, entries),
        PairAtom::Right(PairAtom::Right(texts)) => put_texts(alloc, texts, entries),
    }
}

/// What a formula says with the entries put for the fields, if it nests no deeper.
#[cycle(puts)]
fn put_formula(
    alloc: Global,
    formula: &Formula<RowAtom>,
    entries: &[RowEntry],
    forms: &[Form],
    most: usize,
) -> Result<Formula<RowAtom>, FormStop>
    requires { forms.now ≡ forms_of (map plain_entry entries.now) }
    ensures { Gives plain_formula (put_formula (map plain_entry entries.now) (plain_formula formula.now)) (IsOutsideOf (map plain_entry entries.now) (plain_formula formula.now)) result }
{
    if most == 0 {
        return Err(FormStop::Memory);
    }
    match formula {
        Formula::Yes => Ok(Formula::Yes),
        Formula::No => Ok(Formula::No),
        Formula::Atom(atom) => put_atom(alloc, atom, entries, forms),
        Formula::Not(inner) => {
            denied(alloc, put_formula(alloc, inner, entries, forms, most - 1))
        }
        Formula::And(parts) => put_each(alloc, parts, entries, forms, true, most - 1),
        Formula::Or(parts) => put_each(alloc, parts, entries, forms, false, most - 1),
    }
}

/// The same for formulas of which all hold, or, if not `every`, one of them, if they nest no deeper.
#[cycle(puts)]
fn put_each(
    alloc: Global,
    parts: &[Formula<RowAtom>],
    entries: &[RowEntry],
    forms: &[Form],
    every: bool,
    most: usize,
) -> Result<Formula<RowAtom>, FormStop>
    requires { forms.now ≡ forms_of (map plain_entry entries.now) }
    ensures { Gives plain_formula (joined_of every (map (put_formula (map plain_entry entries.now)) (map plain_formula parts.now))) (SomeOutside (IsOutsideOf (map plain_entry entries.now)) (map plain_formula parts.now)) result }
{
    let mut made = Vec::new(alloc);
    for part in parts {
        added(&mut made, put_formula(alloc, part, entries, forms, most))?;
    }
    Ok(joined(every, made))
}

/// An entry with the entries put for the fields.
fn put_entry(
    alloc: Global,
    entry: &RowEntry,
    entries: &[RowEntry],
    forms: &[Form],
) -> Result<RowEntry, FormStop>
    requires { forms.now ≡ forms_of (map plain_entry entries.now) }
    ensures { Gives plain_entry (put_entry (map plain_entry entries.now) (plain_entry entry.now)) (IsOutsideEntry (map plain_entry entries.now) (plain_entry entry.now)) result }
{
    match entry {
        RowEntry::Number(form) => match form.subst(alloc, forms) {
            Ok(form) => Ok(RowEntry::Number(form)),
            Err(stop) => Err(stop),
        }
        RowEntry::Truth(formula) => {
            match put_formula(alloc, formula, entries, forms, DEEPEST) {
                Ok(formula) => Ok(RowEntry::Truth(formula)),
                Err(stop) => Err(stop),
            }
        }
        RowEntry::Text(side) => Ok(RowEntry::Text(put_side(alloc, side, entries)?)),
    }
}

/// Entries with the first ones put for the fields.
fn put_entries(
    alloc: Global,
    entries: &[RowEntry],
    first: &[RowEntry],
) -> Result<Vec<RowEntry>, FormStop>
    ensures { Gives (λ made. map plain_entry made.items) (map (put_entry (map plain_entry first.now)) (map plain_entry entries.now)) (SomeOutside (IsOutsideEntry (map plain_entry first.now)) (map plain_entry entries.now)) result }
{
    let forms = forms_of(alloc, first)?;
    let mut made = Vec::new(alloc);
    for entry in entries {
        added(&mut made, put_entry(alloc, entry, first, &forms))?;
    }
    Ok(made)
}

impl RowMap {
    /// This map after the first one, with what is written in this one. `Range` comes where a form of it has a number
    /// outside its range, and that number.
    pub fn after(&self, alloc: Global, first: &RowMap) -> Result<RowMap, FormStop>
        ensures entries { Gives (λ made. map plain_entry made.entries.items) (map (put_entry (map plain_entry first.now.entries.items)) (map plain_entry self.now.entries.items)) (SomeOutside (IsOutsideEntry (map plain_entry first.now.entries.items)) (map plain_entry self.now.entries.items)) result }
        ensures written { IfOk result (λ made. map plain_written made.written.items ≡ map plain_written self.now.written.items) }
    {
        let entries = put_entries(alloc, &self.entries, &first.entries)?;
        let written = copy_written(alloc, &self.written)?;
        Ok(RowMap { entries, written })
    }
}
