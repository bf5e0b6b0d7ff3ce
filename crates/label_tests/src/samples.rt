//! A type of four fields, with labels, forms, atoms and maps of it.

ghost use Rattle.std.specs.Prelude.{◌≡◌, ◌+◌, ◌++◌, ◌<◌, ◌≤◌, [], ◌∷◌, IfOk, length, map};
ghost use Rattle.model_tree.specs.Signature.{wholes, truths, texts};
ghost use Rattle.model_tree.specs.Signature as model;
ghost use Rattle.fast_tree.specs.Entries.{label_meaning};
ghost use Rattle.fast_tree.specs.Signatures.{plain_field, plain_signature, plain_sort};
ghost use Rattle.record_label.specs.Rows.{RowFits, KeepsSorts};
ghost use Rattle.record_label.specs.Maps.{EntriesFit, sort_by};
ghost use Rattle.record_label.specs.PlainMaps.{plain_entry};

use fast_fault::{Memory, Text};
use fast_tree::{FieldOf, Label, Signature, Sort, Value};
use flat_label::TextSide;
use label_core::{Formula, PairAtom};
use lin_form::{Form, FormStop, Signed};
use lin_solve::{Compare, Relation};
use record_label::{RowAtom, RowEntry, RowMap};
use std::alloc::Global;

/// The greatest whole number of a label.
pub(crate) const MOST: i64 = 9223372036854775807;

/// Adds a field.
fn declare(alloc: Global, fields: &mut Vec<FieldOf>, name: &str, sort: Sort) -> Result<(), Memory>
    ensures count { IfOk result (λ _. length fields.new.items ≡ length fields.old.items + 1) }
    ensures sorts { IfOk result (λ _. map (λ f. f.sort) (map plain_field fields.new.items) ≡ map (λ f. f.sort) (map plain_field fields.old.items) ++ plain_sort sort ∷ []) }
{
    let name = Text::of(alloc, name)?;
    fields.push(FieldOf { name, sort })?;
    Ok(())
}

/// A type with a truth value b, a whole number x, a text t and a whole number y.
pub(crate) fn signature(alloc: Global) -> Result<Signature, Memory>
    ensures few { IfOk result (λ made. length made.fields.items ≤ 8) }
    ensures sorts { IfOk result (λ made. model.sorts_of (plain_signature made) ≡ truths ∷ wholes ∷ texts ∷ wholes ∷ []) }
{
    let mut fields = Vec::new(alloc);
    declare(alloc, &mut fields, "b", Sort::Bool)?;
    declare(alloc, &mut fields, "x", Sort::Int)?;
    declare(alloc, &mut fields, "t", Sort::Text)?;
    declare(alloc, &mut fields, "y", Sort::Int)?;
    Ok(Signature {
        name: Text::of(alloc, "N")?,
        fields,
        constructors: Vec::new(alloc),
    })
}

/// A constant, a constant and so many times a field, or the remainder of a field by a divisor.
#[derive(Clone, Copy)]
pub(crate) enum Side {
    Constant(i64),
    Line(i64, i64, u32),
    Remainder(u32, u32),
}

/// A constant and so many times a field, or the constant alone where there is no such field.
fn line(alloc: Global, constant: i64, by: i64, field: u32) -> Result<Form, FormStop> {
    let form = Form::number(alloc, constant as i128)?;
    if field >= 8 {
        return Ok(form);
    }
    let minus = false;
    let constant = Signed { minus, form };
    let form = Form::field(alloc, field)?.scaled(alloc, by as i128)?;
    let parts = vec![in alloc; constant, Signed { minus, form }]?;
    Form::of_sum(alloc, &parts)
}

pub(crate) fn form(alloc: Global, side: Side) -> Result<Form, FormStop> {
    match side {
        Side::Constant(value) => Ok(Form::number(alloc, value as i128)?),
        Side::Line(constant, by, field) => line(alloc, constant, by, field),
        Side::Remainder(field, by) => {
            if field >= 8 || by == 0 || by > 4096 {
                return Err(FormStop::Memory);
            }
            Form::field(alloc, field)?.remainder(alloc, by)
        }
    }
}

/// The label of these values.
pub(crate) fn label(alloc: Global, b: bool, x: i64, t: &str, y: i64) -> Result<Label, Memory>
    ensures { IfOk result (λ made. KeepsSorts (truths ∷ wholes ∷ texts ∷ wholes ∷ []) (label_meaning made)) }
{
    let mut values = Vec::new(alloc);
    values.push(Value::Bool(b))?;
    values.push(Value::Int(x))?;
    values.push(Value::Text(Text::of(alloc, t)?))?;
    values.push(Value::Int(y))?;
    Ok(Label::new(values))
}

/// That one whole number is less than another one.
pub(crate) fn less(alloc: Global, left: u32, right: u32) -> Result<RowAtom, Memory>
    requires left { left < 2 }
    requires right { right < 2 }
    ensures { IfOk result (RowFits (truths ∷ wholes ∷ texts ∷ wholes ∷ [])) }
{
    Ok(PairAtom::Left(Compare {
        left: Form::field(alloc, left)?,
        relation: Relation::Less,
        right: Form::field(alloc, right)?,
    }))
}

/// The map to x < y, two whole numbers and the same text.
pub(crate) fn exchange(alloc: Global, left: u32, right: u32) -> Result<RowMap, Memory>
    requires left { left < 2 }
    requires right { right < 2 }
    ensures fit { IfOk result (λ made. EntriesFit (truths ∷ wholes ∷ texts ∷ wholes ∷ []) (map plain_entry made.entries.items)) }
    ensures sorts { IfOk result (λ made. map sort_by (map plain_entry made.entries.items) ≡ truths ∷ wholes ∷ texts ∷ wholes ∷ []) }
{
    let mut entries = Vec::new(alloc);
    entries.push(RowEntry::Truth(Formula::Atom(less(alloc, right, left)?)))?;
    entries.push(RowEntry::Number(Form::field(alloc, left)?))?;
    entries.push(RowEntry::Text(TextSide::Field(0)))?;
    entries.push(RowEntry::Number(Form::field(alloc, right)?))?;
    let written = Vec::new(alloc);
    Ok(RowMap { entries, written })
}
