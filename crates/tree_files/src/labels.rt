//! The labels of a tree: what fails in them, and what they are.

ghost use Rattle.std.specs.Prelude.{◌≡◌, IfOk, true, map, slice_get};
ghost use Rattle.std.specs.List.{list_all};
ghost use Rattle.std.specs.Option.{option_map};
ghost use Rattle.model_tree.specs.Label.{row};
ghost use Rattle.model_tree.specs.Range.{is_label_number};
ghost use Rattle.model_tree.specs.Kept.{is_kept_field};
ghost use Rattle.model_tree.specs.Signature.{sort_of};
ghost use Rattle.model_label.specs.Fields.{same_sort};
ghost use Rattle.model_checks.specs.Failures.{first_among};
ghost use Rattle.model_run.specs.Texts.{label_failures};
ghost use Rattle.fast_tree.specs.Signatures.{plain_sort, plain_field};
ghost use Rattle.fast_tree.specs.Entries.{field_of, label_meaning};
ghost use Rattle.tree_reader.specs.Plain.{plain_constant};
ghost use Rattle.tree_files.specs.Labels.{meant_by, is_long, is_misplaced, failures_at};

use crate::first::first_with;
use fast_fault::{Code, Memory, Refusal};
use fast_tree::{FieldOf, Label, Sort};
use std::alloc::Global;
use tree_reader::{Constant, Value};

/// Bytes of a text in a label.
const LONGEST_TEXT: usize = 4_096;

fn is_of_sort(value: &Value, sort: Sort) -> bool
    ensures { result ≡ same_sort (sort_of (meant_by value.now)) (plain_sort sort) }
{
    match value {
        Value::Number(_) => matches!(sort, Sort::Int),
        Value::Truth(_) => matches!(sort, Sort::Bool),
        Value::Text(_) => matches!(sort, Sort::Text),
    }
}

/// Whether a label may hold the number.
fn is_label_number(number: i128) -> bool
    ensures { result ≡ is_label_number number }
{
    number >= i64::MIN as i128 && number <= i64::MAX as i128
}

/// Whether it is a number that a label may hold, or no number.
fn is_in_range(value: &Value) -> bool
    ensures { result ≡ is_kept_field (meant_by value.now) }
{
    match value {
        Value::Number(number) => is_label_number(*number),
        Value::Truth(_) | Value::Text(_) => true,
    }
}

/// Whether it is a text that has more bytes than one may have.
fn is_long(value: &Value) -> bool
    ensures { result ≡ is_long (meant_by value.now) }
{
    match value {
        Value::Text(text) => text.as_str().len() > LONGEST_TEXT,
        Value::Number(_) | Value::Truth(_) => false,
    }
}

/// Whether there is a field and the label isn't of its sort.
fn is_misplaced(field: Option<&FieldOf>, value: &Value) -> bool
    ensures { result ≡ is_misplaced (option_map (λ f. plain_field f.now) field.entry) (meant_by value.now) }
{
    match field {
        Some(field) => !is_of_sort(value, field.sort),
        None => false,
    }
}

/// The first failing condition, once a label is looked at.
#[tactic(auto, using(crate::proofs::Constants::label_noted))]
fn first_of_label(
    known: Option<Refusal>,
    field: Option<&FieldOf>,
    label: &Constant,
) -> Option<Refusal>
    ensures { result ≡ first_among known (failures_at (option_map (λ f. plain_field f.now) field.entry) (plain_constant label.now)) }
{
    let value = &label.value;
    let sorted = first_with(
        known,
        is_misplaced(field, value),
        Code::WrongSort,
        label.place,
    );
    let ranged = first_with(sorted, !is_in_range(value), Code::NumberRange, label.place);
    first_with(ranged, is_long(value), Code::TooMany, label.place)
}

/// The field of this number.
fn field_at(fields: &[FieldOf], number: usize) -> Option<&FieldOf>
    ensures { option_map (λ f. plain_field f.now) result ≡ slice_get (map plain_field fields.now) number }
{
    if number < fields.len() {
        Some(&fields[number])
    } else {
        None
    }
}

/// The first failing condition, once all labels of a tree are looked at.
pub(crate) fn first_of_labels(
    known: Option<Refusal>,
    fields: &[FieldOf],
    labels: &[Constant],
) -> Option<Refusal>
    ensures { result ≡ first_among known (label_failures (map plain_field fields.now) (map plain_constant labels.now)) }
{
    let mut first = known;
    'labels: for (number, label) in labels.iter().enumerate() {
        first = first_of_label(first, field_at(fields, number), label);
    }
    first
}

/// The value that a constant is.
fn value_of(alloc: Global, value: &Value) -> Result<fast_tree::Value, Memory>
    requires { is_kept_field (meant_by value.now) ≡ true }
    ensures { IfOk result (λ made. field_of made ≡ meant_by value.now) }
{
    match value {
        Value::Number(number) => Ok(fast_tree::Value::Int(*number as i64)),
        Value::Truth(truth) => Ok(fast_tree::Value::Bool(*truth)),
        Value::Text(text) => Ok(fast_tree::Value::Text(text.copy(alloc)?)),
    }
}

/// The label that constants are.
pub(crate) fn label_of(alloc: Global, labels: &[Constant]) -> Result<Label, Memory>
    requires { list_all (λ c. is_kept_field (meant_by c.value)) labels.now ≡ true }
    ensures { IfOk result (λ made. label_meaning made ≡ row (map (λ c. meant_by c.value) labels.now)) }
{
    let mut values = Vec::new(alloc);
    'labels: for label in labels {
        values.push(value_of(alloc, &label.value)?)?;
    }
    Ok(Label::new(values))
}
