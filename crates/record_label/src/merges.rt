//! Labels of fields of several sorts from their whole numbers, truth values and texts.

ghost use Rattle.std.specs.Prelude.{◌≡◌, ◌≤◌, IfOk, length, map};
ghost use Rattle.model_tree.specs.Limits.{most_fields};
ghost use Rattle.model_tree.specs.Label.{row};
ghost use Rattle.fast_tree.specs.Entries.{label_meaning};
ghost use Rattle.fast_tree.specs.Signatures.{plain_sort};
ghost use Rattle.record_label.specs.Rows.{count_of, merged, AreAsMany};

use fast_fault::{LabelInt, Memory, Text};
use fast_tree::{Label, Sort, Value};
use std::alloc::Global;

/// How many of the sorts are this one.
pub fn count(sorts: &[Sort], sort: Sort) -> u32
    requires { length sorts.now ≤ most_fields }
    ensures count { result ≡ count_of (plain_sort sort) (map plain_sort sorts.now) }
    ensures few { result ≤ most_fields }
{
    let mut count = 0;
    for other in sorts {
        if *other == sort {
            count += 1;
        }
    }
    count
}

/// The label of fields of these sorts with these whole numbers, truth values and texts, in their order.
pub fn merge(
    alloc: Global,
    sorts: &[Sort],
    mut numbers: Vec<LabelInt>,
    mut truths: Vec<bool>,
    mut texts: Vec<Text>,
) -> Result<Label, Memory>
    requires { AreAsMany (map plain_sort sorts.now) numbers.items truths.items texts.items }
    ensures { IfOk result (λ label. label_meaning label ≡ row (merged (map plain_sort sorts.now) numbers.items truths.items texts.items)) }
{
    let mut values = Vec::new(alloc);
    for sort in sorts {
        let value = match sort {
            Sort::Int => Value::Int(numbers.remove(0)),
            Sort::Bool => Value::Bool(truths.remove(0)),
            Sort::Text => Value::Text(texts.remove(0)),
        };
        values.push(value)?;
    }
    Ok(Label::new(values))
}
