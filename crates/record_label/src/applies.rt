//! What a map makes of a label.

ghost use Rattle.std.specs.Prelude.{IfOk, map};
ghost use Rattle.model_tree.specs.Label.{whole};
ghost use Rattle.label_core.specs.Maps.{IsMade};
ghost use Rattle.fast_tree.specs.Entries.{entries_of, field_of, label_meaning};
ghost use Rattle.record_label.specs.Rows.{KeepsSorts};
ghost use Rattle.record_label.specs.Maps.{made_by, made, EntryFits, EntriesFit};
ghost use Rattle.record_label.specs.PlainMaps.{plain_entry, IsMadeField};

use crate::maps::{RowEntry, RowMap};
use crate::reads::side_text;
use crate::rows::RowLabels;
use fast_fault::{LabelInt, Memory};
use fast_tree::{Label, Value};
use label_core::Applied;
use std::alloc::Global;

/// A whole number of a label that is made.
fn made_number(number: i128) -> Applied<Value>
    ensures { IsMadeField (whole number) result }
{
    if number < i64::MIN as i128 || number > i64::MAX as i128 {
        return Applied::Range(number);
    }
    Applied::Value(Value::Int(number as LabelInt))
}

/// What the entry makes of the value's label.
fn made_entry(
    alloc: Global,
    theory: &RowLabels,
    entry: &RowEntry,
    value: &Label,
) -> Result<Applied<Value>, Memory>
    requires fits { EntryFits theory.now (plain_entry entry.now) }
    requires value { KeepsSorts theory.now (label_meaning value.now) }
    ensures { IfOk result (IsMadeField (made_by (map field_of (entries_of value.now)) (plain_entry entry.now))) }
{
    match entry {
        RowEntry::Number(form) => Ok(made_number(form.eval(&theory.numbers(value)))),
        RowEntry::Truth(formula) => {
            let truth = formula.holds(theory, value);
            Ok(Applied::Value(Value::Bool(truth)))
        }
        RowEntry::Text(side) => match side_text(side, value.values()) {
            Some(text) => Ok(Applied::Value(Value::Text(text.copy(alloc)?))),
            None => unreachable!(),
        },
    }
}

impl RowMap {
    /// What the map makes of the value's label; or a whole number of the label made that doesn't have 64 bits.
    pub fn apply(
        &self,
        alloc: Global,
        theory: &RowLabels,
        value: &Label,
    ) -> Result<Applied<Label>, Memory>
        requires fits { EntriesFit theory.now (map plain_entry self.now.entries.items) }
        requires value { KeepsSorts theory.now (label_meaning value.now) }
        ensures { IfOk result (IsMade label_meaning (made (map plain_entry self.now.entries.items) (label_meaning value.now))) }
    {
        let mut values = Vec::new(alloc);
        for entry in &self.entries {
            match made_entry(alloc, theory, entry, value)? {
                Applied::Value(made) => values.push(made)?,
                Applied::Range(number) => return Ok(Applied::Range(number)),
            }
        }
        Ok(Applied::Value(Label::new(values)))
    }
}
