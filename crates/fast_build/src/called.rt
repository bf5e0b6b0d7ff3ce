//! The transformations that a transformation reaches.

ghost use Rattle.std.specs.Prelude.{◌≡◌, [], ◌∷◌, IfOk, OnOk, map, true, is_some};
ghost use Rattle.fast_syntax.specs.Plain.{plain_out, plain_out_rule};
ghost use Rattle.fast_build.specs.Items.{items_of};
ghost use Rattle.fast_build.specs.Transformations.{find_trans};
ghost use Rattle.fast_build.specs.Reached.{IsGrown};
ghost use Rattle.fast_build.specs.Called.{called_by, called_in, IsCalled};

use crate::named::trans;
use crate::reached::add_name;
use fast_fault::{Memory, Text};
use fast_syntax::items::{Out, OutRule, TransItem};
use indexmap::IndexSet;
use program_check::Checked;
use std::alloc::Global;

/// The transformations that a transformation reaches, in the order in which they are met, itself first: their names, and at
/// the same places their declarations.
#[derive(Drop)]
pub struct Called<'p> {
    pub names: IndexSet<Text>,
    pub transformations: Vec<&'p TransItem>,
}

/// Adds the transformations that the term calls.
fn add_called(alloc: Global, out: &Out, names: &mut IndexSet<Text>) -> Result<(), Memory>
    ensures { OnOk result (IsGrown names.old.keys names.new.keys (called_by (plain_out out.now))) }
{
    match out {
        Out::Child(_) => {}
        Out::Call(name, _) => add_name(alloc, &name.text, names)?,
        Out::Node(_, _, parts) => {
            'parts: for part in parts {
                add_called(alloc, part, names)?;
            }
        }
    }
    Ok(())
}

/// Adds the transformations that the rules call.
fn add_calls(alloc: Global, rules: &[OutRule], names: &mut IndexSet<Text>) -> Result<(), Memory>
    ensures { OnOk result (IsGrown names.old.keys names.new.keys (called_in (map plain_out_rule rules.now))) }
{
    'calls: for rule in rules {
        add_called(alloc, &rule.out, names)?;
    }
    Ok(())
}

/// The transformations that the transformation of this name reaches.
pub fn reach_calls<'p>(
    alloc: Global,
    checked: &'p Checked,
    name: &Text,
) -> Result<Called<'p>, Memory>
    requires there { is_some (find_trans (items_of checked.now) name.now) ≡ true }
    ensures { IfOk result (λ called. IsCalled (items_of checked.now) name.now called) }
{
    let mut names = IndexSet::new(alloc);
    add_name(alloc, name, &mut names)?;
    let mut transformations = Vec::new(alloc);
    'reach: while transformations.len() < names.len() {
        let Some(own) = trans(checked, &names.as_slice()[transformations.len()]) else {
            unreachable!()
        };
        add_calls(alloc, &own.rules, &mut names)?;
        transformations.push(own)?;
    }
    Ok(Called {
        names,
        transformations,
    })
}
