//! Rules that use a child twice.

ghost use Rattle.std.specs.Prelude.{◌≡◌, ◌<◌, ◌↔◌, ◌^◌, ℕ, List, [], ◌∷◌, true, Some, IfOk, slice_get};
ghost use Rattle.std.specs.List.{Contains};
ghost use Rattle.fast_syntax.specs.Plain.{plain_out, plain_out_rule};
ghost use Rattle.model_grammar.specs.Syntax.{Item};
ghost use Rattle.model_names.specs.Declared.{out_rules_of};
ghost use Rattle.model_meaning.specs.Reached.{Reaches};
ghost use Rattle.model_run.specs.Plain.{NamesTwice};
ghost use Rattle.model_run.specs.Plain as run;
ghost use Rattle.fast_build.specs.Items.{items_of};
ghost use Rattle.fast_compose.specs.Copying.{uses_in, Repeats, earlier_of, IsFirst};

use crate::stops::Copying;
use fast_build::{trans, transformation};
use fast_fault::{Memory, Pos, Text};
use fast_syntax::items::{Out, OutRule};
use indexmap::IndexSet;
use program_check::Checked;
use std::alloc::Global;

/// A rule that uses a child twice, and where its constructor stands.
#[derive(Drop)]
pub struct Placed {
    pub copying: Copying,
    pub place: Pos,
}

/// Whether the variable is seen already. Else it is seen now.
fn is_seen(alloc: Global, variable: &Text, seen: &mut IndexSet<Text>) -> Result<bool, Memory>
    ensures { IfOk result (λ again. Repeats again seen.old.keys seen.new.keys (variable.now ∷ [])) }
{
    if seen.contains(variable) {
        return Ok(true);
    }
    seen.insert(variable.copy(alloc)?)?;
    Ok(false)
}

/// Whether a variable stands twice in the term, or is seen already. Else those of the term are seen now.
fn repeats(alloc: Global, out: &Out, seen: &mut IndexSet<Text>) -> Result<bool, Memory>
    ensures { IfOk result (λ again. Repeats again seen.old.keys seen.new.keys (uses_in (plain_out out.now))) }
{
    match out {
        Out::Child(child) => is_seen(alloc, &child.text, seen),
        Out::Call(_, child) => is_seen(alloc, &child.text, seen),
        Out::Node(_, _, parts) => {
            'parts: for part in parts {
                if repeats(alloc, part, seen)? {
                    return Ok(true);
                }
            }
            Ok(false)
        }
    }
}

/// Whether the term uses a child twice.
fn copies(alloc: Global, out: &Out) -> Result<bool, Memory>
    ensures { IfOk result (λ twice. (twice ≡ true) ↔ ((v : List ℕ) × NamesTwice (plain_out out.now) v)) }
{
    let mut seen = IndexSet::new(alloc);
    repeats(alloc, out, &mut seen)
}

/// The rule at this place of the transformation of this name, if it uses a child twice.
fn copying_at(
    alloc: Global,
    name: &Text,
    place: usize,
    rule: &OutRule,
) -> Result<Option<Placed>, Memory>
    requires low { place < 2 ^ 32 }
    ensures { IfOk result (λ found. (items : List Item) → slice_get (out_rules_of items name.now) place ≡ Some (plain_out_rule rule.now) → IsFirst items (λ q i. (q ≡ name.now) × (i ≡ place)) found) }
{
    if !copies(alloc, &rule.out)? {
        return Ok(None);
    }
    let copying = Copying {
        name: name.copy(alloc)?,
        rule: place as u32,
    };
    Ok(Some(Placed {
        copying,
        place: rule.rule.ctor.place,
    }))
}

fn is_before(place: Pos, other: Pos) -> bool
    ensures { result ≡ run.is_before place other }
{
    place.line < other.line || (place.line == other.line && place.column < other.column)
}

/// The one of two whose constructor stands first.
fn earlier(found: Option<Placed>, other: Option<Placed>) -> Option<Placed>
    ensures { result ≡ earlier_of found other }
{
    let Some(other) = other else {
        return found;
    };
    let Some(found) = found else {
        return Some(other);
    };
    if is_before(other.place, found.place) {
        Some(other)
    } else {
        Some(found)
    }
}

/// Of the rules of the transformation of this name that use a child twice, the one whose constructor stands first.
fn first_of_rules(alloc: Global, checked: &Checked, name: &Text) -> Result<Option<Placed>, Memory>
    ensures { IfOk result (IsFirst (items_of checked.now) (λ q i. q ≡ name.now)) }
{
    let Some(own) = trans(checked, name) else {
        return Ok(None);
    };
    let mut first = None;
    'rules: for (place, rule) in own.rules.iter().enumerate() {
        let found = copying_at(alloc, name, place, rule)?;
        first = earlier(first, found);
    }
    Ok(first)
}

/// The same of all transformations that the name reaches.
fn first_reached(alloc: Global, checked: &Checked, name: &Text) -> Result<Option<Placed>, Memory>
    ensures { IfOk result (IsFirst (items_of checked.now) (λ q i. Reaches (items_of checked.now) name.now q)) }
{
    if trans(checked, name).is_none() {
        return Ok(None);
    }
    let built = transformation(alloc, checked, name)?;
    let mut first = None;
    'reached: for own in built.names.as_slice() {
        let found = first_of_rules(alloc, checked, own)?;
        first = earlier(first, found);
    }
    Ok(first)
}

/// The same of all that one of these names reaches.
pub fn first_copying(
    alloc: Global,
    checked: &Checked,
    names: &IndexSet<Text>,
) -> Result<Option<Placed>, Memory>
    ensures { IfOk result (IsFirst (items_of checked.now) (λ q i. (n : List ℕ) × Contains names.now.keys n × Reaches (items_of checked.now) n q)) }
{
    let mut first = None;
    'names: for name in names.as_slice() {
        let found = first_reached(alloc, checked, name)?;
        first = earlier(first, found);
    }
    Ok(first)
}
