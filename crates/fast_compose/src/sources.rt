//! The names of transformations of which an expression is made.

ghost use Rattle.std.specs.Prelude.{◌≡◌, ◌<◌, Some, None, IfOk, OnOk, MatchOption, get_or, length, []};
ghost use Rattle.fast_syntax.specs.Plain.{plain_x};
ghost use Rattle.model_meaning.specs.Reached.{definition_of};
ghost use Rattle.fast_build.specs.Items.{items_of};
ghost use Rattle.fast_build.specs.Reached.{IsGrown};
ghost use Rattle.fast_compose.specs.Sources.{sources_in, opened_by, AreDeclared, AreSources};

use fast_build::add_name;
use fast_fault::{Memory, Text};
use fast_syntax::items::{Body, X};
use indexmap::IndexSet;
use model_grammar::Op2;
use program_check::Checked;
use std::alloc::Global;

/// Adds the names of transformations in the expression: of both parts of a composition, and of what a restriction restricts.
fn add_sources(alloc: Global, x: &X, names: &mut IndexSet<Text>) -> Result<(), Memory>
    ensures { OnOk result (IsGrown names.old.keys names.new.keys (sources_in (plain_x x.now))) }
{
    match x {
        X::Named(name) => add_name(alloc, &name.text, names),
        X::Two(Op2::Compose, _, first, second) => {
            add_sources(alloc, first, names)?;
            add_sources(alloc, second, names)
        }
        X::Two(Op2::Restrict | Op2::RestrictOut, _, inside, _) => {
            add_sources(alloc, inside, names)
        }
        X::One(..) | X::Two(..) | X::Literal(..) => Ok(()),
    }
}

/// The expression of the definition of this name.
fn value<'c>(checked: &'c Checked, name: &Text) -> Option<&'c X>
    ensures { MatchOption result (definition_of (items_of checked.now) name.now ≡ None) (λ x. definition_of (items_of checked.now) name.now ≡ Some (plain_x x.now)) }
{
    let Some(item) = checked.item(name) else {
        return None;
    };
    match &item.body {
        Body::Def(own) => Some(&own.value),
        _ => None,
    }
}

/// Adds the names in the expression of the definition whose name stands at this place.
fn open(
    alloc: Global,
    checked: &Checked,
    place: usize,
    names: &mut IndexSet<Text>,
) -> Result<(), Memory>
    requires low { place < length names.old.keys }
    ensures { OnOk result (IsGrown names.old.keys names.new.keys (opened_by (items_of checked.now) (get_or names.old.keys place []))) }
{
    match value(checked, &names.as_slice()[place]) {
        None => Ok(()),
        Some(own) => add_sources(alloc, own, names),
    }
}

/// The names of transformations in the expression and in those of the definitions among them. Each definition is opened once.
pub fn all_sources(alloc: Global, checked: &Checked, x: &X) -> Result<IndexSet<Text>, Memory>
    requires declared { AreDeclared (items_of checked.now) (sources_in (plain_x x.now)) }
    ensures { IfOk result (λ names. AreSources (items_of checked.now) (plain_x x.now) names.keys) }
{
    let mut names = IndexSet::new(alloc);
    add_sources(alloc, x, &mut names)?;
    let mut done = 0;
    'open: while done < names.len() {
        open(alloc, checked, done, &mut names)?;
        done += 1;
    }
    Ok(names)
}
