//! The names that a name needs.

ghost use Rattle.std.specs.Prelude.{◌≡◌, true, OnOk, IfOk};
ghost use Rattle.std.specs.Option.{option_map};
ghost use Rattle.fast_syntax.specs.Plain.{plain_x, plain_def, plain_item};
ghost use Rattle.model_grammar.specs.Syntax as plain;
ghost use Rattle.model_program.specs.Syntax.{Name};
ghost use Rattle.model_names.specs.Declared.{own_name};
ghost use Rattle.meaning_laws.specs.Shapes.{has_automaton_shape};
ghost use Rattle.fast_build.specs.Items.{items_of};
ghost use Rattle.fast_build.specs.Reached.{IsGrown};
ghost use Rattle.fast_session.specs.Needed.{own_def, names_in, IsFollowed, AreNeeded};

use fast_build::add_name;
use fast_fault::{Memory, Text};
use fast_syntax::items::{Body, DefItem, Item, X};
use indexmap::IndexSet;
use program_check::Checked;
use std::alloc::Global;

/// Adds the names in the expression.
fn add_names(alloc: Global, x: &X, names: &mut IndexSet<Text>) -> Result<(), Memory>
    requires { has_automaton_shape (plain_x x.now) ≡ true }
    ensures { OnOk result (IsGrown names.old.keys names.new.keys (names_in (plain_x x.now))) }
{
    match x {
        X::Named(name) => add_name(alloc, &name.text, names),
        X::One(_, _, inside) => add_names(alloc, inside, names),
        X::Two(_, _, first, second) => {
            add_names(alloc, first, names)?;
            add_names(alloc, second, names)
        }
        X::Literal(..) => unreachable!(),
    }
}

/// The name that the item declares for a tree, a language or a transformation.
pub fn own_name(item: &Item) -> Option<&Text>
    ensures { option_map (λ t. t.now) result ≡ option_map (λ (n : Name). n.text) (own_name (plain_item item.now).body) }
{
    match &item.body {
        Body::Tree(own) => Some(&own.name.text),
        Body::Lang(own) => Some(&own.name.text),
        Body::Trans(own) => Some(&own.name.text),
        Body::Def(own) => Some(&own.name.text),
        Body::Sorts(_) | Body::Assert(_) => None,
    }
}

/// The definition that the item is.
pub fn own_def(item: &Item) -> Option<&DefItem>
    ensures { option_map (λ d. plain_def d.now) result ≡ own_def (plain_item item.now).body }
{
    match &item.body {
        Body::Def(own) => Some(own),
        Body::Sorts(_) | Body::Tree(_) | Body::Lang(_) | Body::Trans(_) | Body::Assert(_) => None,
    }
}

/// Adds the names in the item's expression, if it is a definition whose name is there.
fn follow(alloc: Global, item: &Item, names: &mut IndexSet<Text>) -> Result<(), Memory>
    requires { (d : plain.DefItem) → (plain_item item.now).body ≡ plain.def d → has_automaton_shape d.value ≡ true }
    ensures { OnOk result (IsFollowed (plain_item item.now).body names.old.keys names.new.keys) }
{
    let Some(own) = own_def(item) else {
        return Ok(());
    };
    if !names.contains(&own.name.text) {
        return Ok(());
    }
    add_names(alloc, &own.value, names)
}

/// The name, and the names on which it depends as far as definitions lead.
pub fn names_for(alloc: Global, checked: &Checked, name: &Text) -> Result<IndexSet<Text>, Memory>
    ensures { IfOk result (λ names. AreNeeded (items_of checked.now) name.now names.keys) }
{
    let items = checked.program().items.as_slice();
    let mut names = IndexSet::new(alloc);
    add_name(alloc, name, &mut names)?;
    let mut left = items.len();
    'items: while left > 0 {
        left -= 1;
        follow(alloc, &items[left], &mut names)?;
    }
    Ok(names)
}
