//! What a name needs, built in the order of the items.

ghost use Rattle.std.specs.Prelude.{◌≡◌, ◌≤◌, true, Some, IfErr, OnOk};
ghost use Rattle.std.specs.List.{Contains};
ghost use Rattle.std.specs.Str.{chars};
ghost use Rattle.model_tree.specs.Limits.{most_classes};
ghost use Rattle.fast_syntax.specs.Plain.{plain_item};
ghost use Rattle.model_grammar.specs.Syntax as plain;
ghost use Rattle.model_names.specs.Kinds.{Kind};
ghost use Rattle.model_program.specs.Syntax.{Name};
ghost use Rattle.model_names.specs.Declared.{own_name};
ghost use Rattle.model_run.specs.Items.{IsComposable};
ghost use Rattle.model_run.specs.Report.{AreNeededComposable};
ghost use Rattle.model_run.specs.Texts.{IsNameOf};
ghost use Rattle.fast_eval.specs.Forms.{IsReadyName};
ghost use Rattle.fast_eval.specs.Defined.{IsDefined, AreDefinedOf};
ghost use Rattle.fast_eval.specs.Table.{AreBuilt};
ghost use Rattle.fast_session.specs.Items.{IsBuiltMore};
ghost use Rattle.fast_session.specs.Kept.{items_in};
ghost use Rattle.fast_session.specs.Needed.{AreClosedFrom, AreComposableOf, IsBuildable, IsHaltAmong, IsHaltNeeded};

use crate::answers::{Halt, halt_at};
use crate::compositions::can_compose;
use crate::items::{Around, Kept};
use crate::needed::{names_for, own_def, own_name};
use crate::stops::stopped;
use fast_eval::define;
use fast_fault::Text;
use fast_syntax::items::Item;
use indexmap::IndexSet;
use std::alloc::Global;

/// Asks whether the compositions of the item can be made, if it has one of the names, and builds its language or transformation, if
/// it is a definition.
fn build(
    alloc: Global,
    around: &Around,
    kept: &mut Kept,
    names: &IndexSet<Text>,
    item: &Item,
) -> Result<(), Halt>
    requires { IsBuildable around.now names.now.keys (plain_item item.now) kept.old }
    ensures more { IsBuiltMore (items_in around.now) kept.old kept.new }
    ensures composable { OnOk result ((own : Name) → own_name (plain_item item.now).body ≡ Some own → Contains names.now.keys own.text → IsComposable (items_in around.now) (plain_item item.now).body) }
    ensures named { OnOk result ((d : plain.DefItem) → (plain_item item.now).body ≡ plain.def d → Contains names.now.keys d.name.text → IsDefined kept.new.built d) }
    ensures halt { IfErr result (IsHaltAmong (items_in around.now) around.now.limit names.now.keys) }
{
    let Some(name) = own_name(item) else {
        return Ok(());
    };
    if !names.contains(name) {
        return Ok(());
    }
    if let Err(stop) = can_compose(alloc, around, item) {
        return Err(halt_at(item.place, stop));
    }
    let Some(own) = own_def(item) else {
        return Ok(());
    };
    match define(alloc, around.checked, &mut kept.built, around.limit, own) {
        Ok(_) => Ok(()),
        Err(stop) => Err(halt_at(item.place, stopped(around.limit, stop))),
    }
}

/// Builds the languages and transformations of the definitions with these names; the compositions of each item with one of them can
/// be made.
fn build_each(
    alloc: Global,
    around: &Around,
    kept: &mut Kept,
    names: &IndexSet<Text>,
) -> Result<(), Halt>
    requires shallow { around.now.limit ≤ most_classes }
    requires built { AreBuilt (items_in around.now) kept.old.built }
    requires closed { AreClosedFrom (items_in around.now) 0 names.now.keys }
    ensures more { IsBuiltMore (items_in around.now) kept.old kept.new }
    ensures composable { OnOk result (AreComposableOf (items_in around.now) (Contains names.now.keys) (items_in around.now)) }
    ensures defined { OnOk result (AreDefinedOf (Contains names.now.keys) kept.new.built (items_in around.now)) }
    ensures halt { IfErr result (IsHaltAmong (items_in around.now) around.now.limit names.now.keys) }
{
    let items = around.checked.program().items.as_slice();
    'items: for item in items {
        build(alloc, around, kept, names, item)?;
    }
    Ok(())
}

/// Builds what the name needs.
pub fn prepare(alloc: Global, around: &Around, kept: &mut Kept, name: &str) -> Result<(), Halt>
    requires shallow { around.now.limit ≤ most_classes }
    requires built { AreBuilt (items_in around.now) kept.old.built }
    ensures more { IsBuiltMore (items_in around.now) kept.old kept.new }
    ensures composable { OnOk result (AreNeededComposable (items_in around.now) (chars name.now)) }
    ensures known { OnOk result ((kind : Kind) → IsNameOf (items_in around.now) kind (chars name.now) → IsReadyName kind (items_in around.now) kept.new.built (chars name.now)) }
    ensures halt { IfErr result (IsHaltNeeded (items_in around.now) around.now.limit (chars name.now)) }
{
    let name = Text::of(alloc, name)?;
    let names = names_for(alloc, around.checked, &name)?;
    build_each(alloc, around, kept, &names)
}
