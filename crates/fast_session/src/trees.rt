//! Trees that have names.

ghost use Rattle.std.specs.Prelude.{◌≡◌, List, Some, IfOk, IfErr, OnOk};
ghost use Rattle.model_tree.specs.Signature.{HasType};
ghost use Rattle.fast_syntax.specs.Plain.{plain_item, plain_tree, plain_x};
ghost use Rattle.model_grammar.specs.Syntax as plain;
ghost use Rattle.model_run.specs.Items.{IsComposable};
ghost use Rattle.model_meaning.specs.Meaning.{signature_named};
ghost use Rattle.model_meaning.specs.Values.{IsValue};
ghost use Rattle.model_run.specs.Outcomes.{Outcome, tree_line, trees_in};
ghost use Rattle.fast_eval.specs.Found.{IsInLimits};
ghost use Rattle.tree_values.specs.Owed.{OwesNothing};
ghost use Rattle.tree_values.specs.Trees.{meant, Adds, Tells};
ghost use Rattle.fast_session.specs.Answers.{line_outcome, stopped_value};
ghost use Rattle.fast_session.specs.Kept.{items_in, IsReady};
ghost use Rattle.fast_session.specs.Items.{IsBuiltMore, IsDone, IsStoppedAt};

use crate::answers::{Line, Stopped};
use crate::items::{Around, Kept};
use crate::stops::unvalued;
use fast_fault::Memory;
use fast_syntax::items::{Item, TreeItem};
use fast_tree::{Label, Tree};
use std::alloc::Global;
use tree_values::{Given, ValueStop, value};

/// The value of the item's expression.
fn value_of(
    alloc: Global,
    around: &Around,
    kept: &mut Kept,
    item: &Item,
    own: &TreeItem,
) -> Result<Tree<Label>, ValueStop>
    requires ready { IsReady around.now (plain_item item.now) kept.old }
    requires composable { IsComposable (items_in around.now) (plain_item item.now).body }
    requires is { (plain_item item.now).body ≡ plain.tree (plain_tree own.now) }
    ensures more { IsBuiltMore (items_in around.now) kept.old kept.new }
    ensures value { IfOk result (λ t. (done : List Outcome) → Tells kept.old.trees (trees_in done) → IsValue (items_in around.now) (trees_in done) (signature_named (items_in around.now) (Some own.now.of.text)) (plain_x own.now.value) (meant t)) }
    ensures owed { IfOk result (λ _. (done : List Outcome) → Tells kept.old.trees (trees_in done) → OwesNothing (items_in around.now) (trees_in done) (signature_named (items_in around.now) (Some own.now.of.text)) (plain_x own.now.value)) }
    ensures typed { IfOk result (λ t. HasType (signature_named (items_in around.now) (Some own.now.of.text)) (meant t)) }
    ensures limits { IfOk result (λ t. IsInLimits (meant t)) }
    ensures stop { IfErr result (λ s. IsStoppedAt (items_in around.now) around.now.limit (plain_item item.now) kept.old (stopped_value around.now.limit s)) }
{
    let given = Given {
        checked: around.checked,
        trees: &kept.trees,
        limit: around.limit,
    };
    value(alloc, &given, &mut kept.built, &own.of.text, &own.value)
}

/// Keeps the tree for its name, and gives its line.
fn print(alloc: Global, kept: &mut Kept, own: &TreeItem, tree: Tree<Label>) -> Result<Line, Memory>
    ensures line { IfOk result (λ line. (items : List plain.Item) → line_outcome items line ≡ tree_line own.now.name.text (signature_named items (Some own.now.of.text)) (meant tree)) }
    ensures added { OnOk result (Adds kept.old.trees kept.new.trees own.now.name.text (meant tree)) }
    ensures built { kept.new.built ≡ kept.old.built }
{
    let line = Line::Tree {
        name: own.name.text.copy(alloc)?,
        of: own.of.text.copy(alloc)?,
        tree: tree.copy(alloc)?,
    };
    kept.trees.add(alloc, &own.name.text, tree)?;
    Ok(line)
}

/// Evaluates the item's expression, keeps the tree for its name, and gives its line.
pub fn do_tree(
    alloc: Global,
    around: &Around,
    kept: &mut Kept,
    item: &Item,
    own: &TreeItem,
) -> Result<Line, Stopped>
    requires ready { IsReady around.now (plain_item item.now) kept.old }
    requires composable { IsComposable (items_in around.now) (plain_item item.now).body }
    requires is { (plain_item item.now).body ≡ plain.tree (plain_tree own.now) }
    ensures done { IfOk result (λ line. IsDone (items_in around.now) (plain_item item.now) kept.old kept.new (line_outcome (items_in around.now) line)) }
    ensures stopped { IfErr result (IsStoppedAt (items_in around.now) around.now.limit (plain_item item.now) kept.old) }
{
    match value_of(alloc, around, kept, item, own) {
        Ok(tree) => Ok(print(alloc, kept, own, tree)?),
        Err(stop) => Err(unvalued(around.limit, stop)),
    }
}
