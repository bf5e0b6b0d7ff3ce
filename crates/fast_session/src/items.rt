//! Items, each done with what is kept of those before it.

ghost use Rattle.std.specs.Prelude.{◌≡◌, List, IfOk, IfErr};
ghost use Rattle.fast_syntax.specs.Plain.{plain_item, plain_def};
ghost use Rattle.model_grammar.specs.Syntax as plain;
ghost use Rattle.model_run.specs.Items.{IsComposable};
ghost use Rattle.fast_eval.specs.Counted.{outcome_of};
ghost use Rattle.fast_session.specs.Answers.{given};
ghost use Rattle.fast_session.specs.Kept.{items_in, IsReady};
ghost use Rattle.fast_session.specs.Items.{IsDone, IsStoppedAt};

use crate::answers::{Line, Stopped};
use crate::compositions::can_compose;
use crate::stops::stopped;
use crate::trees::do_tree;
use crate::verdicts::do_assertion;
use fast_eval::{Built, define};
use fast_fault::{Memory, Text};
use fast_syntax::items::{Body, DefItem, Item};
use program_check::Checked;
use std::alloc::Global;
use tree_values::Trees;

/// The program, and how many trees may be told apart.
#[derive(Drop)]
pub struct Around<'s> {
    pub checked: &'s Checked,
    pub limit: u32,
}

/// What is kept of items that are done: what was built for names, and the trees that have names.
#[derive(Drop)]
pub struct Kept {
    pub built: Built,
    pub trees: Trees,
}

/// The line of a definition, by the size of a least automaton that it asks for.
fn line_of(alloc: Global, name: &Text, count: Option<u32>) -> Result<Option<Line>, Memory>
    ensures { IfOk result (λ line. (items : List plain.Item) → given items line ≡ outcome_of name.now count) }
{
    let Some(count) = count else {
        return Ok(None);
    };
    let name = name.copy(alloc)?;
    Ok(Some(Line::Minimal { name, count }))
}

/// Builds the language or transformation of a definition.
fn do_def(
    alloc: Global,
    around: &Around,
    kept: &mut Kept,
    item: &Item,
    own: &DefItem,
) -> Result<Option<Line>, Stopped>
    requires ready { IsReady around.now (plain_item item.now) kept.old }
    requires composable { IsComposable (items_in around.now) (plain_item item.now).body }
    requires is { (plain_item item.now).body ≡ plain.def (plain_def own.now) }
    ensures done { IfOk result (λ line. IsDone (items_in around.now) (plain_item item.now) kept.old kept.new (given (items_in around.now) line)) }
    ensures stopped { IfErr result (IsStoppedAt (items_in around.now) around.now.limit (plain_item item.now) kept.old) }
{
    match define(alloc, around.checked, &mut kept.built, around.limit, own) {
        Ok(count) => Ok(line_of(alloc, &own.name.text, count)?),
        Err(stop) => Err(stopped(around.limit, stop)),
    }
}

/// Does an item whose compositions can be made, and gives its line if it has one.
fn do_ready(
    alloc: Global,
    around: &Around,
    kept: &mut Kept,
    item: &Item,
) -> Result<Option<Line>, Stopped>
    requires ready { IsReady around.now (plain_item item.now) kept.old }
    requires composable { IsComposable (items_in around.now) (plain_item item.now).body }
    ensures done { IfOk result (λ line. IsDone (items_in around.now) (plain_item item.now) kept.old kept.new (given (items_in around.now) line)) }
    ensures stopped { IfErr result (IsStoppedAt (items_in around.now) around.now.limit (plain_item item.now) kept.old) }
{
    match &item.body {
        Body::Sorts(_) | Body::Lang(_) | Body::Trans(_) => Ok(None),
        Body::Def(own) => do_def(alloc, around, kept, item, own),
        Body::Tree(own) => Ok(Some(do_tree(alloc, around, kept, item, own)?)),
        Body::Assert(own) => Ok(Some(do_assertion(alloc, around, kept, item, own)?)),
    }
}

/// Does an item, and gives its line if it has one.
pub fn do_item(
    alloc: Global,
    around: &Around,
    kept: &mut Kept,
    item: &Item,
) -> Result<Option<Line>, Stopped>
    requires ready { IsReady around.now (plain_item item.now) kept.old }
    ensures done { IfOk result (λ line. IsDone (items_in around.now) (plain_item item.now) kept.old kept.new (given (items_in around.now) line)) }
    ensures stopped { IfErr result (IsStoppedAt (items_in around.now) around.now.limit (plain_item item.now) kept.old) }
{
    can_compose(alloc, around, item)?;
    do_ready(alloc, around, kept, item)
}
