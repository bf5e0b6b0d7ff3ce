//! Values of tree expressions.

ghost use Rattle.std.specs.Prelude.{◌≡◌, ◌≤◌, ℕ, List, Some, IfOk, IfErr, is_some, true};
ghost use Rattle.fast_syntax.specs.Plain.{plain_x};
ghost use Rattle.model_tree.specs.Limits.{most_nodes};
ghost use Rattle.model_tree.specs.Tree.{LabelTree};
ghost use Rattle.model_tree.specs.Signature.{PlainSignature, HasType};
ghost use Rattle.model_grammar.specs.Syntax as plain;
ghost use Rattle.model_grammar.specs.declared.Op2.TheVariants.{Apply};
ghost use Rattle.model_meaning.specs.Meaning.{output_type};
ghost use Rattle.model_meaning.specs.Values.{Printed, IsValue};
ghost use Rattle.fast_eval.specs.Forms.{AreKnown, IsMadeOn, IsMadeFrom, IsTransKnown};
ghost use Rattle.fast_eval.specs.Found.{IsInLimits};
ghost use Rattle.fast_eval.specs.Table.{IsGrown, AreBuilt};
ghost use Rattle.tree_values.specs.Forms.{IsTreeOn, IsTreeKnown};
ghost use Rattle.tree_values.specs.Nodes.{IsBegun};
ghost use Rattle.tree_values.specs.Owed.{OwesNothing};
ghost use Rattle.tree_values.specs.Stops.{IsValueStop, IsStopTyped};
ghost use Rattle.tree_values.specs.Trees.{meant, tree_at, Tells};
ghost use Rattle.tree_values.specs.Values.{items_in, type_in, IsGiven, IsHeld, HasLeast, IsFindStop, HasValue};

use crate::applied::only_output;
use crate::nodes::{Begun, OpenNode, closed, grown, opened};
use crate::sizes::{Measured, copied, left, measure};
use crate::stops::ValueStop;
use crate::trees::Trees;
use fast_eval::{Built, ends_of, witness};
use fast_fault::{Memory, Text};
use fast_syntax::items::X;
use fast_tree::{Label, Tree};
use model_grammar::Op1;
use program_check::Checked;
use sta_ops::Found;
use std::alloc::Global;
use sttr_apply::MOST_NODES;

/// What tree expressions are evaluated with.
#[derive(Drop)]
pub struct Given<'s> {
    pub checked: &'s Checked,
    /// The trees that were printed for earlier items.
    pub trees: &'s Trees,
    /// How many trees may be told apart.
    pub limit: u32,
}

/// The tree that was printed under the name, if there is room for it.
fn named(alloc: Global, given: &Given, room: u64, name: &Text) -> Result<Option<Measured>, Memory>
    requires given { IsGiven given.now }
    requires known { is_some (tree_at given.now.trees.now name.now) ≡ true }
    ensures { IfOk result (λ v. (t : LabelTree) → tree_at given.now.trees.now name.now ≡ Some t → IsHeld room t v) }
{
    let Some(tree) = given.trees.at(name) else {
        unreachable!()
    };
    copied(alloc, room, tree)
}

/// A least tree of the language, if there is room for it.
fn found(
    alloc: Global,
    given: &Given,
    built: &mut Built,
    room: u64,
    x: &X,
) -> Result<Option<Measured>, ValueStop>
    requires given { IsGiven given.now }
    requires built { AreBuilt (items_in given.now) built.old }
    requires made { (type : List ℕ) × IsMadeOn (items_in given.now) type (plain_x x.now) }
    requires known { AreKnown (items_in given.now) built.old (plain_x x.now) }
    ensures built { AreBuilt (items_in given.now) built.new }
    ensures grown { IsGrown built.old built.new }
    ensures found { IfOk result (HasLeast (items_in given.now) (plain_x x.now) room) }
    ensures stop { IfErr result (IsFindStop (items_in given.now) (plain_x x.now) given.now.limit) }
{
    match witness(alloc, given.checked, built, given.limit, x)? {
        Found::Absent => Err(ValueStop::NoTree),
        Found::Shown(tree) => Ok(measure(room, tree)),
        Found::TooBig => Err(ValueStop::TooLarge),
    }
}

/// A value of the expression, if there is room for it. Open literals stand in a list, so literals within one another take no
/// stack.
#[cycle(evaluate)]
fn evaluate(
    alloc: Global,
    given: &Given,
    built: &mut Built,
    of: &Text,
    room: u64,
    x: &X,
) -> Result<Option<Measured>, ValueStop>
    requires given { IsGiven given.now }
    requires built { AreBuilt (items_in given.now) built.old }
    requires made { IsTreeOn (items_in given.now) of.now (plain_x x.now) }
    requires known { IsTreeKnown (items_in given.now) given.now.trees.now built.old (plain_x x.now) }
    requires small { room ≤ most_nodes }
    ensures built { AreBuilt (items_in given.now) built.new }
    ensures grown { IsGrown built.old built.new }
    ensures value { IfOk result (λ v. (printed : List Printed) → Tells given.now.trees.now printed → HasValue (items_in given.now) printed (type_in given.now of.now) (plain_x x.now) room v) }
    ensures stop { IfErr result (λ s. (printed : List Printed) → Tells given.now.trees.now printed → IsValueStop (items_in given.now) printed given.now.limit (type_in given.now of.now) (plain_x x.now) s) }
    ensures shown { IfErr result (IsStopTyped (items_in given.now)) }
{
    let mut around = Vec::new(alloc);
    let mut here = begin(alloc, given, built, of, room, x)?;
    'nodes: loop {
        match here {
            Begun::Part(node) => match node.rest.split_first() {
                Some((next, rest)) => {
                    let space = left(node.room, &node.below);
                    around.push(OpenNode { rest, ..node })?;
                    here = begin(alloc, given, built, of, space, next)?;
                }
                None => here = Begun::Whole(closed(alloc, given.checked, of, node)?),
            },
            Begun::Whole(value) => {
                let Some(node) = around.pop() else {
                    return Ok(value);
                };
                here = Begun::Part(grown(node, value)?);
            }
        }
    }
}

/// A value of the expression, if there is room for it; or of a literal what it is before its first child.
#[cycle(evaluate)]
fn begin<'x>(
    alloc: Global,
    given: &Given,
    built: &mut Built,
    of: &Text,
    room: u64,
    x: &'x X,
) -> Result<Begun<'x>, ValueStop>
    requires given { IsGiven given.now }
    requires built { AreBuilt (items_in given.now) built.old }
    requires made { IsTreeOn (items_in given.now) of.now (plain_x x.now) }
    requires known { IsTreeKnown (items_in given.now) given.now.trees.now built.old (plain_x x.now) }
    requires small { room ≤ most_nodes }
    ensures built { AreBuilt (items_in given.now) built.new }
    ensures grown { IsGrown built.old built.new }
    ensures begun { IfOk result (IsBegun given.now of.now (plain_x x.now) room) }
    ensures stop { IfErr result (λ s. (printed : List Printed) → Tells given.now.trees.now printed → IsValueStop (items_in given.now) printed given.now.limit (type_in given.now of.now) (plain_x x.now) s) }
    ensures shown { IfErr result (IsStopTyped (items_in given.now)) }
{
    match x {
        X::Named(name) => Ok(Begun::Whole(named(alloc, given, room, &name.text)?)),
        X::One(_, _, inside) => Ok(Begun::Whole(found(alloc, given, built, room, inside)?)),
        X::Two(_, _, f, inside) => Ok(Begun::Whole(apply(alloc, given, built, room, f, inside)?)),
        X::Literal(name, labels, xs) => Ok(Begun::Part(opened(alloc, room, name, labels, xs))),
    }
}

/// The only output of a value of the expression, if there is room for it.
#[cycle(evaluate)]
fn apply(
    alloc: Global,
    given: &Given,
    built: &mut Built,
    room: u64,
    f: &X,
    x: &X,
) -> Result<Option<Measured>, ValueStop>
    requires given { IsGiven given.now }
    requires built { AreBuilt (items_in given.now) built.old }
    requires made { (from into : List ℕ) × IsMadeFrom (items_in given.now) from into (plain_x f.now) × IsTreeOn (items_in given.now) from (plain_x x.now) }
    requires known { IsTransKnown (items_in given.now) built.old (plain_x f.now) }
    requires also_known { IsTreeKnown (items_in given.now) given.now.trees.now built.old (plain_x x.now) }
    ensures built { AreBuilt (items_in given.now) built.new }
    ensures grown { IsGrown built.old built.new }
    ensures value { IfOk result (λ v. (place : _) (signature : PlainSignature) (printed : List Printed) → Tells given.now.trees.now printed → signature ≡ output_type (items_in given.now) (plain_x f.now) → HasValue (items_in given.now) printed signature (plain.two Apply place (plain_x f.now) (plain_x x.now)) room v) }
    ensures stop { IfErr result (λ s. (place : _) (signature : PlainSignature) (printed : List Printed) → Tells given.now.trees.now printed → IsValueStop (items_in given.now) printed given.now.limit signature (plain.two Apply place (plain_x f.now) (plain_x x.now)) s) }
    ensures shown { IfErr result (IsStopTyped (items_in given.now)) }
{
    let ends = ends_of(given.checked, f);
    let Some(value) = evaluate(alloc, given, built, ends.from, MOST_NODES, x)? else {
        return Err(ValueStop::TooLarge);
    };
    only_output(alloc, given, built, room, f, value.tree)
}

/// A value of the expression, of which a tree of the type with this name is expected.
pub fn value(
    alloc: Global,
    given: &Given,
    built: &mut Built,
    of: &Text,
    x: &X,
) -> Result<Tree<Label>, ValueStop>
    requires given { IsGiven given.now }
    requires built { AreBuilt (items_in given.now) built.old }
    requires made { IsTreeOn (items_in given.now) of.now (plain_x x.now) }
    requires known { IsTreeKnown (items_in given.now) given.now.trees.now built.old (plain_x x.now) }
    ensures built { AreBuilt (items_in given.now) built.new }
    ensures grown { IsGrown built.old built.new }
    ensures value { IfOk result (λ t. (printed : List Printed) → Tells given.now.trees.now printed → IsValue (items_in given.now) printed (type_in given.now of.now) (plain_x x.now) (meant t)) }
    ensures owed { IfOk result (λ _. (printed : List Printed) → Tells given.now.trees.now printed → OwesNothing (items_in given.now) printed (type_in given.now of.now) (plain_x x.now)) }
    ensures typed { IfOk result (λ t. HasType (type_in given.now of.now) (meant t)) }
    ensures limits { IfOk result (λ t. IsInLimits (meant t)) }
    ensures stop { IfErr result (λ s. (printed : List Printed) → Tells given.now.trees.now printed → IsValueStop (items_in given.now) printed given.now.limit (type_in given.now of.now) (plain_x x.now) s) }
    ensures shown { IfErr result (IsStopTyped (items_in given.now)) }
{
    match evaluate(alloc, given, built, of, MOST_NODES, x)? {
        Some(found) => Ok(found.tree),
        None => Err(ValueStop::TooLarge),
    }
}
