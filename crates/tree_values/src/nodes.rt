//! Literals whose children are evaluated one after the other.

ghost use Rattle.std.specs.Prelude.{◌≡◌, ◌≤◌, suc, Some, IfOk, IfErr, IfSome, map, is_some, true};
ghost use Rattle.model_tree.specs.Limits.{most_nodes, greatest_depth};
ghost use Rattle.fast_syntax.specs.Plain.{plain_expr};
ghost use Rattle.fast_syntax.specs.Slices.{plain_children};
ghost use Rattle.fast_syntax.specs.View.{plain_name};
ghost use Rattle.model_grammar.specs.Syntax as plain;
ghost use Rattle.model_names.specs.Declared.{find_type};
ghost use Rattle.model_meaning.specs.Meaning.{signature_named};
ghost use Rattle.fast_build.specs.Items.{items_of};
ghost use Rattle.tree_values.specs.Forms.{IsLabelled};
ghost use Rattle.tree_values.specs.Nodes.{IsFirst, HasOneMore, IsClosed, IsUnclosed};

use crate::literals::literal;
use crate::sizes::{Below, Measured, joined, nothing_below};
use crate::stops::ValueStop;
use fast_fault::{Memory, Text};
use fast_syntax::Name;
use fast_syntax::expressions::Expr;
use fast_syntax::items::X;
use program_check::Checked;
use std::alloc::Global;
use sttr_apply::MOST_LEVELS;

/// A literal some of whose children are still to be evaluated.
#[derive(Drop)]
pub(crate) struct OpenNode<'x> {
    pub name: &'x Name,
    pub labels: &'x [Expr],
    /// The children that are still to be evaluated.
    pub rest: &'x [X],
    /// How many nodes it may have.
    pub room: u64,
    /// The trees of the other children, if there is room for them.
    pub below: Option<Below>,
}

/// How far an expression has been evaluated: to its value, if there is room for it, or to a child of a literal.
#[derive(Drop)]
pub(crate) enum Begun<'x> {
    Whole(Option<Measured>),
    Part(OpenNode<'x>),
}

/// A literal before its first child.
pub(crate) fn opened<'x>(
    alloc: Global,
    room: u64,
    name: &'x Name,
    labels: &'x [Expr],
    xs: &'x [X],
) -> OpenNode<'x>
    ensures { IsFirst (plain.literal (plain_name name.now) (map plain_expr labels.now) (plain_children xs.now)) room result }
{
    let below = nothing_below(alloc, room);
    OpenNode {
        name,
        labels,
        rest: xs,
        room,
        below,
    }
}

/// The literal with the value of one more child.
pub(crate) fn grown<'x>(node: OpenNode<'x>, value: Option<Measured>) -> Result<OpenNode<'x>, Memory>
    requires below { IfSome node.below (λ b. (b.nodes ≤ most_nodes) × (b.depth ≤ suc greatest_depth)) }
    requires value { IfSome value (λ v. (v.nodes ≤ most_nodes) × (v.depth ≤ greatest_depth)) }
    ensures { IfOk result (HasOneMore node.entry value) }
{
    let name = node.name;
    let labels = node.labels;
    let rest = node.rest;
    let room = node.room;
    let below = joined(node.below, value)?;
    Ok(OpenNode {
        name,
        labels,
        rest,
        room,
        below,
    })
}

/// The tree of a literal whose children all have been evaluated, if there is room for it.
pub(crate) fn closed(
    alloc: Global,
    checked: &Checked,
    of: &Text,
    node: OpenNode,
) -> Result<Option<Measured>, ValueStop>
    requires declared { is_some (find_type (items_of checked.now) of.now) ≡ true }
    requires node { IsLabelled (signature_named (items_of checked.now) (Some of.now)) node.name.now.text (map plain_expr node.labels.now) }
    ensures closed { IfOk result (IsClosed (signature_named (items_of checked.now) (Some of.now)) node.entry) }
    ensures stop { IfErr result (IsUnclosed node.entry.below) }
{
    let OpenNode {
        name,
        labels,
        rest: _,
        room: _,
        below,
    } = node;
    let Some(below) = below else {
        return Ok(None);
    };
    if below.depth > MOST_LEVELS {
        return Err(ValueStop::TooLarge);
    }
    let tree = literal(alloc, checked, of, &name.text, labels, below)?;
    Ok(Some(tree))
}
