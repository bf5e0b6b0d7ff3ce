//! Trees with their sizes.

ghost use Rattle.std.specs.Prelude.{◌≡◌, ◌≤◌, suc, [], IfOk, IfSome};
ghost use Rattle.model_tree.specs.Limits.{most_nodes, greatest_depth};
ghost use Rattle.fast_eval.specs.Found.{IsInLimits};
ghost use Rattle.tree_values.specs.Trees.{meant};
ghost use Rattle.tree_values.specs.Values.{AreHeld, IsHeld, IsJoined, left_of};

use fast_fault::Memory;
use fast_tree::{Label, Tree};
use std::alloc::Global;
use sttr_apply::MOST_LEVELS;

/// A tree, and how many nodes and levels it has.
#[derive(Drop)]
pub struct Measured {
    pub tree: Tree<Label>,
    pub nodes: u64,
    pub depth: u64,
}

/// The trees below a node, and how many nodes and levels they have with it.
#[derive(Drop)]
pub struct Below {
    pub trees: Vec<Tree<Label>>,
    pub nodes: u64,
    pub depth: u64,
}

/// The tree, if there is room for its nodes.
#[tactic(auto, using(crate::proofs::Sized::on_meant))]
pub(crate) fn measure(room: u64, tree: Tree<Label>) -> Option<Measured>
    requires { IsInLimits (meant tree) }
    ensures { IsHeld room (meant tree) result }
{
    let Some(nodes) = tree.nodes_up_to(room) else {
        return None;
    };
    let Some(depth) = tree.depth_up_to(MOST_LEVELS) else {
        unreachable!()
    };
    Some(Measured { tree, nodes, depth })
}

/// A copy of the tree, if there is room for its nodes.
#[tactic(auto, using(crate::proofs::Sized::on_meant))]
pub(crate) fn copied(
    alloc: Global,
    room: u64,
    tree: &Tree<Label>,
) -> Result<Option<Measured>, Memory>
    requires { IsInLimits (meant tree.now) }
    ensures { IfOk result (IsHeld room (meant tree.now)) }
{
    if tree.nodes_up_to(room).is_none() {
        return Ok(None);
    }
    let copy = tree.copy(alloc)?;
    Ok(measure(room, copy))
}

/// No trees below a node, if there is room for the node.
pub(crate) fn nothing_below(alloc: Global, room: u64) -> Option<Below>
    ensures { AreHeld room [] result }
{
    if room == 0 {
        return None;
    }
    Some(Below {
        trees: Vec::new(alloc),
        nodes: 1,
        depth: 1,
    })
}

/// The room that the trees leave.
pub(crate) fn left(room: u64, below: &Option<Below>) -> u64
    requires { IfSome below.now (λ b. b.nodes ≤ room) }
    ensures { result ≡ left_of room below.now }
{
    match below {
        Some(below) => room - below.nodes,
        None => 0,
    }
}

/// One more tree below, if there is room for all.
pub(crate) fn joined(below: Option<Below>, value: Option<Measured>) -> Result<Option<Below>, Memory>
    requires below { IfSome below (λ b. (b.nodes ≤ most_nodes) × (b.depth ≤ suc greatest_depth)) }
    requires value { IfSome value (λ v. (v.nodes ≤ most_nodes) × (v.depth ≤ greatest_depth)) }
    ensures { IfOk result (IsJoined below value) }
{
    let Some(below) = below else {
        return Ok(None);
    };
    let Some(value) = value else {
        return Ok(None);
    };
    let mut trees = below.trees;
    trees.push(value.tree)?;
    Ok(Some(Below {
        trees,
        nodes: below.nodes + value.nodes,
        depth: below.depth.max(value.depth + 1),
    }))
}
