//! Labels, trees, tree types and formulas of the meaning, as plain data for contracts, and the printed text of trees.
//!
//! A contract above this crate speaks of these values and never of how a tree lies in memory. The crate promises
//! nothing that runs: its laws are laws of the definitions.
#![tactic(auto)]

ghost use Rattle.std.specs.Prelude.{◌≡◌, ℕ, ◌≤◌};
ghost use Rattle.model_tree.specs.Tree.{LabelTree, node_count};

/// Every tree has a node: a law over the definitions alone.
pub fn every_tree_has_a_node()
    ensures { (t : LabelTree) → 1 ≤ node_count t }
{}
