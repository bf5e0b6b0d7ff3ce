//! Trees, their size and their order.

ghost use Rattle.std.specs.Prelude.{◌≡◌, ℕ, ◌≤◌, ◌<◌, ◌↔◌, IsNone, IfSome, IfOk};
ghost use Rattle.model_tree.specs.TreeOrder.{tree_cmp};
ghost use Rattle.model_tree.specs.Tree.{node, trees_of, list_of, constructor_of, label_of, children_of, node_count, depth, relabel};
ghost use Rattle.fast_tree.specs.Entries.{entries_of, label_meaning};

use crate::Label;
use fast_fault::Memory;
use std::alloc::Global;
use std::cmp::Ordering;
use std::marker::Model;

/// A constructor's number, a label and the children.
#[derive(Drop)]
pub struct Tree<V> {
    constructor: u32,
    label: V,
    children: Vec<Tree<V>>,
}

impl<V> Model for Tree<V> {
    ghost use Rattle.std.specs.Prelude.{ℕ, ◌≤◌};
    ghost use Rattle.model_tree.specs.Tree.{Tree, node, trees_of, depth};
    ghost use Rattle.model_tree.specs.TreeCode.{coded_tree};
    ghost use Rattle.std.proofs.Common.{arith};
    ghost use Rattle.fast_tree.specs.Falls.{most_le-depth_all};

    ghost Value = { Tree V };

    ghost coded = { coded_tree V.code };

    ghost view = { λ s. node s.constructor s.label (trees_of s.children.items) };

    ghost size = { depth };

    ghost size_decreases = { λ s h. Prim.omega (arith, most_le-depth_all s.children.items) };
}

impl<V> Tree<V> {
    /// The tree with this constructor, label and children.
    pub fn new(constructor: u32, label: V, children: Vec<Tree<V>>) -> Tree<V>
        ensures { result ≡ node constructor label (trees_of children.items) }
    {
        Tree {
            constructor,
            label,
            children,
        }
    }

    /// The root's constructor.
    pub fn constructor(&self) -> u32
        ensures { result ≡ constructor_of self.now }
    {
        self.constructor
    }

    /// The root's label.
    pub fn label(&self) -> &V
        ensures { result.now ≡ label_of self.now }
    {
        &self.label
    }

    /// The root's children, from the left.
    #[tactic(auto, using(model_tree::proofs::Trees::on_trees))]
    pub fn children(&self) -> &[Tree<V>]
        ensures { result.now ≡ list_of (children_of self.now) }
    {
        &self.children
    }

    /// The number of nodes, if it is at most `most`.
    #[tactic(auto, using(model_tree::proofs::Trees::on_trees))]
    pub fn nodes_up_to(&self, most: u64) -> Option<u64>
        ensures none { IsNone result ↔ (most < node_count self.now) }
        ensures some { IfSome result (λ count. count ≡ node_count self.now) }
    {
        if most == 0 {
            return None;
        }
        let mut left = most - 1;
        for child in &self.children {
            left -= child.nodes_up_to(left)?;
        }
        Some(most - left)
    }

    /// The depth, if it is at most `most`. A leaf has depth 1.
    #[tactic(auto, using(model_tree::proofs::Trees::on_trees))]
    pub fn depth_up_to(&self, most: u64) -> Option<u64>
        ensures none { IsNone result ↔ (most < depth self.now) }
        ensures some { IfSome result (λ levels. levels ≡ depth self.now) }
    {
        if most == 0 {
            return None;
        }
        let mut below = 0;
        for child in &self.children {
            below = child.depth_up_to(most - 1)?.max(below);
        }
        Some(below + 1)
    }
}

impl<V: Ord> Tree<V> {
    /// By the constructor's number, then the label, then the children from the left.
    #[tactic(auto, using(model_tree::proofs::Trees::trees_cmp_shorter))]
    pub fn compare(&self, other: &Tree<V>) -> Ordering
        ensures { result ≡ tree_cmp V.cmp self.now other.now }
    {
        let root = self
            .constructor
            .cmp(&other.constructor)
            .then(self.label.cmp(&other.label));
        if root != Ordering::Equal {
            return root;
        }
        let others = &other.children;
        let mut i = 0;
        for child in &self.children {
            if i >= others.len() {
                return Ordering::Greater;
            }
            let order = child.compare(&others[i]);
            if order != Ordering::Equal {
                return order;
            }
            i += 1;
        }
        if i < others.len() {
            Ordering::Less
        } else {
            Ordering::Equal
        }
    }
}

impl Tree<Label> {
    /// A tree with the same constructors and the same values in its labels.
    pub fn copy(&self, alloc: Global) -> Result<Tree<Label>, Memory>
        ensures values { IfOk result (λ copy. relabel entries_of copy ≡ relabel entries_of self.now) }
        ensures meaning { IfOk result (λ copy. relabel label_meaning copy ≡ relabel label_meaning self.now) }
    {
        let label = self.label.copy(alloc)?;
        let mut children = Vec::new(alloc);
        for child in &self.children {
            children.push(child.copy(alloc)?)?;
        }
        Ok(Tree::new(self.constructor, label, children))
    }
}
