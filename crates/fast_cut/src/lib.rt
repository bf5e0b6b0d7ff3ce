//! Trees that are made over parts of another tree, which is lent and not copied.
//!
//! Its promise: a cut is counted, compared and copied as the tree that it stands for, and only the copy takes memory.
#![tactic(auto)]

ghost use Rattle.std.specs.Prelude.{◌≡◌, ◌<◌, ◌↔◌, IsNone, IfSome, IfOk};
ghost use Rattle.model_tree.specs.Tree.{node_count, depth, relabel};
ghost use Rattle.model_tree.specs.TreeOrder.{tree_cmp};
ghost use Rattle.model_sttr.specs.Cuts.{tree_of};
ghost use Rattle.fast_tree.specs.Entries.{entries_of, label_meaning};
ghost use Rattle.fast_cut.specs.Cuts.{plain_cut};

use fast_fault::Memory;
use fast_tree::{Label, Tree};
use std::alloc::Global;
use std::cmp::Ordering;

/// A part of the lent tree as it is, or a new node.
#[cycle(cut)]
#[derive(Drop)]
pub enum Cut<'t, V> {
    Keep(&'t Tree<V>),
    Node(CutNode<'t, V>),
}

/// A new node over parts.
#[cycle(cut)]
#[derive(Drop)]
pub struct CutNode<'t, V> {
    pub constructor: u32,
    pub label: V,
    pub parts: Vec<Cut<'t, V>>,
}

impl<'t, V> Cut<'t, V> {
    /// The number of nodes of the tree that the cut stands for, if it is at most `most`.
    #[tactic(auto, using(crate::proofs::Parts::on_parts))]
    pub fn nodes_up_to(&self, most: u64) -> Option<u64>
        ensures none { IsNone result ↔ (most < node_count (tree_of (plain_cut self.now))) }
        ensures some { IfSome result (λ count. count ≡ node_count (tree_of (plain_cut self.now))) }
    {
        match self {
            Cut::Keep(tree) => tree.nodes_up_to(most),
            Cut::Node(node) => {
                if most == 0 {
                    return None;
                }
                let mut left = most - 1;
                'count: for part in &node.parts {
                    left -= part.nodes_up_to(left)?;
                }
                Some(most - left)
            }
        }
    }

    /// The depth of the tree that the cut stands for, if it is at most `most`.
    #[tactic(auto, using(crate::proofs::Parts::on_parts))]
    pub fn depth_up_to(&self, most: u64) -> Option<u64>
        ensures none { IsNone result ↔ (most < depth (tree_of (plain_cut self.now))) }
        ensures some { IfSome result (λ levels. levels ≡ depth (tree_of (plain_cut self.now))) }
    {
        match self {
            Cut::Keep(tree) => tree.depth_up_to(most),
            Cut::Node(node) => {
                if most == 0 {
                    return None;
                }
                let mut below = 0;
                'descend: for part in &node.parts {
                    below = part.depth_up_to(most - 1)?.max(below);
                }
                Some(below + 1)
            }
        }
    }
}

impl<'t, V: Ord> Cut<'t, V> {
    /// How the tree that the cut stands for compares with a tree.
    #[tactic(auto, using(crate::proofs::Parts::on_orders))]
    fn compare_tree(&self, other: &Tree<V>) -> Ordering
        ensures { result ≡ tree_cmp V.cmp (tree_of (plain_cut self.now)) other.now }
    {
        let node = match self {
            Cut::Keep(tree) => return tree.compare(other),
            Cut::Node(node) => node,
        };
        let root = node
            .constructor
            .cmp(&other.constructor())
            .then(node.label.cmp(other.label()));
        if root != Ordering::Equal {
            return root;
        }
        let others = other.children();
        let mut i = 0;
        'compare: for part in &node.parts {
            if i >= others.len() {
                return Ordering::Greater;
            }
            let order = part.compare_tree(&others[i]);
            if order != Ordering::Equal {
                return order;
            }
            i += 1;
        }
        if i < others.len() {
            Ordering::Less
        } else {
            Ordering::Equal
        }
    }

    /// By the trees that the cuts stand for: the constructor's number, then the label, then the children from the left.
    #[tactic(auto, using(crate::proofs::Parts::on_both))]
    pub fn compare(&self, other: &Cut<'t, V>) -> Ordering
        ensures { result ≡ tree_cmp V.cmp (tree_of (plain_cut self.now)) (tree_of (plain_cut other.now)) }
    {
        let node = match self {
            Cut::Keep(tree) => return other.compare_tree(tree).reverse(),
            Cut::Node(node) => node,
        };
        let with = match other {
            Cut::Keep(tree) => return self.compare_tree(tree),
            Cut::Node(with) => with,
        };
        let root = node
            .constructor
            .cmp(&with.constructor)
            .then(node.label.cmp(&with.label));
        if root != Ordering::Equal {
            return root;
        }
        let others = &with.parts;
        let mut i = 0;
        'compare_parts: for part in &node.parts {
            if i >= others.len() {
                return Ordering::Greater;
            }
            let order = part.compare(&others[i]);
            if order != Ordering::Equal {
                return order;
            }
            i += 1;
        }
        if i < others.len() {
            Ordering::Less
        } else {
            Ordering::Equal
        }
    }
}

impl<'t> Cut<'t, Label> {
    /// The tree that the cut stands for.
    pub fn to_tree(&self, alloc: Global) -> Result<Tree<Label>, Memory>
        ensures values { IfOk result (λ tree. relabel entries_of tree ≡ relabel entries_of (tree_of (plain_cut self.now))) }
        ensures meaning { IfOk result (λ tree. relabel label_meaning tree ≡ relabel label_meaning (tree_of (plain_cut self.now))) }
    {
        match self {
            Cut::Keep(tree) => tree.copy(alloc),
            Cut::Node(node) => {
                let label = node.label.copy(alloc)?;
                let mut children = Vec::new(alloc);
                'copy: for part in &node.parts {
                    children.push(part.to_tree(alloc)?)?;
                }
                Ok(Tree::new(node.constructor, label, children))
            }
        }
    }
}
