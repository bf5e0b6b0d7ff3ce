//! Trees that were printed for items.

ghost use Rattle.std.specs.Prelude.{◌≡◌, ℕ, List, None, OnOk, OnErr};
ghost use Rattle.std.specs.Option.{option_map};
ghost use Rattle.tree_values.specs.Trees.{meant, tree_at, Adds, Keeps};

use fast_fault::{Memory, Text};
use fast_tree::{Label, Tree};
use indexmap::IndexMap;
use std::alloc::Global;

/// The trees that were printed, by the names of their items.
#[derive(Drop)]
pub struct Trees {
    pub(crate) kept: IndexMap<Text, Tree<Label>>,
}

impl Trees {
    /// No trees.
    pub fn new(alloc: Global) -> Trees
        ensures { (name : List ℕ) → tree_at result name ≡ None }
    {
        Trees {
            kept: IndexMap::new(alloc),
        }
    }

    /// The tree that was printed under the name.
    pub fn at(&self, name: &Text) -> Option<&Tree<Label>>
        ensures { option_map (λ t. meant t.now) result ≡ tree_at self.now name.now }
    {
        self.kept.get(name)
    }

    /// Keeps a tree under the name. One that was there is let go.
    pub fn add(&mut self, alloc: Global, name: &Text, tree: Tree<Label>) -> Result<(), Memory>
        ensures added { OnOk result (Adds self.old self.new name.now (meant tree)) }
        ensures refused { OnErr result (Keeps self.old self.new) }
    {
        self.kept.insert(name.copy(alloc)?, tree)?;
        Ok(())
    }
}
