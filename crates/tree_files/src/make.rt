//! The trees that those of a file stand for, where nothing fails in them.

ghost use Rattle.std.specs.Prelude.{◌≡◌, [], map, IfOk};
ghost use Rattle.model_tree.specs.Tree as model;
ghost use Rattle.model_grammar.specs.TreeFiles.{trees_of};
ghost use Rattle.model_run.specs.Texts.{tree_failures, trees_failures, file_place};
ghost use Rattle.tree_reader.specs.Plain.{plain_tree};
ghost use Rattle.tree_files.specs.Types.{plain_type, IsNumbered};
ghost use Rattle.tree_files.specs.Placed.{meant, plain_placed, IsMade, AreMade, IsPlacedOf, ArePlacedOf};

use crate::PlacedTree;
use crate::labels::label_of;
use crate::types::TreeType;
use fast_fault::{Memory, Pos};
use fast_tree::{Label, Tree};
use std::alloc::Global;
use tree_reader::FileTree;

/// The tree that one of a file stands for.
#[cycle(made)]
fn made_tree(alloc: Global, of: &TreeType, tree: &FileTree) -> Result<Tree<Label>, Memory>
    requires numbered { IsNumbered of.now }
    requires sound { tree_failures (plain_type of.now) (plain_tree tree.now) ≡ [] }
    ensures { IfOk result (λ made. IsMade (plain_type of.now) (plain_tree tree.now) (meant made)) }
{
    let Some(number) = of.number(&tree.name.text) else {
        unreachable!()
    };
    let label = label_of(alloc, &tree.labels)?;
    let children = made_trees(alloc, of, &tree.children)?;
    Ok(Tree::new(number, label, children))
}

/// The trees that these stand for.
#[cycle(made)]
fn made_trees(alloc: Global, of: &TreeType, trees: &[FileTree]) -> Result<Vec<Tree<Label>>, Memory>
    requires numbered { IsNumbered of.now }
    requires sound { trees_failures (plain_type of.now) (trees_of (map plain_tree trees.now)) ≡ [] }
    ensures { IfOk result (λ made. AreMade (plain_type of.now) (trees_of (map plain_tree trees.now)) (model.trees_of (map meant made.items))) }
{
    let mut made = Vec::new(alloc);
    'trees: for tree in trees {
        made.push(made_tree(alloc, of, tree)?)?;
    }
    Ok(made)
}

/// Where the tree starts.
fn place_of(tree: &FileTree) -> Pos
    ensures { result ≡ file_place (plain_tree tree.now) }
{
    tree.place
}

/// The tree that one of a file stands for, with its place.
fn placed_tree(alloc: Global, of: &TreeType, tree: &FileTree) -> Result<PlacedTree, Memory>
    requires numbered { IsNumbered of.now }
    requires sound { tree_failures (plain_type of.now) (plain_tree tree.now) ≡ [] }
    ensures { IfOk result (λ made. IsPlacedOf (plain_type of.now) (plain_tree tree.now) (plain_placed made)) }
{
    Ok(PlacedTree {
        place: place_of(tree),
        tree: made_tree(alloc, of, tree)?,
    })
}

/// The trees that these stand for, with their places.
pub(crate) fn placed_trees(
    alloc: Global,
    of: &TreeType,
    trees: &[FileTree],
) -> Result<Vec<PlacedTree>, Memory>
    requires numbered { IsNumbered of.now }
    requires sound { trees_failures (plain_type of.now) (trees_of (map plain_tree trees.now)) ≡ [] }
    ensures { IfOk result (λ placed. ArePlacedOf (plain_type of.now) (map plain_tree trees.now) (map plain_placed placed.items)) }
{
    let mut placed = Vec::new(alloc);
    'trees: for tree in trees {
        placed.push(placed_tree(alloc, of, tree)?)?;
    }
    Ok(placed)
}
