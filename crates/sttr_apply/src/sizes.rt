//! The sizes of the subtrees at the nodes of a tree, in one pass.

ghost use Rattle.std.specs.Prelude.{◌≡◌, ◌++◌, map, IfOk, OnOk};
ghost use Rattle.sta_marks.specs.Nodes.{nodes_of};
ghost use Rattle.sttr_apply.specs.Sizes.{size_of};

use fast_fault::Memory;
use fast_tree::Tree;

/// How many nodes a tree has, and how deep it is.
#[derive(Clone, Copy)]
pub struct Size {
    pub nodes: u32,
    pub levels: u32,
}

/// Adds the sizes of the subtrees at the nodes, in preorder, and gives that of the tree. A tree with a size that doesn't fit
/// is one for which there is no memory.
#[tactic(auto, using(sta_marks::proofs::Passed::on_marks))]
pub fn measure<V>(tree: &Tree<V>, sizes: &mut Vec<Size>) -> Result<Size, Memory>
    ensures size { IfOk result (λ size. size ≡ size_of tree.now) }
    ensures sizes { OnOk result (sizes.new.items ≡ sizes.old.items ++ map size_of (nodes_of tree.now)) }
{
    let place = sizes.len();
    sizes.push(Size {
        nodes: 0,
        levels: 0,
    })?;
    let mut nodes: u32 = 1;
    let mut levels: u32 = 0;
    'children: for child in tree.children() {
        let below = measure(child, sizes)?;
        match nodes.checked_add(below.nodes) {
            Some(more) => nodes = more,
            None => return Err(Memory),
        }
        levels = below.levels.max(levels);
    }
    match levels.checked_add(1) {
        Some(levels) => {
            let size = Size { nodes, levels };
            sizes[place] = size;
            Ok(size)
        }
        None => Err(Memory),
    }
}
