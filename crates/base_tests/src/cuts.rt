//! Trees over parts of a lent tree: their sizes, their copies and their order.

use fast_cut::{Cut, CutNode};
use fast_fault::Memory;
use fast_tree::{Label, Tree, Value};
use std::alloc::Global;
use std::cmp::Ordering;
use std::test::Fail;

fn label(alloc: Global, number: i64) -> Result<Label, Memory> {
    let mut values = Vec::new(alloc);
    values.push(Value::Int(number))?;
    Ok(Label::new(values))
}

/// A leaf with this number.
fn leaf(alloc: Global, number: i64) -> Result<Tree<Label>, Memory> {
    Ok(Tree::new(0, label(alloc, number)?, Vec::new(alloc)))
}

/// A node over a leaf, which is lent, and a new leaf.
fn pair_of<'t>(
    alloc: Global,
    kept: &'t Tree<Label>,
    number: i64,
) -> Result<Cut<'t, Label>, Memory> {
    let made = CutNode {
        constructor: 0,
        label: label(alloc, number)?,
        parts: Vec::new(alloc),
    };
    let mut parts = Vec::new(alloc);
    parts.push(Cut::Keep(kept))?;
    parts.push(Cut::Node(made))?;
    Ok(Cut::Node(CutNode {
        constructor: 1,
        label: label(alloc, 0)?,
        parts,
    }))
}

#[test]
fn counts_and_copies(rt: HostRuntime) -> Result<(), Fail> {
    let mut children = Vec::new(rt.alloc());
    children.push(leaf(rt.alloc(), 5)?)?;
    children.push(leaf(rt.alloc(), 7)?)?;
    let whole = Tree::new(1, label(rt.alloc(), 0)?, children);
    let kept = leaf(rt.alloc(), 5)?;
    let cut = pair_of(rt.alloc(), &kept, 7)?;
    assert!(rt; cut.nodes_up_to(3) == Some(3));
    assert!(rt; cut.nodes_up_to(2) == None);
    assert!(rt; cut.depth_up_to(2) == Some(2));
    assert!(rt; cut.depth_up_to(1) == None);
    let tree = cut.to_tree(rt.alloc())?;
    assert!(rt; tree.compare(&whole) == Ordering::Equal);
    Ok(())
}

#[test]
fn orders_cuts(rt: HostRuntime) -> Result<(), Fail> {
    let kept = leaf(rt.alloc(), 5)?;
    let cut = pair_of(rt.alloc(), &kept, 7)?;
    assert!(rt; Cut::Keep(&kept).compare(&cut) == Ordering::Less);
    assert!(rt; cut.compare(&Cut::Keep(&kept)) == Ordering::Greater);
    for (number, order) in [
        (6, Ordering::Greater),
        (7, Ordering::Equal),
        (8, Ordering::Less),
    ] {
        let other = pair_of(rt.alloc(), &kept, number)?;
        assert!(rt; cut.compare(&other) == order);
    }
    Ok(())
}
