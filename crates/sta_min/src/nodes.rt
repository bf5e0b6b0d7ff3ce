//! Which classes the nodes over each class have.

ghost use Rattle.std.specs.Prelude.{◌≡◌, ◌<◌, ◌^◌, length, map, set, All, IfOk};
ghost use Rattle.sta_classes.specs.Rows.{lists_of};
ghost use Rattle.sta_min.specs.Nodes.{IsGood, IsNodeWith, AreNodesOver, AreAllNodes};
ghost use Rattle.sta_min.specs.Probes.{plain_probe};
ghost use Rattle.sta_min.specs.Steps.{IsRead};

use crate::probes::Probe;
use crate::steps::{Node, Steps, class_of};
use fast_fault::Memory;
use label_core::Theory;
use std::alloc::Global;

/// The children, with the class at the place.
fn with_child(alloc: Global, children: &[u32], place: usize, class: u32) -> Result<Vec<u32>, Memory>
    requires { place < length children.now }
    ensures { IfOk result (λ made. made.items ≡ set children.now place class) }
{
    let mut made = Vec::from_slice(alloc, children)?;
    made[place] = class;
    Ok(made)
}

/// The class of the probe's node over the class.
fn node_over<T: Theory>(
    theory: &T,
    alloc: Global,
    steps: &Steps<T::Atom, T::Value>,
    probe: &Probe,
    class: u32,
) -> Result<u32, Memory>
    requires read { IsRead (T.meaning theory.now) (T.atom_fits theory.now) steps.now }
    requires probe { IsGood steps.now.table.now (lists_of steps.now.values.items) (plain_probe probe.now) }
    requires class { class < length steps.now.table.now.found }
    ensures { IfOk result (IsNodeWith T.label_of T.atom_holds steps.now.table.now (lists_of steps.now.values.items) class (plain_probe probe.now)) }
{
    let value = &steps.values[probe.constructor as usize][probe.value];
    let children = with_child(alloc, &probe.children, probe.place, class)?;
    let node = Node {
        constructor: probe.constructor,
        value,
        children: &children,
    };
    let made = class_of(theory, alloc, steps, &node)?;
    Ok(made)
}

/// The classes of the nodes of all probes over the class.
fn nodes_over<T: Theory>(
    theory: &T,
    alloc: Global,
    steps: &Steps<T::Atom, T::Value>,
    probes: &[Probe],
    class: u32,
) -> Result<Vec<u32>, Memory>
    requires read { IsRead (T.meaning theory.now) (T.atom_fits theory.now) steps.now }
    requires probes { All (λ p. IsGood steps.now.table.now (lists_of steps.now.values.items) (plain_probe p)) probes.now }
    requires class { class < length steps.now.table.now.found }
    ensures { IfOk result (λ nodes. AreNodesOver T.label_of T.atom_holds steps.now.table.now (lists_of steps.now.values.items) (map plain_probe probes.now) class (length probes.now) nodes.items) }
{
    let mut nodes = Vec::new(alloc);
    'probes: for i in 0..probes.len() {
        nodes.push(node_over(theory, alloc, steps, &probes[i], class)?)?;
    }
    Ok(nodes)
}

/// The same for each class.
pub fn all_nodes<T: Theory>(
    theory: &T,
    alloc: Global,
    steps: &Steps<T::Atom, T::Value>,
    probes: &[Probe],
) -> Result<Vec<Vec<u32>>, Memory>
    requires read { IsRead (T.meaning theory.now) (T.atom_fits theory.now) steps.now }
    requires probes { All (λ p. IsGood steps.now.table.now (lists_of steps.now.values.items) (plain_probe p)) probes.now }
    ensures few { IfOk result (λ nodes. length nodes.items < 2 ^ 32) }
    ensures nodes { IfOk result (λ nodes. AreAllNodes T.label_of T.atom_holds steps.now.table.now (lists_of steps.now.values.items) (map plain_probe probes.now) (length steps.now.table.now.found) (lists_of nodes.items)) }
{
    let mut nodes = Vec::new(alloc);
    'classes: for class in 0..steps.table.len() {
        nodes.push(nodes_over(theory, alloc, steps, probes, class)?)?;
    }
    Ok(nodes)
}
