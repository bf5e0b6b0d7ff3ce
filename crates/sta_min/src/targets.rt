//! Which classes nodes over given classes have.

ghost use Rattle.std.specs.Prelude.{◌≡◌, ◌<◌, length, get_or, All, [], IfOk, OnOk};
ghost use Rattle.label_core.specs.Formula.{plain_formula};
ghost use Rattle.sta_classes.specs.Grow.{Grown};
ghost use Rattle.sta_classes.specs.Meant.{IsBuilt};
ghost use Rattle.sta_classes.specs.declared.class.TheConstants.{CAP};
ghost use Rattle.sta_classes.specs.Rows.{lists_of};
ghost use Rattle.sta_min.specs.Steps.{IsRead};
ghost use Rattle.sta_min.specs.Targets.{AreTargets, IsGuardOfAny};

use crate::steps::{Node, Steps, class_of};
use fast_fault::Memory;
use label_core::{Formula, Theory, disjunction};
use sta_classes::Table;
use std::alloc::Global;

/// Adds the number, unless it is there.
fn add_number(number: u32, list: &mut Vec<u32>) -> Result<(), Memory>
    ensures { OnOk result (Grown list.old.items list.new.items (λ k. number ≡ k)) }
{
    if list.contains(&number) {
        return Ok(());
    }
    list.push(number)?;
    Ok(())
}

/// The classes of nodes over these classes, with all labels.
pub fn targets_of<T: Theory>(
    theory: &T,
    alloc: Global,
    steps: &Steps<T::Atom, T::Value>,
    constructor: u32,
    children: &[u32],
) -> Result<Vec<u32>, Memory>
    requires read { IsRead (T.meaning theory.now) (T.atom_fits theory.now) steps.now }
    requires low { constructor < length steps.now.table.now.machine.ranks }
    requires wide { length children.now ≡ get_or steps.now.table.now.machine.ranks constructor 0 }
    requires known { All (λ k. k < length steps.now.table.now.found) children.now }
    ensures { IfOk result (λ targets. AreTargets T.label_of T.atom_holds steps.now.table.now constructor children.now (get_or (lists_of steps.now.values.items) constructor []) targets.items) }
{
    let mut targets = Vec::new(alloc);
    'values: for value in &steps.values[constructor as usize] {
        let node = Node {
            constructor,
            value,
            children,
        };
        add_number(class_of(theory, alloc, steps, &node)?, &mut targets)?;
    }
    Ok(targets)
}

/// Holds of exactly the labels over which a node over the children has one of the classes.
pub fn guard_of<T: Theory>(
    theory: &T,
    alloc: Global,
    table: &Table<T::Atom, T::Value>,
    constructor: u32,
    children: &[u32],
    classes: &[u32],
) -> Result<Formula<T::Atom>, Memory>
    requires built { IsBuilt (T.meaning theory.now) CAP table.now }
    requires children { All (λ k. k < length table.now.found) children.now }
    requires classes { All (λ k. k < length table.now.found) classes.now }
    ensures { IfOk result (λ guard. IsGuardOfAny T.Atom.eq T.atom_holds table.now constructor children.now classes.now (plain_formula guard)) }
{
    let mut guards = Vec::new(alloc);
    'classes: for class in classes {
        guards.push(table.guard(theory, alloc, constructor, children, *class)?)?;
    }
    Ok(disjunction(guards))
}
