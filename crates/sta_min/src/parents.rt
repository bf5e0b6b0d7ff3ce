//! Nodes over children of given blocks, and which classes they have.

ghost use Rattle.std.specs.Prelude.{◌≡◌, ◌<◌, length, map, get_or, All, IfOk};
ghost use Rattle.sta_classes.specs.Rows.{lists_of};
ghost use Rattle.sta_min.specs.Heads.{plain_head, IsGoodHead};
ghost use Rattle.sta_min.specs.Parents.{plain_parents, AreParentsOf, AreAllParents};
ghost use Rattle.sta_min.specs.Steps.{IsRead};

use crate::demands::copy_demands;
use crate::heads::Head;
use crate::steps::Steps;
use crate::targets::targets_of;
use fast_fault::Memory;
use label_core::Theory;
use std::alloc::Global;

/// Nodes of a constructor over children of some blocks: the first classes of these, what rules over them demand, and the
/// classes that such nodes have.
#[derive(Drop)]
pub struct Parents {
    pub constructor: u32,
    pub children: Vec<u32>,
    pub demands: Vec<Vec<u64>>,
    pub targets: Vec<u32>,
}

/// The first class of each of the blocks.
fn first_classes(alloc: Global, firsts: &[u32], blocks: &[u32]) -> Result<Vec<u32>, Memory>
    requires { All (λ k. k < length firsts.now) blocks.now }
    ensures { IfOk result (λ classes. classes.items ≡ map (λ k. get_or firsts.now k 0) blocks.now) }
{
    let mut classes = Vec::new(alloc);
    for block in blocks {
        classes.push(firsts[*block as usize])?;
    }
    Ok(classes)
}

/// The nodes over the head's blocks.
fn parents_of<T: Theory>(
    theory: &T,
    alloc: Global,
    steps: &Steps<T::Atom, T::Value>,
    firsts: &[u32],
    head: &Head,
) -> Result<Parents, Memory>
    requires read { IsRead (T.meaning theory.now) (T.atom_fits theory.now) steps.now }
    requires firsts { All (λ k. k < length steps.now.table.now.found) firsts.now }
    requires head { IsGoodHead steps.now.table.now (length firsts.now) (plain_head head.now) }
    ensures { IfOk result (λ parents. AreParentsOf T.label_of T.atom_holds steps.now.table.now (lists_of steps.now.values.items) firsts.now (plain_head head.now) (plain_parents parents)) }
{
    let constructor = head.constructor;
    let children = first_classes(alloc, firsts, &head.blocks)?;
    let targets = targets_of(theory, alloc, steps, constructor, &children)?;
    let demands = copy_demands(alloc, &head.demands)?;
    Ok(Parents {
        constructor,
        children,
        demands,
        targets,
    })
}

/// The same for each of the heads.
pub fn all_parents<T: Theory>(
    theory: &T,
    alloc: Global,
    steps: &Steps<T::Atom, T::Value>,
    firsts: &[u32],
    heads: &[Head],
) -> Result<Vec<Parents>, Memory>
    requires read { IsRead (T.meaning theory.now) (T.atom_fits theory.now) steps.now }
    requires firsts { All (λ k. k < length steps.now.table.now.found) firsts.now }
    requires heads { All (λ h. IsGoodHead steps.now.table.now (length firsts.now) (plain_head h)) heads.now }
    ensures { IfOk result (λ parents. AreAllParents T.label_of T.atom_holds steps.now.table.now (lists_of steps.now.values.items) firsts.now (map plain_head heads.now) (length heads.now) (map plain_parents parents.items)) }
{
    let mut parents = Vec::new(alloc);
    'heads: for i in 0..heads.len() {
        parents.push(parents_of(theory, alloc, steps, firsts, &heads[i])?)?;
    }
    Ok(parents)
}
