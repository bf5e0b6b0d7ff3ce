//! Copies of atoms and formulas.

ghost use Rattle.std.specs.Prelude.{◌≡◌, IfOk};
ghost use Rattle.label_core.specs.Formula.{plain_formula, joined};

use crate::formula::{DEEPEST, Formula, joined, negation};
use crate::made::added;
use fast_fault::Memory;
use std::alloc::Global;

/// What can be copied, with want of memory as the only fault.
pub trait Duplicate {
    /// The same again.
    fn duplicate(&self, alloc: Global) -> Result<Self, Memory>
        ensures { IfOk result (λ copy. copy ≡ self.now) };
}

impl<A: Duplicate + Drop> Formula<A> {
    /// The same formula again. One that nests deeper than [`DEEPEST`] is told as want of memory.
    pub fn copy(&self, alloc: Global) -> Result<Formula<A>, Memory>
        ensures { IfOk result (λ copy. plain_formula copy ≡ plain_formula self.now) }
    {
        self.copy_within(alloc, DEEPEST)
    }

    /// The same formula again, if it nests no deeper.
    #[cycle(copies)]
    fn copy_within(&self, alloc: Global, most: usize) -> Result<Formula<A>, Memory>
        ensures { IfOk result (λ copy. plain_formula copy ≡ plain_formula self.now) }
    {
        if most == 0 {
            return Err(Memory);
        }
        match self {
            Formula::Yes => Ok(Formula::Yes),
            Formula::No => Ok(Formula::No),
            Formula::Atom(atom) => Ok(Formula::Atom(atom.duplicate(alloc)?)),
            Formula::Not(inner) => negation(alloc, inner.copy_within(alloc, most - 1)?),
            Formula::And(parts) => copy_each(alloc, parts, true, most - 1),
            Formula::Or(parts) => copy_each(alloc, parts, false, most - 1),
        }
    }
}

/// The same formulas again, in order, joined as `joined` does, if they nest no deeper.
#[cycle(copies)]
fn copy_each<A: Duplicate + Drop>(
    alloc: Global,
    parts: &[Formula<A>],
    every: bool,
    most: usize,
) -> Result<Formula<A>, Memory>
    ensures { IfOk result (λ copy. plain_formula copy ≡ joined every parts.now) }
{
    let mut copies = Vec::new(alloc);
    for part in parts {
        added(&mut copies, part.copy_within(alloc, most))?;
    }
    Ok(joined(every, copies))
}
