//! Guards that no label has together.

ghost use Rattle.std.specs.Prelude.{◌≡◌, true, IfOk};
ghost use Rattle.model_tree.specs.Formula.{EveryAtom};
ghost use Rattle.label_core.specs.Formula.{plain_formula};
ghost use Rattle.sttr_preimage.specs.Apart.{AreApart};

use fast_fault::Memory;
use label_core::{Formula, Theory, Verdict};
use label_split::find;
use std::alloc::Global;

/// Whether it is found that no label has both guards.
pub fn are_apart<T: Theory>(
    theory: &T,
    alloc: Global,
    first: &Formula<T::Atom>,
    second: &Formula<T::Atom>,
) -> Result<bool, Memory>
    requires first { EveryAtom (T.atom_fits theory.now) (plain_formula first.now) }
    requires second { EveryAtom (T.atom_fits theory.now) (plain_formula second.now) }
    ensures { IfOk result (λ apart. apart ≡ true → AreApart T.atom_holds (T.meaning theory.now).has (plain_formula first.now) (plain_formula second.now)) }
{
    let mut guards = Vec::new(alloc);
    guards.push(first.copy(alloc)?)?;
    guards.push(second.copy(alloc)?)?;
    match find(theory, alloc, &guards)? {
        Verdict::Unsat => Ok(true),
        Verdict::Sat(_) | Verdict::Wide(_) => Ok(false),
    }
}
