//! The conjunction of formulas.

ghost use Rattle.std.specs.Prelude.{true, IfOk, All, length, replicate};
ghost use Rattle.label_split.specs.Known.{IsWithin};
ghost use Rattle.label_split.specs.Search.{DecidesEach, DecidesSigns};
ghost use Rattle.label_split.specs.Signs.{FormulasFit};

use crate::numbers::number_all;
use crate::search::{Asked, search};
use fast_fault::Memory;
use label_core::{Formula, Theory, Verdict};
use std::alloc::Global;

/// The first so many numbers.
fn first_numbers(alloc: Global, many: usize) -> Result<Vec<usize>, Memory> {
    let mut numbers = Vec::new(alloc);
    for number in 0..many {
        numbers.push(number)?;
    }
    Ok(numbers)
}

/// Decides the conjunction of formulas over the numbers of the atoms.
fn find_numbered<T: Theory>(
    theory: &T,
    alloc: Global,
    atoms: &[T::Atom],
    formulas: &[Formula<usize>],
) -> Result<Verdict<T::Value, T::Chain>, Memory>
    requires within { All (IsWithin (length atoms.now)) formulas.now }
    requires fit { All (T.atom_fits theory.now) atoms.now }
    ensures { IfOk result (DecidesSigns (T.meaning theory.now) atoms.now formulas.now (replicate (length formulas.now) true)) }
{
    let mut active = first_numbers(alloc, formulas.len())?;
    let signs = vec![in alloc; true; formulas.len()]?;
    let asked = Asked {
        formulas,
        signs: &signs,
    };
    search(theory, alloc, atoms, &asked, &mut active)
}

/// Decides the conjunction of the formulas.
pub fn find<T: Theory>(
    theory: &T,
    alloc: Global,
    formulas: &[Formula<T::Atom>],
) -> Result<Verdict<T::Value, T::Chain>, Memory>
    requires fit { FormulasFit (T.atom_fits theory.now) formulas.now }
    ensures { IfOk result (DecidesEach (T.meaning theory.now) formulas.now) }
{
    let numbered = number_all(alloc, formulas)?;
    find_numbered(theory, alloc, numbered.atoms.as_slice(), &numbered.formulas)
}
