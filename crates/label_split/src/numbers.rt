//! Formulas over the numbers of their atoms. The different atoms of formulas have the order in which they are first seen.

ghost use Rattle.std.specs.Prelude.{◌≡◌, map, IfOk, MatchResult};
ghost use Rattle.model_tree.specs.Formula as plain;
ghost use Rattle.label_core.specs.Atoms.{has_equal};
ghost use Rattle.label_core.specs.Formula.{plain_formula, joined};
ghost use Rattle.label_split.specs.Numbers.{numbered, EachNumbered, IsNumbered};
ghost use Rattle.label_split.specs.Signs.{atoms_in_each};

use fast_fault::Memory;
use indexmap::IndexSet;
use label_core::{Duplicate, Formula, conjunction, disjunction, negation};
use std::alloc::Global;
use std::hash::Hash;

/// The different atoms of some formulas, and these with numbers in place of the atoms.
#[derive(Drop)]
pub struct Numbered<A: Eq + Hash> {
    pub atoms: IndexSet<A>,
    pub formulas: Vec<Formula<usize>>,
}

/// The number of the atom, as a formula. A copy of the atom comes to the others, unless an equal one is there.
fn number_atom<A: Eq + Hash + Duplicate + Drop>(
    alloc: Global,
    atom: &A,
    atoms: &mut IndexSet<A>,
) -> Result<Formula<usize>, Memory>
    ensures { IfOk result (IsNumbered A.eq atoms.old.keys atoms.new.keys (plain.atom atom.now)) }
{
    if let Some(number) = atoms.get_index_of(atom) {
        return Ok(Formula::Atom(number));
    }
    let copy = atom.duplicate(alloc)?;
    let (number, _) = atoms.insert_full(copy)?;
    Ok(Formula::Atom(number))
}

/// Holds where each of the parts does, or, if not `every`, where one of them does.
fn joined(every: bool, parts: Result<Vec<Formula<usize>>, Memory>) -> Result<Formula<usize>, Memory>
    ensures { IfOk result (λ made. MatchResult parts (λ all. plain_formula made ≡ joined every all.items) (λ _. ⊥)) }
{
    let parts = parts?;
    if every {
        Ok(conjunction(parts))
    } else {
        Ok(disjunction(parts))
    }
}

/// The formula with numbers in place of its atoms. Copies of those that are new come to the others.
#[cycle(numbers)]
fn number_atoms<A: Eq + Hash + Duplicate + Drop>(
    alloc: Global,
    formula: &Formula<A>,
    atoms: &mut IndexSet<A>,
) -> Result<Formula<usize>, Memory>
    ensures { IfOk result (IsNumbered A.eq atoms.old.keys atoms.new.keys (plain_formula formula.now)) }
{
    match formula {
        Formula::Yes => Ok(Formula::Yes),
        Formula::No => Ok(Formula::No),
        Formula::Atom(atom) => number_atom(alloc, atom, atoms),
        Formula::Not(inner) => negation(alloc, number_atoms(alloc, inner, atoms)?),
        Formula::And(parts) => joined(true, number_each(alloc, parts, atoms)),
        Formula::Or(parts) => joined(false, number_each(alloc, parts, atoms)),
    }
}

/// The same of each formula, in order.
#[cycle(numbers)]
fn number_each<A: Eq + Hash + Duplicate + Drop>(
    alloc: Global,
    formulas: &[Formula<A>],
    atoms: &mut IndexSet<A>,
) -> Result<Vec<Formula<usize>>, Memory>
    ensures { IfOk result (λ made. EachNumbered A.eq atoms.old.keys atoms.new.keys formulas.now made.items) }
{
    let mut made = Vec::new(alloc);
    for formula in formulas {
        made.push(number_atoms(alloc, formula, atoms)?)?;
    }
    Ok(made)
}

/// The formulas over the numbers of their atoms.
pub fn number_all<A: Eq + Hash + Duplicate + Drop>(
    alloc: Global,
    formulas: &[Formula<A>],
) -> Result<Numbered<A>, Memory>
    ensures atoms { IfOk result (λ made. (a : A) → has_equal A.eq made.atoms.keys a ≡ has_equal A.eq (atoms_in_each formulas.now) a) }
    ensures formulas { IfOk result (λ made. map plain_formula made.formulas.items ≡ map (λ f. numbered A.eq made.atoms.keys (plain_formula f)) formulas.now) }
{
    let mut atoms = IndexSet::new(alloc);
    let formulas = number_each(alloc, formulas, &mut atoms)?;
    Ok(Numbered { atoms, formulas })
}
