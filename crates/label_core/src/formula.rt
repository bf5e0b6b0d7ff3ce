//! Formulas over atoms.

ghost use Rattle.std.specs.Prelude.{◌≡◌, IfOk, All, map};
ghost use Rattle.model_tree.specs.Formula as plain;
ghost use Rattle.model_tree.specs.Formula.{formula_holds, EveryAtom};
ghost use Rattle.label_core.specs.Formula.{plain_formula, joined};
ghost use Rattle.label_core.specs.Meaning.{KeepsValue};

use crate::theory::Theory;
use fast_fault::Memory;
use std::alloc::Global;

/// How many formulas in one another are copied, or gone through to put a map's entries into them. Each call that goes over
/// them takes of the stack; what is made of two such formulas nests up to twice as deep, for which there is room.
pub const DEEPEST: usize = 2_048;

/// A formula over atoms.
#[derive(Drop)]
pub enum Formula<A> {
    Yes,
    No,
    Atom(A),
    Not(Box<Formula<A>>),
    And(Vec<Formula<A>>),
    Or(Vec<Formula<A>>),
}

/// Holds where the formula doesn't.
pub fn negation<A: Drop>(alloc: Global, formula: Formula<A>) -> Result<Formula<A>, Memory>
    ensures { IfOk result (λ made. plain_formula made ≡ plain.negation (plain_formula formula)) }
{
    Ok(Formula::Not(Box::new(alloc, formula)?))
}

/// Holds where each of the formulas does.
pub fn conjunction<A>(formulas: Vec<Formula<A>>) -> Formula<A>
    ensures { plain_formula result ≡ plain.all_of (plain.formulas_of (map plain_formula formulas.items)) }
{
    Formula::And(formulas)
}

/// Holds where one of the formulas does.
pub fn disjunction<A>(formulas: Vec<Formula<A>>) -> Formula<A>
    ensures { plain_formula result ≡ plain.some_of (plain.formulas_of (map plain_formula formulas.items)) }
{
    Formula::Or(formulas)
}

/// Holds where each of the formulas does, or, if not `every`, where one of them does.
pub(crate) fn joined<A>(every: bool, formulas: Vec<Formula<A>>) -> Formula<A>
    ensures { plain_formula result ≡ joined every formulas.items }
{
    if every {
        conjunction(formulas)
    } else {
        disjunction(formulas)
    }
}

impl<A> Formula<A> {
    /// Whether the formula holds of the value's label. Takes no memory.
    #[cycle(holds)]
    pub fn holds<T: Theory<Atom = A>>(&self, theory: &T, value: &T::Value) -> bool
        requires atoms_fit { EveryAtom (T.atom_fits theory.now) (plain_formula self.now) }
        requires value_fits { KeepsValue (T.meaning theory.now) value.now }
        ensures { result ≡ formula_holds (λ a. T.atom_holds a (T.label_of value.now)) (plain_formula self.now) }
    {
        match self {
            Formula::Yes => true,
            Formula::No => false,
            Formula::Atom(atom) => theory.holds(atom, value),
            Formula::Not(inner) => !inner.holds(theory, value),
            Formula::And(parts) => Self::each_holds(theory, value, parts, true),
            Formula::Or(parts) => Self::each_holds(theory, value, parts, false),
        }
    }

    /// Whether the formulas hold of the value's label, joined as `joined` does. Takes no memory.
    #[cycle(holds)]
    fn each_holds<T: Theory<Atom = A>>(
        theory: &T,
        value: &T::Value,
        parts: &[Formula<A>],
        every: bool,
    ) -> bool
        requires atoms_fit { All (λ f. EveryAtom (T.atom_fits theory.now) (plain_formula f)) parts.now }
        requires value_fits { KeepsValue (T.meaning theory.now) value.now }
        ensures { result ≡ formula_holds (λ a. T.atom_holds a (T.label_of value.now)) (joined every parts.now) }
    {
        for part in parts {
            if part.holds(theory, value) != every {
                return !every;
            }
        }
        every
    }
}
