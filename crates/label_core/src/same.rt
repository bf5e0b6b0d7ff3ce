//! Formulas are equal where they are made in the same way of equal atoms.

ghost use Rattle.std.specs.Prelude.{◌≡◌, map};
ghost use Rattle.model_tree.specs.Formula as plain;
ghost use Rattle.label_core.specs.Formula.{plain_formula};
ghost use Rattle.label_core.specs.SameFormula.{same_formula, same_formulas};

use crate::formula::Formula;

impl<A: Eq> PartialEq for Formula<A> {
    ghost use Rattle.std.specs.Cmp.{partial_equiv_from_equiv};
    ghost use Rattle.label_core.specs.Formula.{plain_formula};
    ghost use Rattle.label_core.specs.SameFormula.{same_formula};
    ghost use Rattle.label_core.specs.SameLaws.{same_formula_laws};

    ghost eq = { λ f g. same_formula A.eq (plain_formula f) (plain_formula g) };

    ghost laws = { partial_equiv_from_equiv (same_formula_laws A.eq A.Eq.laws) };

    fn eq(&self, other: &Formula<A>) -> bool {
        self.is_same(other)
    }
}

impl<A: Eq> Eq for Formula<A> {
    ghost use Rattle.label_core.specs.SameLaws.{same_formula_laws};

    ghost laws = { same_formula_laws A.eq A.Eq.laws };
}

impl<A: Eq> Formula<A> {
    /// Whether the other formula is made in the same way of equal atoms.
    #[cycle(same)]
    fn is_same(&self, other: &Formula<A>) -> bool
        ensures { result ≡ same_formula A.eq (plain_formula self.now) (plain_formula other.now) }
    {
        match self {
            Formula::Yes => matches!(other, Formula::Yes),
            Formula::No => matches!(other, Formula::No),
            Formula::Atom(atom) => match other {
                Formula::Atom(other) => atom == other,
                _ => false,
            },
            Formula::Not(inner) => match other {
                Formula::Not(other) => inner.is_same(other),
                _ => false,
            },
            Formula::And(parts) => match other {
                Formula::And(others) => are_same(parts, others),
                _ => false,
            },
            Formula::Or(parts) => match other {
                Formula::Or(others) => are_same(parts, others),
                _ => false,
            },
        }
    }
}

/// Whether the formulas are the same, in order.
#[cycle(same)]
fn are_same<A: Eq>(parts: &[Formula<A>], others: &[Formula<A>]) -> bool
    ensures { result ≡ same_formulas A.eq (plain.formulas_of (map plain_formula parts.now)) (plain.formulas_of (map plain_formula others.now)) }
{
    if parts.len() != others.len() {
        return false;
    }
    for i in 0..parts.len() {
        if !parts[i].is_same(&others[i]) {
            return false;
        }
    }
    true
}
