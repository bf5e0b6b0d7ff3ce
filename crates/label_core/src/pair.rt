//! Two theories side by side: a label has a part of each.

ghost use Rattle.std.specs.Prelude.{◌≡◌, ◌++◌, ◌∷◌, [], IfOk, OnOk};
ghost use Rattle.label_core.specs.Pair.{left_lits, right_lits, pair_meaning};
ghost use Rattle.label_core.specs.Verdict.{DecidesAll};

use crate::copies::Duplicate;
use crate::made::both;
use crate::theory::{Lit, Theory, Verdict};
use fast_fault::Memory;
use std::alloc::Global;

/// An atom of one of two theories.
#[derive(PartialEq, Eq, Hash, Drop)]
pub enum PairAtom<P, Q> {
    Left(P),
    Right(Q),
}

impl<P: Duplicate + Drop, Q: Duplicate + Drop> Duplicate for PairAtom<P, Q> {
    fn duplicate(&self, alloc: Global) -> Result<PairAtom<P, Q>, Memory> {
        match self {
            PairAtom::Left(inner) => Ok(PairAtom::Left(inner.duplicate(alloc)?)),
            PairAtom::Right(inner) => Ok(PairAtom::Right(inner.duplicate(alloc)?)),
        }
    }
}

/// A value of each of two theories.
#[derive(PartialEq, Eq, PartialOrd, Ord, Drop)]
pub struct PairValue<V, W> {
    pub left: V,
    pub right: W,
}

/// A chain of one of two theories.
#[derive(Drop)]
pub enum PairChain<C, D> {
    Left(C),
    Right(D),
}

/// Two theories.
#[derive(Drop)]
pub struct Pair<A, B> {
    left: A,
    right: B,
}

impl<A, B> Pair<A, B> {
    /// The theory of pairs of a label of the left one and a label of the right one.
    pub fn new(left: A, right: B) -> Pair<A, B>
        ensures left { result.left ≡ left }
        ensures right { result.right ≡ right }
    {
        Pair { left, right }
    }
}

/// Puts a copy of the atom, with the sign, behind the literals.
fn add_literal<P: Duplicate + Drop>(
    alloc: Global,
    atom: &P,
    sign: bool,
    literals: &mut Vec<Lit<P>>,
) -> Result<(), Memory>
    ensures { OnOk result (literals.new.items ≡ literals.old.items ++ record { atom = atom.now; sign = sign } ∷ []) }
{
    let atom = atom.duplicate(alloc)?;
    Ok(literals.push(Lit { atom, sign })?)
}

/// The literals that speak of the left part, and those that speak of the right part.
fn parted<P: Duplicate + Drop, Q: Duplicate + Drop>(
    alloc: Global,
    literals: &[Lit<PairAtom<P, Q>>],
) -> Result<(Vec<Lit<P>>, Vec<Lit<Q>>), Memory>
    ensures { IfOk result (λ parted. (parted.0.items ≡ left_lits literals.now) × (parted.1.items ≡ right_lits literals.now)) }
{
    let mut lefts = Vec::new(alloc);
    let mut rights = Vec::new(alloc);
    for literal in literals {
        match &literal.atom {
            PairAtom::Left(inner) => add_literal(alloc, inner, literal.sign, &mut lefts)?,
            PairAtom::Right(inner) => add_literal(alloc, inner, literal.sign, &mut rights)?,
        }
    }
    Ok((lefts, rights))
}

impl<A: Theory, B: Theory> Pair<A, B> {
    /// The verdict on the literals, from those on what they say of the two parts.
    fn joined(
        &self,
        _literals: &[Lit<PairAtom<A::Atom, B::Atom>>],
        left: Verdict<A::Value, A::Chain>,
        right: Verdict<B::Value, B::Chain>,
    ) -> Verdict<PairValue<A::Value, B::Value>, PairChain<A::Chain, B::Chain>>
        requires left { DecidesAll (A.meaning self.now.left) (left_lits _literals.now) left }
        requires right { DecidesAll (B.meaning self.now.right) (right_lits _literals.now) right }
        ensures { DecidesAll (pair_meaning (A.meaning self.now.left) (B.meaning self.now.right) ⟦<PairAtom<A::Atom, B::Atom> as PartialEq>⟧.eq) _literals.now result }
    {
        match left {
            Verdict::Unsat => Verdict::Unsat,
            Verdict::Sat(left) => match right {
                Verdict::Unsat => Verdict::Unsat,
                Verdict::Sat(right) => Verdict::Sat(PairValue { left, right }),
                Verdict::Wide(chain) => Verdict::Wide(PairChain::Right(chain)),
            },
            Verdict::Wide(left) => match right {
                Verdict::Unsat => Verdict::Unsat,
                Verdict::Sat(_) => Verdict::Wide(PairChain::Left(left)),
                Verdict::Wide(right) => {
                    if self.left.far(&left) {
                        return Verdict::Wide(PairChain::Right(right));
                    }
                    Verdict::Wide(PairChain::Left(left))
                }
            },
        }
    }
}

impl<A: Theory, B: Theory> Theory for Pair<A, B> {
    type Atom = PairAtom<A::Atom, B::Atom>;

    type Value = PairValue<A::Value, B::Value>;

    type Chain = PairChain<A::Chain, B::Chain>;

    ghost use Rattle.std.specs.Prelude.{refl};
    ghost use Rattle.model_tree.specs.Label.{pair};
    ghost use Rattle.label_core.specs.Pair.{pair_holds, pair_meaning, OfAtom, equal_pair_atoms, equal_pair_atoms_fit, equal_parts, parts_kept};

    ghost label_of = { λ v. pair (A.label_of v.left) (B.label_of v.right) };

    ghost atom_holds = { pair_holds A.atom_holds B.atom_holds };

    ghost atom_fits = { λ t. OfAtom (A.atom_fits t.left) (B.atom_fits t.right) };

    ghost meaning = { λ t. pair_meaning (A.meaning t.left) (B.meaning t.right) ⟦<PairAtom<A::Atom, B::Atom> as PartialEq>⟧.eq };

    ghost equal_is_own = { λ t. refl };

    ghost equal_atoms = { equal_pair_atoms A.Atom.eq B.Atom.eq ⟦<PairAtom<A::Atom, B::Atom> as PartialEq>⟧.eq (record { left_left = λ _ _. refl; left_right = λ _ _. refl; right_left = λ _ _. refl; right_right = λ _ _. refl }) A.atom_holds B.atom_holds A.equal_atoms B.equal_atoms };

    ghost equal_atoms_fit = { λ t. equal_pair_atoms_fit A.Atom.eq B.Atom.eq ⟦<PairAtom<A::Atom, B::Atom> as PartialEq>⟧.eq (record { left_left = λ _ _. refl; left_right = λ _ _. refl; right_left = λ _ _. refl; right_right = λ _ _. refl }) (A.atom_fits t.left) (B.atom_fits t.right) (A.equal_atoms_fit t.left) (B.equal_atoms_fit t.right) };

    ghost equal_values = { λ v w. equal_parts _ _ _ _ _ _ (A.equal_values v.left w.left) (B.equal_values v.right w.right) };

    ghost keeps_labels = { λ t l. parts_kept (A.keeps_labels t.left) (B.keeps_labels t.right) l };

    fn holds(
        &self,
        atom: &PairAtom<A::Atom, B::Atom>,
        value: &PairValue<A::Value, B::Value>,
    ) -> bool {
        match atom {
            PairAtom::Left(inner) => self.left.holds(inner, &value.left),
            PairAtom::Right(inner) => self.right.holds(inner, &value.right),
        }
    }

    fn decide(
        &self,
        alloc: Global,
        literals: &[Lit<PairAtom<A::Atom, B::Atom>>],
    ) -> Result<Verdict<PairValue<A::Value, B::Value>, PairChain<A::Chain, B::Chain>>, Memory> {
        let (lefts, rights) = parted(alloc, literals)?;
        let (left, right) = both(
            self.left.decide(alloc, &lefts),
            self.right.decide(alloc, &rights),
        )?;
        Ok(self.joined(literals, left, right))
    }

    fn copy_value(
        &self,
        alloc: Global,
        value: &PairValue<A::Value, B::Value>,
    ) -> Result<PairValue<A::Value, B::Value>, Memory> {
        let left = self.left.copy_value(alloc, &value.left)?;
        let right = self.right.copy_value(alloc, &value.right)?;
        Ok(PairValue { left, right })
    }

    fn far(&self, chain: &PairChain<A::Chain, B::Chain>) -> bool {
        match chain {
            PairChain::Left(inner) => self.left.far(inner),
            PairChain::Right(inner) => self.right.far(inner),
        }
    }
}
