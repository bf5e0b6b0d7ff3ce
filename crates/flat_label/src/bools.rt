//! Labels of truth values.

ghost use Rattle.std.specs.Prelude.{◌≡◌, ◌<◌};

use crate::never::Never;
use fast_fault::Memory;
use label_core::{Duplicate, Lit, Theory, Verdict};
use std::alloc::Global;

/// Labels of a number of truth values.
#[derive(Clone, Copy)]
pub struct Bools {
    fields: u32,
}

impl Bools {
    /// The theory of labels with so many truth values.
    pub fn new(fields: u32) -> Bools
        ensures { result.fields ≡ fields }
    {
        Bools { fields }
    }
}

/// That a field is true.
#[derive(Clone, Copy, PartialEq, Eq, Hash)]
pub struct BoolAtom {
    pub field: u32,
}

impl Duplicate for BoolAtom {
    fn duplicate(&self, _alloc: Global) -> Result<BoolAtom, Memory> {
        Ok(*self)
    }
}

impl Theory for Bools {
    type Atom = BoolAtom;

    type Value = Vec<bool>;

    type Chain = Never;

    ghost use Rattle.flat_label.specs.Bools.{bools_label, truth_at, IsBools, equal_bools, equal_fields, equal_fields_fit};
    ghost use Rattle.std.specs.Prelude.{◌≡◌, ◌<◌, refl};

    ghost label_of = { λ v. bools_label v.items };

    ghost atom_holds = { λ a l. truth_at a.field l };

    ghost atom_fits = { λ t a. a.field < t.fields };

    ghost meaning = { λ t. record { has = IsBools t.fields; keeps = IsBools t.fields; equal = ⟦<BoolAtom as PartialEq>⟧.eq; chain_of = λ _ _. ⊥; passes = λ _. ⊥; is_far = λ _. ⊥ } };

    ghost equal_is_own = { λ t. refl };

    ghost equal_atoms = { λ a b l e. equal_fields a.field b.field l e };

    ghost equal_atoms_fit = { λ t a b e. equal_fields_fit a.field b.field t.fields e };

    ghost equal_values = { λ v w. equal_bools v.items w.items };

    ghost keeps_labels = { λ t l kept. kept };

    #[tactic(auto, using(crate::proofs::BoolFacts::on_bools))]
    fn holds(&self, atom: &BoolAtom, value: &Vec<bool>) -> bool {
        value[atom.field as usize]
    }

    #[tactic(auto, using(crate::proofs::BoolFacts::on_bools))]
    fn decide(
        &self,
        alloc: Global,
        literals: &[Lit<BoolAtom>],
    ) -> Result<Verdict<Vec<bool>, Never>, Memory> {
        let mut values = vec![in alloc; false; self.fields as usize]?;
        'write: for literal in literals {
            values[literal.atom.field as usize] = literal.sign;
        }
        'read: for literal in literals {
            if values[literal.atom.field as usize] != literal.sign {
                return Ok(Verdict::Unsat);
            }
        }
        Ok(Verdict::Sat(values))
    }

    fn copy_value(&self, _alloc: Global, value: &Vec<bool>) -> Result<Vec<bool>, Memory> {
        Ok(value.clone()?)
    }

    fn far(&self, _chain: &Never) -> bool {
        false
    }
}
