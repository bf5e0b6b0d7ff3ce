//! The theory of labels of whole numbers.

ghost use Rattle.std.specs.Prelude.{◌≡◌, ◌≤◌, IfOk, length, take};
ghost use Rattle.lin_solve.specs.Shown.{AllKept};

use crate::chain::{Chain, Width};
use crate::compare::{Compare, Relation};
use crate::decision::decide;
use crate::memo::Memo;
use crate::over::are_over;
use fast_fault::{LabelInt, Memory};
use label_core::{Lit, Theory, Verdict};
use std::alloc::Global;

/// Labels of a number of whole numbers, eight at most, and what was found of conjunctions over such labels.
#[derive(Drop)]
pub struct Ints<'m> {
    fields: u32,
    memo: &'m Memo,
    ghost few: { fields ≤ 8 },
}

impl Ints<'_> {
    /// The theory of labels with so many whole numbers.
    pub fn new(fields: u32, memo: &Memo) -> Ints<'_>
        requires { fields ≤ 8 }
        ensures { result.fields ≡ fields }
    {
        Ints { fields, memo }
    }
}

/// The first so many of the values.
fn first(alloc: Global, values: &[LabelInt], count: u32) -> Result<Vec<LabelInt>, Memory>
    requires { count ≤ length values.now }
    ensures first { IfOk result (λ first. first.items ≡ take count values.now) }
    ensures kept { IfOk result (λ first. AllKept first.items) }
{
    let mut first = Vec::new(alloc);
    for i in 0..count as usize {
        first.push(values[i])?;
    }
    Ok(first)
}

impl Theory for Ints<'_> {
    type Atom = Compare;

    type Value = Vec<LabelInt>;

    type Chain = Chain;

    ghost use Rattle.std.specs.Prelude.{◌≡◌, refl};
    ghost use Rattle.lin_solve.specs.Wholes.{wholes_label, compare_at, CompareFits};
    ghost use Rattle.lin_solve.specs.Meaning.{whole_meaning};
    ghost use Rattle.lin_solve.specs.Equal.{equal_hold, equal_fit, equal_wholes, kept_wholes};

    ghost label_of = { λ v. wholes_label v.items };

    ghost atom_holds = { compare_at };

    ghost atom_fits = { λ t. CompareFits t.fields };

    ghost meaning = { λ t. whole_meaning t.fields ⟦<Compare as PartialEq>⟧.eq };

    ghost equal_is_own = { λ t. refl };

    ghost equal_atoms = { equal_hold ⟦<Relation as PartialEq>⟧.eq (record { less = refl; at_most = refl; equal = refl; less_at_most = refl; less_equal = refl; at_most_less = refl; at_most_equal = refl; equal_less = refl; equal_at_most = refl }) ⟦<Compare as PartialEq>⟧.eq (record { parts = λ _ _. refl }) };

    ghost equal_atoms_fit = { λ t. equal_fit ⟦<Relation as PartialEq>⟧.eq (record { less = refl; at_most = refl; equal = refl; less_at_most = refl; less_equal = refl; at_most_less = refl; at_most_equal = refl; equal_less = refl; equal_at_most = refl }) ⟦<Compare as PartialEq>⟧.eq (record { parts = λ _ _. refl }) t.fields };

    ghost equal_values = { λ v w. equal_wholes v.items w.items };

    ghost keeps_labels = { λ t. kept_wholes t.fields };

    fn holds(&self, atom: &Compare, value: &Vec<LabelInt>) -> bool {
        atom.holds(value)
    }

    fn decide(
        &self,
        alloc: Global,
        literals: &[Lit<Compare>],
    ) -> Result<Verdict<Vec<LabelInt>, Chain>, Memory> {
        match decide(alloc, self.memo, literals)? {
            Verdict::Sat(values) => Ok(Verdict::Sat(first(alloc, &values, self.fields)?)),
            Verdict::Unsat => Ok(Verdict::Unsat),
            Verdict::Wide(chain) => {
                are_over(&chain.literals);
                Ok(Verdict::Wide(chain))
            }
        }
    }

    fn copy_value(&self, _alloc: Global, value: &Vec<LabelInt>) -> Result<Vec<LabelInt>, Memory> {
        Ok(value.clone()?)
    }

    fn far(&self, chain: &Chain) -> bool {
        matches!(chain.width, Width::Solution)
    }
}
