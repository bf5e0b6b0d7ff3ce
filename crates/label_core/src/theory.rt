//! What a label algebra has to bring.

ghost use Rattle.std.specs.Prelude.{◌≡◌, ◌↔◌, Bool, true, IsTrue, IfOk};
ghost use Rattle.std.specs.declared.cmp.Ordering.TheVariants.{Equal};
ghost use Rattle.model_tree.specs.Label.{Label};
ghost use Rattle.label_core.specs.Lit.{LitsFit};
ghost use Rattle.label_core.specs.Meaning.{Meaning, KeepsValue};
ghost use Rattle.label_core.specs.Verdict.{DecidesAll};

use crate::copies::Duplicate;
use fast_fault::Memory;
use std::alloc::Global;
use std::hash::Hash;

/// An atom, or its denial.
#[derive(Drop)]
pub struct Lit<A> {
    pub atom: A,
    pub sign: bool,
}

/// What a decision finds: a value, that there is none, or a chain that passes a width.
#[derive(Drop)]
pub enum Verdict<V, W> {
    Sat(V),
    Unsat,
    Wide(W),
}

/// The labels of a tree type, with the atoms that speak of them.
pub trait Theory {
    type Atom: Eq + Hash + Duplicate + Drop;

    type Value: Ord + Drop;

    type Chain: Drop;

    /// The label that a value stands for.
    ghost label_of: { Self.Value → Label };

    /// Whether an atom holds of a label, whatever the theory value.
    ghost atom_holds: { Self.Atom → Label → Bool };

    /// Whether an atom speaks of this theory's labels.
    ghost atom_fits: { Self → Self.Atom → Type 0 };

    /// Which labels there are and which of them a value may stand for, which atoms are equal, and what a chain shows.
    ghost meaning: { Self → Meaning label_of atom_holds Self.Chain };

    /// Whether the atom holds of the value's label. Takes no memory.
    fn holds(&self, atom: &Self::Atom, value: &Self::Value) -> bool
        requires atom_fits { atom_fits self.now atom.now }
        requires value_fits { KeepsValue (meaning self.now) value.now }
        ensures { result ≡ atom_holds atom.now (label_of value.now) };

    /// Decides the conjunction of the literals.
    fn decide(
        &self,
        alloc: Global,
        literals: &[Lit<Self::Atom>],
    ) -> Result<Verdict<Self::Value, Self::Chain>, Memory>
        requires { LitsFit (atom_fits self.now) literals.now }
        ensures { IfOk result (DecidesAll (meaning self.now) literals.now) };

    /// A value of the same label.
    fn copy_value(&self, alloc: Global, value: &Self::Value) -> Result<Self::Value, Memory>
        ensures { IfOk result (λ copy. label_of copy ≡ label_of value.now) };

    /// Of a chain that passes its width, as each one that `decide` gives: whether it is far. Takes no memory.
    fn far(&self, chain: &Self::Chain) -> bool
        ensures { (meaning self.now).passes chain.now → IsTrue result ↔ (meaning self.now).is_far chain.now };

    /// The equality of the meaning is the atoms' own.
    ghost equal_is_own: { (t : Self) → (meaning t).equal ≡ Self.Atom.eq };

    /// Equal atoms hold of the same labels.
    ghost equal_atoms: { (a b : Self.Atom) (l : Label) → Self.Atom.eq a b ≡ true → atom_holds a l ≡ atom_holds b l };

    /// An atom fits where an equal one does.
    ghost equal_atoms_fit: { (t : Self) (a b : Self.Atom) → Self.Atom.eq a b ≡ true → atom_fits t a → atom_fits t b };

    /// Values compare equal exactly where they stand for one label.
    ghost equal_values: { (v w : Self.Value) → (Self.Value.cmp v w ≡ Equal) ↔ (label_of v ≡ label_of w) };

    /// A kept label is a label of the meaning.
    ghost keeps_labels: { (t : Self) (l : Label) → (meaning t).keeps l → (meaning t).has l };
}
