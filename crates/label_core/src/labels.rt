//! What a label algebra with maps has to bring.

ghost use Rattle.std.specs.Prelude.{◌≡◌, Bool, true, ℤ, IfOk};
ghost use Rattle.model_tree.specs.Label.{Label};
ghost use Rattle.model_tree.specs.Kept.{is_kept_label};
ghost use Rattle.label_core.specs.Maps.{IsMade, IsPut, IsChained};
ghost use Rattle.label_core.specs.Meaning.{KeepsValue};

use crate::formula::Formula;
use crate::theory::Theory;
use fast_fault::Memory;
use std::alloc::Global;

/// The value that a map makes; or a whole number of the label made that doesn't have 64 bits.
#[derive(Drop)]
pub enum Applied<V> {
    Value(V),
    Range(i128),
}

/// The formula of an atom with a map's entries put for the fields; or a number of it that is outside its range.
#[derive(Drop)]
pub enum Put<A> {
    Formula(Formula<A>),
    Range(i128),
}

/// A map with another one's entries put for the fields; or a number of it that is outside its range.
#[derive(Drop)]
pub enum PutMap<M> {
    Map(M),
    Range(i128),
}

/// A theory whose labels have maps into labels of theories of the same kind.
pub trait Labels: Theory {
    type Map: Eq + Drop;

    /// The label that a map makes of a label, whatever the theory value.
    ghost make: { Self.Map → Label → Label };

    /// Whether a map is one of this theory's labels.
    ghost map_fits: { Self → Self.Map → Type 0 };

    /// Whether a map makes labels of this theory.
    ghost map_makes: { Self → Self.Map → Type 0 };

    /// Whether an atom may stand where a map's entries are put into another one.
    ghost is_put: { Self.Map → Self.Atom → Self.Atom → Type 0 };

    /// Whether an atom has this number, outside its range, once a map's entries are put.
    ghost put_outside: { Self.Map → Self.Atom → ℤ → Type 0 };

    /// Whether a map is the second one with the first one's entries put for the fields.
    ghost is_chained: { Self.Map → Self.Map → Self.Map → Type 0 };

    /// Whether the second map has this number, outside its range, once the first one's entries are put.
    ghost chain_outside: { Self.Map → Self.Map → ℤ → Type 0 };

    /// An equal map.
    fn copy_map(&self, alloc: Global, map: &Self::Map) -> Result<Self::Map, Memory>
        ensures { IfOk result (λ copy. Self.Map.eq copy map.now ≡ true) };

    /// What the map makes of the value's label.
    fn apply(
        &self,
        alloc: Global,
        map: &Self::Map,
        value: &Self::Value,
    ) -> Result<Applied<Self::Value>, Memory>
        requires map_fits { map_fits self.now map.now }
        requires value_fits { KeepsValue (Self.meaning self.now) value.now }
        ensures { IfOk result (IsMade Self.label_of (make map.now (Self.label_of value.now))) };

    /// What an atom over the labels that the map makes says of the labels that it makes them of.
    fn subst(
        &self,
        alloc: Global,
        map: &Self::Map,
        atom: &Self::Atom,
    ) -> Result<Put<Self::Atom>, Memory>
        requires map_fits { map_fits self.now map.now }
        requires atom_fits { (made : Self) × map_makes made map.now × Self.atom_fits made atom.now }
        ensures { IfOk result (IsPut (Self.meaning self.now) (Self.atom_fits self.now) (is_put map.now atom.now) (put_outside map.now atom.now) (λ l. Self.atom_holds atom.now (make map.now l))) };

    /// The second map after the first one.
    fn chain_maps(
        &self,
        alloc: Global,
        first: &Self::Map,
        second: &Self::Map,
    ) -> Result<PutMap<Self::Map>, Memory>
        requires first_fits { map_fits self.now first.now }
        requires second_fits { (made : Self) × map_makes made first.now × map_fits made second.now }
        ensures { IfOk result (IsChained (Self.meaning self.now) make (is_chained first.now second.now) (λ map. map_fits self.now map × ((made : Self) → map_makes made second.now → map_makes made map)) (chain_outside first.now second.now) (λ l. make second.now (make first.now l))) };

    /// A map of a theory's labels makes labels of the theory that it is into.
    ghost made_labels: { (t made : Self) (m : Self.Map) (l : Label) → map_fits t m → map_makes made m → (Self.meaning t).has l → (Self.meaning made).has (make m l) };

    /// A label made whose numbers are all in the label range is one that this theory keeps.
    ghost made_kept: { (t made : Self) (m : Self.Map) (l : Label) → map_fits t m → map_makes made m → (Self.meaning t).has l → is_kept_label (make m l) ≡ true → (Self.meaning made).keeps (make m l) };

    /// Equal maps make equal labels.
    ghost equal_maps: { (m n : Self.Map) (l : Label) → Self.Map.eq m n ≡ true → make m l ≡ make n l };

    /// A map fits where an equal one does.
    ghost equal_maps_fit: { (t : Self) (m n : Self.Map) → Self.Map.eq m n ≡ true → map_fits t m → map_fits t n };

    /// A map makes labels of a theory where an equal one does.
    ghost equal_maps_make: { (made : Self) (m n : Self.Map) → Self.Map.eq m n ≡ true → map_makes made m → map_makes made n };
}
