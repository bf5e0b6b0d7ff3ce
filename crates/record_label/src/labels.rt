//! The labels of a type, with the maps from them and into them.

use crate::maps::{RowEntry, RowMap};
use crate::puts::{forms_of, put_atom};
use crate::rows::{RowAtom, RowLabels};
use fast_fault::Memory;
use fast_tree::Label;
use label_core::{Applied, Labels, Put, PutMap, Theory};
use lin_form::FormStop;
use std::alloc::Global;

impl Labels for RowLabels {
    type Map = RowMap;

    ghost use Rattle.std.specs.Prelude.{◌≡◌, map, Contains};
    ghost use Rattle.label_core.specs.Formula.{atoms_in};
    ghost use Rattle.record_label.specs.Maps.{made, sort_by, EntriesFit, put_atom, put_entry, IsOutsidePut, IsOutsideEntry, SomeOutside};
    ghost use Rattle.record_label.specs.PlainMaps.{plain_entry};
    ghost use Rattle.record_label.specs.Written.{plain_written};
    ghost use Rattle.record_label.specs.MapLaws.{both_true, made_labels, equal_made, equal_maps_fit, equal_maps_make};
    ghost use Rattle.record_label.specs.Derived.{same_atoms, same_sides, sides_derived, entries_derived, equal_rows, equal_rows_fit};

    ghost make = { λ m. made (map plain_entry m.entries.items) };

    ghost map_fits = { λ t m. EntriesFit t (map plain_entry m.entries.items) };

    ghost map_makes = { λ t m. map sort_by (map plain_entry m.entries.items) ≡ t };

    ghost is_put = { λ m a. Contains (atoms_in (put_atom (map plain_entry m.entries.items) a)) };

    ghost put_outside = { λ m. IsOutsidePut (map plain_entry m.entries.items) };

    ghost is_chained = { λ m n c. (map plain_entry c.entries.items ≡ map (put_entry (map plain_entry m.entries.items)) (map plain_entry n.entries.items)) × (map plain_written c.written.items ≡ map plain_written n.written.items) };

    ghost chain_outside = { λ m n. SomeOutside (IsOutsideEntry (map plain_entry m.entries.items)) (map plain_entry n.entries.items) };

    ghost made_labels = { λ t into m l fits makes has. made_labels into (map plain_entry m.entries.items) l makes };

    ghost made_kept = { λ t into m l fits makes has kept. (made_labels into (map plain_entry m.entries.items) l makes, kept) };

    ghost equal_maps = { λ m n l e. equal_made same_atoms same_sides sides_derived ⟦<RowEntry as PartialEq>⟧.eq entries_derived equal_rows m.entries.items n.entries.items l (both_true _ _ e).0 };

    ghost equal_maps_fit = { λ t m n e. equal_maps_fit same_atoms same_sides sides_derived ⟦<RowEntry as PartialEq>⟧.eq entries_derived t (equal_rows_fit t) m.entries.items n.entries.items (both_true _ _ e).0 };

    ghost equal_maps_make = { λ t m n e. equal_maps_make same_atoms same_sides sides_derived ⟦<RowEntry as PartialEq>⟧.eq entries_derived t m.entries.items n.entries.items (both_true _ _ e).0 };

    fn copy_map(&self, alloc: Global, map: &RowMap) -> Result<RowMap, Memory> {
        map.copy(alloc)
    }

    fn apply(&self, alloc: Global, map: &RowMap, value: &Label) -> Result<Applied<Label>, Memory> {
        map.apply(alloc, self, value)
    }

    fn subst(&self, alloc: Global, map: &RowMap, atom: &RowAtom) -> Result<Put<RowAtom>, Memory> {
        // a look at the fields says how few they are
        let _ = &self.sorts;
        let forms = forms_of(alloc, &map.entries)?;
        match put_atom(alloc, atom, &map.entries, &forms) {
            Ok(formula) => Ok(Put::Formula(formula)),
            Err(FormStop::Range(number)) => Ok(Put::Range(number)),
            Err(FormStop::Memory) => Err(Memory),
        }
    }

    fn chain_maps(
        &self,
        alloc: Global,
        first: &RowMap,
        second: &RowMap,
    ) -> Result<PutMap<RowMap>, Memory> {
        // a look at the fields says how few they are
        let _ = &self.sorts;
        match second.after(alloc, first) {
            Ok(map) => Ok(PutMap::Map(map)),
            Err(FormStop::Range(number)) => Ok(PutMap::Range(number)),
            Err(FormStop::Memory) => Err(Memory),
        }
    }
}
