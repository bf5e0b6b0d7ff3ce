//! Copies of maps.

ghost use Rattle.std.specs.Prelude.{◌≡◌, IfOk, map};
ghost use Rattle.record_label.specs.PlainMaps.{plain_entry};
ghost use Rattle.record_label.specs.Written.{plain_written};

use crate::maps::{RowEntry, RowMap};
use crate::written::Written;
use fast_fault::Memory;
use label_core::{added, both};
use std::alloc::Global;

/// The same entry.
fn copy_entry(alloc: Global, entry: &RowEntry) -> Result<RowEntry, Memory>
    ensures { IfOk result (λ copy. plain_entry copy ≡ plain_entry entry.now) }
{
    match entry {
        RowEntry::Number(form) => Ok(RowEntry::Number(form.copy(alloc)?)),
        RowEntry::Truth(formula) => Ok(RowEntry::Truth(formula.copy(alloc)?)),
        RowEntry::Text(side) => Ok(RowEntry::Text(side.copy(alloc)?)),
    }
}

/// The same entries.
fn copy_entries(alloc: Global, entries: &[RowEntry]) -> Result<Vec<RowEntry>, Memory>
    ensures { IfOk result (λ copies. map plain_entry copies.items ≡ map plain_entry entries.now) }
{
    let mut copies = Vec::new(alloc);
    for entry in entries {
        added(&mut copies, copy_entry(alloc, entry))?;
    }
    Ok(copies)
}

/// The same pieces.
pub(crate) fn copy_written(alloc: Global, written: &[Written]) -> Result<Vec<Written>, Memory>
    ensures { IfOk result (λ copies. map plain_written copies.items ≡ map plain_written written.now) }
{
    let mut copies = Vec::new(alloc);
    for one in written {
        added(&mut copies, one.copy(alloc))?;
    }
    Ok(copies)
}

impl RowMap {
    /// The same map.
    pub fn copy(&self, alloc: Global) -> Result<RowMap, Memory>
        ensures entries { IfOk result (λ copy. map plain_entry copy.entries.items ≡ map plain_entry self.now.entries.items) }
        ensures written { IfOk result (λ copy. map plain_written copy.written.items ≡ map plain_written self.now.written.items) }
    {
        let (entries, written) = both(
            copy_entries(alloc, &self.entries),
            copy_written(alloc, &self.written),
        )?;
        Ok(RowMap { entries, written })
    }
}
