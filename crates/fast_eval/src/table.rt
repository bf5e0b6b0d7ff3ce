//! Values that are kept under names.

ghost use Rattle.std.specs.Prelude.{◌≡◌, ◌<◌, IfOk, OnOk, OnErr, [], length, get_or};
ghost use Rattle.fast_eval.specs.Places.{place_in, IsAdded, IsNamedAt, IsKept, IsBare};

use fast_fault::{Memory, Text};
use indexmap::IndexMap;
use std::alloc::Global;

/// Values, and for each name the place of its own. Several names may have one value.
#[derive(Drop)]
pub struct Table<V> {
    values: Vec<V>,
    places: IndexMap<Text, usize>,
}

impl<V> Table<V> {
    /// No value, and no name.
    pub fn new(alloc: Global) -> Table<V>
        ensures { IsBare result }
    {
        Table {
            values: Vec::new(alloc),
            places: IndexMap::new(alloc),
        }
    }

    /// How many values there are. Names by which others are named have none of their own.
    pub fn count(&self) -> usize
        ensures { result ≡ length self.now.values.items }
    {
        self.values.len()
    }

    /// The place of the value of this name.
    pub fn place(&self, name: &Text) -> Option<usize>
        ensures { result ≡ place_in self.now name.now }
    {
        self.places.get(name).copied()
    }

    /// The value at this place.
    pub fn at(&self, place: usize) -> &V
        requires { place < length self.now.values.items }
        ensures { result.now ≡ get_or self.now.values.items place result.now }
    {
        &self.values[place]
    }

    /// Puts the name at this place, unless it has one.
    pub fn put(&mut self, alloc: Global, name: &Text, place: usize) -> Result<(), Memory>
        ensures named { OnOk result (IsNamedAt self.old self.new name.now place) }
        ensures refused { OnErr result (IsKept self.old self.new) }
    {
        if self.places.get(name).is_none() {
            self.places.insert(name.copy(alloc)?, place)?;
        }
        Ok(())
    }
}

impl<V: Drop> Table<V> {
    /// Keeps a value for the name, unless it has one.
    pub fn add(&mut self, alloc: Global, name: &Text, value: V) -> Result<(), Memory>
        ensures added { OnOk result (IsAdded self.old self.new name.now value) }
        ensures refused { OnErr result (IsKept self.old self.new) }
    {
        let place = self.values.len();
        self.values.push(value)?;
        self.put(alloc, name, place)
    }
}
