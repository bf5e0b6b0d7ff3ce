//! Names, each with the number of what has it first.

ghost use Rattle.std.specs.Prelude.{◌≡◌, ℕ, List, None, OnOk};
ghost use Rattle.program_check.specs.Naming.{place_in, Adds};
ghost use Rattle.program_check.specs.Numbered.{is_below};

use fast_fault::{Memory, Text};
use indexmap::IndexMap;
use std::alloc::Global;

/// Names, each with the number of what has it first.
#[derive(Drop)]
pub(crate) struct Names {
    pub(crate) places: IndexMap<Text, usize>,
}

impl Names {
    pub(crate) fn new(alloc: Global) -> Names
        ensures { (name : List ℕ) → place_in result name ≡ None }
    {
        Names {
            places: IndexMap::new(alloc),
        }
    }

    /// The number of what has this name first.
    pub(crate) fn place(&self, name: &Text) -> Option<usize>
        ensures { result ≡ place_in self.now name.now }
    {
        self.places.get(name).copied()
    }

    /// Whether what has this name first stands before the item of this number.
    pub(crate) fn is_before(&self, name: &Text, number: usize) -> bool
        ensures { result ≡ is_below (place_in self.now name.now) number }
    {
        match self.place(name) {
            Some(place) => place < number,
            None => false,
        }
    }

    /// Adds a name, unless it is there.
    pub(crate) fn add(&mut self, alloc: Global, name: &Text, place: usize) -> Result<(), Memory>
        ensures { OnOk result (Adds self.old self.new name.now place) }
    {
        if self.places.get(name).is_none() {
            self.places.insert(name.copy(alloc)?, place)?;
        }
        Ok(())
    }
}
