//! The classes that are found, and their kinds at each place.

ghost use Rattle.std.specs.Prelude.{ℕ, ◌≡◌, ◌<◌, ◌^◌, ◌++◌, ◌∷◌, [], length, get_or, IfOk, OnOk};
ghost use Rattle.sta_classes.specs.Rows.{lists_of};
ghost use Rattle.sta_classes.specs.Searched.{AreKinds, ArePlaces, NextPlaces};

use crate::class::Class;
use crate::keep::kept;
use crate::place::Place;
use crate::row::Row;
use fast_fault::Memory;
use label_core::added;
use sta_core::StaRule;
use std::alloc::Global;

/// The classes that are found, and the kinds at each place of each constructor.
#[derive(Drop)]
pub struct Known<V> {
    pub classes: Vec<Class<V>>,
    pub places: Vec<Vec<Place>>,
}

/// Tells the kind of one more class at each place of each constructor.
fn add_to_all(alloc: Global, all: &mut Vec<Vec<Place>>, row: &Row) -> Result<(), Memory>
    ensures many { OnOk result (length all.new.items ≡ length all.old.items) }
    ensures each { OnOk result ((c : ℕ) → c < length all.old.items → NextPlaces row.now (get_or (lists_of all.old.items) c []) (get_or (lists_of all.new.items) c [])) }
{
    'constructors: for constructor in 0..all.len() {
        let places = &mut all[constructor];
        'places: for place in 0..places.len() {
            places[place].add(alloc, row)?;
        }
    }
    Ok(())
}

impl<V: Drop> Known<V> {
    /// No classes yet.
    pub fn new<A>(
        alloc: Global,
        ranks: &[u32],
        rules: &[Vec<StaRule<A>>],
    ) -> Result<Known<V>, Memory>
        requires few { length ranks.now < 2 ^ 32 }
        ensures none { IfOk result (λ known. known.classes.items ≡ []) }
        ensures kinds { IfOk result (λ known. AreKinds ranks.now rules.now known.classes.items known.places.items) }
    {
        let mut places = Vec::new(alloc);
        'constructors: for constructor in 0..ranks.len() {
            let mut those = Vec::new(alloc);
            'places: for place in 0..ranks[constructor] {
                let made = Place::new(alloc, rules, constructor as u32, place as usize);
                added(&mut those, made)?;
            }
            places.push(those)?;
        }
        let classes = Vec::new(alloc);
        Ok(Known { classes, places })
    }

    /// One more class.
    pub fn add(&mut self, alloc: Global, class: Class<V>) -> Result<(), Memory>
        ensures classes { OnOk result (self.new.classes.items ≡ self.old.classes.items ++ class ∷ []) }
        ensures many { OnOk result (length self.new.places.items ≡ length self.old.places.items) }
        ensures each { OnOk result ((c : ℕ) → c < length self.old.places.items → NextPlaces class.row (get_or (lists_of self.old.places.items) c []) (get_or (lists_of self.new.places.items) c [])) }
    {
        let told = add_to_all(alloc, &mut self.places, &class.row);
        added(&mut self.classes, kept(class, (), told))
    }
}
