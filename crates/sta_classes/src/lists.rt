//! Lists of classes, one of each kind for each place.

ghost use Rattle.std.specs.Prelude.{◌≡◌, ◌++◌, ◌∷◌, ◌↔◌, [], ℕ, List, length, map, Contains, IfOk, Decides};
ghost use Rattle.sta_classes.specs.Lists.{MayStand, IsListWith, IsNewList};
ghost use Rattle.sta_classes.specs.Places.{AreNumberedFor};
ghost use Rattle.sta_classes.specs.Rows.{lists_of};

use crate::place::Place;
use fast_fault::Memory;
use std::alloc::Global;

/// Whether the class may stand at place `j`, so that `class` is at this place, and at none before it.
fn may_stand(place: usize, class: usize, j: usize, k: usize) -> bool
    ensures { Decides result (MayStand place class j k) }
{
    if j == place {
        return k == class;
    }
    j > place || k != class
}

/// Each of the lists with each of the classes behind it that may stand at place `j`.
fn longer(
    alloc: Global,
    lists: &[Vec<usize>],
    firsts: &[usize],
    place: usize,
    class: usize,
    j: usize,
) -> Result<Vec<Vec<usize>>, Memory>
    ensures { IfOk result (λ made. (ks : List ℕ) → Contains (lists_of made.items) ks ↔ ((front : List ℕ) × Contains (lists_of lists.now) front × (k : ℕ) × (Contains firsts.now k × MayStand place class j k) × (front ++ k ∷ [] ≡ ks))) }
{
    let mut made = Vec::new(alloc);
    'lists: for list in lists {
        'firsts: for first in firsts {
            if may_stand(place, class, j, *first) {
                let mut longer = Vec::from_slice(alloc, list)?;
                longer.push(*first)?;
                made.push(longer)?;
            }
        }
    }
    Ok(made)
}

/// The lists of the first classes of kinds that have this class at this place, and at none before it.
fn lists_with(
    alloc: Global,
    places: &[Place],
    place: usize,
    class: usize,
) -> Result<Vec<Vec<usize>>, Memory>
    ensures { IfOk result (λ lists. (ks : List ℕ) → Contains (lists_of lists.items) ks ↔ IsListWith (map (λ p. p.firsts.items) places.now) place class (length places.now) ks) }
{
    let mut lists = Vec::new(alloc);
    lists.push(Vec::new(alloc))?;
    for j in 0..places.len() {
        lists = longer(alloc, &lists, &places[j].firsts, place, class, j)?;
    }
    Ok(lists)
}

/// The lists of the first classes of kinds that the last of so many classes stands in, or, where there are no classes yet,
/// all of them: the empty one where there are no places.
pub fn new_lists(alloc: Global, places: &[Place], classes: usize) -> Result<Vec<Vec<usize>>, Memory>
    requires { AreNumberedFor classes places.now }
    ensures { IfOk result (λ lists. (ks : List ℕ) → Contains (lists_of lists.items) ks ↔ IsNewList (map (λ p. p.firsts.items) places.now) classes ks) }
{
    if classes == 0 {
        return lists_with(alloc, places, places.len(), 0);
    }
    let last = classes - 1;
    let mut lists = Vec::new(alloc);
    'places: for place in 0..places.len() {
        if places[place].begins(last) {
            lists.append(&mut lists_with(alloc, places, place, last)?)?;
        }
    }
    Ok(lists)
}
