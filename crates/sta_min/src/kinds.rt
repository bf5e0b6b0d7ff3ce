//! One class of each kind, at each place of each constructor.

ghost use Rattle.std.specs.Prelude.{ℕ, ◌≡◌, ◌<◌, ◌^◌, length, get_or, All, Contains, Decides, IfOk};
ghost use Rattle.sta_classes.specs.Plain.{kind_at};
ghost use Rattle.sta_classes.specs.Rows.{lists_of};
ghost use Rattle.sta_min.specs.Kinds.{AreOfAllKinds, AreOfPlaces, AreOfAllPlaces};

use fast_fault::Memory;
use sta_classes::Table;
use std::alloc::Global;

/// Whether one of the classes has the kind.
fn has_kind<A, V>(
    table: &Table<A, V>,
    constructor: u32,
    place: u32,
    classes: &[u32],
    kind: u32,
) -> bool
    requires constructor { constructor < length table.now.machine.ranks }
    requires place { place < get_or table.now.machine.ranks constructor 0 }
    requires classes { All (λ k. k < length table.now.found) classes.now }
    ensures { Decides result ((k : ℕ) × Contains classes.now k × (kind_at table.now constructor place k ≡ kind)) }
{
    'classes: for class in classes {
        if table.kind(constructor, place, *class) == kind {
            return true;
        }
    }
    false
}

/// One class of each kind at the place.
fn of_all_kinds<A, V>(
    alloc: Global,
    table: &Table<A, V>,
    constructor: u32,
    place: u32,
) -> Result<Vec<u32>, Memory>
    requires constructor { constructor < length table.now.machine.ranks }
    requires place { place < get_or table.now.machine.ranks constructor 0 }
    ensures { IfOk result (λ classes. AreOfAllKinds table.now constructor place (length table.now.found) classes.items) }
{
    let mut classes = Vec::new(alloc);
    'classes: for class in 0..table.len() {
        let kind = table.kind(constructor, place, class);
        if !has_kind(table, constructor, place, &classes, kind) {
            classes.push(class)?;
        }
    }
    Ok(classes)
}

/// The same for each place of the constructor.
fn of_places<A, V>(
    alloc: Global,
    table: &Table<A, V>,
    constructor: u32,
    rank: u32,
) -> Result<Vec<Vec<u32>>, Memory>
    requires constructor { constructor < length table.now.machine.ranks }
    requires rank { rank ≡ get_or table.now.machine.ranks constructor 0 }
    ensures { IfOk result (λ places. AreOfPlaces table.now constructor rank (lists_of places.items)) }
{
    let mut places = Vec::new(alloc);
    'places: for place in 0..rank {
        places.push(of_all_kinds(alloc, table, constructor, place)?)?;
    }
    Ok(places)
}

/// The same for each constructor.
pub fn of_all_places<A, V>(
    alloc: Global,
    table: &Table<A, V>,
    ranks: &[u32],
) -> Result<Vec<Vec<Vec<u32>>>, Memory>
    requires few { length ranks.now < 2 ^ 32 }
    requires ranks { ranks.now ≡ table.now.machine.ranks }
    ensures { IfOk result (λ kinds. AreOfAllPlaces table.now ranks.now (length ranks.now) kinds.items) }
{
    let mut kinds = Vec::new(alloc);
    'constructors: for constructor in 0..ranks.len() {
        kinds.push(of_places(alloc, table, constructor as u32, ranks[constructor])?)?;
    }
    Ok(kinds)
}
