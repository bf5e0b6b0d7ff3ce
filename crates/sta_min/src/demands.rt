//! What the rules over blocks demand of children.

ghost use Rattle.std.specs.Prelude.{ℕ, ◌≡◌, ◌<◌, ◌↔◌, length, get_or, Contains, IfOk};
ghost use Rattle.sta_classes.specs.Rows.{lists_of};
ghost use Rattle.sta_theory.specs.Built.{keys};
ghost use Rattle.sta_min.specs.Demands.{AreFreePlaces, AreChoices, free_in};

use fast_fault::Memory;
use sta_classes::Table;
use std::alloc::Global;

/// At which places all classes are of one kind.
pub fn free_places<A, V>(
    alloc: Global,
    table: &Table<A, V>,
    constructor: u32,
    rank: u32,
) -> Result<Vec<bool>, Memory>
    requires constructor { constructor < length table.now.machine.ranks }
    requires rank { rank ≡ get_or table.now.machine.ranks constructor 0 }
    ensures { IfOk result (λ free. AreFreePlaces table.now constructor rank free.items) }
{
    let mut free = Vec::new(alloc);
    'places: for place in 0..rank {
        free.push(table.kinds(constructor, place) == 1)?;
    }
    Ok(free)
}

/// Of each child its block, but nothing at a free place.
pub fn demands_of(alloc: Global, free: &[bool], blocks: &[u32]) -> Result<Vec<Vec<u64>>, Memory>
    requires { length blocks.now ≡ length free.now }
    ensures { IfOk result (λ demands. lists_of demands.items ≡ keys (free_in free.now) blocks.now) }
{
    let mut demands = Vec::new(alloc);
    'places: for j in 0..blocks.len() {
        let mut those = Vec::new(alloc);
        if !free[j] {
            those.push(blocks[j] as u64)?;
        }
        demands.push(those)?;
    }
    Ok(demands)
}

/// Copies of the demands.
pub fn copy_demands(alloc: Global, demands: &[Vec<u64>]) -> Result<Vec<Vec<u64>>, Memory>
    ensures { IfOk result (λ copies. lists_of copies.items ≡ lists_of demands.now) }
{
    let mut copies = Vec::new(alloc);
    for states in demands {
        copies.push(Vec::from_slice(alloc, states)?)?;
    }
    Ok(copies)
}

/// The first so many numbers.
fn numbers(alloc: Global, count: u32) -> Result<Vec<u32>, Memory>
    ensures { IfOk result (λ made. (k : ℕ) → Contains made.items k ↔ (k < count)) }
{
    let mut made = Vec::new(alloc);
    'numbers: for number in 0..count {
        made.push(number)?;
    }
    Ok(made)
}

/// For each place the blocks that a rule has for it: the first one alone at a free place, and else all.
pub fn choices_of(alloc: Global, free: &[bool], count: u32) -> Result<Vec<Vec<u32>>, Memory>
    ensures { IfOk result (λ choices. AreChoices (free_in free.now) count (length free.now) (lists_of choices.items)) }
{
    let mut choices = Vec::new(alloc);
    'places: for j in 0..free.len() {
        choices.push(numbers(alloc, if free[j] { 1 } else { count })?)?;
    }
    Ok(choices)
}
