//! Over which blocks there are rules.

ghost use Rattle.std.specs.Prelude.{◌≡◌, ◌<◌, ◌^◌, length, map, get_or, All, IfOk, OnOk};
ghost use Rattle.sta_classes.specs.Grow.{Grown, Some};
ghost use Rattle.sta_min.specs.Demands.{free_in};
ghost use Rattle.sta_min.specs.Heads.{plain_head, head_with, IsHeadOf, AreHeads};

use crate::demands::{choices_of, demands_of, free_places};
use crate::lists::combinations;
use fast_fault::Memory;
use sta_classes::Table;
use std::alloc::Global;

/// A constructor with a block for each child, and what rules over these demand.
#[derive(Drop)]
pub struct Head {
    pub constructor: u32,
    pub blocks: Vec<u32>,
    pub demands: Vec<Vec<u64>>,
}

/// The constructor over these blocks.
fn head_over(alloc: Global, constructor: u32, free: &[bool], blocks: &[u32]) -> Result<Head, Memory>
    requires { length blocks.now ≡ length free.now }
    ensures { IfOk result (λ head. plain_head head ≡ head_with constructor (free_in free.now) blocks.now) }
{
    let demands = demands_of(alloc, free, blocks)?;
    let blocks = Vec::from_slice(alloc, blocks)?;
    Ok(Head {
        constructor,
        blocks,
        demands,
    })
}

/// Adds the constructor over each of the lists.
fn add_lists(
    alloc: Global,
    constructor: u32,
    free: &[bool],
    lists: &[Vec<u32>],
    heads: &mut Vec<Head>,
) -> Result<(), Memory>
    requires { All (λ v. length v.items ≡ length free.now) lists.now }
    ensures { OnOk result (Grown (map plain_head heads.old.items) (map plain_head heads.new.items) (Some (λ v h. head_with constructor (free_in free.now) v.items ≡ h) lists.now)) }
{
    'lists: for list in lists {
        heads.push(head_over(alloc, constructor, free, list)?)?;
    }
    Ok(())
}

/// Adds the constructor over all lists of so many blocks, with the first block alone at a free place.
fn add_heads<A, V>(
    alloc: Global,
    table: &Table<A, V>,
    constructor: u32,
    rank: u32,
    count: u32,
    heads: &mut Vec<Head>,
) -> Result<(), Memory>
    requires constructor { constructor < length table.now.machine.ranks }
    requires rank { rank ≡ get_or table.now.machine.ranks constructor 0 }
    ensures { OnOk result (Grown (map plain_head heads.old.items) (map plain_head heads.new.items) (IsHeadOf table.now count constructor)) }
{
    let free = free_places(alloc, table, constructor, rank)?;
    let choices = choices_of(alloc, &free, count)?;
    let lists = combinations(alloc, &choices)?;
    add_lists(alloc, constructor, &free, &lists, heads)?;
    Ok(())
}

/// The same for all constructors.
pub fn all_heads<A, V>(
    alloc: Global,
    table: &Table<A, V>,
    ranks: &[u32],
    count: u32,
) -> Result<Vec<Head>, Memory>
    requires few { length ranks.now < 2 ^ 32 }
    requires ranks { ranks.now ≡ table.now.machine.ranks }
    ensures { IfOk result (λ heads. AreHeads table.now count (length ranks.now) (map plain_head heads.items)) }
{
    let mut heads = Vec::new(alloc);
    'constructors: for constructor in 0..ranks.len() {
        add_heads(
            alloc,
            table,
            constructor as u32,
            ranks[constructor],
            count,
            &mut heads,
        )?;
    }
    Ok(heads)
}
