//! Blocks of classes that no context tells apart.

ghost use Rattle.std.specs.Prelude.{ℕ, ◌≡◌, ◌<◌, ◌^◌, [], length, get_or, All, IfOk};
ghost use Rattle.std.specs.List.{AllPairs};
ghost use Rattle.model_sta.specs.Sets.{has};
ghost use Rattle.sta_classes.specs.Plain.{class_row};
ghost use Rattle.sta_classes.specs.Rows.{lists_of};
ghost use Rattle.sta_theory.specs.Minimal.{is_among};
ghost use Rattle.sta_min.specs.Firsts.{AreFirsts};
ghost use Rattle.sta_min.specs.Kinds.{nested};
ghost use Rattle.sta_min.specs.Steps.{IsRead};
ghost use Rattle.sta_min.specs.Tables.{kind_table, IsSpace, IsPartition};

use crate::dense::{Blocks, blocks_of};
use crate::firsts::number_of;
use crate::nodes::all_nodes;
use crate::probes::all_probes;
use crate::rounds::refined;
use crate::steps::Steps;
use fast_fault::Memory;
use indexmap::IndexMap;
use label_core::Theory;
use sta_classes::Table;
use std::alloc::Global;

/// For each class the number of the first one that has the state too, or doesn't have it either.
fn start_blocks<A, V>(alloc: Global, table: &Table<A, V>, state: u64) -> Result<Vec<u32>, Memory>
    ensures { IfOk result (λ blocks. AreFirsts (λ k. has (class_row table.now k) state) (length table.now.found) blocks.items) }
{
    let mut seen = IndexMap::new(alloc);
    let mut blocks = Vec::new(alloc);
    'classes: for class in 0..table.len() {
        blocks.push(number_of(&mut seen, table.has(class, state), class)?)?;
    }
    Ok(blocks)
}

/// The numbers of the blocks whose first classes have the state, in ascending order.
pub fn finals_of<A, V>(
    alloc: Global,
    table: &Table<A, V>,
    firsts: &[u32],
    state: u64,
) -> Result<Vec<u32>, Memory>
    requires few { length firsts.now < 2 ^ 32 }
    requires known { All (λ k. k < length table.now.found) firsts.now }
    ensures low { IfOk result (λ finals. All (λ i. i < length firsts.now) finals.items) }
    ensures ascending { IfOk result (λ finals. AllPairs (λ i j. i < j) finals.items) }
    ensures finals { IfOk result (λ finals. (i : ℕ) → i < length firsts.now → is_among finals.items i ≡ has (class_row table.now (get_or firsts.now i 0)) state) }
{
    let mut finals = Vec::new(alloc);
    'firsts: for i in 0..firsts.len() {
        if table.has(firsts[i], state) {
            finals.push(i as u32)?;
        }
    }
    Ok(finals)
}

/// The blocks of classes that no context tells apart by the language of the state.
pub fn partition<T: Theory>(
    theory: &T,
    alloc: Global,
    steps: &Steps<T::Atom, T::Value>,
    kinds: &[Vec<Vec<u32>>],
    state: u64,
) -> Result<Blocks, Memory>
    requires few { length kinds.now < 2 ^ 32 }
    requires read { IsRead (T.meaning theory.now) (T.atom_fits theory.now) steps.now }
    requires space { IsSpace T.label_of T.atom_holds steps.now.table.now (lists_of steps.now.values.items) (nested kinds.now) (T.meaning theory.now) }
    ensures few { IfOk result (λ blocks. length blocks.firsts.items < 2 ^ 32) }
    ensures partition { IfOk result (λ blocks. IsPartition (T.meaning theory.now).has (kind_table T.label_of T.atom_holds steps.now.table.now (lists_of steps.now.values.items) (nested kinds.now)) state blocks.firsts.items blocks.dense.items) }
{
    let probes = all_probes(alloc, kinds, &steps.values)?;
    let nodes = all_nodes(theory, alloc, steps, &probes)?;
    let start = start_blocks(alloc, steps.table, state)?;
    let numbers = refined(alloc, start, &nodes)?;
    let blocks = blocks_of(alloc, &numbers)?;
    Ok(blocks)
}
