//! Rounds that split blocks of classes until nothing changes.
//!
//! Of each class a list says which classes nodes over it have, and a round compares the blocks of these.

ghost use Rattle.std.specs.Prelude.{◌≡◌, ◌<◌, ◌^◌, length, map, get_or, All, IfOk};
ghost use Rattle.sta_classes.specs.Rows.{lists_of};
ghost use Rattle.sta_min.specs.Firsts.{AreNumbers};
ghost use Rattle.sta_min.specs.Rounds.{signature, IsFiner, AreRefined, AreBelow};

use crate::firsts::number_of;
use fast_fault::Memory;
use indexmap::IndexMap;
use std::alloc::Global;

/// The class's block, and those of the nodes over it.
fn signature(alloc: Global, blocks: &[u32], class: usize, nodes: &[u32]) -> Result<Vec<u32>, Memory>
    requires class { class < length blocks.now }
    requires nodes { All (λ k. k < length blocks.now) nodes.now }
    ensures { IfOk result (λ made. made.items ≡ signature blocks.now class nodes.now) }
{
    let mut made = Vec::new(alloc);
    made.push(blocks[class])?;
    for node in nodes {
        made.push(blocks[*node as usize])?;
    }
    Ok(made)
}

/// The blocks after one more round.
fn round(alloc: Global, blocks: &[u32], nodes: &[Vec<u32>]) -> Result<Vec<u32>, Memory>
    requires few { length nodes.now < 2 ^ 32 }
    requires many { length blocks.now ≡ length nodes.now }
    requires below { AreBelow (length blocks.now) nodes.now }
    ensures { IfOk result (λ finer. IsFiner (lists_of nodes.now) blocks.now finer.items) }
{
    let mut seen = IndexMap::new(alloc);
    let mut finer = Vec::new(alloc);
    'classes: for class in 0..nodes.len() {
        let key = signature(alloc, blocks, class, &nodes[class])?;
        finer.push(number_of(&mut seen, key, class as u32)?)?;
    }
    Ok(finer)
}

/// The blocks after so many rounds that one more changes nothing.
pub fn refined(alloc: Global, start: Vec<u32>, nodes: &[Vec<u32>]) -> Result<Vec<u32>, Memory>
    requires few { length nodes.now < 2 ^ 32 }
    requires numbers { AreNumbers (length nodes.now) start.items }
    requires below { AreBelow (length nodes.now) nodes.now }
    ensures { IfOk result (λ blocks. AreRefined (lists_of nodes.now) start.items blocks.items) }
{
    let mut blocks = start;
    'rounds: loop {
        let finer = round(alloc, &blocks, nodes)?;
        if finer == blocks {
            return Ok(blocks);
        }
        blocks = finer;
    }
}
