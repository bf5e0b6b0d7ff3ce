//! Blocks with numbers that have no gaps.

ghost use Rattle.std.specs.Prelude.{◌<◌, ◌≤◌, ◌^◌, length, IfOk};
ghost use Rattle.sta_theory.specs.Rounds.{IsDense};
ghost use Rattle.sta_min.specs.Firsts.{AreNumbers};

use fast_fault::Memory;
use std::alloc::Global;

/// The first class of each block, and for each class the place of that of its own block.
#[derive(Drop)]
pub struct Blocks {
    pub firsts: Vec<u32>,
    pub dense: Vec<u32>,
}

/// The blocks under the numbers 0, 1, .. in the order of their first classes.
pub fn blocks_of(alloc: Global, numbers: &[u32]) -> Result<Blocks, Memory>
    requires few { length numbers.now < 2 ^ 32 }
    requires numbers { AreNumbers (length numbers.now) numbers.now }
    ensures few { IfOk result (λ blocks. length blocks.firsts.items ≤ length numbers.now) }
    ensures dense { IfOk result (λ blocks. IsDense (length numbers.now) numbers.now blocks.firsts.items blocks.dense.items) }
{
    let mut firsts = Vec::new(alloc);
    let mut dense = Vec::new(alloc);
    'classes: for class in 0..numbers.len() {
        let first = numbers[class] as usize;
        if first == class {
            dense.push(firsts.len() as u32)?;
            firsts.push(class as u32)?;
        } else {
            dense.push(dense[first])?;
        }
    }
    Ok(Blocks { firsts, dense })
}
