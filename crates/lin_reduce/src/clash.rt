//! Systems that clash by what follows without a choice: equations and conditions on multiples are solved one by one, and no
//! variable is split but where one of its rests is left.

ghost use Rattle.std.specs.Prelude.{MatchResult, IfOk, IsTrue};
ghost use Rattle.math_cooper.specs.System.{IsSolvable};
ghost use Rattle.lin_reduce.specs.Parts.{TellsClash, TellsLook};

use crate::line::Stop;
use crate::nodes::{Look, Node};
use crate::pins::{first_equation, first_multiple};
use crate::residues::split_of;
use cooper_solve::{Constraint, is_refuted};
use fast_fault::Memory;
use std::alloc::Global;

// How many steps are taken.
const MOST: usize = 100;

impl Node {
    // What follows without a choice, if anything does.
    fn step(&self) -> Look
        ensures { TellsLook self.now.system.items result }
    {
        if is_refuted(&self.system) {
            return Look::Lost;
        }
        if let Some(place) = first_equation(&self.system) {
            return Look::Solve(place);
        }
        match split_of(&self.system) {
            Some(next) if next.alone => return Look::Split(next),
            _ => {}
        }
        match first_multiple(&self.system) {
            Some(place) => Look::Solve(place),
            None => Look::Open,
        }
    }
}

fn run(alloc: Global, system: &[Constraint], count: usize) -> Result<bool, Stop>
    ensures { MatchResult result (TellsClash count system.now) (λ _. Unit {0}) }
{
    let mut pending = Vec::new(alloc);
    pending.push(Node::first(alloc, system, count)?)?;
    for _ in 0..MOST {
        let Some(node) = pending.pop() else {
            return Ok(true);
        };
        if !pending.is_empty() {
            return Ok(false);
        }
        match node.step() {
            Look::Lost => {}
            Look::Split(next) => node.push_parts(alloc, next, count, &mut pending)?,
            Look::Solve(place) => node.push_solved(alloc, place, count, &mut pending)?,
            _ => return Ok(false),
        }
    }
    Ok(false)
}

/// Whether conditions on values of so many variables clash by what follows from them without a choice.
pub fn clashes(alloc: Global, system: &[Constraint], count: usize) -> Result<bool, Memory>
    ensures { IfOk result (TellsClash count system.now) }
{
    match run(alloc, system, count) {
        Ok(clash) => Ok(clash),
        Err(Stop::TooWide) => Ok(false),
        Err(Stop::Memory) => Err(Memory),
    }
}
