//! The search over the sides of negated equalities.

ghost use Rattle.std.specs.Prelude.{◌≡◌, ◌++◌, ◌∷◌, [], IfOk, Bool, false};
ghost use Rattle.model_chain.specs.Literals.{AreLiteralsOver};
ghost use Rattle.model_chain.specs.Chains.{first_system as first, count_variables};
ghost use Rattle.cooper_solve.specs.Told.{Tells};
ghost use Rattle.lin_solve.specs.Plain.{plain_literals, AreTheirs};
ghost use Rattle.lin_solve.specs.Tried.{TellsSides, IsFront, NeverHold};

use crate::compare::Compare;
use crate::numbering::{Remainder, remainders_of};
use crate::system::{first_system, needs_side, step_on};
use cooper_solve::{Found, Put, is_hopeless, solve};
use fast_fault::{LabelInt, Memory};
use label_core::Lit;
use std::alloc::Global;

/// The sides, and the puts after them.
#[derive(Drop)]
pub(crate) struct Stuck {
    pub(crate) sides: Vec<bool>,
    pub(crate) puts: Vec<Put>,
}

/// What is found with some sides, or with all.
#[derive(Drop)]
pub(crate) enum Tried {
    Solved(Vec<LabelInt>),
    Far(Stuck),
    Wide(Stuck),
    Unsat,
}

fn run(
    alloc: Global,
    literals: &[Lit<Compare>],
    known: &[Remainder],
    bounded: bool,
    sides: &[bool],
) -> Result<Found, Memory>
    requires { AreTheirs literals.now known.now }
    ensures { IfOk result (Tells (count_variables (plain_literals literals.now)) (first (plain_literals literals.now) bounded sides.now)) }
{
    let system = first_system(alloc, literals, known, bounded, sides)?;
    if is_hopeless(alloc, &system.conditions, system.count)? {
        return Ok(Found::Unsat);
    }
    Ok(solve(alloc, &system.conditions, system.count)?)
}

fn make_stuck(alloc: Global, sides: &[bool], puts: Vec<Put>) -> Result<Stuck, Memory>
    ensures { IfOk result (λ s. (s.sides.items ≡ sides.now) × (s.puts ≡ puts)) }
{
    Ok(Stuck {
        sides: Vec::from_slice(alloc, sides)?,
        puts,
    })
}

// With these sides, and no more.
fn try_these(
    alloc: Global,
    literals: &[Lit<Compare>],
    known: &[Remainder],
    bounded: bool,
    sides: &[bool],
) -> Result<Tried, Memory>
    requires { AreTheirs literals.now known.now }
    ensures { IfOk result (TellsSides (plain_literals literals.now) bounded sides.now 0) }
{
    match run(alloc, literals, known, bounded, sides)? {
        Found::Solved(solution) => Ok(Tried::Solved(solution.values)),
        Found::Far(puts) => Ok(Tried::Far(make_stuck(alloc, sides, puts)?)),
        Found::Wide(puts) => Ok(Tried::Wide(make_stuck(alloc, sides, puts)?)),
        Found::Unsat => Ok(Tried::Unsat),
    }
}

fn with_side(alloc: Global, sides: &[bool], side: bool) -> Result<Vec<bool>, Memory>
    ensures { IfOk result (λ r. r.items ≡ sides.now ++ side ∷ []) }
{
    let mut all = Vec::from_slice(alloc, sides)?;
    all.push(side)?;
    Ok(all)
}

// The literals before the first negated equality behind so many.
fn front<'l>(literals: &'l [Lit<Compare>], sides: usize) -> &'l [Lit<Compare>]
    ensures { IsFront sides (plain_literals literals.now) (plain_literals result.now) }
{
    let mut count = 0;
    for i in 0..literals.len() {
        let next = step_on(count, needs_side(&literals[i]));
        if next > sides {
            return &literals[..i];
        }
        count = next;
    }
    literals
}

// Whether the literals in front, to which these sides belong, have a solution.
fn may_hold(alloc: Global, literals: &[Lit<Compare>], sides: &[bool]) -> Result<bool, Memory>
    requires { AreLiteralsOver 8 (plain_literals literals.now) }
    ensures { IfOk result (λ may. may ≡ false → NeverHold (plain_literals literals.now) sides.now) }
{
    let front = front(literals, sides.len());
    let known = remainders_of(alloc, front)?;
    match run(alloc, front, &known, false, sides)? {
        Found::Unsat => Ok(false),
        Found::Solved(_) | Found::Far(_) | Found::Wide(_) => Ok(true),
    }
}

/// With these sides, and so many more. Where the literals in front have no solution with these sides, no more are tried.
pub(crate) fn try_sides(
    alloc: Global,
    literals: &[Lit<Compare>],
    known: &[Remainder],
    bounded: bool,
    sides: &[bool],
    left: usize,
) -> Result<Tried, Memory>
    requires over { AreLiteralsOver 8 (plain_literals literals.now) }
    requires known { AreTheirs literals.now known.now }
    ensures { IfOk result (TellsSides (plain_literals literals.now) bounded sides.now left) }
{
    if left == 0 {
        return try_these(alloc, literals, known, bounded, sides);
    }
    if !may_hold(alloc, literals, sides)? {
        return Ok(Tried::Unsat);
    }
    let one = with_side(alloc, sides, true)?;
    match try_sides(alloc, literals, known, bounded, &one, left - 1)? {
        Tried::Solved(values) => return Ok(Tried::Solved(values)),
        Tried::Far(far) => return Ok(Tried::Far(far)),
        Tried::Wide(wide) => return Ok(Tried::Wide(wide)),
        Tried::Unsat => {}
    }
    let other = with_side(alloc, sides, false)?;
    try_sides(alloc, literals, known, bounded, &other, left - 1)
}
