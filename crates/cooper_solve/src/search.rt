//! The search over the variables, from the last to the first.

ghost use Rattle.std.specs.Prelude.{◌≡◌, ◌+◌, ◌*ℤ◌, ◌+ℤ◌, ◌<ℤ◌, ◌≤ℤ◌, ◌<◌, pos, ℕ, ℤ, List, IfOk, MatchResult, IsTrue, ◌↔◌, length, unsigned_abs, []};
ghost use Rattle.std.specs.List.{All, Contains};
ghost use Rattle.math_cooper.specs.System.{Solves, Holds, HasWidth, affine_value};
ghost use Rattle.math_cooper.specs.Puts.{Absent};
ghost use Rattle.cooper_solve.specs.Views.{IsSystem, IsPositive, OnWide};
ghost use Rattle.cooper_solve.specs.Told.{put_of, Tells, TellsAfter, TellsFrom, TellsOver, WideBefore, IsStep, IsStepOf};
ghost use Rattle.cooper_solve.specs.Turns.{TellsTurn, PassesOver};

use crate::bounds::find_bases;
use crate::constraint::{Constraint, Direction, Relation, Stop, cut_each, occurs};
use crate::fit::{form_fits, system_fits};
use crate::found::{Found, Put, Solution, go_back, only_put, with_put};
use crate::put::{Linear, form_of, put_each};
use crate::scale::{period, scale, unit_each};
use crate::skip::skip;
use fast_fault::Memory;
use std::alloc::Global;
use wide_num::rem;

// A system with one variable for `scale` times the last, with the period of its puts and the bounds that are put.
#[derive(Drop)]
struct Step {
    scale: i128,
    period: i128,
    scaled: Vec<Constraint>,
    direction: Direction,
    bounds: Vec<usize>,
}

// What one offset gives: so many offsets, from it on, at which no put has a solution, or what was found.
#[derive(Drop)]
enum Turn {
    Skip(i128),
    Stop(Found),
}

// Whether a condition without variables holds.
fn is_met(constraint: &Constraint) -> bool
    requires { HasWidth 0 constraint.now }
    ensures { IsTrue result ↔ Holds [] constraint.now }
{
    match constraint.relation {
        Relation::AtLeast => constraint.constant >= 0,
        Relation::Divided(divisor) => rem(constraint.constant, divisor) == 0,
    }
}

fn are_met(system: &[Constraint]) -> bool
    requires { All (HasWidth 0) system.now }
    ensures { IsTrue result ↔ Solves [] system.now }
{
    for constraint in system {
        if !is_met(constraint) {
            return false;
        }
    }
    true
}

fn prepare(alloc: Global, system: &[Constraint], last: usize) -> Result<Step, Stop>
    requires { IsSystem (last + 1) system.now }
    ensures { MatchResult result (λ s. IsStepOf last system.now s.scale s.period s.scaled.items s.direction s.bounds.items) (OnWide (WideBefore last system.now)) }
{
    let scale = scale(alloc, system, last)?;
    let scaled = unit_each(alloc, system, last, scale)?;
    let period = period(alloc, &scaled, last)?;
    let bases = find_bases(alloc, &scaled, last)?;
    Ok(Step {
        scale,
        period,
        scaled,
        direction: bases.direction,
        bounds: bases.bounds,
    })
}

// What is found of a system, of one with a variable more that occurs nowhere.
fn pass_over(found: Found, last: usize) -> Result<Found, Memory>
    ensures { IfOk result (PassesOver last found) }
{
    match found {
        Found::Solved(solution) => {
            let Solution { values, puts } = solution;
            let mut more = values;
            if last < 8 {
                more.push(0)?;
            }
            Ok(Found::Solved(Solution { values: more, puts }))
        }
        other => Ok(other),
    }
}

/// Whether values of the first `count` variables meet the system, and by which puts.
#[cycle(solve)]
pub fn solve(alloc: Global, system: &[Constraint], count: usize) -> Result<Found, Memory>
    requires { IsSystem count system.now }
    ensures { IfOk result (Tells count system.now) }
{
    system_fits(system);
    if count == 0 {
        if !are_met(system) {
            return Ok(Found::Unsat);
        }
        return Ok(Found::Solved(Solution {
            values: Vec::new(alloc),
            puts: Vec::new(alloc),
        }));
    }
    let last = count - 1;
    if !occurs(system, last) {
        let smaller = cut_each(alloc, system, last)?;
        return pass_over(solve(alloc, &smaller, last)?, last);
    }
    let step = match prepare(alloc, system, last) {
        Ok(step) => step,
        Err(Stop::TooWide) => return Ok(Found::Wide(Vec::new(alloc))),
        Err(Stop::Memory) => return Err(Memory),
    };
    system_fits(&step.scaled);
    over_bounds(alloc, &step, last)
}

// The puts from each bound.
#[cycle(solve)]
fn over_bounds(alloc: Global, step: &Step, last: usize) -> Result<Found, Memory>
    requires { IsStep last step.now.scale step.now.period step.now.scaled.items step.now.direction step.now.bounds.items }
    ensures { IfOk result (TellsOver last (unsigned_abs step.now.scale) (unsigned_abs step.now.period) step.now.direction step.now.scaled.items step.now.bounds.items) }
{
    for bound in &step.bounds {
        match at_bound(alloc, step, last, *bound)? {
            Found::Unsat => {}
            found => return Ok(found),
        }
    }
    Ok(Found::Unsat)
}

// The puts from one bound.
#[cycle(solve)]
fn at_bound(alloc: Global, step: &Step, last: usize, bound: usize) -> Result<Found, Memory>
    requires step { IsStep last step.now.scale step.now.period step.now.scaled.items step.now.direction step.now.bounds.items }
    requires bound { Contains step.now.bounds.items bound }
    ensures { IfOk result (TellsFrom last (unsigned_abs step.now.scale) (unsigned_abs step.now.period) step.now.direction step.now.scaled.items bound) }
{
    let mut offset = 0;
    while offset < step.period {
        match at_offset(alloc, step, last, bound, offset)? {
            Turn::Skip(count) => offset += count,
            Turn::Stop(found) => return Ok(found),
        }
    }
    Ok(Found::Unsat)
}

// The put from one bound at one offset.
#[cycle(solve)]
fn at_offset(
    alloc: Global,
    step: &Step,
    last: usize,
    bound: usize,
    offset: i128,
) -> Result<Turn, Memory>
    requires step { IsStep last step.now.scale step.now.period step.now.scaled.items step.now.direction step.now.bounds.items }
    requires bound { Contains step.now.bounds.items bound }
    requires natural { pos 0 ≤ℤ offset }
    requires below { offset <ℤ step.now.period }
    ensures { IfOk result (TellsTurn last step.now.scale step.now.period step.now.direction step.now.scaled.items bound offset) }
{
    let put = Put {
        variable: last as u64,
        bound: bound as u64,
        offset,
    };
    let form = match form_of(alloc, &step.scaled, last, step.direction, bound, offset) {
        Ok(form) => form,
        Err(Stop::TooWide) => return Ok(Turn::Stop(Found::Wide(only_put(alloc, put)?))),
        Err(Stop::Memory) => return Err(Memory),
    };
    let next = match put_each(alloc, &step.scaled, last, &form) {
        Ok(next) => next,
        Err(Stop::TooWide) => return Ok(Turn::Stop(Found::Wide(only_put(alloc, put)?))),
        Err(Stop::Memory) => return Err(Memory),
    };
    let left = step.period - offset;
    let skipped = skip(&next, &step.scaled, last, step.direction, left);
    if skipped > 0 {
        return Ok(Turn::Skip(skipped));
    }
    match go_on(alloc, &next, last, put, &form, step.scale)? {
        Found::Unsat => Ok(Turn::Skip(1)),
        found => Ok(Turn::Stop(found)),
    }
}

// What is found after a put.
#[cycle(solve)]
fn go_on(
    alloc: Global,
    next: &[Constraint],
    last: usize,
    put: Put,
    form: &Linear,
    scale: i128,
) -> Result<Found, Memory>
    requires next { IsSystem last next.now }
    requires fits { length form.now.coefficients ≡ last }
    requires scale { pos 0 <ℤ scale }
    requires back { (ws : List ℤ) → length ws ≡ last → Solves ws next.now → (x : ℤ) × (affine_value form.now ws ≡ pos (unsigned_abs scale) *ℤ x) }
    ensures { IfOk result (TellsAfter last (unsigned_abs scale) form.now next.now (put_of put)) }
{
    form_fits(form);
    match solve(alloc, next, last)? {
        Found::Unsat => Ok(Found::Unsat),
        Found::Wide(puts) => Ok(Found::Wide(with_put(puts, put)?)),
        Found::Far(puts) => Ok(Found::Far(with_put(puts, put)?)),
        Found::Solved(solution) => go_back(solution, put, form, scale, last),
    }
}
