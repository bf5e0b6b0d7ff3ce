//! Chains of Cooper's method, as the answers show them.

ghost use Rattle.std.specs.Prelude.{◌≡◌, ◌++◌, ◌∷◌, [], IfOk, map, cond};
ghost use Rattle.cooper_solve.specs.Told.{puts_of};
ghost use Rattle.model_chain.specs.Chains.{side_choices, take_put, side as chain_side};
ghost use Rattle.lin_solve.specs.Plain.{plain_literals};
ghost use Rattle.lin_solve.specs.Shown.{bits_of, plain_choice, choices_of};

use crate::compare::Compare;
use crate::repeats::copy_literal;
use crate::system::{needs_side, side_at, step_on};
use crate::tried::Stuck;
use cooper_solve::Put;
use fast_fault::{LABEL_BITS, Memory};
use label_core::Lit;
use std::alloc::Global;

/// A side of the negated equality with this number, where the positive one is that the left side is the greater; or a
/// put.
#[derive(Clone, Copy, Debug, PartialEq, Eq)]
pub enum Choice {
    Side { literal: u64, positive: bool },
    Put(Put),
}

/// The width that a chain passes.
#[derive(Clone, Copy, Debug, PartialEq, Eq)]
pub enum Width {
    /// 64 bits, by its solution.
    Solution,
    /// 128 bits, by a number of it.
    Number,
    /// The same of a chain whose fields are bounded, since one without bounds has a solution that is far off.
    BoundedNumber,
}

impl Width {
    /// So many bits.
    pub fn bits(self) -> u32
        ensures { result ≡ bits_of self }
    {
        match self {
            Width::Solution => LABEL_BITS,
            Width::Number | Width::BoundedNumber => 128,
        }
    }
}

/// The choices that lead from literals to a solution that is far off, or to a number that is too wide.
#[derive(Drop)]
pub struct Chain {
    pub literals: Vec<Lit<Compare>>,
    pub choices: Vec<Choice>,
    pub width: Width,
}

fn copy_literals(alloc: Global, literals: &[Lit<Compare>]) -> Result<Vec<Lit<Compare>>, Memory>
    ensures { IfOk result (λ r. r.items ≡ literals.now) }
{
    let mut out = Vec::new(alloc);
    for literal in literals {
        out.push(copy_literal(alloc, literal)?)?;
    }
    Ok(out)
}

fn push_side(index: usize, side: bool, needed: bool, out: &mut Vec<Choice>) -> Result<(), Memory>
    ensures { IfOk result (λ _. map plain_choice out.new.items ≡ map plain_choice out.old.items ++ cond needed (chain_side index side ∷ []) []) }
{
    if needed {
        out.push(Choice::Side {
            literal: index as u64,
            positive: side,
        })?;
    }
    Ok(())
}

fn push_sides(
    literals: &[Lit<Compare>],
    sides: &[bool],
    out: &mut Vec<Choice>,
) -> Result<(), Memory>
    ensures { IfOk result (λ _. map plain_choice out.new.items ≡ map plain_choice out.old.items ++ side_choices 0 (plain_literals literals.now) sides.now) }
{
    let mut next = 0;
    for i in 0..literals.len() {
        let needed = needs_side(&literals[i]);
        push_side(i, side_at(sides, next, needed), needed, out)?;
        next = step_on(next, needed);
    }
    Ok(())
}

// The puts, of which the first stands last.
fn push_puts(puts: &[Put], out: &mut Vec<Choice>) -> Result<(), Memory>
    ensures { IfOk result (λ _. map plain_choice out.new.items ≡ map plain_choice out.old.items ++ map take_put (puts_of puts.now)) }
{
    for i in 0..puts.len() {
        out.push(Choice::Put(puts[puts.len() - 1 - i]))?;
    }
    Ok(())
}

/// The chain of the sides and the puts.
pub(crate) fn chain_of(
    alloc: Global,
    literals: &[Lit<Compare>],
    width: Width,
    stuck: &Stuck,
) -> Result<Chain, Memory>
    ensures { IfOk result (λ c. (c.literals.items ≡ literals.now) × (map plain_choice c.choices.items ≡ choices_of (plain_literals literals.now) stuck.now.sides.items (puts_of stuck.now.puts.items)) × (c.width ≡ width)) }
{
    let copies = copy_literals(alloc, literals)?;
    let mut choices = Vec::new(alloc);
    push_sides(literals, &stuck.sides, &mut choices)?;
    push_puts(&stuck.puts, &mut choices)?;
    Ok(Chain {
        literals: copies,
        choices,
        width,
    })
}
