//! The system that literals begin with.

ghost use Rattle.std.specs.Prelude.{◌≡◌, ◌+◌, ◌-◌, ◌^◌, ◌<◌, ◌++◌, ◌∷◌, [], ◌⊎◌, pos, negsuc, Bool, cond, true, IfOk, length, drop, slice_index_or, List};
ghost use Rattle.model_form.specs.Form.{height};
ghost use Rattle.model_chain.specs.Literals.{over, needs_side as needs, conditions_of, literals_conditions, remainder_conditions, remainders_conditions, bound_conditions, bounds_conditions, has_field as field_in_form, field_in, width, zeros, add_at as with_at, remainders_in};
ghost use Rattle.model_chain.specs.Chains.{first_system as first, count_variables, least, greatest};
ghost use Rattle.lin_solve.specs.Plain.{plain_known, plain_remainder, plain_literal, plain_literals, ArePositive, AreTheirs, single};

use crate::compare::{Compare, Relation};
use crate::numbering::Remainder;
use crate::rows::{add_at, dividend_constant, dividend_row, empty_row, over as row_over};
use cooper_solve::{Constraint, Relation as Kind};
use fast_fault::Memory;
use label_core::Lit;
use lin_form::{Form, RemTerm};
use std::alloc::Global;

// That the first form less the second, with the offset, is at least 0, at the end.
fn push_over(
    alloc: Global,
    known: &[Remainder],
    first: &Form,
    second: &Form,
    offset: i128,
    out: &mut Vec<Constraint>,
) -> Result<(), Memory>
    requires { (offset ≡ pos 0) ⊎ (offset ≡ negsuc 0) }
    ensures { IfOk result (λ _. out.new.items ≡ out.old.items ++ over (plain_known known.now) first.now second.now offset ∷ []) }
{
    out.push(row_over(alloc, known, first, second, offset)?)?;
    Ok(())
}

fn push_equal(
    alloc: Global,
    known: &[Remainder],
    left: &Form,
    right: &Form,
    out: &mut Vec<Constraint>,
) -> Result<(), Memory>
    ensures { IfOk result (λ _. out.new.items ≡ out.old.items ++ over (plain_known known.now) left.now right.now (pos 0) ∷ over (plain_known known.now) right.now left.now (pos 0) ∷ []) }
{
    push_over(alloc, known, left, right, 0, out)?;
    push_over(alloc, known, right, left, 0, out)
}

// The conditions of a literal with a side, at the end.
fn push_literal(
    alloc: Global,
    known: &[Remainder],
    literal: &Lit<Compare>,
    side: bool,
    out: &mut Vec<Constraint>,
) -> Result<(), Memory>
    ensures { IfOk result (λ _. out.new.items ≡ out.old.items ++ conditions_of (plain_known known.now) (plain_literal literal.now) side) }
{
    let left = &literal.atom.left;
    let right = &literal.atom.right;
    match literal.atom.relation {
        Relation::Less => {
            if literal.sign {
                return push_over(alloc, known, right, left, -1, out);
            }
            push_over(alloc, known, left, right, 0, out)
        }
        Relation::AtMost => {
            if literal.sign {
                return push_over(alloc, known, right, left, 0, out);
            }
            push_over(alloc, known, left, right, -1, out)
        }
        Relation::Equal => {
            if literal.sign {
                return push_equal(alloc, known, left, right, out);
            }
            if side {
                return push_over(alloc, known, left, right, -1, out);
            }
            push_over(alloc, known, right, left, -1, out)
        }
    }
}

/// Whether the literal is a negated equality.
pub(crate) fn needs_side(literal: &Lit<Compare>) -> bool
    ensures { result ≡ needs (plain_literal literal.now) }
{
    match literal.atom.relation {
        Relation::Less => false,
        Relation::AtMost => false,
        Relation::Equal => !literal.sign,
    }
}

pub(crate) fn side_at(sides: &[bool], next: usize, needed: bool) -> bool
    ensures { result ≡ cond needed (slice_index_or (drop next sides.now) 0 true) true }
{
    if needed {
        sides.get(next).copied().unwrap_or(true)
    } else {
        true
    }
}

pub(crate) fn step_on(next: usize, needed: bool) -> usize
    requires { next + 1 < 2 ^ 64 }
    ensures { result ≡ cond needed (next + 1) next }
{
    if needed { next + 1 } else { next }
}

fn push_literals(
    alloc: Global,
    known: &[Remainder],
    literals: &[Lit<Compare>],
    sides: &[bool],
    out: &mut Vec<Constraint>,
) -> Result<(), Memory>
    ensures { IfOk result (λ _. out.new.items ≡ out.old.items ++ literals_conditions (plain_known known.now) (plain_literals literals.now) sides.now) }
{
    let mut next = 0;
    for literal in literals {
        let needed = needs_side(literal);
        push_literal(alloc, known, literal, side_at(sides, next, needed), out)?;
        next = step_on(next, needed);
    }
    Ok(())
}

// So many times one variable, and a constant, is at least 0.
fn one_at(
    alloc: Global,
    known: &[Remainder],
    variable: usize,
    minus: bool,
    constant: i128,
) -> Result<Constraint, Memory>
    ensures { IfOk result (λ r. r ≡ single (plain_known known.now) variable minus constant) }
{
    let mut coefficients = empty_row(alloc, known)?;
    add_at(&mut coefficients, variable, if minus { -1 } else { 1 });
    Ok(Constraint {
        relation: Kind::AtLeast,
        constant,
        coefficients,
    })
}

// The three conditions of a new variable, at the end.
fn push_remainder(
    alloc: Global,
    known: &[Remainder],
    variable: usize,
    remainder: &Remainder,
    out: &mut Vec<Constraint>,
) -> Result<(), Memory>
    requires { 0 < remainder.now.divisor }
    ensures { IfOk result (λ _. out.new.items ≡ out.old.items ++ remainder_conditions (plain_known known.now) variable (plain_remainder remainder.now)) }
{
    let divisor = remainder.divisor as i128;
    out.push(one_at(alloc, known, variable, false, 0)?)?;
    out.push(one_at(alloc, known, variable, true, divisor - 1)?)?;
    let mut coefficients = dividend_row(alloc, &remainder.inner, known)?;
    add_at(&mut coefficients, variable, -1);
    out.push(Constraint {
        relation: Kind::Divided(divisor),
        constant: dividend_constant(&remainder.inner),
        coefficients,
    })?;
    Ok(())
}

fn push_remainders(
    alloc: Global,
    known: &[Remainder],
    out: &mut Vec<Constraint>,
) -> Result<(), Memory>
    requires { ArePositive known.now }
    ensures { IfOk result (λ _. out.new.items ≡ out.old.items ++ remainders_conditions (plain_known known.now) 8 (plain_known known.now)) }
{
    for i in 0..known.len() {
        push_remainder(alloc, known, 8 + i, &known[i], out)?;
    }
    Ok(())
}

// Whether the field is in the form, or in an inner one.
#[cycle(field)]
pub(crate) fn has_field(form: &Form, field: u32) -> bool
    ensures { result ≡ field_in_form field form.now }
{
    'fields: for term in form.fields() {
        if term.field == field {
            return true;
        }
    }
    'inner: for term in form.remainders() {
        if is_within(term, field) {
            return true;
        }
    }
    false
}

// Whether the field is in what the remainder is taken of.
#[cycle(field)]
pub(crate) fn is_within(term: &RemTerm, field: u32) -> bool
    ensures { result ≡ field_in_form field term.now.inner }
{
    has_field(term.innermost().0, field)
}

fn is_in_literals(literals: &[Lit<Compare>], field: u32) -> bool
    ensures { result ≡ field_in field (plain_literals literals.now) }
{
    for literal in literals {
        if has_field(&literal.atom.left, field) {
            return true;
        }
        if has_field(&literal.atom.right, field) {
            return true;
        }
    }
    false
}

// The bounds of one field, if it is in the literals, at the end.
fn push_bound(
    alloc: Global,
    known: &[Remainder],
    literals: &[Lit<Compare>],
    field: u32,
    out: &mut Vec<Constraint>,
) -> Result<(), Memory>
    ensures { IfOk result (λ _. out.new.items ≡ out.old.items ++ cond (field_in field (plain_literals literals.now)) (bound_conditions (plain_known known.now) least greatest field) []) }
{
    if !is_in_literals(literals, field) {
        return Ok(());
    }
    let variable = field as usize;
    out.push(one_at(alloc, known, variable, false, 0x8000_0000_0000_0000)?)?;
    out.push(one_at(alloc, known, variable, true, 0x7fff_ffff_ffff_ffff)?)?;
    Ok(())
}

fn push_bounds(
    alloc: Global,
    known: &[Remainder],
    literals: &[Lit<Compare>],
    bounded: bool,
    out: &mut Vec<Constraint>,
) -> Result<(), Memory>
    ensures { IfOk result (λ _. out.new.items ≡ out.old.items ++ cond bounded (bounds_conditions (plain_known known.now) least greatest (plain_literals literals.now) 0 8) []) }
{
    if !bounded {
        return Ok(());
    }
    for field in 0..8 {
        push_bound(alloc, known, literals, field, out)?;
    }
    Ok(())
}

/// The conditions, and how many variables they have.
#[derive(Drop)]
pub(crate) struct System {
    pub(crate) conditions: Vec<Constraint>,
    pub(crate) count: usize,
}

/// The system that the literals, which have these remainders, with these sides begin with, bounded or not.
pub(crate) fn first_system(
    alloc: Global,
    literals: &[Lit<Compare>],
    known: &[Remainder],
    bounded: bool,
    sides: &[bool],
) -> Result<System, Memory>
    requires { AreTheirs literals.now known.now }
    ensures { IfOk result (λ s. (s.conditions.items ≡ first (plain_literals literals.now) bounded sides.now) × (s.count ≡ count_variables (plain_literals literals.now))) }
{
    let mut out = Vec::new(alloc);
    push_literals(alloc, known, literals, sides, &mut out)?;
    push_remainders(alloc, known, &mut out)?;
    push_bounds(alloc, known, literals, bounded, &mut out)?;
    let count = 8 + known.len();
    Ok(System {
        conditions: out,
        count,
    })
}
