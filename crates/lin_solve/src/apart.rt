//! Literals that share no field are sought apart from one another, so that branches of the ones don't multiply those of the
//! others.

ghost use Rattle.std.specs.Prelude.{◌≡◌, IfOk, length};
ghost use Rattle.lin_solve.specs.Equations.{HoldAlso};
ghost use Rattle.lin_solve.specs.Plain.{plain_literals};
ghost use Rattle.lin_solve.specs.Sought.{TellsSought};

use crate::branches::{FEW_BRANCHES, SOME_BRANCHES, seek_branches};
use crate::compare::Compare;
use crate::found::{Sought, seek};
use crate::guess::all_hold;
use crate::repeats::copy_literal;
use crate::system::has_field;
use fast_fault::{LabelInt, Memory};
use label_core::Lit;
use std::alloc::Global;

// The fields of the literal, a bit each.
pub(crate) fn fields_in(literal: &Lit<Compare>) -> u32 {
    let mut fields = 0;
    for field in 0..8 {
        if has_field(&literal.atom.left, field) || has_field(&literal.atom.right, field) {
            fields |= 1 << field;
        }
    }
    fields
}

/// The fields of each literal, a bit each.
pub(crate) fn fields_of_each(alloc: Global, literals: &[Lit<Compare>]) -> Result<Vec<u32>, Memory> {
    let mut fields = Vec::new(alloc);
    for literal in literals {
        fields.push(fields_in(literal))?;
    }
    Ok(fields)
}

// These fields, and those that literals tie to them, by the fields of each.
fn tied_to(first: u32, fields: &[u32]) -> u32 {
    let mut tied = first;
    for _ in 0..8 {
        for own in fields {
            if own & tied != 0 {
                tied |= own;
            }
        }
    }
    tied
}

// Whether all literals that have fields are tied to one another, by the fields of each.
fn are_tied(fields: &[u32]) -> bool {
    let mut all = 0u32;
    for own in fields {
        all |= own;
    }
    tied_to(all & all.wrapping_neg(), fields) == all
}

// Whether the literal at this place has no other fields than these, by the fields of each.
fn are_among(fields: &[u32], place: usize, tied: u32) -> bool {
    match fields.get(place) {
        Some(own) => own & !tied == 0,
        None => false,
    }
}

// The literals that have no other fields than these, by the fields of each.
fn only_of(
    alloc: Global,
    literals: &[Lit<Compare>],
    fields: &[u32],
    tied: u32,
) -> Result<Vec<Lit<Compare>>, Memory>
    ensures { IfOk result (λ r. HoldAlso literals.now r.items) }
{
    let mut out = Vec::new(alloc);
    for place in 0..literals.len() {
        if are_among(fields, place, tied) {
            out.push(copy_literal(alloc, &literals[place])?)?;
        }
    }
    Ok(out)
}

// The values of these fields are those that were found.
fn take_found(values: &mut [LabelInt], found: &[LabelInt], fields: u32)
    ensures { length values.new ≡ length values.old }
{
    for field in 0..8 {
        if fields & (1 << field) != 0 && field < values.len() && field < found.len() {
            values[field] = found[field];
        }
    }
}

// Seeks them as literals that are tied to one another.
fn seek_together(alloc: Global, literals: &[Lit<Compare>]) -> Result<Sought, Memory>
    ensures { IfOk result (TellsSought (plain_literals literals.now)) }
{
    match seek_branches(alloc, literals, FEW_BRANCHES)? {
        Sought::Open => {}
        found => return Ok(found),
    }
    match seek_branches(alloc, literals, SOME_BRANCHES)? {
        Sought::Open => seek(alloc, literals),
        found => Ok(found),
    }
}

/// Seeks values of the eight fields at which the literals hold.
pub(crate) fn seek_apart(alloc: Global, literals: &[Lit<Compare>]) -> Result<Sought, Memory>
    ensures { IfOk result (TellsSought (plain_literals literals.now)) }
{
    let fields = fields_of_each(alloc, literals)?;
    if are_tied(&fields) {
        return seek_together(alloc, literals);
    }
    let mut values = vec![in alloc; 0; 8]?;
    let mut done = 0;
    for field in 0..8u32 {
        let tied = tied_to(1 << field, &fields);
        if tied & done == 0 {
            done |= tied;
            let own = only_of(alloc, literals, &fields, tied)?;
            match seek_together(alloc, &own)? {
                Sought::Never => return Ok(Sought::Never),
                Sought::Values(found) => take_found(&mut values, &found, tied),
                Sought::Open => {}
            }
        }
    }
    if all_hold(literals, &values) {
        return Ok(Sought::Values(values));
    }
    Ok(Sought::Open)
}
