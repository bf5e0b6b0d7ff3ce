//! Values that are tried before anything is solved. Each literal that doesn't hold moves one of its fields; values at which
//! all hold are an answer, whatever found them.

ghost use Rattle.std.specs.Prelude.{◌≡◌, IsTrue, IfOk, IfSome, length};
ghost use Rattle.model_chain.specs.Literals.{HoldsAll};
ghost use Rattle.lin_solve.specs.Plain.{plain_literals};

use crate::compare::{Compare, Relation};
use fast_fault::{LabelInt, Memory};
use label_core::Lit;
use lin_form::{FieldTerm, Form};
use std::alloc::Global;

/// Whether each literal holds at these values.
pub(crate) fn all_hold(literals: &[Lit<Compare>], values: &[LabelInt]) -> bool
    ensures { IsTrue result → HoldsAll (plain_literals literals.now) values.now }
{
    for literal in literals {
        if literal.atom.holds(values) != literal.sign {
            return false;
        }
    }
    true
}

// A field of the form, or of a remainder in it, for which a step of one is tried.
fn first_term(form: &Form) -> Option<FieldTerm> {
    if let Some(term) = form.fields().first() {
        return Some(*term);
    }
    match form.remainders().first() {
        Some(remainder) => match first_term(remainder.innermost().0) {
            Some(term) => Some(FieldTerm {
                field: term.field,
                coefficient: 0,
            }),
            None => None,
        },
        None => None,
    }
}

// The field that is moved, and how much the left side less the right one changes with it.
fn moved(atom: &Compare) -> Option<(u32, i128)> {
    if let Some(term) = first_term(&atom.left) {
        return Some((term.field, term.coefficient as i128));
    }
    match first_term(&atom.right) {
        Some(term) => Some((term.field, -(term.coefficient as i128))),
        None => None,
    }
}

// How much the left side less the right one is to change at least, where it is this much.
pub(crate) fn missing(literal: &Lit<Compare>, gap: i128) -> Option<i128> {
    let wanted = match (literal.atom.relation, literal.sign) {
        (Relation::Less, true) => -1,
        (Relation::AtMost, false) => 1,
        (Relation::Equal, false) => return None,
        _ => 0,
    };
    gap.checked_neg()?.checked_add(wanted)
}

// The step of a field that changes a sum by so much, rounded away from nought.
pub(crate) fn step_for(missing: Option<i128>, coefficient: i128) -> i128 {
    let Some(change) = missing else {
        return 1;
    };
    let Some(step) = change.checked_div(coefficient) else {
        return 1;
    };
    match change.checked_rem(coefficient) {
        Some(0) => step,
        _ => {
            if (change < 0) == (coefficient < 0) {
                step.saturating_add(1)
            } else {
                step.saturating_sub(1)
            }
        }
    }
}

// Moves a field of the literal by a multiple of its step, so that it may hold.
fn repair(literal: &Lit<Compare>, steps: &[u64; 8], values: &mut Vec<LabelInt>)
    ensures { length values.new.items ≡ length values.old.items }
{
    let left = literal.atom.left.eval(values);
    let right = literal.atom.right.eval(values);
    let Some(gap) = left.checked_sub(right) else {
        return;
    };
    let Some((field, coefficient)) = moved(&literal.atom) else {
        return;
    };
    let place = field as usize;
    if place >= values.len() || place >= steps.len() {
        return;
    }
    let step = steps[place] as i128;
    let times = step_for(missing(literal, gap), coefficient.saturating_mul(step));
    let next = (values[place] as i128).saturating_add(times.saturating_mul(step));
    if let Ok(value) = LabelInt::try_from(next) {
        values[place] = value;
    }
}

/// Goes once through the literals: each field is moved by multiples of its step.
pub(crate) fn repair_each(literals: &[Lit<Compare>], steps: &[u64; 8], values: &mut Vec<LabelInt>)
    ensures { length values.new.items ≡ length values.old.items }
{
    for literal in literals {
        if literal.atom.holds(values) != literal.sign {
            repair(literal, steps, values);
        }
    }
}

/// Values of the eight fields at which the literals hold, if some are found when they are gone through so often.
pub(crate) fn guess(
    alloc: Global,
    literals: &[Lit<Compare>],
    times: usize,
) -> Result<Option<Vec<LabelInt>>, Memory>
    ensures { IfOk result (λ found. IfSome found (λ values. (length values.items ≡ 8) × HoldsAll (plain_literals literals.now) values.items)) }
{
    let mut values = vec![in alloc; 0; 8]?;
    for _ in 0..times {
        if all_hold(literals, &values) {
            return Ok(Some(values));
        }
        repair_each(literals, &[1; 8], &mut values);
    }
    Ok(None)
}
