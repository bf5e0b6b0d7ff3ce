//! Equations that give a field by a number or one other field: in all other literals it gives way to that, so that fields
//! within remainders become fewer before remainders are looked at.

ghost use Rattle.std.specs.Prelude.{◌≡◌, ◌<◌, ℤ, List, IfOk, IfSome, slice_index_or, pos};
ghost use Rattle.model_form.specs.Form.{value};
ghost use Rattle.model_form.specs.Meaning.{values_of, AreFormsLow};
ghost use Rattle.model_chain.specs.Literals.{HoldsAll, compare_holds};
ghost use Rattle.lin_solve.specs.Plain.{plain_compare, plain_literals};
ghost use Rattle.lin_solve.specs.Equations.{Gives, HoldAlso};

use crate::compare::{Compare, Relation};
use crate::gaps::less;
use crate::mend::coefficient;
use crate::puts::{forms_with, put_literal};
use crate::repeats::copy_literal;
use crate::system::is_within;
use fast_fault::Memory;
use label_core::Lit;
use lin_form::{Form, FormStop};
use std::alloc::Global;

/// A field, and a form that has its value.
#[derive(Drop)]
pub(crate) struct Own {
    pub(crate) field: u32,
    pub(crate) form: Form,
}

fn some_within(form: &Form, field: u32) -> bool {
    for term in form.remainders() {
        if is_within(term, field) {
            return true;
        }
    }
    false
}

// A field that the first form has once more than the second, and neither within a remainder.
fn single_field(left: &Form, right: &Form) -> Option<u32> {
    for field in 0..8 {
        let times = coefficient(left, field).checked_sub(coefficient(right, field));
        if times == Some(1) && !some_within(left, field) && !some_within(right, field) {
            return Some(field);
        }
    }
    None
}

// Of the sides of an equation, a field that the first has once more than the second, and what it is equal to.
fn own_of(alloc: Global, left: &Form, right: &Form) -> Result<Option<Own>, FormStop>
    ensures { IfOk result (λ found. IfSome found (λ own. (own.field < 8) × ((us : List ℤ) → value left.now us ≡ value right.now us → value own.form us ≡ slice_index_or us own.field (pos 0)))) }
{
    let Some(field) = single_field(left, right) else {
        return Ok(None);
    };
    if field >= 8 {
        return Ok(None);
    }
    let own = Form::field(alloc, field)?;
    // the field is taken away first: the difference of the sides may have a number that is too great
    let Some(rest) = less(alloc, left, &own)? else {
        return Ok(None);
    };
    match less(alloc, right, &rest)? {
        Some(form) => Ok(Some(Own { field, form })),
        None => Ok(None),
    }
}

/// A field that the literal gives, if it is an equation.
pub(crate) fn given_by(alloc: Global, literal: &Lit<Compare>) -> Result<Option<Own>, FormStop>
    ensures { IfOk result (λ found. IfSome found (λ own. (own.field < 8) × Gives literal.now own.form own.field)) }
{
    let (Relation::Equal, true) = (literal.atom.relation, literal.sign) else {
        return Ok(None);
    };
    let atom = &literal.atom;
    match own_of(alloc, &atom.left, &atom.right)? {
        Some(own) => Ok(Some(own)),
        None => own_of(alloc, &atom.right, &atom.left),
    }
}

// Whether remainders are taken in it.
fn has_remainders(atom: &Compare) -> bool {
    !atom.left.remainders().is_empty() || !atom.right.remainders().is_empty()
}

// The literal where these are put for the fields; itself, where it is to stay, has no remainders, or would have numbers
// that are too great.
fn put_or_copy(
    alloc: Global,
    literal: &Lit<Compare>,
    stays: bool,
    forms: &[Form],
) -> Result<Lit<Compare>, Memory>
    requires { AreFormsLow forms.now }
    ensures { IfOk result (λ l. (vs : List ℤ) → values_of forms.now vs ≡ vs → compare_holds (plain_compare literal.now.atom) vs ≡ literal.now.sign → compare_holds (plain_compare l.atom) vs ≡ l.sign) }
{
    if stays || !has_remainders(&literal.atom) {
        return copy_literal(alloc, literal);
    }
    match put_literal(alloc, literal, forms) {
        Ok(put) => Ok(put),
        Err(FormStop::Range(_)) => copy_literal(alloc, literal),
        Err(FormStop::Memory) => Err(Memory),
    }
}

// All literals but the one at this place where these are put for the fields.
fn put_others(
    alloc: Global,
    literals: &[Lit<Compare>],
    place: usize,
    forms: &[Form],
) -> Result<Vec<Lit<Compare>>, Memory>
    requires { AreFormsLow forms.now }
    ensures { IfOk result (λ r. (vs : List ℤ) → values_of forms.now vs ≡ vs → HoldsAll (plain_literals literals.now) vs → HoldsAll (plain_literals r.items) vs) }
{
    let mut out = Vec::new(alloc);
    for i in 0..literals.len() {
        out.push(put_or_copy(alloc, &literals[i], i == place, forms)?)?;
    }
    Ok(out)
}

// Where the literal at this place is an equation that gives a field by a number or one other field, the literals where it is
// put.
fn put_one(
    alloc: Global,
    literals: &[Lit<Compare>],
    place: usize,
) -> Result<Option<Vec<Lit<Compare>>>, FormStop>
    ensures { IfOk result (λ found. IfSome found (λ r. HoldAlso literals.now r.items)) }
{
    if place >= literals.len() {
        return Ok(None);
    }
    let Some(own) = given_by(alloc, &literals[place])? else {
        return Ok(None);
    };
    // with more fields than it gives, remainders would be split by each of them
    if own.form.fields().len() > 1 {
        return Ok(None);
    }
    let forms = forms_with(alloc, own.field, &own.form)?;
    Ok(Some(put_others(alloc, literals, place, &forms)?))
}

/// The literals, where each equation that gives a field by a number or one other field has been put into the others.
pub(crate) fn equated(
    alloc: Global,
    literals: Vec<Lit<Compare>>,
) -> Result<Vec<Lit<Compare>>, FormStop>
    ensures { IfOk result (λ r. HoldAlso literals.items r.items) }
{
    let mut own = literals;
    for place in 0..own.len() {
        if let Some(put) = put_one(alloc, &own, place)? {
            own = put;
        }
    }
    Ok(own)
}
