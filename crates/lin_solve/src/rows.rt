//! Forms as rows of coefficients.

ghost use Rattle.std.specs.Prelude.{◌≡◌, ◌+◌, ◌*◌, ◌^◌, ◌<◌, ◌≤◌, ◌⊎◌, ◌*ℤ◌, pos, negsuc, ℕ, ℤ, IfOk, All, length, unsigned_abs, vec_len};
ghost use Rattle.model_form.specs.Form.{constant_of};
ghost use Rattle.model_form.specs.Sums.{sign, add_fields as with_fields};
ghost use Rattle.model_form.specs.Ranges.{IsCoefficient, AreFields, AreRemainders};
ghost use Rattle.model_chain.specs.Literals.{add_at as with_at, add_places as with_places, add_terms, over as condition_over, zeros as nothing};
ghost use Rattle.lin_form.specs.Terms.{plain_fields, plain_remainders};
ghost use Rattle.lin_solve.specs.Plain.{plain_known, Within};

use crate::numbering::{Remainder, front_term, place_of};
use cooper_solve::{Constraint, Relation, zeros};
use fast_fault::Memory;
use lin_form::{Dividend, FieldTerm, Form, RemTerm};
use std::alloc::Global;

fn signed(minus: bool, coefficient: i64) -> i128
    requires { IsCoefficient coefficient }
    ensures value { result ≡ sign minus *ℤ coefficient }
    ensures small { unsigned_abs result ≤ 2 ^ 31 }
{
    let number = coefficient as i128;
    if minus { -number } else { number }
}

// The number more at the place, if the row has it.
pub(crate) fn add_at(row: &mut Vec<i128>, place: usize, number: i128)
    requires small { Within (2 ^ 120) row.old.items }
    requires number { unsigned_abs number ≤ 2 ^ 31 }
    ensures row { row.new.items ≡ with_at place number row.old.items }
    ensures small { (b : ℕ) → Within b row.old.items → Within (b + 2 ^ 31) row.new.items }
{
    if place < row.len() {
        row[place] += number;
    }
}

fn add_fields(row: &mut Vec<i128>, minus: bool, terms: &[FieldTerm])
    requires small { Within (2 ^ 110) row.old.items }
    requires fields { AreFields 0 (plain_fields terms.now) }
    ensures row { row.new.items ≡ with_fields (sign minus) (plain_fields terms.now) row.old.items }
    ensures small { (b : ℕ) → Within b row.old.items → Within (b + length terms.now * 2 ^ 31) row.new.items }
{
    for term in terms {
        add_at(row, term.field as usize, signed(minus, term.coefficient));
    }
}

fn add_places(row: &mut Vec<i128>, minus: bool, terms: &[RemTerm], known: &[Remainder])
    requires small { Within (2 ^ 110) row.old.items }
    requires terms { AreRemainders (plain_remainders terms.now) }
    ensures row { row.new.items ≡ with_places (plain_known known.now) (sign minus) (plain_remainders terms.now) row.old.items }
    ensures small { (b : ℕ) → Within b row.old.items → Within (b + length terms.now * 2 ^ 31) row.new.items }
{
    for term in terms {
        add_at(
            row,
            8 + place_of(term, known),
            signed(minus, term.coefficient),
        );
    }
}

/// The coefficients of the form more, or less.
pub(crate) fn add_form(row: &mut Vec<i128>, minus: bool, form: &Form, known: &[Remainder])
    requires small { Within (2 ^ 105) row.old.items }
    ensures row { row.new.items ≡ add_terms (plain_known known.now) (sign minus) form.now row.old.items }
    ensures small { (b : ℕ) → Within b row.old.items → Within (b + 2 ^ 100) row.new.items }
{
    add_fields(row, minus, form.fields());
    add_places(row, minus, form.remainders(), known);
}

/// The coefficients of what a remainder is taken of, in a new row.
pub(crate) fn dividend_row(
    alloc: Global,
    inner: &Dividend,
    known: &[Remainder],
) -> Result<Vec<i128>, Memory>
    ensures { IfOk result (λ r. (r.items ≡ add_terms (plain_known known.now) (pos 1) inner.now (nothing (plain_known known.now))) × Within (2 ^ 100) r.items) }
{
    let mut row = empty_row(alloc, known)?;
    let (base, divisors) = inner.parts();
    if divisors.is_empty() {
        add_form(&mut row, false, base, known);
        return Ok(row);
    }
    let term = front_term(alloc, inner, divisors.len() - 1)?;
    add_at(&mut row, 8 + place_of(&term, known), 1);
    Ok(row)
}

/// The constant of what a remainder is taken of.
pub(crate) fn dividend_constant(inner: &Dividend) -> i128
    ensures { result ≡ constant_of inner.now }
{
    let (base, divisors) = inner.parts();
    if divisors.is_empty() {
        base.constant()
    } else {
        0
    }
}

/// So many zeros.
pub(crate) fn empty_row(alloc: Global, known: &[Remainder]) -> Result<Vec<i128>, Memory>
    ensures { IfOk result (λ r. (r.items ≡ nothing (plain_known known.now)) × Within 0 r.items) }
{
    Ok(zeros(alloc, 8 + known.len())?)
}

/// That the first form less the second, with the offset, is at least 0.
pub(crate) fn over(
    alloc: Global,
    known: &[Remainder],
    first: &Form,
    second: &Form,
    offset: i128,
) -> Result<Constraint, Memory>
    requires { (offset ≡ pos 0) ⊎ (offset ≡ negsuc 0) }
    ensures { IfOk result (λ r. r ≡ condition_over (plain_known known.now) first.now second.now offset) }
{
    let mut coefficients = empty_row(alloc, known)?;
    add_form(&mut coefficients, false, first, known);
    add_form(&mut coefficients, true, second, known);
    Ok(Constraint {
        relation: Relation::AtLeast,
        constant: first.constant() - second.constant() + offset,
        coefficients,
    })
}
