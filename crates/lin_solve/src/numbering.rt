//! The new variables: one for each remainder that differs from the earlier ones, inner ones first.

ghost use Rattle.std.specs.Prelude.{◌≡◌, ◌↔◌, ◌<◌, IfOk, IsTrue, length, List, ℕ, []};
ghost use Rattle.std.specs.List.{All};
ghost use Rattle.model_form.specs.Form.{height};
ghost use Rattle.model_chain.specs.Literals.{seen, seen_in, is_same, is_in, place, with_one};
ghost use Rattle.lin_form.specs.Nest.{divisors_of};
ghost use Rattle.lin_solve.specs.Plain.{front_remainder, plain_remainder, plain_term, plain_known, plain_literals, ArePositive};

use crate::compare::Compare;
use fast_fault::Memory;
use label_core::Lit;
use lin_form::{Dividend, Form, RemTerm};
use std::alloc::Global;

// The most remainders of nothing but a remainder that are numbered: each of them is copied with all that are in it. More are
// told as want of memory.
const MOST_NESTED: usize = 4_096;

/// A remainder for which a new variable stands.
#[derive(Drop)]
pub(crate) struct Remainder {
    pub(crate) inner: Dividend,
    pub(crate) divisor: u32,
}

fn matches_known(term: &RemTerm, known: &Remainder) -> bool
    ensures { result ≡ is_same (plain_term term.now) (plain_remainder known.now) }
{
    term.divisor == known.divisor && term.inner.is_same(&known.inner)
}

/// The place of the remainder among these, or their count.
pub(crate) fn place_of(term: &RemTerm, known: &[Remainder]) -> usize
    ensures { result ≡ place (plain_term term.now) (plain_known known.now) }
{
    for (i, remainder) in known.iter().enumerate() {
        if matches_known(term, remainder) {
            return i;
        }
    }
    known.len()
}

// These, and the remainder at the end where it is not among them.
fn add_one(alloc: Global, term: &RemTerm, known: &mut Vec<Remainder>) -> Result<(), Memory>
    requires { 0 < term.now.divisor }
    ensures { IfOk result (λ _. (plain_known known.new.items ≡ with_one (plain_term term.now) (plain_known known.old.items)) × (ArePositive known.old.items → ArePositive known.new.items)) }
{
    if place_of(term, known) < known.len() {
        return Ok(());
    }
    let inner = term.inner.copy(alloc)?;
    known.push(Remainder {
        inner,
        divisor: term.divisor,
    })?;
    Ok(())
}

// These, and those of the form that are not among them.
#[cycle(add)]
fn add_form(alloc: Global, form: &Form, known: &mut Vec<Remainder>) -> Result<(), Memory>
    ensures { IfOk result (λ _. (plain_known known.new.items ≡ seen form.now (plain_known known.old.items)) × (ArePositive known.old.items → ArePositive known.new.items)) }
{
    for term in form.remainders() {
        add_dividend(alloc, &term.inner, known)?;
        add_one(alloc, term, known)?;
    }
    Ok(())
}

// The same of a form of which a remainder is taken.
#[cycle(add)]
fn add_dividend(alloc: Global, inner: &Dividend, known: &mut Vec<Remainder>) -> Result<(), Memory>
    ensures { IfOk result (λ _. (plain_known known.new.items ≡ seen inner.now (plain_known known.old.items)) × (ArePositive known.old.items → ArePositive known.new.items)) }
{
    let (base, divisors) = inner.parts();
    if divisors.len() > MOST_NESTED {
        return Err(Memory);
    }
    add_form(alloc, base, known)?;
    for i in 0..divisors.len() {
        add_one(alloc, &front_term(alloc, inner, i)?, known)?;
    }
    Ok(())
}

/// The remainder by the divisor with this number, the innermost first.
pub(crate) fn front_term(alloc: Global, inner: &Dividend, number: usize) -> Result<RemTerm, Memory>
    requires { number < length (divisors_of inner.now) }
    ensures { IfOk result (λ term. (plain_term term ≡ front_remainder number inner.now) × (0 < term.divisor)) }
{
    let (_, divisors) = inner.parts();
    Ok(RemTerm {
        coefficient: 1,
        inner: inner.front(alloc, number)?,
        divisor: divisors[number],
    })
}

/// The remainders of the literals, in the order of first appearance.
pub(crate) fn remainders_of(
    alloc: Global,
    literals: &[Lit<Compare>],
) -> Result<Vec<Remainder>, Memory>
    ensures { IfOk result (λ r. (plain_known r.items ≡ seen_in (plain_literals literals.now) []) × ArePositive r.items) }
{
    let mut known = Vec::new(alloc);
    for literal in literals {
        add_form(alloc, &literal.atom.left, &mut known)?;
        add_form(alloc, &literal.atom.right, &mut known)?;
    }
    Ok(known)
}
