//! Cases of the fields' values, told apart by their remainders: in each, a field is a rest and a multiple of a step.
//!
//! A literal whose fields stand within remainders alone holds at all values of a case or at none, once the steps are
//! multiples of the divisors. So cases are split, for one such literal after the other, until none is left.

ghost use Rattle.std.specs.Int.{w64};
ghost use Rattle.std.specs.Prelude.{FitsSigned, ◌≡◌, ◌<◌, ◌*◌, ◌+ℤ◌, ℕ, ℤ, List, IfOk, IfSome, OnOk, IsTrue, length, slice_index_or, pos};
ghost use Rattle.model_chain.specs.Literals.{HoldsAll, compare_holds};
ghost use Rattle.model_form.specs.Form.{height};
ghost use Rattle.lin_solve.specs.Plain.{plain_compare, plain_literals};
ghost use Rattle.lin_solve.specs.Sought.{TellsSought};
ghost use Rattle.lin_solve.specs.Cases.{is_loose, is_open, IsIn, IsPart, SomeCase, TellsNext};

use crate::compare::{Compare, Relation};
use crate::found::Sought;
use crate::guess::{all_hold, repair_each};
use fast_fault::{LabelInt, Memory};
use label_core::Lit;
use lin_form::{Form, RemTerm};
use std::alloc::Global;

// How many cases are made in all.
const MOST: u64 = 50_000;

// Values of which each is the rest at its place and a multiple of the step there.
#[derive(Clone, Copy)]
pub(crate) struct Case {
    rests: [LabelInt; 8],
    steps: [u64; 8],
}

// A field whose step is to be so many times as great.
#[derive(Clone, Copy)]
pub(crate) struct Turn {
    pub(crate) field: usize,
    pub(crate) times: u64,
}

// What is to be done with a case: nothing, as a literal holds nowhere in it; to split it, for the literal with this number;
// or to try it, as all literals in question hold.
#[derive(Clone, Copy)]
enum Next {
    Lost,
    Split(usize, Turn),
    Try,
}

// Whether the step of the field is no multiple of the number. None is one of 0.
fn is_loose(steps: &[u64], field: u32, by: u32) -> bool
    ensures { result ≡ is_loose steps.now by field }
{
    by == 0 || steps.get(field as usize).copied().unwrap_or(0) % by as u64 != 0
}

// Whether the step of a field outside remainders is no multiple of the number, or of one within of its divisor. So with 0
// a form that isn't open has one value in the whole case.
#[cycle(open)]
fn is_open(form: &Form, by: u32, steps: &[u64]) -> bool
    ensures { result ≡ is_open steps.now by form.now }
{
    'fields: for term in form.fields() {
        if is_loose(steps, term.field, by) {
            return true;
        }
    }
    'inner: for term in form.remainders() {
        if is_open_within(term, steps) {
            return true;
        }
    }
    false
}

// The same of what the remainder is taken of, by its divisor.
#[cycle(open)]
fn is_open_within(term: &RemTerm, steps: &[u64]) -> bool
    ensures { result ≡ is_open steps.now term.now.divisor term.now.inner }
{
    let (form, by) = term.innermost();
    is_open(form, by, steps)
}

/// Whether the literal holds at no values of the case. None may hold although it isn't found.
pub(crate) fn is_lost(literal: &Lit<Compare>, case: &Case) -> bool
    ensures { IsTrue result → (us : List ℤ) → IsIn case.now us → compare_holds (plain_compare literal.now.atom) us ≡ literal.now.sign → ⊥ }
{
    if is_open(&literal.atom.left, 0, &case.steps) {
        return false;
    }
    if is_open(&literal.atom.right, 0, &case.steps) {
        return false;
    }
    literal.atom.holds(&case.rests) != literal.sign
}

fn rest_at(rests: &[LabelInt], field: usize) -> LabelInt
    ensures { result ≡ slice_index_or rests.now field (pos 0) }
{
    rests.get(field).copied().unwrap_or(0)
}

// The rest, so many steps further.
fn further(rest: LabelInt, step: u64, number: u64) -> Option<LabelInt>
    ensures value { IfSome result (λ r. r ≡ rest +ℤ pos (step * number)) }
    ensures fits { IfSome result (FitsSigned w64) }
{
    if step >= 0x4_0000_0000_0000 || number >= 0x1000 {
        return None;
    }
    let far = rest as i128 + (step * number) as i128;
    match LabelInt::try_from(far) {
        Ok(rest) => Some(rest),
        Err(_) => None,
    }
}

impl Case {
    // All values.
    pub(crate) fn all() -> Case
        ensures { (us : List ℤ) → length us ≡ 8 → IsIn result us }
    {
        Case {
            rests: [0; 8],
            steps: [1; 8],
        }
    }

    // Those values of the case of which the field is so many steps further, and a multiple of a greater step.
    pub(crate) fn part(&self, turn: Turn, number: u64) -> Option<Case>
        ensures { IfSome result (λ part. (us : List ℤ) → IsPart self.now turn number us → IsIn part us) }
    {
        if turn.field >= 8 {
            return None;
        }
        let step = self.steps[turn.field];
        let rest = further(rest_at(&self.rests, turn.field), step, number)?;
        let mut part = *self;
        part.rests[turn.field] = rest;
        part.steps[turn.field] = step.checked_mul(turn.times)?;
        Some(part)
    }

    // The values where the times of the steps are these, or 0 for one that is too great.
    pub(crate) fn at(&self, alloc: Global, times: &[LabelInt]) -> Result<Vec<LabelInt>, Memory> {
        let mut values = Vec::new(alloc);
        for i in 0..8 {
            let far = (self.steps[i] as i128).checked_mul(
                times.get(i).copied().unwrap_or(0) as i128,
            );
            let value = far.unwrap_or(0).saturating_add(self.rests[i] as i128);
            values.push(LabelInt::try_from(value).unwrap_or(0))?;
        }
        Ok(values)
    }

    // The parts of the case in which the literal may hold, at the end; not all, if one has numbers that are too great.
    fn push_parts(
        &self,
        literal: &Lit<Compare>,
        turn: Turn,
        pending: &mut Vec<Case>,
    ) -> Result<bool, Memory>
        ensures parts { IfOk result (λ pushed. IsTrue pushed → (us : List ℤ) → IsIn self.now us → compare_holds (plain_compare literal.now.atom) us ≡ literal.now.sign → SomeCase us pending.new.items) }
        ensures kept { OnOk result ((us : List ℤ) → SomeCase us pending.old.items → SomeCase us pending.new.items) }
    {
        for number in 0..turn.times {
            let Some(part) = self.part(turn, number) else {
                return Ok(false);
            };
            if !is_lost(literal, &part) {
                pending.push(part)?;
            }
        }
        Ok(turn.times > 0)
    }
}

/// The greatest one, which is at least 1.
pub(crate) fn divisor_in_common(first: u64, second: u64) -> u64 {
    let (mut a, mut b) = (first, second);
    for _ in 0..64 {
        if b == 0 {
            return a;
        }
        (a, b) = (b, a % b);
    }
    1
}

// How the first field outside remainders whose step is no multiple of the number is turned, or the first within one.
#[cycle(turn)]
fn turn_for(form: &Form, by: u32, steps: &[u64; 8]) -> Option<Turn> {
    'fields: for term in form.fields() {
        let field = term.field as usize;
        if field < 8 && by > 0 && steps[field] % by as u64 != 0 {
            let shared = divisor_in_common(by as u64, steps[field]);
            return Some(Turn {
                field,
                times: (by as u64).checked_div(shared)?,
            });
        }
    }
    turn_within(form, steps)
}

// The same of the fields within remainders.
#[cycle(turn)]
fn turn_within(form: &Form, steps: &[u64; 8]) -> Option<Turn> {
    for term in form.remainders() {
        let (inner, by) = term.innermost();
        if let Some(turn) = turn_for(inner, by, steps) {
            return Some(turn);
        }
    }
    None
}

fn turn_of(literal: &Lit<Compare>, steps: &[u64; 8]) -> Option<Turn> {
    match turn_within(&literal.atom.left, steps) {
        Some(turn) => Some(turn),
        None => turn_within(&literal.atom.right, steps),
    }
}

// What is to be done with the case. The literals are looked at in this order.
fn next_of(literals: &[Lit<Compare>], order: &[usize], case: &Case) -> Next
    ensures { TellsNext literals.now case.now result }
{
    for number in order {
        if *number >= literals.len() {
            continue;
        }
        if let Some(turn) = turn_of(&literals[*number], &case.steps) {
            return Next::Split(*number, turn);
        }
        if is_lost(&literals[*number], case) {
            return Next::Lost;
        }
    }
    Next::Try
}

fn is_within(literal: &Lit<Compare>) -> bool {
    literal.atom.left.fields().is_empty() && literal.atom.right.fields().is_empty()
}

// The numbers of the literals whose fields stand within remainders alone, equations first: they leave the fewest cases.
fn order_of(alloc: Global, literals: &[Lit<Compare>]) -> Result<Vec<usize>, Memory> {
    let mut order = Vec::new(alloc);
    for first in [true, false] {
        for (number, literal) in literals.iter().enumerate() {
            let equation = literal.sign && literal.atom.relation == Relation::Equal;
            if equation == first && is_within(literal) {
                order.push(number)?;
            }
        }
    }
    Ok(order)
}

// Values of the case at which the literals hold, if some are found when they are gone through so often.
fn tried(alloc: Global, literals: &[Lit<Compare>], case: &Case) -> Result<Sought, Memory>
    ensures { IfOk result (TellsSought (plain_literals literals.now)) }
{
    let mut values = Vec::from_slice(alloc, &case.rests)?;
    for _ in 0..literals.len().saturating_add(8) {
        if all_hold(literals, &values) {
            return Ok(Sought::Values(values));
        }
        repair_each(literals, &case.steps, &mut values);
    }
    Ok(Sought::Open)
}

/// Seeks values of the eight fields at which the literals hold, case by case.
pub(crate) fn seek_cases(alloc: Global, literals: &[Lit<Compare>]) -> Result<Sought, Memory>
    ensures { IfOk result (TellsSought (plain_literals literals.now)) }
{
    let order = order_of(alloc, literals)?;
    let mut left = MOST;
    let mut pending = Vec::new(alloc);
    pending.push(Case::all())?;
    for _ in 0..MOST {
        let Some(case) = pending.pop() else {
            return Ok(Sought::Never);
        };
        match next_of(literals, &order, &case) {
            Next::Lost => {}
            Next::Try => return tried(alloc, literals, &case),
            Next::Split(number, turn) => {
                if turn.times > left || !case.push_parts(&literals[number], turn, &mut pending)? {
                    return Ok(Sought::Open);
                }
                left -= turn.times;
            }
        }
    }
    Ok(Sought::Open)
}
