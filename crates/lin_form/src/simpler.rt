//! Forms made simpler.

ghost use Rattle.std.specs.Prelude.{◌≡◌, ℕ, ℤ, pos, ◌+◌, ◌<◌, ◌≤◌, ◌^◌, MatchResult, OnOk, unsigned_abs, length};
ghost use Rattle.model_tree.specs.Limits.{greatest_divisor};
ghost use Rattle.model_form.specs.Form.{remainders_of};
ghost use Rattle.model_form.specs.Sums as model;
ghost use Rattle.model_form.specs.Sums.{add_form, form_of_sum, remainder_form, started};
ghost use Rattle.model_form.specs.Ranges.{IsCoefficient, IsForm, IsOutside};
ghost use Rattle.model_form.specs.Simpler.{add_open, add_term_open, inside, reduced, reduced_terms, reduced_totals, simpler_form, simpler_sum};
ghost use Rattle.lin_form.specs.Gathered.{plain_likes, plain_sum};
ghost use Rattle.lin_form.specs.Nest.{base_of, divisors_of, nest_front};
ghost use Rattle.lin_form.specs.Stops.{StopsAt};
ghost use Rattle.lin_form.specs.Whole.{IsInner, AreInner};
ghost use Rattle.lin_form.specs.Within.{IsGathered, IsReduced};

use crate::sum::{Like, Sum, add_fields, add_like};
use crate::{Dividend, Form, FormStop};
use fast_fault::Memory;
use std::alloc::Global;
use wide_num::rem;

impl Form {
    /// The form made simpler, from the inside out: within a remainder by a number, each remainder by one of its multiples
    /// gives way to the form that it is taken of, and coefficients to their remainders.
    pub fn simpler(&self, alloc: Global) -> Result<Form, FormStop>
        ensures form { MatchResult result (λ form. form ≡ simpler_form self.now) (λ stop. StopsAt (IsOutside (simpler_form self.now)) stop) }
        ensures in_range { MatchResult result (λ form. (n : ℤ) → IsOutside form n → ⊥) (λ _. Unit {0}) }
    {
        let mut sum = Sum::of(alloc, 0);
        simpler_sum(alloc, &mut sum, self)?;
        sum.finish(alloc)
    }
}

// The terms outside all remainders, whose inner forms are simpler, in a sum that had none.
#[cycle(simpler)]
fn simpler_sum(alloc: Global, sum: &mut Sum, form: &Form) -> Result<(), FormStop>
    requires { plain_sum sum.old ≡ started (pos 0) }
    ensures { MatchResult result (λ _. (plain_sum sum.new ≡ simpler_sum form.now) × ((m : ℕ) × IsGathered m (plain_sum sum.new))) (λ stop. stop ≡ FormStop.Memory) }
{
    sum.constant = form.constant;
    add_fields(&mut sum.totals, 1, &form.fields);
    for term in &form.remainders {
        let mut inner = Sum::of(alloc, 0);
        simpler_dividend(alloc, &mut inner, &term.inner)?;
        sum.add_inside(alloc, term.coefficient, &inner, term.divisor)?;
    }
    Ok(())
}

// The same of a form of which a remainder is taken.
#[cycle(simpler)]
fn simpler_dividend(alloc: Global, sum: &mut Sum, inner: &Dividend) -> Result<(), FormStop>
    requires { plain_sum sum.old ≡ started (pos 0) }
    ensures { MatchResult result (λ _. (plain_sum sum.new ≡ simpler_sum inner.now) × ((m : ℕ) × IsGathered m (plain_sum sum.new))) (λ stop. stop ≡ FormStop.Memory) }
{
    simpler_sum(alloc, sum, &inner.base)?;
    for divisor in &inner.divisors {
        sum.divide(alloc, *divisor)?;
    }
    Ok(())
}

impl Sum {
    // A coefficient times the remainder of the inner sum's form more. Within the recursion over inner forms this would take
    // of the stack at each level, so it stays a call.
    #[inline(never)]
    fn add_inside(
        &mut self,
        alloc: Global,
        coefficient: i64,
        inner: &Sum,
        divisor: u32,
    ) -> Result<(), FormStop>
        requires coefficient { IsCoefficient coefficient }
        requires some { 0 < divisor }
        requires few { divisor ≤ greatest_divisor }
        requires constant { unsigned_abs self.old.constant ≤ 2 ^ 126 }
        requires gathered { (m : ℕ) × (m ≤ 2 ^ 64 + 16) × IsGathered m (plain_sum self.old) }
        requires inner { (m : ℕ) × IsGathered m (plain_sum inner.now) }
        ensures sum { MatchResult result (λ _. plain_sum self.new ≡ add_form coefficient (remainder_form (form_of_sum (inside divisor (plain_sum inner.now))) divisor) (plain_sum self.old)) (λ stop. stop ≡ FormStop.Memory) }
        ensures form { OnOk result (IsForm (remainder_form (form_of_sum (inside divisor (plain_sum inner.now))) divisor)) }
        ensures inner { OnOk result (AreInner (remainders_of (remainder_form (form_of_sum (inside divisor (plain_sum inner.now))) divisor))) }
    {
        let inner = inner.opened(alloc, divisor)?.finish(alloc)?;
        self.add_remainder(alloc, coefficient, inner, divisor)
    }

    // The remainder of the sum's form, made simpler.
    fn divide(&mut self, alloc: Global, divisor: u32) -> Result<(), FormStop>
        requires some { 0 < divisor }
        requires few { divisor ≤ greatest_divisor }
        requires gathered { (m : ℕ) × IsGathered m (plain_sum self.old) }
        ensures sum { MatchResult result (λ _. plain_sum self.new ≡ add_form (pos 1) (remainder_form (form_of_sum (inside divisor (plain_sum self.old))) divisor) (started (pos 0))) (λ stop. stop ≡ FormStop.Memory) }
        ensures gathered { OnOk result ((m : ℕ) × IsGathered m (plain_sum self.new)) }
    {
        let mut next = Sum::of(alloc, 0);
        next.add_inside(alloc, 1, self, divisor)?;
        *self = next;
        Ok(())
    }

    // The sum as it stands in a remainder.
    fn opened(&self, alloc: Global, by: u32) -> Result<Sum, FormStop>
        requires some { 0 < by }
        requires few { by ≤ greatest_divisor }
        requires gathered { (m : ℕ) × IsGathered m (plain_sum self.now) }
        ensures { MatchResult result (λ sum. (plain_sum sum ≡ inside by (plain_sum self.now)) × IsReduced by (plain_sum sum)) (λ stop. stop ≡ FormStop.Memory) }
    {
        let mut sum = Sum::of(alloc, self.constant);
        sum.totals = self.totals;
        sum.reduce(by);
        for like in &self.likes {
            add_term_open(
                alloc,
                &mut sum,
                like.coefficient,
                &like.inner,
                like.divisor,
                by,
            )?;
        }
        Ok(sum)
    }

    // The remainders of the constant and the coefficients.
    fn reduce(&mut self, by: u32)
        requires { 0 < by }
        ensures { plain_sum self.new ≡ reduced by (plain_sum self.old) }
    {
        self.constant = rem(self.constant, by as i128);
        reduce_totals(&mut self.totals, by);
        reduce_likes(&mut self.likes, by);
    }
}

fn reduce_totals(totals: &mut [i128], by: u32)
    requires { 0 < by }
    ensures { totals.new ≡ reduced_totals by totals.old }
{
    for i in 0..totals.len() {
        totals[i] = rem(totals[i], by as i128);
    }
}

fn reduce_likes(likes: &mut Vec<Like>, by: u32)
    requires { 0 < by }
    ensures { plain_likes likes.new.items ≡ reduced_terms by (plain_likes likes.old.items) }
{
    for i in 0..likes.len() {
        likes[i].coefficient = rem(likes[i].coefficient, by as i128);
    }
}

// A term more, in a remainder by a number.
#[cycle(open)]
fn add_term_open(
    alloc: Global,
    sum: &mut Sum,
    coefficient: i128,
    inner: &Dividend,
    divisor: u32,
    by: u32,
) -> Result<(), Memory>
    requires some { 0 < by }
    requires few { by ≤ greatest_divisor }
    requires divisor_some { 0 < divisor }
    requires divisor_few { divisor ≤ greatest_divisor }
    requires inner { IsInner inner.now }
    requires sum { IsReduced by (plain_sum sum.old) }
    ensures sum { OnOk result (plain_sum sum.new ≡ reduced by (add_term_open by coefficient inner.now divisor (plain_sum sum.old))) }
    ensures reduced { OnOk result (IsReduced by (plain_sum sum.new)) }
{
    let coefficient = rem(coefficient, by as i128);
    if divisor % by == 0 {
        return add_dividend(alloc, sum, coefficient, inner, by);
    }
    add_like(alloc, &mut sum.likes, coefficient, inner, divisor)?;
    sum.reduce(by);
    Ok(())
}

// How many divisors are left where the last ones give way, as far as they are multiples of the number.
fn count_left(inner: &Dividend, by: u32) -> usize
    requires { 0 < by }
    ensures few { result ≤ length (divisors_of inner.now) }
    ensures same { (c : ℤ) (s : model.Sum) → add_open by c (nest_front result (base_of inner.now) (divisors_of inner.now)) s ≡ add_open by c inner.now s }
{
    for i in (0..inner.divisors.len()).rev() {
        if inner.divisors[i] % by != 0 {
            return i + 1;
        }
    }
    0
}

// A coefficient times a form of which a remainder is taken more, in a remainder by a number.
#[cycle(open)]
fn add_dividend(
    alloc: Global,
    sum: &mut Sum,
    coefficient: i128,
    inner: &Dividend,
    by: u32,
) -> Result<(), Memory>
    requires some { 0 < by }
    requires few { by ≤ greatest_divisor }
    requires coefficient { unsigned_abs coefficient ≤ greatest_divisor }
    requires inner { IsInner inner.now }
    requires sum { IsReduced by (plain_sum sum.old) }
    ensures sum { OnOk result (plain_sum sum.new ≡ reduced by (add_open by coefficient inner.now (plain_sum sum.old))) }
    ensures reduced { OnOk result (IsReduced by (plain_sum sum.new)) }
{
    let left = count_left(inner, by);
    if left == 0 {
        return add_open(alloc, sum, coefficient, &inner.base, by);
    }
    let front = inner.front(alloc, left - 1)?;
    add_term_open(
        alloc,
        sum,
        coefficient,
        &front,
        inner.divisors[left - 1],
        by,
    )
}

// A coefficient times a form more, in a remainder by a number.
#[cycle(open)]
fn add_open(
    alloc: Global,
    sum: &mut Sum,
    coefficient: i128,
    form: &Form,
    by: u32,
) -> Result<(), Memory>
    requires some { 0 < by }
    requires few { by ≤ greatest_divisor }
    requires coefficient { unsigned_abs coefficient ≤ greatest_divisor }
    requires sum { IsReduced by (plain_sum sum.old) }
    ensures sum { OnOk result (plain_sum sum.new ≡ reduced by (add_open by coefficient form.now (plain_sum sum.old))) }
    ensures reduced { OnOk result (IsReduced by (plain_sum sum.new)) }
{
    sum.constant += coefficient * form.constant;
    add_fields(&mut sum.totals, coefficient, &form.fields);
    sum.reduce(by);
    for term in &form.remainders {
        let product = coefficient * term.coefficient as i128;
        add_term_open(alloc, sum, product, &term.inner, term.divisor, by)?;
    }
    Ok(())
}
