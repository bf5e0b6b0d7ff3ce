//! The form of a sum, whose like terms are merged as they are added.

ghost use Rattle.std.specs.Prelude.{◌≡◌, ℕ, ℤ, pos, ◌+◌, ◌<◌, ◌≤◌, ◌^◌, ◌*◌, ◌+ℤ◌, ◌*ℤ◌, MatchResult, MatchOption, OnOk, unsigned_abs, FitsSigned, length, false, true, slice_index_or};
ghost use Rattle.std.specs.Int.{w128};
ghost use Rattle.model_form.specs.Form.{constant_of, remainders_of};
ghost use Rattle.model_form.specs.Sums.{add_fields, add_like, add_remainders, add_form, is_like, fields_from, without_zeros, form_of_sum, remainder_form, sum_form, started, sign};
ghost use Rattle.model_tree.specs.Limits.{most_fields, greatest_divisor, most_parts};
ghost use Rattle.model_tree.specs.Range.{IsLabelNumber};
ghost use Rattle.model_form.specs.Ranges.{IsCoefficient, IsForm, IsOutside, IsOfFields, IsOfRemainders, AreFields, AreRemainders, AreApart};
ghost use Rattle.lin_form.specs.Within.{AreTotals, AreLikes, IsGathered, LikesBefore, IsWithin};
ghost use Rattle.lin_form.specs.Whole.{AreInner};
ghost use Rattle.lin_form.specs.Terms.{plain_fields, plain_remainders};
ghost use Rattle.lin_form.specs.Gathered.{plain_likes, plain_sum, plain_parts, found_or};
ghost use Rattle.lin_form.specs.Stops.{StopsAt};

use crate::form::depth_of;
use crate::stop::{coefficient, constant};
use crate::{Dividend, FieldTerm, Form, FormStop, RemTerm};
use fast_fault::Memory;
use std::alloc::Global;

/// A part of a sum.
#[derive(Drop)]
pub struct Signed {
    pub minus: bool,
    pub form: Form,
}

// A term of a remainder while it is added up.
#[derive(Drop)]
pub(crate) struct Like {
    pub(crate) coefficient: i128,
    pub(crate) inner: Dividend,
    pub(crate) divisor: u32,
}

// A constant, a total for each field, and remainders in the order of first appearance.
#[derive(Drop)]
pub(crate) struct Sum {
    pub(crate) constant: i128,
    pub(crate) totals: [i128; 8],
    pub(crate) likes: Vec<Like>,
}

impl Form {
    /// The form of a sum.
    pub fn of_sum(alloc: Global, parts: &[Signed]) -> Result<Form, FormStop>
        requires { length parts.now ≤ most_parts }
        ensures form { MatchResult result (λ form. form ≡ sum_form (plain_parts parts.now)) (λ stop. StopsAt (IsOutside (sum_form (plain_parts parts.now))) stop) }
        ensures in_range { MatchResult result (λ form. (n : ℤ) → IsOutside form n → ⊥) (λ _. Unit {0}) }
    {
        let mut sum = Sum::of(alloc, 0);
        for part in parts {
            sum.add(alloc, sign_of(part.minus), &part.form)?;
        }
        sum.finish(alloc)
    }
}

impl Sum {
    pub(crate) fn of(alloc: Global, constant: i128) -> Sum
        ensures { plain_sum result ≡ started constant }
    {
        Sum {
            constant,
            totals: [0; 8],
            likes: Vec::new(alloc),
        }
    }

    pub(crate) fn add(&mut self, alloc: Global, by: i128, form: &Form) -> Result<(), Memory>
        requires by { unsigned_abs by ≤ 2 ^ 31 }
        requires constant { unsigned_abs self.old.constant ≤ 2 ^ 126 }
        requires gathered { (m : ℕ) × (m ≤ 2 ^ 64 + 16) × IsGathered m (plain_sum self.old) }
        ensures sum { OnOk result (plain_sum self.new ≡ add_form by form.now (plain_sum self.old)) }
        ensures form { IsForm form.now }
        ensures inner { AreInner (remainders_of form.now) }
    {
        self.constant += by * form.constant;
        add_fields(&mut self.totals, by, &form.fields);
        add_remainders(alloc, &mut self.likes, by, &form.remainders)
    }

    // A coefficient times the form's remainder more. Within a recursion over inner forms this would take of the stack at
    // each level, so it stays a call.
    #[inline(never)]
    pub(crate) fn add_remainder(
        &mut self,
        alloc: Global,
        coefficient: i64,
        inner: Form,
        divisor: u32,
    ) -> Result<(), FormStop>
        requires coefficient { IsCoefficient coefficient }
        requires some { 0 < divisor }
        requires few { divisor ≤ greatest_divisor }
        requires constant { unsigned_abs self.old.constant ≤ 2 ^ 126 }
        requires gathered { (m : ℕ) × (m ≤ 2 ^ 64 + 16) × IsGathered m (plain_sum self.old) }
        ensures sum { MatchResult result (λ _. plain_sum self.new ≡ add_form coefficient (remainder_form inner divisor) (plain_sum self.old)) (λ stop. stop ≡ FormStop.Memory) }
        ensures form { OnOk result (IsForm (remainder_form inner divisor)) }
        ensures inner { OnOk result (AreInner (remainders_of (remainder_form inner divisor))) }
    {
        let part = inner.into_remainder(alloc, divisor)?;
        self.add(alloc, coefficient as i128, &part)?;
        Ok(())
    }

    // Within a recursion over inner forms this would take of the stack at each level, so it stays a call.
    #[inline(never)]
    pub(crate) fn finish(self, alloc: Global) -> Result<Form, FormStop>
        requires { (m : ℕ) × IsGathered m (plain_sum self) }
        ensures form { MatchResult result (λ form. form ≡ form_of_sum (plain_sum self)) (λ stop. StopsAt (IsOutside (form_of_sum (plain_sum self))) stop) }
        ensures in_range { MatchResult result IsForm (λ _. Unit {0}) }
    {
        let constant = constant(self.constant)?;
        let fields = kept_fields(alloc, &self.totals)?;
        let remainders = kept_remainders(alloc, self.likes)?;
        Ok(Form {
            constant,
            fields,
            depth: depth_of(&remainders),
            remainders,
        })
    }
}

fn sign_of(minus: bool) -> i128
    ensures { result ≡ sign minus }
{
    if minus { -1 } else { 1 }
}

fn product(by: i128, coefficient: i64) -> i128
    requires by { unsigned_abs by ≤ 2 ^ 31 }
    requires coefficient { IsCoefficient coefficient }
    ensures value { result ≡ by *ℤ coefficient }
    ensures small { IsWithin 1 result }
{
    by * coefficient as i128
}

pub(crate) fn add_fields(totals: &mut [i128], by: i128, terms: &[FieldTerm])
    requires by { unsigned_abs by ≤ 2 ^ 31 }
    requires terms { AreFields 0 (plain_fields terms.now) }
    requires eight { length totals.old ≡ most_fields }
    requires small { (m : ℕ) × (m ≤ 2 ^ 64 + 16) × AreTotals m totals.old }
    ensures { totals.new ≡ add_fields by (plain_fields terms.now) totals.old }
{
    for term in terms {
        let place = term.field as usize;
        totals[place] += product(by, term.coefficient);
    }
}

fn add_remainders(
    alloc: Global,
    likes: &mut Vec<Like>,
    by: i128,
    terms: &[RemTerm],
) -> Result<(), Memory>
    requires by { unsigned_abs by ≤ 2 ^ 31 }
    requires terms { AreRemainders (plain_remainders terms.now) }
    requires apart { AreApart (plain_remainders terms.now) }
    requires small { (m : ℕ) × (m ≤ 2 ^ 64 + 16) × AreLikes m (plain_likes likes.old.items) }
    ensures { OnOk result (plain_likes likes.new.items ≡ add_remainders by (plain_remainders terms.now) (plain_likes likes.old.items)) }
{
    for term in terms {
        let coefficient = product(by, term.coefficient);
        add_like(alloc, likes, coefficient, &term.inner, term.divisor)?;
    }
    Ok(())
}

fn place_of_like(likes: &[Like], inner: &Dividend, divisor: u32) -> Option<usize>
    ensures before { (k : ℕ) (d : Like) → k < found_or result (length likes.now) → is_like (slice_index_or likes.now k d).inner (slice_index_or likes.now k d).divisor inner.now divisor ≡ false }
    ensures here { MatchOption result (Unit {0}) (λ i. (i < length likes.now) × ((d : Like) → is_like (slice_index_or likes.now i d).inner (slice_index_or likes.now i d).divisor inner.now divisor ≡ true)) }
{
    for (i, like) in likes.iter().enumerate() {
        if like.divisor == divisor && like.inner.is_same(inner) {
            return Some(i);
        }
    }
    None
}

pub(crate) fn add_like(
    alloc: Global,
    likes: &mut Vec<Like>,
    coefficient: i128,
    inner: &Dividend,
    divisor: u32,
) -> Result<(), Memory>
    requires coefficient { IsWithin 1 coefficient }
    requires small { (m : ℕ) × (m ≤ 2 ^ 64 + 17) × AreLikes m (plain_likes likes.old.items) }
    ensures { OnOk result (plain_likes likes.new.items ≡ add_like coefficient inner.now divisor (plain_likes likes.old.items)) }
{
    if let Some(i) = place_of_like(likes, inner, divisor) {
        likes[i].coefficient += coefficient;
        return Ok(());
    }
    let inner = inner.copy(alloc)?;
    likes.push(Like {
        coefficient,
        inner,
        divisor,
    })?;
    Ok(())
}

fn kept_fields(alloc: Global, totals: &[i128]) -> Result<Vec<FieldTerm>, FormStop>
    requires { length totals.now ≡ most_fields }
    ensures { MatchResult result (λ kept. (plain_fields kept.items ≡ fields_from 0 totals.now) × AreFields 0 (plain_fields kept.items)) (λ stop. StopsAt (λ n. IsOfFields n (fields_from 0 totals.now) × (IsCoefficient n → ⊥)) stop) }
{
    let mut kept = Vec::new(alloc);
    for (i, total) in totals.iter().enumerate() {
        if *total == 0 {
            continue;
        }
        kept.push(FieldTerm {
            field: i as u32,
            coefficient: coefficient(*total)?,
        })?;
    }
    Ok(kept)
}

fn kept_remainders(alloc: Global, likes: Vec<Like>) -> Result<Vec<RemTerm>, FormStop>
    requires { (m : ℕ) × AreLikes m (plain_likes likes.items) }
    ensures { MatchResult result (λ kept. (plain_remainders kept.items ≡ without_zeros (plain_likes likes.items)) × AreRemainders (plain_remainders kept.items)) (λ stop. StopsAt (λ n. IsOfRemainders n (without_zeros (plain_likes likes.items)) × (IsCoefficient n → ⊥)) stop) }
{
    let mut kept = Vec::new(alloc);
    for like in likes {
        if like.coefficient == 0 {
            continue;
        }
        kept.push(RemTerm {
            coefficient: coefficient(like.coefficient)?,
            inner: like.inner,
            divisor: like.divisor,
        })?;
    }
    Ok(kept)
}
