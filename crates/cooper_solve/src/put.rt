//! The second part of a step: a form is put for the last variable.

ghost use Rattle.std.specs.Prelude.{◌≡◌, ◌+◌, ◌+ℤ◌, ◌*ℤ◌, ◌≤ℤ◌, ◌<◌, pos, ℤ, IfOk, MatchResult, FitsSigned, unsigned_abs, map, neg_ℤ, length};
ghost use Rattle.std.specs.Int.{w128};
ghost use Rattle.std.specs.Option.{SomeIff};
ghost use Rattle.std.specs.List.{All, Contains};
ghost use Rattle.math_cooper.specs.System.{HasWidth, lead, put, put_all, add_times, low_form, high_form, free_form};
ghost use Rattle.math_cooper.specs.Puts.{IsWide};
ghost use Rattle.cooper_solve.specs.Views.{OnWide, WideIn, WideInSystem, WideInForm, WideSum, IsUnitLead, IsBase, base_form, one};

use crate::constraint::{Constraint, Direction, Stop};
use crate::scale::zeros;
use std::alloc::{AllocError, Global};
use std::marker::Model;
use wide_num::{add, sub};

/// A constant and coefficients.
#[derive(Drop)]
pub(crate) struct Linear {
    pub(crate) constant: i128,
    pub(crate) coefficients: Vec<i128>,
}

impl Model for Linear {
    ghost use Rattle.math_cooper.specs.System.{Affine};

    ghost Value = { Affine };

    ghost view = { λ f. record { constant = f.constant; coefficients = f.coefficients.items } };
}

fn negated(alloc: Global, row: &[i128]) -> Result<Vec<i128>, Stop>
    ensures { MatchResult result (λ v. v.items ≡ map neg_ℤ row.now) (OnWide ((a : ℤ) × Contains row.now a × IsWide (neg_ℤ a))) }
{
    let mut out = Vec::new(alloc);
    for a in row {
        let Some(negative) = sub(0, *a) else {
            return Err(Stop::TooWide);
        };
        out.push(negative)?;
    }
    Ok(out)
}

// The bound of the condition from below, and so much more.
fn above(alloc: Global, constraint: &Constraint, last: usize, offset: i128) -> Result<Linear, Stop>
    requires wide { HasWidth (last + 1) constraint.now }
    requires natural { pos 0 ≤ℤ offset }
    ensures { MatchResult result (λ g. g ≡ low_form last constraint.now (unsigned_abs offset)) (OnWide (WideInForm (low_form last constraint.now (unsigned_abs offset)))) }
{
    let coefficients = negated(alloc, &constraint.coefficients[..last])?;
    let Some(constant) = sub(offset, constraint.constant) else {
        return Err(Stop::TooWide);
    };
    Ok(Linear {
        constant,
        coefficients,
    })
}

// The bound of the condition from above, and so much less.
fn below(alloc: Global, constraint: &Constraint, last: usize, offset: i128) -> Result<Linear, Stop>
    requires wide { HasWidth (last + 1) constraint.now }
    requires natural { pos 0 ≤ℤ offset }
    ensures { MatchResult result (λ g. g ≡ high_form last constraint.now (unsigned_abs offset)) (OnWide (WideInForm (high_form last constraint.now (unsigned_abs offset)))) }
{
    let coefficients = Vec::from_slice(alloc, &constraint.coefficients[..last])?;
    let Some(constant) = sub(constraint.constant, offset) else {
        return Err(Stop::TooWide);
    };
    Ok(Linear {
        constant,
        coefficients,
    })
}

// The offset alone.
fn alone(alloc: Global, last: usize, offset: i128) -> Result<Linear, AllocError>
    requires { pos 0 ≤ℤ offset }
    ensures { IfOk result (λ g. g ≡ free_form last (unsigned_abs offset)) }
{
    Ok(Linear {
        constant: offset,
        coefficients: zeros(alloc, last)?,
    })
}

/// What is put for the last variable at an offset.
pub(crate) fn form_of(
    alloc: Global,
    system: &[Constraint],
    last: usize,
    direction: Direction,
    bound: usize,
    offset: i128,
) -> Result<Linear, Stop>
    requires wide { All (HasWidth (last + 1)) system.now }
    requires base { IsBase direction system.now bound }
    requires natural { pos 0 ≤ℤ offset }
    ensures { MatchResult result (λ g. g ≡ base_form direction last system.now bound (unsigned_abs offset)) (OnWide (WideInForm (base_form direction last system.now bound (unsigned_abs offset)))) }
{
    match direction {
        Direction::Low => above(alloc, &system[bound], last, offset),
        Direction::High => below(alloc, &system[bound], last, offset),
        Direction::Free => Ok(alone(alloc, last, offset)?),
    }
}

fn signed_sum(minus: bool, a: i128, b: i128) -> Option<i128>
    ensures { SomeIff result (FitsSigned w128 (a +ℤ (one minus *ℤ b))) (a +ℤ (one minus *ℤ b)) }
{
    if minus { sub(a, b) } else { add(a, b) }
}

pub(crate) fn plus(alloc: Global, minus: bool, f: &[i128], g: &[i128]) -> Result<Vec<i128>, Stop>
    requires { length f.now ≡ length g.now }
    ensures { MatchResult result (λ v. v.items ≡ add_times (one minus) f.now g.now) (OnWide (WideSum minus f.now g.now)) }
{
    let mut out = Vec::new(alloc);
    for i in 0..f.len() {
        let Some(sum) = signed_sum(minus, f[i], g[i]) else {
            return Err(Stop::TooWide);
        };
        out.push(sum)?;
    }
    Ok(out)
}

// The condition with the form put for the last variable, whose coefficient is 1 or -1.
fn put_signed(
    alloc: Global,
    constraint: &Constraint,
    last: usize,
    minus: bool,
    form: &Linear,
) -> Result<Constraint, Stop>
    requires wide { HasWidth (last + 1) constraint.now }
    requires fits { length form.now.coefficients ≡ last }
    requires sign { lead last constraint.now ≡ one minus }
    ensures { MatchResult result (λ r. r ≡ put last form.now constraint.now) (OnWide (WideIn (put last form.now constraint.now))) }
{
    let row = &constraint.coefficients[..last];
    let coefficients = plus(alloc, minus, row, &form.coefficients)?;
    let Some(constant) = signed_sum(minus, constraint.constant, form.constant) else {
        return Err(Stop::TooWide);
    };
    Ok(Constraint {
        relation: constraint.relation,
        constant,
        coefficients,
    })
}

// The condition with the form put for the last variable.
fn put_one(
    alloc: Global,
    constraint: &Constraint,
    last: usize,
    form: &Linear,
) -> Result<Constraint, Stop>
    requires wide { HasWidth (last + 1) constraint.now }
    requires fits { length form.now.coefficients ≡ last }
    requires unit { IsUnitLead last constraint.now }
    ensures { MatchResult result (λ r. r ≡ put last form.now constraint.now) (OnWide (WideIn (put last form.now constraint.now))) }
{
    let lead = constraint.lead(last);
    if lead == 0 {
        Ok(constraint.cut(alloc, last)?)
    } else {
        put_signed(alloc, constraint, last, lead < 0, form)
    }
}

/// The system with the form put for the last variable.
pub(crate) fn put_each(
    alloc: Global,
    system: &[Constraint],
    last: usize,
    form: &Linear,
) -> Result<Vec<Constraint>, Stop>
    requires wide { All (HasWidth (last + 1)) system.now }
    requires fits { length form.now.coefficients ≡ last }
    requires unit { All (IsUnitLead last) system.now }
    ensures { MatchResult result (λ r. r.items ≡ put_all last form.now system.now) (OnWide (WideInSystem (put_all last form.now system.now))) }
{
    let mut out = Vec::new(alloc);
    for constraint in system {
        out.push(put_one(alloc, constraint, last, form)?)?;
    }
    Ok(out)
}
