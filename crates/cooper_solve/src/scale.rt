//! The first part of a step: `c` times the last variable becomes one variable with the coefficient 1 or -1.

ghost use Rattle.std.specs.Prelude.{◌≡◌, ◌≢◌, ◌+◌, ◌/◌, ◌*ℤ◌, ◌<ℤ◌, ◌≤◌, ◌^◌, pos, ℕ, ℤ, IfOk, MatchResult, MatchOption, unsigned_abs, map, replicate};
ghost use Rattle.std.specs.List.{All, Contains};
ghost use Rattle.math_cooper.specs.Line.{IsMultiple};
ghost use Rattle.math_cooper.specs.System.{HasWidth, lead, sign, unit, unit_all, kind_times, times_condition, divides_condition, IsCommonAt};
ghost use Rattle.math_cooper.specs.Puts.{IsScale, IsPeriod, IsWide};
ghost use Rattle.cooper_solve.specs.Kinds.{kind_of, IsPositiveRelation};
ghost use Rattle.cooper_solve.specs.Views.{IsSystem, OnWide, WideKind, WideIn, WideInSystem, scale_number, period_number};

use crate::constraint::{Constraint, Relation, Stop};
use crate::lcm::least_multiple;
use std::alloc::{AllocError, Global};
use wide_num::mul;

// The coefficient of the last variable, or 1 where it is 0.
fn scale_of(constraint: &Constraint, last: usize) -> i128
    requires { HasWidth (last + 1) constraint.now }
    ensures { result ≡ scale_number last constraint.now }
{
    let lead = constraint.lead(last);
    if lead == 0 { 1 } else { lead }
}

// The divisor, or 1 where there is none or the last variable doesn't occur.
fn period_of(constraint: &Constraint, last: usize) -> i128
    requires { HasWidth (last + 1) constraint.now }
    ensures { result ≡ period_number last constraint.now }
{
    if constraint.lead(last) == 0 {
        return 1;
    }
    match constraint.relation {
        Relation::AtLeast => 1,
        Relation::Divided(divisor) => divisor,
    }
}

fn scales(alloc: Global, system: &[Constraint], last: usize) -> Result<Vec<i128>, AllocError>
    requires { All (HasWidth (last + 1)) system.now }
    ensures { IfOk result (λ r. r.items ≡ map (scale_number last) system.now) }
{
    let mut out = Vec::new(alloc);
    for constraint in system {
        out.push(scale_of(constraint, last))?;
    }
    Ok(out)
}

fn periods(alloc: Global, system: &[Constraint], last: usize) -> Result<Vec<i128>, AllocError>
    requires { All (HasWidth (last + 1)) system.now }
    ensures { IfOk result (λ r. r.items ≡ map (period_number last) system.now) }
{
    let mut out = Vec::new(alloc);
    for constraint in system {
        out.push(period_of(constraint, last))?;
    }
    Ok(out)
}

/// The least common multiple of the coefficients of the last variable.
pub(crate) fn scale(alloc: Global, system: &[Constraint], last: usize) -> Result<i128, Stop>
    requires { IsSystem (last + 1) system.now }
    ensures { MatchResult result (λ c. (pos 0 <ℤ c) × IsScale last system.now (unsigned_abs c)) (OnWide ((c : ℕ) → IsScale last system.now c → 2 ^ 127 ≤ c)) }
{
    let numbers = scales(alloc, system, last)?;
    match least_multiple(&numbers) {
        Some(multiple) => Ok(multiple),
        None => Err(Stop::TooWide),
    }
}

/// The least common multiple of the divisors of conditions with the last variable.
pub(crate) fn period(alloc: Global, system: &[Constraint], last: usize) -> Result<i128, Stop>
    requires { IsSystem (last + 1) system.now }
    ensures { MatchResult result (λ d. (pos 0 <ℤ d) × IsPeriod last system.now (unsigned_abs d)) (OnWide ((d : ℕ) → IsPeriod last system.now d → 2 ^ 127 ≤ d)) }
{
    let numbers = periods(alloc, system, last)?;
    match least_multiple(&numbers) {
        Some(multiple) => Ok(multiple),
        None => Err(Stop::TooWide),
    }
}

// k times each number.
pub(crate) fn times(alloc: Global, k: i128, row: &[i128]) -> Result<Vec<i128>, Stop>
    ensures { MatchResult result (λ v. v.items ≡ map (λ a. k *ℤ a) row.now) (OnWide ((a : ℤ) × Contains row.now a × IsWide (k *ℤ a))) }
{
    let mut out = Vec::new(alloc);
    for a in row {
        let Some(product) = mul(k, *a) else {
            return Err(Stop::TooWide);
        };
        out.push(product)?;
    }
    Ok(out)
}

fn sign_of(lead: i128) -> i128
    ensures { result ≡ sign lead }
{
    if lead > 0 {
        1
    } else if lead < 0 {
        -1
    } else {
        0
    }
}

fn times_relation(k: i128, relation: Relation) -> Option<Relation>
    requires positive { pos 0 <ℤ k }
    requires sound { IsPositiveRelation relation }
    ensures { MatchOption result (WideKind (kind_times (unsigned_abs k) (kind_of relation))) (λ r. (kind_of r ≡ kind_times (unsigned_abs k) (kind_of relation)) × IsPositiveRelation r) }
{
    match relation {
        Relation::AtLeast => Some(Relation::AtLeast),
        Relation::Divided(divisor) => match mul(k, divisor) {
            None => None,
            Some(product) => Some(Relation::Divided(product)),
        },
    }
}

// The condition times k, with one variable for c times the last.
fn times_one(
    alloc: Global,
    constraint: &Constraint,
    last: usize,
    k: i128,
) -> Result<Constraint, Stop>
    requires wide { HasWidth (last + 1) constraint.now }
    requires positive { pos 0 <ℤ k }
    ensures { MatchResult result (λ r. r ≡ times_condition last (unsigned_abs k) constraint.now) (OnWide (WideIn (times_condition last (unsigned_abs k) constraint.now))) }
{
    let mut coefficients = times(alloc, k, &constraint.coefficients[..last])?;
    coefficients.push(sign_of(constraint.lead(last)))?;
    let Some(relation) = times_relation(k, constraint.relation) else {
        return Err(Stop::TooWide);
    };
    let Some(constant) = mul(k, constraint.constant) else {
        return Err(Stop::TooWide);
    };
    Ok(Constraint {
        relation,
        constant,
        coefficients,
    })
}

// The number that makes the coefficient c or -c.
fn multiplier_of(c: i128, lead: i128) -> i128
    requires nonzero { lead ≢ pos 0 }
    requires positive { pos 0 <ℤ c }
    requires multiple { IsMultiple (unsigned_abs lead) (unsigned_abs c) }
    ensures value { result ≡ pos (unsigned_abs c / unsigned_abs lead) }
    ensures positive { pos 0 <ℤ result }
{
    (c.unsigned_abs() / lead.unsigned_abs()) as i128
}

// The condition with 1, -1 or 0 times one variable for c times the last.
fn unit_one(
    alloc: Global,
    constraint: &Constraint,
    last: usize,
    c: i128,
) -> Result<Constraint, Stop>
    requires wide { HasWidth (last + 1) constraint.now }
    requires positive { pos 0 <ℤ c }
    requires all { IsCommonAt last (unsigned_abs c) constraint.now }
    ensures { MatchResult result (λ r. r ≡ unit last (unsigned_abs c) constraint.now) (OnWide (WideIn (unit last (unsigned_abs c) constraint.now))) }
{
    let lead = constraint.lead(last);
    if lead == 0 {
        Ok(constraint.copy(alloc)?)
    } else {
        times_one(alloc, constraint, last, multiplier_of(c, lead))
    }
}

/// So many zeros.
pub fn zeros(alloc: Global, count: usize) -> Result<Vec<i128>, AllocError>
    ensures { IfOk result (λ v. v.items ≡ replicate count (pos 0)) }
{
    let mut out = Vec::new(alloc);
    'write: for _ in 0..count {
        out.push(0)?;
    }
    Ok(out)
}

// That c divides the last variable.
fn divides_one(alloc: Global, last: usize, c: i128) -> Result<Constraint, AllocError>
    requires { pos 0 <ℤ c }
    ensures { IfOk result (λ r. r ≡ divides_condition last (unsigned_abs c)) }
{
    let mut coefficients = zeros(alloc, last)?;
    coefficients.push(1)?;
    Ok(Constraint {
        relation: Relation::Divided(c),
        constant: 0,
        coefficients,
    })
}

/// The system with one variable for `c` times the last, which `c` divides.
pub(crate) fn unit_each(
    alloc: Global,
    system: &[Constraint],
    last: usize,
    c: i128,
) -> Result<Vec<Constraint>, Stop>
    requires system { All (HasWidth (last + 1)) system.now }
    requires positive { pos 0 <ℤ c }
    requires all { All (IsCommonAt last (unsigned_abs c)) system.now }
    ensures { MatchResult result (λ r. r.items ≡ unit_all last (unsigned_abs c) system.now) (OnWide (WideInSystem (unit_all last (unsigned_abs c) system.now))) }
{
    let mut out = Vec::new(alloc);
    for constraint in system {
        out.push(unit_one(alloc, constraint, last, c)?)?;
    }
    out.push(divides_one(alloc, last, c)?)?;
    Ok(out)
}
