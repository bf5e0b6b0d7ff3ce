//! Offsets that can't be put: where a condition without variables fails, and where no values can make a divisor divide.

ghost use Rattle.std.specs.Prelude.{◌≡◌, ◌+◌, ◌+ℤ◌, ◌*ℤ◌, ◌≤ℤ◌, ◌<ℤ◌, ◌⊎◌, pos, ℕ, ℤ, IsTrue, List, length, unsigned_abs};
ghost use Rattle.std.specs.Int.{◌∣◌};
ghost use Rattle.std.specs.List.{All};
ghost use Rattle.math_cooper.specs.Line.{Divides, Meets};
ghost use Rattle.math_cooper.specs.System.{HasWidth, Solves, dot, sign};
ghost use Rattle.cooper_solve.specs.Views.{IsUnitLead, slope, NoneFrom};

use crate::constraint::{Constraint, Direction, Relation};
use wide_num::{gcd, rem};

fn lesser(a: i128, b: i128) -> i128
    ensures first { result ≤ℤ a }
    ensures second { result ≤ℤ b }
    ensures which { (result ≡ a) ⊎ (result ≡ b) }
{
    if a < b { a } else { b }
}

fn greater(a: i128, b: i128) -> i128
    ensures first { a ≤ℤ result }
    ensures second { b ≤ℤ result }
    ensures which { (result ≡ a) ⊎ (result ≡ b) }
{
    if a < b { b } else { a }
}

fn is_nought(row: &[i128]) -> bool
    ensures { IsTrue result → All (λ a. a ≡ pos 0) row.now }
{
    for a in row {
        if *a != 0 {
            return false;
        }
    }
    true
}

// A number that divides the divisor and each of the row.
fn common_divisor(divisor: i128, row: &[i128]) -> i128
    requires { pos 0 <ℤ divisor }
    ensures positive { pos 0 <ℤ result }
    ensures divides { unsigned_abs result ∣ unsigned_abs divisor }
    ensures each { All (λ a. unsigned_abs result ∣ unsigned_abs a) row.now }
{
    let mut all = divisor;
    for a in row {
        let Some(next) = gcd(all, *a) else {
            return 1;
        };
        all = next;
    }
    all
}

// For so many offsets a value that begins here and grows by the slope is below 0.
fn skip_below(value: i128, slope: i128, left: i128) -> i128
    requires unit { slope ≡ sign slope }
    requires left { pos 0 ≤ℤ left }
    ensures natural { pos 0 ≤ℤ result }
    ensures most { result ≤ℤ left }
    ensures none { (s : ℕ) → pos s <ℤ result → (value +ℤ (slope *ℤ pos s)) <ℤ pos 0 }
{
    if value >= 0 {
        return 0;
    }
    if slope <= 0 {
        return left;
    }
    if value <= -left {
        return left;
    }
    -value
}

// For so many offsets the divisor doesn't divide a value that begins here and grows by the slope.
fn skip_undivided(value: i128, divisor: i128, slope: i128, left: i128) -> i128
    requires unit { slope ≡ sign slope }
    requires divisor { pos 0 <ℤ divisor }
    requires left { pos 0 ≤ℤ left }
    ensures natural { pos 0 ≤ℤ result }
    ensures most { result ≤ℤ left }
    ensures none { (s : ℕ) → pos s <ℤ result → Divides (unsigned_abs divisor) (value +ℤ (slope *ℤ pos s)) → ⊥ }
{
    let rest = rem(value, divisor);
    if rest == 0 {
        return 0;
    }
    if slope == 0 {
        return left;
    }
    if slope > 0 {
        return lesser(divisor - rest, left);
    }
    lesser(rest, left)
}

// For so many offsets the condition holds at no values.
fn skip_one(constraint: &Constraint, slope: i128, left: i128) -> i128
    requires unit { slope ≡ sign slope }
    requires left { pos 0 ≤ℤ left }
    ensures natural { pos 0 ≤ℤ result }
    ensures most { result ≤ℤ left }
    ensures none { (s : ℕ) (ws : List ℤ) → pos s <ℤ result → Meets constraint.now.kind ((dot constraint.now.coefficients ws +ℤ constraint.now.constant) +ℤ (slope *ℤ pos s)) → ⊥ }
{
    match constraint.relation {
        Relation::AtLeast => {
            if !is_nought(&constraint.coefficients) {
                return 0;
            }
            skip_below(constraint.constant, slope, left)
        }
        Relation::Divided(divisor) => {
            let common = common_divisor(divisor, &constraint.coefficients);
            skip_undivided(constraint.constant, common, slope, left)
        }
    }
}

/// Whether some condition holds at no values, by its own numbers: what divides its divisor and all coefficients doesn't divide
/// the constant, or the constant is negative and there are no coefficients.
pub fn is_refuted(system: &[Constraint]) -> bool
    ensures { IsTrue result → (vs : List ℤ) → Solves vs system.now → ⊥ }
{
    for constraint in system {
        if skip_one(constraint, 0, 1) > 0 {
            return true;
        }
    }
    false
}

fn slope_of(direction: Direction, lead: i128) -> i128
    requires { lead ≡ sign lead }
    ensures value { result ≡ slope direction lead }
    ensures unit { result ≡ sign result }
{
    match direction {
        Direction::Low => lead,
        Direction::High => -lead,
        Direction::Free => lead,
    }
}

/// For so many offsets, of those that are left, no put has a solution; the system is given as it is after the first.
pub(crate) fn skip(
    after: &[Constraint],
    system: &[Constraint],
    last: usize,
    direction: Direction,
    left: i128,
) -> i128
    requires wide { All (HasWidth (last + 1)) system.now }
    requires unit { All (IsUnitLead last) system.now }
    requires same { length after.now ≡ length system.now }
    requires left { pos 0 ≤ℤ left }
    ensures natural { pos 0 ≤ℤ result }
    ensures most { result ≤ℤ left }
    ensures none { NoneFrom last direction system.now after.now result }
{
    let mut most = 0;
    for i in 0..after.len() {
        let slope = slope_of(direction, system[i].lead(last));
        most = greater(most, skip_one(&after[i], slope, left));
    }
    most
}
