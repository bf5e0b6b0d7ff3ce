//! The number of 64 bits that is a form's value divided by a number, where the value can have 194 bits.
//!
//! Its promise: the quotient exactly where there is one. It takes no memory.
#![tactic(auto)]

ghost use Rattle.std.specs.Prelude.{◌≡◌, ◌+ℤ◌, ◌*ℤ◌, ◌≤ℤ◌, ◌<ℤ◌, ◌≤◌, ◌<◌, ◌+◌, ◌^◌, ℕ, ℤ, pos, neg_ℤ, length, suc, FitsSigned, MatchOption, IsTrue, ◌↔◌};
ghost use Rattle.std.specs.Int.{w64};
ghost use Rattle.math_cooper.specs.System.{dot};
ghost use Rattle.exact_quotient.specs.Limbs.{worth, IsSmall};

/// A number by `2^43` and the rest.
#[derive(Clone, Copy, Drop)]
pub struct Halves {
    pub above: i128,
    pub low: i128,
}

/// `high * 2^86 + mid * 2^43 + low`, each of either sign.
#[derive(Clone, Copy, Drop)]
pub struct Limbs {
    pub high: i128,
    pub mid: i128,
    pub low: i128,
}

fn split(a: i128) -> Halves
    ensures exact { a ≡ (pos (2 ^ 43) *ℤ result.above) +ℤ result.low }
    ensures natural { pos 0 ≤ℤ result.low }
    ensures small { result.low <ℤ pos (2 ^ 43) }
{
    Halves {
        above: a.div_euclid(8_796_093_022_208),
        low: a.rem_euclid(8_796_093_022_208),
    }
}

fn product(part: i128, v: i128) -> i128
    requires part { (neg_ℤ (pos (2 ^ 43)) ≤ℤ part) × (part ≤ℤ pos (2 ^ 43)) }
    requires v { FitsSigned w64 v }
    ensures value { result ≡ part *ℤ v }
    ensures small { (neg_ℤ (pos (2 ^ 106)) ≤ℤ result) × (result ≤ℤ pos (2 ^ 106)) }
{
    part * v
}

// The sum and a times v.
fn plus(sum: Limbs, a: i128, v: i128) -> Limbs
    requires small { IsSmall 99 sum }
    requires v { FitsSigned w64 v }
    ensures value { worth result ≡ worth sum +ℤ (a *ℤ v) }
    ensures small { (n : ℕ) → IsSmall n sum → IsSmall (suc n) result }
{
    let first = split(a);
    let second = split(first.above);
    let low = product(first.low, v);
    let mid = product(second.low, v);
    let high = product(second.above, v);
    Limbs {
        high: sum.high + high,
        mid: sum.mid + mid,
        low: sum.low + low,
    }
}

fn is_positive(sum: Limbs) -> bool
    requires { IsSmall 99 sum }
    ensures { IsTrue result ↔ (pos 0 <ℤ worth sum) }
{
    let low = split(sum.low);
    let mid = split(sum.mid + low.above);
    let high = sum.high + mid.above;
    if high > 0 {
        return true;
    }
    if high < 0 {
        return false;
    }
    if mid.low > 0 {
        return true;
    }
    if low.low > 0 {
        return true;
    }
    false
}

fn value_of(constant: i128, coefficients: &[i128], values: &[i64]) -> Limbs
    requires same { length coefficients.now ≡ length values.now }
    requires few { length coefficients.now ≤ 8 }
    ensures value { worth result ≡ dot coefficients.now values.now +ℤ constant }
    ensures small { IsSmall 9 result }
{
    let mut sum = plus(
        Limbs {
            high: 0,
            mid: 0,
            low: 0,
        },
        constant,
        1,
    );
    for i in 0..coefficients.len() {
        sum = plus(sum, coefficients[i], values[i] as i128);
    }
    sum
}

// Whether sum - c * x > 0.
fn is_over(sum: Limbs, c: i128, x: i128) -> bool
    requires small { IsSmall 9 sum }
    requires c { pos 0 <ℤ c }
    requires x { FitsSigned w64 x }
    ensures { IsTrue result ↔ ((c *ℤ x) <ℤ worth sum) }
{
    is_positive(plus(sum, -c, x))
}

// Whether sum - c * x < 0.
fn is_under(sum: Limbs, c: i128, x: i128) -> bool
    requires small { IsSmall 9 sum }
    requires c { pos 0 <ℤ c }
    requires x { FitsSigned w64 x }
    ensures { IsTrue result ↔ (worth sum <ℤ (c *ℤ x)) }
{
    let turned = Limbs {
        high: -sum.high,
        mid: -sum.mid,
        low: -sum.low,
    };
    is_positive(plus(turned, c, x))
}

fn middle_of(low: i128, high: i128) -> i128
    requires order { low <ℤ high }
    requires low { FitsSigned w64 low }
    requires high { FitsSigned w64 high }
    ensures from { low ≤ℤ result }
    ensures to { result <ℤ high }
{
    (low + high).div_euclid(2)
}

/// The x of 64 bits with `c * x` = the form's value, if there is one.
pub fn exact_quotient(
    constant: i128,
    coefficients: &[i128],
    values: &[i64],
    c: i128,
) -> Option<i128>
    requires same { length coefficients.now ≡ length values.now }
    requires few { length coefficients.now ≤ 8 }
    requires c { pos 0 <ℤ c }
    ensures { MatchOption result ((x : ℤ) → FitsSigned w64 x → c *ℤ x ≡ dot coefficients.now values.now +ℤ constant → ⊥) (λ x. FitsSigned w64 x × (c *ℤ x ≡ dot coefficients.now values.now +ℤ constant)) }
{
    let sum = value_of(constant, coefficients, values);
    let mut low: i128 = -0x8000_0000_0000_0000;
    let mut high: i128 = 0x7fff_ffff_ffff_ffff;
    while low < high {
        let middle = middle_of(low, high);
        if is_over(sum, c, middle) {
            low = middle + 1;
        } else {
            high = middle;
        }
    }
    if is_over(sum, c, low) {
        return None;
    }
    if is_under(sum, c, low) {
        return None;
    }
    Some(low)
}
