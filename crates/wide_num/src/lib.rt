//! Whole numbers of 128 bits: each call gives the exact whole number, and `None` exactly where that number is outside
//! 128 bits. None of them takes memory.
#![tactic(auto)]

ghost use Rattle.std.specs.Prelude.{◌≡◌, ◌≢◌, ◌+ℤ◌, ◌-ℤ◌, ◌*ℤ◌, ◌≤ℤ◌, ◌<ℤ◌, ◌≤◌, ◌^◌, pos, FitsSigned, ℤ, ◌<◌, ℕ, unsigned_abs, MatchOption};
ghost use Rattle.std.specs.Int.{w128, IsGcd, int_rem_euclid};
ghost use Rattle.std.specs.Option.{SomeIff};
ghost use Rattle.math_int.specs.Whole.{IsFloor, IsLcm};

/// The sum.
pub fn add(a: i128, b: i128) -> Option<i128>
    ensures { SomeIff result (FitsSigned w128 (a +ℤ b)) (a +ℤ b) }
{
    a.checked_add(b)
}

/// The difference.
pub fn sub(a: i128, b: i128) -> Option<i128>
    ensures { SomeIff result (FitsSigned w128 (a -ℤ b)) (a -ℤ b) }
{
    a.checked_sub(b)
}

/// The product.
pub fn mul(a: i128, b: i128) -> Option<i128>
    ensures { SomeIff result (FitsSigned w128 (a *ℤ b)) (a *ℤ b) }
{
    a.checked_mul(b)
}

/// The remainder from 0 to `k - 1`, whatever the sign of `a`.
pub fn rem(a: i128, k: i128) -> i128
    requires { pos 0 <ℤ k }
    ensures low { pos 0 ≤ℤ result }
    ensures high { result <ℤ k }
    ensures exact { (q : ℤ) × (a ≡ (k *ℤ q) +ℤ result) }
    ensures value { result ≡ int_rem_euclid a k }
{
    a.rem_euclid(k)
}

/// The quotient, rounded down.
pub fn div_floor(a: i128, b: i128) -> Option<i128>
    requires { b ≢ pos 0 }
    ensures { MatchOption result ((q : ℤ) → IsFloor a b q → FitsSigned w128 q → ⊥) (λ q. IsFloor a b q) }
{
    if b == -1 {
        a.checked_neg()
    } else {
        let quotient = a.div_euclid(b);
        if b < 0 && a.rem_euclid(b) != 0 {
            quotient.checked_sub(1)
        } else {
            Some(quotient)
        }
    }
}

// The greatest common divisor, by Euclid's steps.
fn gcd_natural(a: u128, b: u128) -> u128
    ensures { IsGcd a b result }
{
    let mut x = a;
    let mut y = b;
    while y != 0 {
        let next = x % y;
        x = y;
        y = next;
    }
    x
}

fn to_signed(n: u128) -> Option<i128>
    ensures { MatchOption result (2 ^ 127 ≤ n) (λ r. r ≡ pos n) }
{
    if n < 0x8000_0000_0000_0000_0000_0000_0000_0000 {
        Some(n as i128)
    } else {
        None
    }
}

/// The greatest common divisor, never negative; of 0 and 0 it is 0.
pub fn gcd(a: i128, b: i128) -> Option<i128>
    ensures { MatchOption result ((g : ℕ) → IsGcd (unsigned_abs a) (unsigned_abs b) g → 2 ^ 127 ≤ g) (λ r. (pos 0 ≤ℤ r) × IsGcd (unsigned_abs a) (unsigned_abs b) (unsigned_abs r)) }
{
    to_signed(gcd_natural(a.unsigned_abs(), b.unsigned_abs()))
}

/// The least common multiple, never negative; with a 0 it is 0.
pub fn lcm(a: i128, b: i128) -> Option<i128>
    ensures { MatchOption result ((l : ℕ) → IsLcm (unsigned_abs a) (unsigned_abs b) l → 2 ^ 127 ≤ l) (λ r. (pos 0 ≤ℤ r) × IsLcm (unsigned_abs a) (unsigned_abs b) (unsigned_abs r)) }
{
    let x = a.unsigned_abs();
    let y = b.unsigned_abs();
    if x == 0 {
        return Some(0);
    }
    let g = gcd_natural(x, y);
    let l = (x / g).checked_mul(y)?;
    to_signed(l)
}
