//! Laws of whole numbers that the standard library lacks: products, division with a remainder, divisibility, greatest
//! common divisors and least common multiples, each proved once.
//!
//! The crate promises nothing that runs: its definitions stand in `specs/` and its laws in `proofs/`.
#![tactic(auto)]

ghost use Rattle.std.specs.Prelude.{◌≡◌, ◌≢◌, ℤ, pos};
ghost use Rattle.math_int.specs.Whole.{IsFloor};

/// A quotient rounded down is one number: a law over the definitions alone.
pub fn one_floor()
    ensures { (a b p q : ℤ) → b ≢ pos 0 → IsFloor a b p → IsFloor a b q → p ≡ q }
{}
