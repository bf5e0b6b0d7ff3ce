//! Division of whole numbers that leaves no rest, by steps on 128 bits that wrap around.
//!
//! By Hensel's division from the last bit: twos are shifted away, and an odd number has an inverse modulo `2^128`. So the
//! dividend need not fit, but as the quotient does: where that is too great, another number comes out.

/// A number by which is divided: its twos, and the inverse of the odd rest.
#[derive(Clone, Copy)]
pub(crate) struct Divisor {
    twos: u32,
    inverse: i128,
}

// The inverse of an odd number modulo 2^128, by Newton's steps: a number is its own inverse modulo 8, and each step doubles the
// bits that are right.
fn inverse_of(odd: i128) -> i128 {
    let mut inverse = odd;
    for _ in 0..6 {
        let rest = 2i128.wrapping_sub(odd.wrapping_mul(inverse));
        inverse = inverse.wrapping_mul(rest);
    }
    inverse
}

impl Divisor {
    /// The number, which isn't 0, as a divisor.
    pub(crate) fn of(number: i128) -> Divisor {
        let twos = number.trailing_zeros();
        Divisor {
            twos,
            inverse: inverse_of(number.wrapping_shr(twos)),
        }
    }

    /// How many times it is in a number, of which the last 128 bits are given.
    pub(crate) fn quotient(self, number: i128) -> i128 {
        let odd = number.wrapping_shr(self.twos).wrapping_mul(self.inverse);
        odd.wrapping_shl(self.twos).wrapping_shr(self.twos)
    }
}
