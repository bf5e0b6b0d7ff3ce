//! Ranges of the fields' values, as the literals bound them. They choose how a field is split, and nothing rests on them.

use crate::compare::{Compare, Relation};
use crate::mend::coefficient;
use label_core::Lit;
use lin_form::Form;

// No bound is further; what is at least half as far counts as none.
const FAR: i128 = 0x10_0000_0000_0000_0000_0000_0000;

// How often bounds of fields bound others.
const ROUNDS: usize = 3;

/// Values from the low to the high one.
#[derive(Clone, Copy)]
pub(crate) struct Range {
    pub(crate) low: i128,
    pub(crate) high: i128,
}

fn no_further(number: i128) -> i128 {
    if number < -FAR {
        -FAR
    } else if number > FAR {
        FAR
    } else {
        number
    }
}

// The quotient, rounded down, by a number above 0.
fn floor(number: i128, by: i128) -> Option<i128> {
    let quotient = number.checked_div(by)?;
    if number.checked_rem(by)? < 0 {
        quotient.checked_sub(1)
    } else {
        Some(quotient)
    }
}

impl Range {
    /// How many values there are, if so many at most.
    pub(crate) fn count(&self, most: u32) -> Option<u32> {
        let count = self.high.checked_sub(self.low)?.checked_add(1)?;
        if count >= 1 && count <= most as i128 {
            u32::try_from(count).ok()
        } else {
            None
        }
    }

    // The least that so many times a value can be.
    fn least(&self, times: i128) -> i128 {
        if times < 0 {
            times.saturating_mul(self.high)
        } else {
            times.saturating_mul(self.low)
        }
    }

    // So many times a value is at most this.
    fn cut(&mut self, times: i128, most: i128) {
        let Some(bound) = floor(most, times.saturating_abs()) else {
            return;
        };
        if times > 0 && bound < self.high {
            self.high = bound;
        }
        let low = bound.saturating_neg();
        if times < 0 && low > self.low {
            self.low = low;
        }
    }
}

// The least value that the form with a sign can have, apart from its fields.
fn least_within(form: &Form, sign: i128) -> i128 {
    let mut sum = form.constant().saturating_mul(sign);
    for term in form.remainders() {
        let times = sign.saturating_mul(term.coefficient as i128);
        let whole = Range {
            low: 0,
            high: (term.divisor as i128).saturating_sub(1),
        };
        sum = no_further(sum.saturating_add(whole.least(times)));
    }
    sum
}

// The least that so many times each field can be together, apart from one.
fn least_but(ranges: &[Range; 8], times: &[i128; 8], but: usize) -> i128 {
    let mut sum: i128 = 0;
    for field in 0..8 {
        if field != but {
            sum = no_further(sum.saturating_add(ranges[field].least(times[field])));
        }
    }
    sum
}

// The one form less the other is at most this. A field that both have counts once, with what is left of it.
fn bound(ranges: &mut [Range; 8], more: &Form, less: &Form, most: i128) {
    let mut times: [i128; 8] = [0; 8];
    for field in 0..8 {
        let own = field as u32;
        times[field] = coefficient(more, own).saturating_sub(coefficient(less, own));
    }
    let within = least_within(more, 1).saturating_add(least_within(less, -1));
    for field in 0..8 {
        if times[field] != 0 {
            let rest = within.saturating_add(least_but(ranges, &times, field));
            if rest > -FAR / 2 {
                ranges[field].cut(times[field], most.saturating_sub(rest));
            }
        }
    }
}

fn bound_by(ranges: &mut [Range; 8], literal: &Lit<Compare>) {
    let (left, right) = (&literal.atom.left, &literal.atom.right);
    match (literal.atom.relation, literal.sign) {
        (Relation::Less, true) => bound(ranges, left, right, -1),
        (Relation::Less, false) => bound(ranges, right, left, 0),
        (Relation::AtMost, true) => bound(ranges, left, right, 0),
        (Relation::AtMost, false) => bound(ranges, right, left, -1),
        (Relation::Equal, true) => {
            bound(ranges, left, right, 0);
            bound(ranges, right, left, 0);
        }
        (Relation::Equal, false) => {}
    }
}

/// The range of each of the eight fields.
pub(crate) fn ranges_of(literals: &[Lit<Compare>]) -> [Range; 8] {
    let all = Range {
        low: -FAR,
        high: FAR,
    };
    let mut ranges = [all; 8];
    for _ in 0..ROUNDS {
        for literal in literals {
            bound_by(&mut ranges, literal);
        }
    }
    ranges
}
