//! The values of one variable for which a multiple of it, and a constant, is a multiple of a number.

use crate::line::{Kind, Line};
use crate::moves::Scale;
use wide_num::{div_floor, mul, rem, sub};

/// What a line says of its one variable.
#[derive(Clone, Copy)]
pub(crate) enum Class {
    /// It is so many times some number, and a rest.
    Is(Scale),
    /// It has no value.
    Never,
    /// Nothing is found.
    Open,
}

// The first variable of the line.
fn first_variable(line: &Line) -> Option<usize> {
    for i in 0..line.coefficients.len() {
        if line.coefficients[i] != 0 {
            return Some(i);
        }
    }
    None
}

// Whether no other variable is in the line.
fn is_only(line: &Line, own: usize) -> bool {
    for i in 0..line.coefficients.len() {
        if i != own && line.coefficients[i] != 0 {
            return false;
        }
    }
    true
}

/// The variable, where the line has only one.
pub(crate) fn only(line: &Line) -> Option<usize> {
    let own = first_variable(line)?;
    if is_only(line, own) { Some(own) } else { None }
}

/// Whether the one number is a multiple of the other, which isn't negative.
pub(crate) fn is_multiple(number: i128, of: i128) -> bool {
    if of <= 0 {
        number == 0
    } else {
        rem(number, of) == 0
    }
}

// `by` times a number is `common`, which divides both, but for a multiple of `modulus`.
#[derive(Clone, Copy)]
struct Inverse {
    modulus: i128,
    by: i128,
    common: i128,
}

// By Euclid's steps.
fn bezout(number: i128, modulus: i128) -> Option<(i128, i128)> {
    let (mut common, mut next) = (number, modulus);
    let mut by: i128 = 1;
    let mut next_by: i128 = 0;
    for _ in 0..400 {
        if next == 0 {
            if common < 0 {
                return Some((by.checked_neg()?, common.checked_neg()?));
            }
            return Some((by, common));
        }
        let quotient = div_floor(common, next)?;
        let less = common.checked_sub(quotient.checked_mul(next)?)?;
        let less_by = by.checked_sub(quotient.checked_mul(next_by)?)?;
        common = next;
        by = next_by;
        next = less;
        next_by = less_by;
    }
    None
}

fn inverse_of(number: i128, modulus: i128) -> Option<Inverse> {
    let (by, common) = bezout(number, modulus)?;
    if common <= 0 || modulus < 0 {
        return None;
    }
    Some(Inverse {
        modulus,
        by,
        common,
    })
}

// A rest that is not negative, where all is counted but for multiples of a number.
fn least_rest(rest: i128, times: i128) -> i128 {
    if times > 0 { rem(rest, times) } else { rest }
}

impl Inverse {
    // The values of a variable that make the number times it, and the constant, a multiple of the modulus.
    fn class(self, of: usize, constant: i128) -> Class {
        if !is_multiple(constant, self.common) {
            return Class::Never;
        }
        let (Some(quotient), Some(times)) = (
            constant.checked_div(self.common),
            self.modulus.checked_div(self.common),
        ) else {
            return Class::Open;
        };
        let Some(product) = mul(self.by, quotient) else {
            return Class::Open;
        };
        let Some(rest) = sub(0, product) else {
            return Class::Open;
        };
        Class::Is(Scale {
            of,
            times,
            rest: least_rest(rest, times),
        })
    }
}

/// The values of the one variable of a line that is a multiple.
pub(crate) fn class_of(line: &Line, of: usize) -> Class {
    match line.kind {
        Kind::AtLeast | Kind::Free => Class::Open,
        Kind::Multiple(modulus) => match inverse_of(line.at(of), modulus) {
            None => Class::Open,
            Some(inverse) => inverse.class(of, line.constant),
        },
    }
}
