//! Values near 0, where branches leave it open whether some satisfy: all of them are tried, but for a field that an equation
//! gives by the others.

ghost use Rattle.std.specs.Prelude.{◌≡◌, IfOk, IfSome, length};
ghost use Rattle.model_chain.specs.Literals.{HoldsAll};
ghost use Rattle.lin_solve.specs.Plain.{plain_literals};

use crate::apart::fields_in;
use crate::compare::Compare;
use crate::equations::{Own, given_by};
use crate::guess::all_hold;
use fast_fault::{LabelInt, Memory};
use label_core::Lit;
use lin_form::FormStop;
use std::alloc::Global;

// How many values of each field are tried, and how many of all together, by how many fields there are.
const TRIES: [(u32, u32); 5] = [
    (1, 1),
    (10_001, 10_001),
    (301, 90_601),
    (41, 68_921),
    (17, 83_521),
];

// The first field that a literal gives.
fn first_given(alloc: Global, literals: &[Lit<Compare>]) -> Result<Option<Own>, FormStop> {
    for literal in literals {
        if let Some(own) = given_by(alloc, literal)? {
            return Ok(Some(own));
        }
    }
    Ok(None)
}

/// The fields of the literals, a bit each, but for one that is given.
pub(crate) fn moved_fields(literals: &[Lit<Compare>], given: Option<&Own>) -> u32 {
    let mut all = 0;
    for literal in literals {
        all |= fields_in(literal);
    }
    match given {
        Some(own) => all & !1u32.wrapping_shl(own.field),
        None => all,
    }
}

// 0, 1, -1, 2, -2 and so on.
fn around(number: u32) -> LabelInt {
    let half = LabelInt::from(number / 2);
    if number % 2 == 0 { -half } else { half + 1 }
}

// The values with this number, of so many of each of the fields.
fn spread(number: u32, fields: u32, side: u32) -> [LabelInt; 8] {
    let mut values = [0; 8];
    let mut left = number;
    for field in 0..8 {
        if fields & 1u32.wrapping_shl(field as u32) != 0 {
            values[field] = around(left.checked_rem(side).unwrap_or(0));
            left = left.checked_div(side).unwrap_or(0);
        }
    }
    values
}

// The same, where the field that is given has the value of its form, if that has 64 bits.
fn with_given(values: [LabelInt; 8], given: Option<&Own>) -> [LabelInt; 8] {
    let mut all = values;
    if let Some(own) = given {
        let value = LabelInt::try_from(own.form.eval(&values)).unwrap_or(0);
        if let Some(place) = all.get_mut(own.field as usize) {
            *place = value;
        }
    }
    all
}

fn try_near(
    alloc: Global,
    literals: &[Lit<Compare>],
    given: Option<&Own>,
) -> Result<Option<Vec<LabelInt>>, Memory>
    ensures { IfOk result (λ found. IfSome found (λ vs. (length vs.items ≡ 8) × HoldsAll (plain_literals literals.now) vs.items)) }
{
    let fields = moved_fields(literals, given);
    let Some((side, all)) = TRIES.get(fields.count_ones() as usize).copied() else {
        return Ok(None);
    };
    for number in 0..all {
        let values = with_given(spread(number, fields, side), given);
        if all_hold(literals, &values) {
            return Ok(Some(Vec::from_slice(alloc, &values)?));
        }
    }
    Ok(None)
}

/// Values near 0 at which the literals hold. Up to 90,601 are tried.
pub(crate) fn seek_near(
    alloc: Global,
    literals: &[Lit<Compare>],
) -> Result<Option<Vec<LabelInt>>, Memory>
    ensures { IfOk result (λ found. IfSome found (λ vs. (length vs.items ≡ 8) × HoldsAll (plain_literals literals.now) vs.items)) }
{
    match first_given(alloc, literals) {
        Ok(given) => try_near(alloc, literals, given.as_ref()),
        Err(FormStop::Range(_)) => Ok(None),
        Err(FormStop::Memory) => Err(Memory),
    }
}
