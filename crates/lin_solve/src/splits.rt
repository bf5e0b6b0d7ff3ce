//! How a branch is split: which field, by how many of its remainders, or by which of its values, and which part is looked at
//! first. Nothing rests on the choice.

use crate::cases::divisor_in_common;
use crate::compare::{Compare, Relation};
use crate::gaps::is_number;
use crate::mend::count_broken;
use crate::ranges::{Range, ranges_of};
use fast_fault::LabelInt;
use label_core::Lit;
use lin_form::Form;

// How many values cost as much as one remainder.
const VALUES: u32 = 4;

/// A field that is to be so many times another one, and a number below.
#[derive(Clone, Copy)]
pub(crate) struct Split {
    pub(crate) field: u32,
    pub(crate) times: u32,
}

// How a field within a remainder of the form is split, the innermost first.
fn split_in(form: &Form) -> Option<Split> {
    for term in form.remainders() {
        let (inner, divisor) = term.innermost();
        if let Some(split) = split_in(inner) {
            return Some(split);
        }
        if let Some(own) = inner.fields().first() {
            let shared = divisor_in_common(divisor as u64, own.coefficient.unsigned_abs());
            let times = (divisor as u64).checked_div(shared)?;
            return Some(Split {
                field: own.field,
                times: u32::try_from(times).ok()?,
            });
        }
    }
    None
}

/// How a field within a remainder of the literal is split, if it has one.
pub(crate) fn split_of(literal: &Lit<Compare>) -> Option<Split> {
    match split_in(&literal.atom.left) {
        Some(split) => Some(split),
        None => split_in(&literal.atom.right),
    }
}

/// Values of a field from the one up to the other, which isn't among them, and which of them is to be looked at first.
#[derive(Clone, Copy)]
pub(crate) struct Values {
    pub(crate) from: LabelInt,
    pub(crate) to: LabelInt,
    pub(crate) first: LabelInt,
}

/// How a branch is split: by these values of the field, if there are some, else by its remainders, of which one is to be looked
/// at first.
#[derive(Clone, Copy)]
pub(crate) struct Best {
    pub(crate) split: Split,
    pub(crate) values: Option<Values>,
    pub(crate) part: u32,
}

// Whether the literal says which value the field has.
fn tells(literal: &Lit<Compare>, field: u32) -> bool {
    let (Relation::Equal, true) = (literal.atom.relation, literal.sign) else {
        return false;
    };
    let left = &literal.atom.left;
    let is_own = match left.fields().first() {
        Some(term) => term.field == field && term.coefficient == 1 && left.fields().len() == 1,
        None => false,
    };
    is_own && left.remainders().is_empty() && is_number(&literal.atom.right)
}

// The values of a field, if it is better split by them than by its remainders: there are no more than so many times these.
// Where a value is told already, and stands within a remainder since a multiple of it is too great, remainders are left.
fn values_for(literals: &[Lit<Compare>], split: Split, ranges: &[Range]) -> Option<Values> {
    let range = ranges.get(split.field as usize)?;
    let count = range.count(split.times.saturating_mul(VALUES))?;
    if count == 1 && literals.iter().any(|own| tells(own, split.field)) {
        return None;
    }
    let from = LabelInt::try_from(range.low).ok()?;
    Some(Values {
        from,
        to: from.checked_add(count as LabelInt)?,
        first: from,
    })
}

// How much the parts cost, in parts by remainders.
fn weight(split: Split, values: Option<Values>) -> u32 {
    match values {
        Some(own) => {
            let count = own
                .to
                .saturating_sub(own.from)
                .checked_div(VALUES as LabelInt);
            u32::try_from(count.unwrap_or(0)).unwrap_or(u32::MAX)
        }
        None => split.times,
    }
}

// Values of the fields, of which one is to be changed.
#[derive(Clone, Copy)]
struct Point {
    values: [LabelInt; 8],
    field: usize,
}

impl Point {
    fn of(values: &[LabelInt], field: u32) -> Point {
        let mut own = [0; 8];
        for i in 0..8 {
            own[i] = values.get(i).copied().unwrap_or(0);
        }
        Point {
            values: own,
            field: field as usize,
        }
    }

    // How many literals don't hold where the field has this value, or this many if there are more.
    fn count_broken(&self, literals: &[Lit<Compare>], value: LabelInt, most: usize) -> usize {
        let mut own = self.values;
        if let Some(place) = own.get_mut(self.field) {
            *place = value;
        }
        count_broken(literals, &own, most)
    }
}

// The value at which the fewest literals don't hold.
fn first_value(literals: &[Lit<Compare>], point: &Point, values: Values) -> LabelInt {
    let mut first = values.from;
    let mut fewest = usize::MAX;
    for value in values.from..values.to {
        let broken = point.count_broken(literals, value, fewest);
        if broken < fewest {
            fewest = broken;
            first = value;
        }
    }
    first
}

// The remainder of the field for which, at one of the two values next to the field's own, the fewest literals don't hold.
fn first_part(literals: &[Lit<Compare>], point: &Point, split: Split) -> u32 {
    let old = point.values.get(point.field).copied().unwrap_or(0);
    let times = split.times as LabelInt;
    let mut first = 0;
    let mut fewest = usize::MAX;
    for part in 0..split.times {
        let rest = old.wrapping_sub(part as LabelInt).checked_rem_euclid(times);
        let below = old.saturating_sub(rest.unwrap_or(0));
        for value in [below, below.saturating_add(times)] {
            let broken = point.count_broken(literals, value, fewest);
            if broken < fewest {
                fewest = broken;
                first = part;
            }
        }
    }
    first
}

/// Of the literals that these values break, how one is split that leaves the fewest branches, and which of them is to be looked
/// at first: the one that leaves the fewest literals broken near these values.
pub(crate) fn best_split(literals: &[Lit<Compare>], values: &[LabelInt]) -> Option<Best> {
    let ranges = ranges_of(literals);
    let mut best: Option<(Split, Option<Values>)> = None;
    for literal in literals {
        if literal.atom.holds(values) != literal.sign {
            if let Some(split) = split_of(literal) {
                let own = values_for(literals, split, &ranges);
                let is_first = match best {
                    None => true,
                    Some((other, of_other)) => weight(split, own) < weight(other, of_other),
                };
                if is_first {
                    best = Some((split, own));
                }
            }
        }
    }
    let (split, found) = best?;
    let point = Point::of(values, split.field);
    Some(match found {
        Some(own) => Best {
            split,
            values: Some(Values {
                first: first_value(literals, &point, own),
                ..own
            }),
            part: 0,
        },
        None => Best {
            split,
            values: None,
            part: first_part(literals, &point, split),
        },
    })
}
