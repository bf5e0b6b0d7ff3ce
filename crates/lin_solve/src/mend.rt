//! Values that are mended one at a time: of the changes that make a literal hold, the one is taken that leaves the fewest
//! others broken. Values at which all hold are an answer, whatever found them.

ghost use Rattle.std.specs.Prelude.{◌≡◌, IfOk, IfSome, length};
ghost use Rattle.model_chain.specs.Literals.{HoldsAll};
ghost use Rattle.lin_solve.specs.Plain.{plain_literals};

use crate::apart::fields_of_each;
use crate::compare::Compare;
use crate::guess::{all_hold, missing, step_for};
use crate::system::has_field;
use fast_fault::{LabelInt, Memory};
use label_core::Lit;
use lin_form::Form;
use std::alloc::Global;

// How often values are mended, and how far a field within a remainder is moved.
const TURNS: usize = 10;

const FARTHEST: usize = 30;

// A change of one value, and how many literals are broken after it.
#[derive(Clone, Copy)]
struct Change {
    place: usize,
    value: LabelInt,
    broken: usize,
}

/// How many literals don't hold, or this many if there are more.
pub(crate) fn count_broken(literals: &[Lit<Compare>], values: &[LabelInt], most: usize) -> usize {
    let mut broken = 0;
    for literal in literals {
        if broken >= most {
            return most;
        }
        if literal.atom.holds(values) != literal.sign {
            broken += 1;
        }
    }
    broken
}

/// The coefficient of a field outside all remainders.
pub(crate) fn coefficient(form: &Form, field: u32) -> i128 {
    for term in form.fields() {
        if term.field == field {
            return term.coefficient as i128;
        }
    }
    0
}

// Literals, and the fields of each, a bit each.
#[derive(Clone, Copy)]
struct Given<'l> {
    literals: &'l [Lit<Compare>],
    fields: &'l [u32],
}

// A field that is changed, and how many of the literals without it are broken.
#[derive(Clone, Copy)]
struct Moved {
    field: u32,
    broken: usize,
}

impl Given<'_> {
    // So many, and how many literals don't hold of those that have the field, or of the others; or the most.
    fn count_broken(&self, values: &[LabelInt], moved: Moved, with: bool, most: usize) -> usize {
        let mut broken = moved.broken;
        for (literal, fields) in self.literals.iter().zip(self.fields) {
            if broken >= most {
                return most;
            }
            let has = fields & 1u32.wrapping_shl(moved.field) != 0;
            if has == with && literal.atom.holds(values) != literal.sign {
                broken = broken.saturating_add(1);
            }
        }
        broken
    }

    // How many literals don't hold of those that don't have the field.
    fn moved(&self, values: &[LabelInt], field: u32) -> Moved {
        let none = Moved { field, broken: 0 };
        Moved {
            field,
            broken: self.count_broken(values, none, false, usize::MAX),
        }
    }

    // The better of the best change and this one.
    fn better(&self, values: &mut Vec<LabelInt>, moved: Moved, next: i128, best: Change) -> Change
        ensures { length values.new.items ≡ length values.old.items }
    {
        let Ok(value) = LabelInt::try_from(next) else {
            return best;
        };
        let place = moved.field as usize;
        if place >= values.len() || values[place] == value {
            return best;
        }
        let old = values[place];
        values[place] = value;
        let broken = self.count_broken(values, moved, true, best.broken);
        values[place] = old;
        if broken < best.broken {
            Change {
                place,
                value,
                broken,
            }
        } else {
            best
        }
    }

    // The best change of a field that stands within remainders alone: upwards first, else downwards.
    fn best_within(&self, values: &mut Vec<LabelInt>, moved: Moved, found: Change) -> Change
        ensures { length values.new.items ≡ length values.old.items }
    {
        let place = moved.field as usize;
        if place >= values.len() {
            return found;
        }
        let old = values[place] as i128;
        let mut best = found;
        for number in 0..2 * FARTHEST {
            let step = if number < FARTHEST {
                number as i128
            } else {
                FARTHEST as i128 - number as i128
            };
            best = self.better(values, moved, old + step, best);
        }
        best
    }

    // The best change of a field for a literal that is broken.
    fn best_of_field(
        &self,
        literal: &Lit<Compare>,
        values: &mut Vec<LabelInt>,
        field: u32,
        found: Change,
    ) -> Change
        ensures { length values.new.items ≡ length values.old.items }
    {
        let place = field as usize;
        if place >= values.len() {
            return found;
        }
        let (left, right) = (&literal.atom.left, &literal.atom.right);
        if !has_field(left, field) && !has_field(right, field) {
            return found;
        }
        let slope = coefficient(left, field).saturating_sub(coefficient(right, field));
        let Some(gap) = left.eval(values).checked_sub(right.eval(values)) else {
            return found;
        };
        let moved = self.moved(values, field);
        if slope == 0 {
            return self.best_within(values, moved, found);
        }
        let next = (values[place] as i128).saturating_add(step_for(missing(literal, gap), slope));
        let one = self.better(values, moved, next, found);
        let two = self.better(values, moved, next.saturating_add(1), one);
        self.better(values, moved, next.saturating_sub(1), two)
    }

    // Mends the literal by the best change of one of its fields.
    fn mend_one(&self, literal: &Lit<Compare>, values: &mut Vec<LabelInt>)
        ensures { length values.new.items ≡ length values.old.items }
    {
        let mut best = Change {
            place: values.len(),
            value: 0,
            broken: usize::MAX,
        };
        for field in 0..8 {
            best = self.best_of_field(literal, values, field, best);
        }
        if best.place < values.len() {
            values[best.place] = best.value;
        }
    }
}

// The first broken literal behind a place, or before it.
fn first_broken<'l>(
    literals: &'l [Lit<Compare>],
    values: &[LabelInt],
    from: usize,
) -> Option<&'l Lit<Compare>> {
    for (i, literal) in literals.iter().enumerate() {
        if i >= from && literal.atom.holds(values) != literal.sign {
            return Some(literal);
        }
    }
    for literal in literals {
        if literal.atom.holds(values) != literal.sign {
            return Some(literal);
        }
    }
    None
}

/// Values of the eight fields at which the literals hold, if some are found from those nearby on.
pub(crate) fn mend(
    alloc: Global,
    literals: &[Lit<Compare>],
    near: [LabelInt; 8],
) -> Result<Option<Vec<LabelInt>>, Memory>
    ensures { IfOk result (λ found. IfSome found (λ values. (length values.items ≡ 8) × HoldsAll (plain_literals literals.now) values.items)) }
{
    let mut values = Vec::from_slice(alloc, &near)?;
    let fields = fields_of_each(alloc, literals)?;
    let given = Given {
        literals,
        fields: &fields,
    };
    let mut from = 0;
    for _ in 0..TURNS {
        if all_hold(literals, &values) {
            return Ok(Some(values));
        }
        if let Some(literal) = first_broken(literals, &values, from) {
            given.mend_one(literal, &mut values);
        }
        from = from.saturating_add(3);
        if from >= literals.len() {
            from = 0;
        }
    }
    Ok(None)
}
