//! Bounds of fields that follow from all literals together: where nothing is found outside of a bound, it is a literal more.
//! So a field is split by its values also where no single literal bounds it.

ghost use Rattle.std.specs.Prelude.{◌≡◌, ◌<◌, IfOk, OnOk};
ghost use Rattle.lin_solve.specs.Equations.{HoldAlso};

use crate::branches::{beside, explore_loosely, with_literal};
use crate::compare::{Compare, Relation};
use crate::near::moved_fields;
use fast_fault::LabelInt;
use label_core::Lit;
use lin_form::FormStop;
use lin_reduce::Explored;
use std::alloc::Global;

// How many bounds are tried each way, each about twice as far as the one before.
const TRIES: usize = 8;

// A field, and a value of it near which bounds are sought.
#[derive(Clone, Copy)]
struct Near {
    field: u32,
    value: LabelInt,
}

// Where nothing is found if the field stands so to the number, that it doesn't is a literal more.
fn keep_apart(
    alloc: Global,
    near: Near,
    relation: Relation,
    sign: bool,
    literals: &mut Vec<Lit<Compare>>,
) -> Result<bool, FormStop>
    requires { near.field < 8 }
    ensures { OnOk result (HoldAlso literals.old.items literals.new.items) }
{
    let outside = beside(alloc, near.field, relation, near.value, sign)?;
    let own = with_literal(alloc, literals, outside)?;
    if let Explored::Never = explore_loosely(alloc, &own)? {
        let kept = beside(alloc, near.field, relation, near.value, !sign)?;
        literals.push(kept)?;
        return Ok(true);
    }
    Ok(false)
}

// The field is at most so far above its value, or below.
fn bound(
    alloc: Global,
    near: Near,
    step: LabelInt,
    upwards: bool,
    literals: &mut Vec<Lit<Compare>>,
) -> Result<bool, FormStop>
    requires { near.field < 8 }
    ensures { OnOk result (HoldAlso literals.old.items literals.new.items) }
{
    let field = near.field;
    if upwards {
        let value = near.value.saturating_add(step);
        return keep_apart(
            alloc,
            Near { field, value },
            Relation::AtMost,
            false,
            literals,
        );
    }
    let value = near.value.saturating_sub(step);
    keep_apart(alloc, Near { field, value }, Relation::Less, true, literals)
}

// A bound of the field above or below the value, if one is found.
fn bound_one_way(
    alloc: Global,
    near: Near,
    upwards: bool,
    literals: &mut Vec<Lit<Compare>>,
) -> Result<(), FormStop>
    requires { near.field < 8 }
    ensures { OnOk result (HoldAlso literals.old.items literals.new.items) }
{
    let mut step: LabelInt = 0;
    for _ in 0..TRIES {
        if bound(alloc, near, step, upwards, literals)? {
            return Ok(());
        }
        step = step.saturating_mul(2).saturating_add(1);
    }
    Ok(())
}

// Bounds of the field above and below the value, where some are found.
fn bound_field(alloc: Global, near: Near, literals: &mut Vec<Lit<Compare>>) -> Result<(), FormStop>
    requires { near.field < 8 }
    ensures { OnOk result (HoldAlso literals.old.items literals.new.items) }
{
    bound_one_way(alloc, near, true, literals)?;
    bound_one_way(alloc, near, false, literals)?;
    Ok(())
}

// The value of the field, if it is one of these.
fn value_in(fields: u32, field: u32, values: &[LabelInt]) -> Option<LabelInt> {
    if fields & 1u32.wrapping_shl(field) == 0 {
        return None;
    }
    values.get(field as usize).copied()
}

// Bounds of the fields in the literals, near these values.
fn bound_each(
    alloc: Global,
    values: &[LabelInt],
    literals: &mut Vec<Lit<Compare>>,
) -> Result<(), FormStop>
    ensures { OnOk result (HoldAlso literals.old.items literals.new.items) }
{
    let fields = moved_fields(literals, None);
    for field in 0..8u32 {
        if let Some(value) = value_in(fields, field, values) {
            bound_field(alloc, Near { field, value }, literals)?;
        }
    }
    Ok(())
}

/// The literals, and bounds of fields that follow from all of them. Up to 16 bounds of each field are tried.
pub(crate) fn bounded(
    alloc: Global,
    literals: Vec<Lit<Compare>>,
) -> Result<Vec<Lit<Compare>>, FormStop>
    ensures { IfOk result (λ r. HoldAlso literals.items r.items) }
{
    let mut own = literals;
    if let Explored::Maybe(values) = explore_loosely(alloc, &own)? {
        bound_each(alloc, &values, &mut own)?;
    }
    Ok(own)
}
