//! What fields stand for by the equalities among literals.

ghost use Rattle.std.specs.Prelude.{◌≡◌, ◌<◌, ℕ, IfOk, All, List, [], length, option_map, slice_index_or};
ghost use Rattle.std.specs.List.{list_any};
ghost use Rattle.label_core.specs.Lit.{LitsFit};
ghost use Rattle.flat_label.specs.Texts.{SideFits, SidesFit, same_side};
ghost use Rattle.flat_label.specs.Sides.{SidesOf, JoinOf, StandsForItself, AreValues, stands_for, replaced, is_refused};

use crate::fresh::fresh_texts;
use crate::texts::{TextAtom, TextSide};
use fast_fault::{Memory, Text};
use indexmap::IndexSet;
use label_core::Lit;
use std::alloc::Global;

/// Each field as itself.
fn own_sides(alloc: Global, fields: u32) -> Result<Vec<TextSide>, Memory>
    ensures many { IfOk result (λ sides. length sides.items ≡ fields) }
    ensures own { IfOk result (λ sides. (k : ℕ) (d : TextSide) → k < fields → slice_index_or sides.items k d ≡ TextSide.Field k) }
{
    let mut sides = Vec::new(alloc);
    for field in 0..fields {
        sides.push(TextSide::Field(field))?;
    }
    Ok(sides)
}

/// What the side stands for.
fn stand<'s>(sides: &'s [TextSide], side: &'s TextSide) -> &'s TextSide
    requires { SideFits (length sides.now) side.now }
    ensures { result.now ≡ stands_for sides.now side.now }
{
    match side {
        TextSide::Field(field) => &sides[*field as usize],
        TextSide::Constant(_) => side,
    }
}

/// The sides, with another one in place of a side.
fn with_replaced(
    alloc: Global,
    sides: &[TextSide],
    from: &TextSide,
    to: &TextSide,
) -> Result<Vec<TextSide>, Memory>
    ensures { IfOk result (λ new. new.items ≡ replaced from.now to.now sides.now) }
{
    let mut new = Vec::new(alloc);
    for side in sides {
        let next = if side.is(from) { to } else { side };
        new.push(next.copy(alloc)?)?;
    }
    Ok(new)
}

/// The sides that say besides that two sides are one text, if they may be.
fn joined(
    alloc: Global,
    sides: &[TextSide],
    atom: &TextAtom,
) -> Result<Option<Vec<TextSide>>, Memory>
    requires fit { SidesFit (length sides.now) atom.now }
    requires rooted { All (StandsForItself sides.now) sides.now }
    ensures { IfOk result (λ found. JoinOf atom.now.left atom.now.right sides.now (option_map (λ new. new.items) found)) }
{
    let left = stand(sides, &atom.left);
    let right = stand(sides, &atom.right);
    match (left, right) {
        (TextSide::Field(_), _) => Ok(Some(with_replaced(alloc, sides, left, right)?)),
        (_, TextSide::Field(_)) => Ok(Some(with_replaced(alloc, sides, right, left)?)),
        (TextSide::Constant(one), TextSide::Constant(other)) => {
            if one != other {
                return Ok(None);
            }
            Ok(Some(with_replaced(alloc, sides, left, right)?))
        }
    }
}

/// What fields stand for by the equalities, if some label has them all.
pub fn sides_of(
    alloc: Global,
    fields: u32,
    literals: &[Lit<TextAtom>],
) -> Result<Option<Vec<TextSide>>, Memory>
    requires { LitsFit (SidesFit fields) literals.now }
    ensures { IfOk result (λ found. SidesOf fields literals.now (option_map (λ sides. sides.items) found)) }
{
    let mut sides = own_sides(alloc, fields)?;
    for literal in literals {
        if literal.sign {
            match joined(alloc, &sides, &literal.atom)? {
                None => return Ok(None),
                Some(new) => sides = new,
            }
        }
    }
    Ok(Some(sides))
}

/// Whether the literal denies that two sides are one text which stand for one side.
fn refuses(sides: &[TextSide], literal: &Lit<TextAtom>) -> bool
    requires { SidesFit (length sides.now) literal.now.atom }
    ensures { result ≡ is_refused sides.now literal.now }
{
    !literal.sign && stand(sides, &literal.atom.left).is(stand(sides, &literal.atom.right))
}

/// Whether some literal does.
pub fn some_refuses(sides: &[TextSide], literals: &[Lit<TextAtom>]) -> bool
    requires { LitsFit (SidesFit (length sides.now)) literals.now }
    ensures { result ≡ list_any (is_refused sides.now) literals.now }
{
    for literal in literals {
        if refuses(sides, literal) {
            return true;
        }
    }
    false
}

/// Texts that follow the sides, and differ wherever the sides leave it open.
pub fn values_of(
    alloc: Global,
    sides: &[TextSide],
    constants: &IndexSet<Text>,
) -> Result<Vec<Text>, Memory>
    requires { All (StandsForItself sides.now) sides.now }
    ensures { IfOk result (λ values. AreValues sides.now constants.now.keys values.items) }
{
    let fresh = fresh_texts(alloc, sides.len(), constants)?;
    let mut values = Vec::new(alloc);
    for side in sides {
        values.push(side.text(&fresh).copy(alloc)?)?;
    }
    Ok(values)
}
