//! Literals that hold nowhere, of more that do: kept in their place, they refute all conjunctions that have them.
//!
//! Those are chosen of which, at each list of values that was found before, one doesn't hold. Where values are found at
//! which these hold, a literal that doesn't is taken too.

ghost use Rattle.std.specs.Prelude.{◌≡◌, IfOk, IfSome, length};
ghost use Rattle.lin_solve.specs.Plain.{plain_literals};
ghost use Rattle.lin_solve.specs.Sought.{NeverHoldAll, TellsSought};

use crate::branches::{FEW_BRANCHES, seek_branches};
use crate::compare::Compare;
use crate::found::Sought;
use crate::gaps::is_clear_clash;
use crate::memo::{Memo, copies};
use crate::repeats::copy_literal;
use fast_fault::{LabelInt, Memory};
use label_core::Lit;
use std::alloc::Global;

// How often values are sought.
const TURNS: usize = 4;

// The literals at these places.
fn those_at(
    alloc: Global,
    literals: &[Lit<Compare>],
    places: &[usize],
) -> Result<Vec<Lit<Compare>>, Memory> {
    let mut own = Vec::new(alloc);
    for place in places {
        if let Some(literal) = literals.get(*place) {
            own.push(copy_literal(alloc, literal)?)?;
        }
    }
    Ok(own)
}

// Seeks values at which they hold, but not long.
fn seek_shortly(alloc: Global, literals: &[Lit<Compare>]) -> Result<Sought, Memory>
    ensures { IfOk result (TellsSought (plain_literals literals.now)) }
{
    if is_clear_clash(alloc, literals)? {
        return Ok(Sought::Never);
    }
    seek_branches(alloc, literals, FEW_BRANCHES)
}

// The place of a literal that doesn't hold at these values.
fn broken_at(literals: &[Lit<Compare>], values: &[LabelInt]) -> Option<usize> {
    for (place, literal) in literals.iter().enumerate() {
        if literal.atom.holds(values) != literal.sign {
            return Some(place);
        }
    }
    None
}

// The literals at these places, if they are seen to hold nowhere. Where values are found at which they do, there is a place
// more.
fn core_at(
    alloc: Global,
    literals: &[Lit<Compare>],
    places: &mut Vec<usize>,
) -> Result<Option<Vec<Lit<Compare>>>, Memory>
    ensures { IfOk result (λ found. IfSome found (λ own. NeverHoldAll (plain_literals own.items))) }
{
    if places.is_empty() {
        return Ok(None);
    }
    let own = those_at(alloc, literals, places)?;
    match seek_shortly(alloc, &own)? {
        Sought::Never => return Ok(Some(own)),
        Sought::Values(values) => {
            if let Some(place) = broken_at(literals, &values) {
                places.push(place)?;
            }
        }
        Sought::Open => {}
    }
    Ok(None)
}

/// Literals that hold nowhere, where these do: fewer of them, if some are seen to.
pub(crate) fn core_of(
    alloc: Global,
    memo: &Memo,
    literals: &[Lit<Compare>],
) -> Result<Vec<Lit<Compare>>, Memory>
    requires { NeverHoldAll (plain_literals literals.now) }
    ensures { IfOk result (λ own. NeverHoldAll (plain_literals own.items)) }
{
    let mut places = memo.breaking(alloc, literals)?;
    for _ in 0..TURNS {
        let count = places.len();
        if let Some(own) = core_at(alloc, literals, &mut places)? {
            return Ok(own);
        }
        if places.len() == count {
            return copies(alloc, literals);
        }
    }
    copies(alloc, literals)
}
