//! Literals of which none is given twice.

ghost use Rattle.std.specs.Prelude.{◌≡◌, ◌↔◌, IfOk, OnOk, IsTrue};
ghost use Rattle.std.specs.List.{list_any};
ghost use Rattle.lin_solve.specs.Kept.{is_same, AreDifferent, AreKept, Keeps, stand_last};

use crate::compare::Compare;
use crate::system::needs_side;
use fast_fault::Memory;
use label_core::{Duplicate, Lit};
use std::alloc::Global;

/// An equal literal.
pub(crate) fn copy_literal(alloc: Global, literal: &Lit<Compare>) -> Result<Lit<Compare>, Memory>
    ensures { IfOk result (λ copy. copy ≡ literal.now) }
{
    Ok(Lit {
        atom: literal.atom.duplicate(alloc)?,
        sign: literal.sign,
    })
}

/// Whether they say the same of equal comparisons.
pub(crate) fn is_same(literal: &Lit<Compare>, other: &Lit<Compare>) -> bool
    ensures { result ≡ is_same ⟦<Compare as PartialEq>⟧.eq literal.now other.now }
{
    literal.sign == other.sign && literal.atom == other.atom
}

// Whether the literal is the same as one of these.
fn has(literals: &[Lit<Compare>], literal: &Lit<Compare>) -> bool
    ensures { result ≡ list_any (is_same ⟦<Compare as PartialEq>⟧.eq literal.now) literals.now }
{
    for other in literals {
        if is_same(literal, other) {
            return true;
        }
    }
    false
}

/// Whether no two of them are the same.
pub(crate) fn are_different(literals: &[Lit<Compare>]) -> bool
    ensures { IsTrue result ↔ AreDifferent ⟦<Compare as PartialEq>⟧.eq literals.now }
{
    for i in 0..literals.len() {
        if has(&literals[i + 1..], &literals[i]) {
            return false;
        }
    }
    true
}

/// Whether those that are negated equalities stand behind all others.
pub(crate) fn sided_stand_last(literals: &[Lit<Compare>]) -> bool
    ensures { result ≡ stand_last literals.now }
{
    let mut sided = false;
    for literal in literals {
        if needs_side(literal) {
            sided = true;
        } else if sided {
            return false;
        }
    }
    true
}

// Those that are negated equalities, or those that are none, each of them once, at the end.
fn keep(
    alloc: Global,
    literals: &[Lit<Compare>],
    sided: bool,
    kept: &mut Vec<Lit<Compare>>,
) -> Result<(), Memory>
    ensures { OnOk result (Keeps ⟦<Compare as PartialEq>⟧.eq literals.now sided kept.old.items kept.new.items) }
{
    for literal in literals {
        if needs_side(literal) == sided && !has(kept, literal) {
            kept.push(copy_literal(alloc, literal)?)?;
        }
    }
    Ok(())
}

/// Each of them once, negated equalities last.
pub(crate) fn once(alloc: Global, literals: &[Lit<Compare>]) -> Result<Vec<Lit<Compare>>, Memory>
    ensures { IfOk result (λ kept. AreKept ⟦<Compare as PartialEq>⟧.eq literals.now kept.items) }
{
    let mut kept = Vec::new(alloc);
    keep(alloc, literals, false, &mut kept)?;
    keep(alloc, literals, true, &mut kept)?;
    Ok(kept)
}
