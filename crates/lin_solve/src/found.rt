//! Values that are sought where remainders are looked at one by one, and negated equalities are given a side only if values
//! that are found break one.
//!
//! Values at which all hold are an answer, whatever found them; that there are none is known where no sides are left.

ghost use Rattle.std.specs.Prelude.{◌≡◌, ◌<◌, ℤ, List, IfOk, IfSome, OnOk, IsTrue, length, slice_index_or, true};
ghost use Rattle.label_core.specs.declared.theory.Lit.{Lit as OneLit};
ghost use Rattle.model_chain.specs.Literals.{HoldsAll, count_sides, needs_side as needs};
ghost use Rattle.lin_solve.specs.declared.compare.Compare.{Compare as OneCompare};
ghost use Rattle.lin_solve.specs.Plain.{plain_literal, plain_literals};
ghost use Rattle.lin_solve.specs.Sought.{IsSidedAt, SomeHold, TellsExplored, TellsSought, less_of};

use crate::compare::{Compare, Relation};
use crate::guess::all_hold;
use crate::numbering::remainders_of;
use crate::over::are_over;
use crate::repeats::copy_literal;
use crate::system::{first_system, needs_side};
use fast_fault::{LabelInt, Memory};
use label_core::{Duplicate, Lit};
use lin_reduce::{Explored, explore};
use std::alloc::Global;

// How often sides are given in all.
const MOST: usize = 200;

/// What is found: values of the eight fields at which the literals hold, that there are none, or neither.
#[derive(Drop)]
pub(crate) enum Sought {
    Values(Vec<LabelInt>),
    Never,
    Open,
}

/// Those that are no negated equalities.
pub(crate) fn sideless(
    alloc: Global,
    literals: &[Lit<Compare>],
) -> Result<Vec<Lit<Compare>>, Memory>
    ensures none { IfOk result (λ r. count_sides (plain_literals r.items) ≡ 0) }
    ensures hold { IfOk result (λ r. (us : List ℤ) → HoldsAll (plain_literals literals.now) us → HoldsAll (plain_literals r.items) us) }
{
    let mut out = Vec::new(alloc);
    for literal in literals {
        if !needs_side(literal) {
            out.push(copy_literal(alloc, literal)?)?;
        }
    }
    Ok(out)
}

// What is found of literals where negated equalities are left out.
fn explore_sideless(alloc: Global, literals: &[Lit<Compare>]) -> Result<Explored, Memory>
    ensures { IfOk result (TellsExplored (plain_literals literals.now)) }
{
    let own = sideless(alloc, literals)?;
    are_over(&own);
    let known = remainders_of(alloc, &own)?;
    let system = first_system(alloc, &own, &known, false, &[])?;
    explore(alloc, &system.conditions, system.count)
}

// That one side is less than the other.
fn less(alloc: Global, atom: &Compare, turned: bool) -> Result<Lit<Compare>, Memory>
    ensures { IfOk result (λ l. plain_literal l ≡ record { compare = less_of atom.now turned; positive = true }) }
{
    let copy = atom.duplicate(alloc)?;
    let (left, right) = if turned {
        (copy.right, copy.left)
    } else {
        (copy.left, copy.right)
    };
    Ok(Lit {
        atom: Compare {
            left,
            relation: Relation::Less,
            right,
        },
        sign: true,
    })
}

/// The literals, where at a place one side is the lesser.
pub(crate) fn sided(
    alloc: Global,
    literals: &[Lit<Compare>],
    place: usize,
    turned: bool,
) -> Result<Vec<Lit<Compare>>, Memory>
    ensures { IfOk result (λ r. (us : List ℤ) → HoldsAll (plain_literals literals.now) us → IsSidedAt literals.now place turned us → HoldsAll (plain_literals r.items) us) }
{
    let mut out = Vec::new(alloc);
    for i in 0..literals.len() {
        if i == place {
            out.push(less(alloc, &literals[i].atom, turned)?)?;
        } else {
            out.push(copy_literal(alloc, &literals[i])?)?;
        }
    }
    Ok(out)
}

// The first negated equality that these values break.
fn first_broken(literals: &[Lit<Compare>], values: &[LabelInt]) -> Option<usize>
    ensures { IfSome result (λ i. (i < length literals.now) × ((d : OneLit OneCompare) → needs (plain_literal (slice_index_or literals.now i d)) ≡ true)) }
{
    for i in 0..literals.len() {
        if needs_side(&literals[i]) && literals[i].atom.holds(values) {
            return Some(i);
        }
    }
    None
}

// The literals where at a place one side is the lesser, at the end.
fn push_side(
    alloc: Global,
    literals: &[Lit<Compare>],
    place: usize,
    turned: bool,
    pending: &mut Vec<Vec<Lit<Compare>>>,
) -> Result<(), Memory>
    ensures side { OnOk result ((us : List ℤ) → HoldsAll (plain_literals literals.now) us → IsSidedAt literals.now place turned us → SomeHold us pending.new.items) }
    ensures kept { OnOk result ((us : List ℤ) → SomeHold us pending.old.items → SomeHold us pending.new.items) }
{
    pending.push(sided(alloc, literals, place, turned)?)?;
    Ok(())
}

// The literals with each side of the first negated equality that the values break, if there is one.
fn push_sides(
    alloc: Global,
    literals: &[Lit<Compare>],
    values: &[LabelInt],
    pending: &mut Vec<Vec<Lit<Compare>>>,
) -> Result<bool, Memory>
    ensures sides { IfOk result (λ pushed. IsTrue pushed → (us : List ℤ) → HoldsAll (plain_literals literals.now) us → SomeHold us pending.new.items) }
    ensures kept { OnOk result ((us : List ℤ) → SomeHold us pending.old.items → SomeHold us pending.new.items) }
{
    let Some(place) = first_broken(literals, values) else {
        return Ok(false);
    };
    push_side(alloc, literals, place, false, pending)?;
    push_side(alloc, literals, place, true, pending)?;
    Ok(true)
}

/// Seeks values of the eight fields at which the literals hold.
pub(crate) fn seek(alloc: Global, literals: &[Lit<Compare>]) -> Result<Sought, Memory>
    ensures { IfOk result (TellsSought (plain_literals literals.now)) }
{
    let mut pending = Vec::new(alloc);
    pending.push(sided(alloc, literals, literals.len(), false)?)?;
    for _ in 0..MOST {
        let Some(own) = pending.pop() else {
            return Ok(Sought::Never);
        };
        match explore_sideless(alloc, &own)? {
            Explored::Never => {}
            Explored::Open => return Ok(Sought::Open),
            Explored::Maybe(values) => {
                if values.len() == 8 && all_hold(literals, &values) {
                    return Ok(Sought::Values(values));
                }
                if !push_sides(alloc, &own, &values, &mut pending)? {
                    return Ok(Sought::Open);
                }
            }
        }
    }
    Ok(Sought::Open)
}
