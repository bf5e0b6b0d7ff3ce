//! Formulas with a map's entries put for the fields.

ghost use Rattle.std.specs.Prelude.{IfOk, All};
ghost use Rattle.model_tree.specs.Formula.{formula_holds};
ghost use Rattle.label_core.specs.Formula.{plain_formula, joined};
ghost use Rattle.label_core.specs.Maps.{IsPut};
ghost use Rattle.label_core.specs.Puts.{IsOverMade, OfSome, IsPutFor, IsDenied};

use crate::formula::{DEEPEST, Formula, joined, negation};
use crate::labels::{Labels, Put};
use fast_fault::Memory;
use std::alloc::Global;

/// What a formula over the labels that the map makes says of the labels that it makes them of. One that nests deeper than
/// [`DEEPEST`] is told as want of memory.
pub fn put_formula<L: Labels>(
    labels: &L,
    alloc: Global,
    map: &L::Map,
    formula: &Formula<L::Atom>,
) -> Result<Put<L::Atom>, Memory>
    requires map_fits { L.map_fits labels.now map.now }
    requires formula_fits { IsOverMade (λ made. L.map_makes made map.now) L.atom_fits (plain_formula formula.now) }
    ensures { IfOk result (IsPut (L.meaning labels.now) (L.atom_fits labels.now) (OfSome (L.is_put map.now) (plain_formula formula.now)) (OfSome (L.put_outside map.now) (plain_formula formula.now)) (λ l. formula_holds (λ a. L.atom_holds a (L.make map.now l)) (plain_formula formula.now))) }
{
    put_within(labels, alloc, map, formula, DEEPEST)
}

/// The same, if the formula nests no deeper.
#[cycle(puts)]
fn put_within<L: Labels>(
    labels: &L,
    alloc: Global,
    map: &L::Map,
    formula: &Formula<L::Atom>,
    most: usize,
) -> Result<Put<L::Atom>, Memory>
    requires map_fits { L.map_fits labels.now map.now }
    requires formula_fits { IsOverMade (λ made. L.map_makes made map.now) L.atom_fits (plain_formula formula.now) }
    ensures { IfOk result (IsPutFor (L.meaning labels.now) (L.atom_fits labels.now) (L.is_put map.now) (L.put_outside map.now) (λ a l. L.atom_holds a (L.make map.now l)) (plain_formula formula.now)) }
{
    if most == 0 {
        return Err(Memory);
    }
    match formula {
        Formula::Yes => Ok(Put::Formula(Formula::Yes)),
        Formula::No => Ok(Put::Formula(Formula::No)),
        Formula::Atom(atom) => labels.subst(alloc, map, atom),
        Formula::Not(inner) => denied(alloc, put_within(labels, alloc, map, inner, most - 1)?),
        Formula::And(parts) => put_each(labels, alloc, map, parts, true, most - 1),
        Formula::Or(parts) => put_each(labels, alloc, map, parts, false, most - 1),
    }
}

/// The same for formulas, joined as `joined` does, if they nest no deeper.
#[cycle(puts)]
fn put_each<L: Labels>(
    labels: &L,
    alloc: Global,
    map: &L::Map,
    parts: &[Formula<L::Atom>],
    every: bool,
    most: usize,
) -> Result<Put<L::Atom>, Memory>
    requires map_fits { L.map_fits labels.now map.now }
    requires parts_fit { All (λ f. IsOverMade (λ made. L.map_makes made map.now) L.atom_fits (plain_formula f)) parts.now }
    ensures { IfOk result (IsPutFor (L.meaning labels.now) (L.atom_fits labels.now) (L.is_put map.now) (L.put_outside map.now) (λ a l. L.atom_holds a (L.make map.now l)) (joined every parts.now)) }
{
    let mut made = Vec::new(alloc);
    for part in parts {
        match put_within(labels, alloc, map, part, most)? {
            Put::Formula(formula) => made.push(formula)?,
            Put::Range(number) => return Ok(Put::Range(number)),
        }
    }
    Ok(Put::Formula(joined(every, made)))
}

/// The denial of the formula; or the number that is outside its range.
fn denied<A: Drop>(alloc: Global, put: Put<A>) -> Result<Put<A>, Memory>
    ensures { IfOk result (IsDenied put) }
{
    match put {
        Put::Formula(formula) => Ok(Put::Formula(negation(alloc, formula)?)),
        Put::Range(number) => Ok(Put::Range(number)),
    }
}
