//! Names of states, and their numbers in the order in which they are met.

ghost use Rattle.std.specs.Prelude.{◌≡◌, ◌≤◌, [], ◌∷◌, length, map, get_or, IfOk, OnOk, MatchOption};
ghost use Rattle.sttr_theory.specs.Lists.{IsAt};
ghost use Rattle.sttr_theory.specs.Triples.{asked_by, asked};
ghost use Rattle.sttr_run.specs.Plain.{plain_triple};
ghost use Rattle.sttr_preimage.specs.Names.{plain_name, names_in, side_names, tidy, IsNumber, Numbers};

use crate::sets::ascending;
use fast_fault::Memory;
use indexmap::IndexSet;
use std::alloc::Global;
use sttr_run::{Head, Triple};

/// What a state of a lookahead accepts: what a state of the first's does, or of the second's, or the trees for which a state
/// of the first has an output that all of some states of the second's accept, which are in ascending order.
#[derive(PartialEq, Eq, Hash, Drop)]
pub enum Name {
    First(u64),
    Second(u64),
    Middle(u64, Vec<u64>),
}

/// The first's lookahead, or the second's.
#[derive(Clone, Copy, Debug, PartialEq, Eq)]
pub enum Side {
    First,
    Second,
}

impl Side {
    /// The name of a state of this side.
    fn name(self, state: u64) -> Name
        ensures { side_names self (state ∷ []) ≡ plain_name result ∷ [] }
    {
        match self {
            Side::First => Name::First(state),
            Side::Second => Name::Second(state),
        }
    }
}

/// The number of the name.
pub fn number(names: &mut IndexSet<Name>, name: Name) -> Result<u64, Memory>
    ensures { IfOk result (IsNumber (names_in names.old.keys) (names_in names.new.keys) (plain_name name)) }
{
    let (number, _) = names.insert_full(name)?;
    Ok(number as u64)
}

/// Adds the numbers of states of this side.
pub fn number_states(
    side: Side,
    states: &[u64],
    names: &mut IndexSet<Name>,
    numbers: &mut Vec<u64>,
) -> Result<(), Memory>
    ensures { OnOk result (Numbers (names_in names.old.keys) (names_in names.new.keys) numbers.old.items numbers.new.items (side_names side states.now)) }
{
    'states: for state in states {
        numbers.push(number(names, side.name(*state))?)?;
    }
    Ok(())
}

/// Adds the numbers of what the triple asks: of a child that is given as it is, the states themselves.
fn number_triple(
    alloc: Global,
    triple: &Triple,
    names: &mut IndexSet<Name>,
    numbers: &mut Vec<u64>,
) -> Result<(), Memory>
    ensures { OnOk result (Numbers (names_in names.old.keys) (names_in names.new.keys) numbers.old.items numbers.new.items (asked_by (tidy (plain_triple triple.now)).first (tidy (plain_triple triple.now)).all)) }
{
    match triple.first {
        Head::Same => number_states(Side::Second, &triple.all, names, numbers)?,
        Head::Run(state) => {
            let all = ascending(alloc, &triple.all)?;
            numbers.push(number(names, Name::Middle(state, all))?)?;
        }
    }
    Ok(())
}

/// Adds the numbers of what the triples ask.
pub fn number_asked(
    alloc: Global,
    triples: &[Triple],
    names: &mut IndexSet<Name>,
    numbers: &mut Vec<u64>,
) -> Result<(), Memory>
    ensures { OnOk result (Numbers (names_in names.old.keys) (names_in names.new.keys) numbers.old.items numbers.new.items (asked (map tidy (map plain_triple triples.now)))) }
{
    'triples: for triple in triples {
        number_triple(alloc, triple, names, numbers)?;
    }
    Ok(())
}

/// A copy of the name.
fn copy_name(alloc: Global, name: &Name) -> Result<Name, Memory>
    ensures { IfOk result (λ copy. plain_name copy ≡ plain_name name.now) }
{
    match name {
        Name::First(state) => Ok(Name::First(*state)),
        Name::Second(state) => Ok(Name::Second(*state)),
        Name::Middle(state, all) => Ok(Name::Middle(*state, Vec::from_slice(alloc, all)?)),
    }
}

/// The name that was met after so many others, if there is one.
pub fn name_at(alloc: Global, names: &IndexSet<Name>, place: usize) -> Result<Option<Name>, Memory>
    ensures { IfOk result (λ found. MatchOption found (length names.now.keys ≤ place) (λ name. IsAt (names_in names.now.keys) place (plain_name name))) }
{
    let known = names.as_slice();
    if place >= known.len() {
        return Ok(None);
    }
    Ok(Some(copy_name(alloc, &known[place])?))
}
