//! States that run a second transducer over outputs of a first one, and their numbers in the order in which they are met.

ghost use Rattle.std.specs.Prelude.{◌≡◌, ◌≤◌, length, IfOk, MatchOption};
ghost use Rattle.sttr_theory.specs.Lists.{IsAt};
ghost use Rattle.sttr_run.specs.Plain.{plain_triple};
ghost use Rattle.sttr_preimage.specs.Called.{plain_called, called_in, unchanged, IsCall};
ghost use Rattle.sttr_preimage.specs.Names.{tidy, IsNumber};

use crate::sets::ascending;
use fast_fault::Memory;
use indexmap::IndexSet;
use std::alloc::Global;
use sttr_run::{Head, Triple};

/// What a state of a result gives: what the second's head gives on an output of a state of the first that is in all of some
/// states, which are in ascending order; or what a state of the second gives on the tree itself.
#[derive(PartialEq, Eq, Hash, Drop)]
pub enum Called {
    Through(u64, Vec<u64>, Head),
    Own(u64),
}

/// The state that gives what the triple does; none, where that is a child as it is. Without a second part an output is given
/// as it is.
pub fn called_by(alloc: Global, triple: &Triple) -> Result<Option<Called>, Memory>
    ensures { IfOk result (λ found. IsCall (plain_triple triple.now) → MatchOption found (unchanged ≡ tidy (plain_triple triple.now)) (λ one. plain_called one ≡ tidy (plain_triple triple.now))) }
{
    match (triple.first, triple.second) {
        (Head::Same, Some(Head::Run(state))) => Ok(Some(Called::Own(state))),
        (Head::Same, _) => Ok(None),
        (Head::Run(state), second) => {
            let all = ascending(alloc, &triple.all)?;
            let head = second.unwrap_or(Head::Same);
            Ok(Some(Called::Through(state, all, head)))
        }
    }
}

/// The number of the state.
pub fn number_called(called: &mut IndexSet<Called>, one: Called) -> Result<u64, Memory>
    ensures { IfOk result (IsNumber (called_in called.old.keys) (called_in called.new.keys) (plain_called one)) }
{
    let (number, _) = called.insert_full(one)?;
    Ok(number as u64)
}

/// A copy of it.
fn copy_called(alloc: Global, one: &Called) -> Result<Called, Memory>
    ensures { IfOk result (λ copy. plain_called copy ≡ plain_called one.now) }
{
    match one {
        Called::Through(state, all, head) => {
            let all = Vec::from_slice(alloc, all)?;
            Ok(Called::Through(*state, all, *head))
        }
        Called::Own(state) => Ok(Called::Own(*state)),
    }
}

/// The state that was met after so many others, if there is one.
pub fn called_at(
    alloc: Global,
    called: &IndexSet<Called>,
    place: usize,
) -> Result<Option<Called>, Memory>
    ensures { IfOk result (λ found. MatchOption found (length called.now.keys ≤ place) (λ one. IsAt (called_in called.now.keys) place (plain_called one))) }
{
    let known = called.as_slice();
    if place >= known.len() {
        return Ok(None);
    }
    Ok(Some(copy_called(alloc, &known[place])?))
}
