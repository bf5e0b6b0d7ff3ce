//! Ways over what stands at a child.

ghost use Rattle.std.specs.Prelude.{◌≡◌, ◌∷◌, [], IfOk, Some};
ghost use Rattle.std.specs.Prelude.{ℕ, Contains, ◌↔◌};
ghost use Rattle.model_sttr.specs.Terms.{on};
ghost use Rattle.model_sttr.specs.Transducer.{identity, run};
ghost use Rattle.sttr_theory.specs.Triples.{LookName, asked_by};
ghost use Rattle.sttr_run.specs.Drafts.{IsAskedIn, guards_of, terms_of};
ghost use Rattle.sttr_run.specs.Leaves.{IsLeaf};
ghost use Rattle.sttr_run.specs.Plain.{plain_head};

use crate::drafts::{Ask, Demand, Draft};
use crate::states::StateSet;
use crate::triples::{Head, Triple, WayTerm};
use fast_fault::Memory;
use std::alloc::Global;

/// The way alone.
fn alone<A: Drop, M: Drop>(alloc: Global, draft: Draft<A, M>) -> Result<Vec<Draft<A, M>>, Memory>
    ensures { IfOk result (λ drafts. drafts.items ≡ draft ∷ []) }
{
    let mut drafts = Vec::new(alloc);
    drafts.push(draft)?;
    Ok(drafts)
}

/// The way that asks nothing and gives nothing.
pub fn plain<A: Drop, M: Drop>(alloc: Global) -> Result<Vec<Draft<A, M>>, Memory>
    ensures { IfOk result (λ drafts. IsLeaf 0 [] [] drafts.items) }
{
    let draft = Draft::plain(alloc);
    alone(alloc, draft)
}

/// What the states ask of the child where it is given as it is.
fn state_demands(alloc: Global, child: u32, all: &[u64]) -> Result<Vec<Demand>, Memory>
    ensures { IfOk result (λ demands. (j : ℕ) (n : LookName) → IsAskedIn demands.items j n ↔ ((child ≡ j) × Contains (asked_by identity all.now) n)) }
{
    let mut demands = Vec::new(alloc);
    'states: for state in all {
        let ask = Ask::State(*state);
        demands.push(Demand { child, ask })?;
    }
    Ok(demands)
}

/// What the states ask of the child where it is given so.
fn demands_of(alloc: Global, first: Head, child: u32, all: &StateSet) -> Result<Vec<Demand>, Memory>
    ensures { IfOk result (λ demands. (j : ℕ) (n : LookName) → IsAskedIn demands.items j n ↔ ((child ≡ j) × Contains (asked_by (plain_head first) all.now.states.items) n)) }
{
    match first {
        Head::Same => state_demands(alloc, child, all.as_slice()),
        Head::Run(state) => {
            let ask = Ask::Output(state, Vec::from_slice(alloc, all.as_slice())?);
            let mut demands = Vec::new(alloc);
            demands.push(Demand { child, ask })?;
            Ok(demands)
        }
    }
}

/// The states run over what is given of a child: no more than demands.
pub fn demanded<A: Drop, M: Drop>(
    alloc: Global,
    first: Head,
    child: u32,
    all: &StateSet,
) -> Result<Vec<Draft<A, M>>, Memory>
    ensures { IfOk result (λ drafts. IsLeaf child (asked_by (plain_head first) all.now.states.items) [] drafts.items) }
{
    let demands = demands_of(alloc, first, child, all)?;
    let guards = Vec::new(alloc);
    let terms = Vec::new(alloc);
    alone(
        alloc,
        Draft {
            guards,
            demands,
            terms,
        },
    )
}

/// The states and a head run over a child as it is: what is demanded is asked apart.
pub fn unchanged<A: Drop, M: Drop>(
    alloc: Global,
    child: u32,
    all: &StateSet,
    head: Head,
) -> Result<Vec<Draft<A, M>>, Memory>
    ensures { IfOk result (λ drafts. IsLeaf child (asked_by identity all.now.states.items) (on (record { first = identity; all = []; second = Some (plain_head head) }) child ∷ []) drafts.items) }
{
    let demands = state_demands(alloc, child, all.as_slice())?;
    let triple = Triple {
        first: Head::Same,
        all: Vec::new(alloc),
        second: Some(head),
    };
    let mut terms = Vec::new(alloc);
    terms.push(WayTerm::Call(triple, child))?;
    let guards = Vec::new(alloc);
    alone(
        alloc,
        Draft {
            guards,
            demands,
            terms,
        },
    )
}

/// The states and a head run over what a state gives on a child.
pub fn called<A: Drop, M: Drop>(
    alloc: Global,
    state: u64,
    child: u32,
    all: &StateSet,
    head: Head,
) -> Result<Vec<Draft<A, M>>, Memory>
    ensures { IfOk result (λ drafts. IsLeaf child [] (on (record { first = run state; all = all.now.states.items; second = Some (plain_head head) }) child ∷ []) drafts.items) }
{
    let triple = Triple {
        first: Head::Run(state),
        all: Vec::from_slice(alloc, all.as_slice())?,
        second: Some(head),
    };
    let mut terms = Vec::new(alloc);
    terms.push(WayTerm::Call(triple, child))?;
    let guards = Vec::new(alloc);
    let demands = Vec::new(alloc);
    alone(
        alloc,
        Draft {
            guards,
            demands,
            terms,
        },
    )
}
