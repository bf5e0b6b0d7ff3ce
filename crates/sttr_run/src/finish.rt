//! Ways with what is demanded child by child.

ghost use Rattle.std.specs.Prelude.{◌≡◌, ◌↔◌, ◌⊎◌, ◌<◌, ◌∷◌, ℕ, [], map, get_or, length, Contains, IfOk, OnOk};
ghost use Rattle.sttr_theory.specs.Triples.{LookName, asked, asked_by};
ghost use Rattle.sttr_run.specs.Drafts.{name_of, IsAskedIn};
ghost use Rattle.sttr_run.specs.Finished.{triples_at, IsFinished, AreFinished};
ghost use Rattle.sttr_run.specs.Plain.{plain_triple};

use crate::drafts::{Ask, Demand, Draft};
use crate::triples::{Head, Triple, Way};
use fast_fault::Memory;
use label_core::conjunction;
use std::alloc::Global;

/// The triple that asks so of a child.
fn triple_of(alloc: Global, ask: Ask) -> Result<Triple, Memory>
    ensures { IfOk result (λ triple. asked (plain_triple triple ∷ []) ≡ name_of ask ∷ []) }
{
    match ask {
        Ask::State(state) => {
            let mut all = Vec::new(alloc);
            all.push(state)?;
            Ok(Triple {
                first: Head::Same,
                all,
                second: None,
            })
        }
        Ask::Output(state, all) => Ok(Triple {
            first: Head::Run(state),
            all,
            second: None,
        }),
    }
}

/// Makes room for what is demanded of the child.
fn fill(alloc: Global, child: usize, lists: &mut Vec<Vec<Triple>>) -> Result<(), Memory>
    ensures room { OnOk result (child < length lists.new.items) }
    ensures same { OnOk result ((j : ℕ) → triples_at lists.new.items j ≡ triples_at lists.old.items j) }
{
    'children: while lists.len() <= child {
        lists.push(Vec::new(alloc))?;
    }
    Ok(())
}

/// Adds what is asked to what is demanded of the child.
fn place(alloc: Global, demand: Demand, lists: &mut Vec<Vec<Triple>>) -> Result<(), Memory>
    ensures { OnOk result ((j : ℕ) (n : LookName) → Contains (asked (triples_at lists.new.items j)) n ↔ (Contains (asked (triples_at lists.old.items j)) n ⊎ ((demand.child ≡ j) × (name_of demand.ask ≡ n)))) }
{
    let Demand { child, ask } = demand;
    let child = child as usize;
    fill(alloc, child, lists)?;
    let triple = triple_of(alloc, ask)?;
    lists[child].push(triple)?;
    Ok(())
}

/// What is demanded, child by child.
fn placed(alloc: Global, demands: Vec<Demand>) -> Result<Vec<Vec<Triple>>, Memory>
    ensures { IfOk result (λ lists. (j : ℕ) (n : LookName) → Contains (asked (triples_at lists.items j)) n ↔ IsAskedIn demands.items j n) }
{
    let mut demands = demands;
    let mut lists = Vec::new(alloc);
    'demands: while let Some(demand) = demands.pop() {
        place(alloc, demand, &mut lists)?;
    }
    Ok(lists)
}

/// The way that the draft is.
fn way<A: Drop, M: Drop>(alloc: Global, draft: Draft<A, M>) -> Result<Way<A, M>, Memory>
    ensures { IfOk result (IsFinished draft) }
{
    let Draft {
        guards,
        demands,
        mut terms,
    } = draft;
    let demands = placed(alloc, demands)?;
    let term = terms.pop();
    let guard = conjunction(guards);
    Ok(Way {
        guard,
        demands,
        term,
    })
}

/// The ways that the drafts are.
pub fn finish<A: Drop, M: Drop>(
    alloc: Global,
    drafts: Vec<Draft<A, M>>,
) -> Result<Vec<Way<A, M>>, Memory>
    ensures { IfOk result (λ ways. AreFinished drafts.items ways.items) }
{
    let mut drafts = drafts;
    let mut ways = Vec::new(alloc);
    'drafts: while let Some(draft) = drafts.pop() {
        ways.push(way(alloc, draft)?)?;
    }
    Ok(ways)
}
