//! Rules that use a child twice.

ghost use Rattle.std.specs.Prelude.{◌↔◌, IsTrue, MatchOption, map};
ghost use Rattle.sttr_core.specs.Terms.{plain_term};
ghost use Rattle.sttr_core.specs.Machine.{plain_out};
ghost use Rattle.sttr_core.specs.Linear.{AreAllLinear, AreLinear, IsFirstCopying, IsFirstCopyingOf, UsesTwice};

use crate::sttr::{Sttr, SttrRule};
use crate::term::Term;

/// A rule by its state, and by its place among the rules of that state, counted from 0.
#[derive(Clone, Copy, Debug, PartialEq, Eq)]
pub struct RuleNo {
    pub state: u64,
    pub rule: u64,
}

/// Whether the term uses some child twice.
fn uses_some_twice<M>(term: &Term<M>) -> bool
    ensures { IsTrue result ↔ UsesTwice (plain_term term.now) }
{
    for child in 0..term.child_bound() {
        if term.uses_up_to(child, 2) == 2 {
            return true;
        }
    }
    false
}

/// The first of the rules that uses a child twice.
fn first_copying<A, M>(rules: &[SttrRule<A, M>]) -> Option<u64>
    ensures { MatchOption result (AreAllLinear (map plain_out rules.now)) (λ place. IsFirstCopyingOf (map plain_out rules.now) place) }
{
    for i in 0..rules.len() {
        if uses_some_twice(&rules[i].term) {
            return Some(i as u64);
        }
    }
    None
}

/// The first rule that uses a child twice, by its state and then by its place. Takes no memory. Each term is gone over once
/// for each number up to the greatest of a child in it, which is below the rank of the rule's constructor.
pub fn not_linear<A, M>(sttr: &Sttr<A, M>) -> Option<RuleNo>
    ensures { MatchOption result (AreLinear sttr.now) (λ no. IsFirstCopying sttr.now no.state no.rule) }
{
    let rules = sttr.rules();
    for state in 0..rules.len() {
        if let Some(rule) = first_copying(&rules[state]) {
            return Some(RuleNo {
                state: state as u64,
                rule,
            });
        }
    }
    None
}
