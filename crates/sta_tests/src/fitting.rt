//! Automata over truth values that are written by hand, and let through where they fit.

ghost use Rattle.std.specs.Prelude.{◌<◌, IsTrue, length, All, IfSome};
ghost use Rattle.model_tree.specs.Formula.{EveryAtom};
ghost use Rattle.label_core.specs.Formula.{plain_formula};
ghost use Rattle.sta_core.specs.Fits.{RuleFits, RulesFit};
ghost use Rattle.sta_core.specs.Sta.{AtomsFit};

use flat_label::BoolAtom;
use label_core::Formula;
use sta_core::{Sta, StaRule};

/// Whether each is one of the first so many states.
fn are_states(list: &[u64], states: usize) -> bool
    ensures { IsTrue result → All (λ s. s < states) list.now }
{
    for state in list {
        if *state >= states as u64 {
            return false;
        }
    }
    true
}

/// Whether all that is demanded is of the first so many states.
fn demands_fit(demands: &[Vec<u64>], states: usize) -> bool
    ensures { IsTrue result → All (λ d. All (λ s. s < states) d.items) demands.now }
{
    for those in demands {
        if !are_states(those, states) {
            return false;
        }
    }
    true
}

/// Whether the rule fits.
fn rule_fits<A>(ranks: &[u32], states: usize, rule: &StaRule<A>) -> bool
    ensures { IsTrue result → RuleFits ranks.now states rule.now }
{
    let constructor = rule.constructor as usize;
    if constructor >= ranks.len() {
        return false;
    }
    if rule.demands.len() != ranks[constructor] as usize {
        return false;
    }
    demands_fit(&rule.demands, states)
}

/// Whether the rules of a state fit.
fn state_fits<A>(ranks: &[u32], states: usize, rules: &[StaRule<A>]) -> bool
    ensures { IsTrue result → All (RuleFits ranks.now states) rules.now }
{
    for rule in rules {
        if !rule_fits(ranks, states, rule) {
            return false;
        }
    }
    true
}

/// Whether the rules of all states fit.
fn rules_fit<A>(ranks: &[u32], rules: &[Vec<StaRule<A>>]) -> bool
    ensures { IsTrue result → RulesFit ranks.now rules.now }
{
    for those in rules {
        if !state_fits(ranks, rules.len(), those) {
            return false;
        }
    }
    true
}

/// Whether the guard is `Yes` or `No` or one of so many fields.
fn guard_fits(fields: u32, guard: &Formula<BoolAtom>) -> bool
    ensures { IsTrue result → EveryAtom (λ a. a.field < fields) (plain_formula guard.now) }
{
    match guard {
        Formula::Yes => true,
        Formula::No => true,
        Formula::Atom(atom) => atom.field < fields,
        _ => false,
    }
}

/// Whether the guards of a state's rules are such.
fn guards_fit(fields: u32, rules: &[StaRule<BoolAtom>]) -> bool
    ensures { IsTrue result → All (λ r. EveryAtom (λ a. a.field < fields) (plain_formula r.guard)) rules.now }
{
    for rule in rules {
        if !guard_fits(fields, &rule.guard) {
            return false;
        }
    }
    true
}

/// Whether the guards of all rules are such.
fn all_guards_fit(fields: u32, rules: &[Vec<StaRule<BoolAtom>>]) -> bool
    ensures { IsTrue result → All (λ those. All (λ r. EveryAtom (λ a. a.field < fields) (plain_formula r.guard)) those.items) rules.now }
{
    for those in rules {
        if !guards_fit(fields, those) {
            return false;
        }
    }
    true
}

/// The automaton, if it fits and its guards are `Yes` or `No` or one of so many fields.
pub fn checked(
    fields: u32,
    ranks: Vec<u32>,
    rules: Vec<Vec<StaRule<BoolAtom>>>,
) -> Option<Sta<BoolAtom>>
    ensures { IfSome result (AtomsFit (λ a. a.field < fields)) }
{
    if !rules_fit(&ranks, &rules) {
        return None;
    }
    if !all_guards_fit(fields, &rules) {
        return None;
    }
    Some(Sta::new(ranks, rules))
}
