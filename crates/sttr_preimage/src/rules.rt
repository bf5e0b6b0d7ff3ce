//! Rules that demand states by the numbers of their names.

ghost use Rattle.std.specs.Prelude.{◌≡◌, ◌++◌, [], length, map, get_or, IfOk, All};
ghost use Rattle.model_tree.specs.Formula.{EveryAtom};
ghost use Rattle.label_core.specs.Formula.{plain_formula};
ghost use Rattle.sta_core.specs.Machine.{plain_rule};
ghost use Rattle.sttr_theory.specs.Triples.{firsts, asked};
ghost use Rattle.sttr_run.specs.Plain.{plain_triple};
ghost use Rattle.sttr_preimage.specs.Names.{names_in, side_names, tidy, Numbers};
ghost use Rattle.sttr_preimage.specs.Rules.{AreNumbered, IsMadeOf, AreCopied, AreWayMade, demands_of, way_demands, both_of};

use crate::apart::are_apart;
use crate::names::{Name, Side, number_asked, number_states};
use fast_fault::Memory;
use indexmap::IndexSet;
use label_core::{Duplicate, Theory, conjunction};
use sta_core::StaRule;
use std::alloc::Global;
use sttr_run::{Triple, Way};

/// The numbers of states of this side.
fn numbers(
    alloc: Global,
    side: Side,
    states: &[u64],
    names: &mut IndexSet<Name>,
) -> Result<Vec<u64>, Memory>
    ensures { IfOk result (λ made. Numbers (names_in names.old.keys) (names_in names.new.keys) [] made.items (side_names side states.now)) }
{
    let mut made = Vec::new(alloc);
    number_states(side, states, names, &mut made)?;
    Ok(made)
}

/// What is demanded of each child.
fn copied_demands<A>(
    alloc: Global,
    side: Side,
    rule: &StaRule<A>,
    names: &mut IndexSet<Name>,
) -> Result<Vec<Vec<u64>>, Memory>
    ensures { IfOk result (λ made. AreNumbered (names_in names.old.keys) (names_in names.new.keys) (length rule.now.demands.items) (demands_of side (plain_rule rule.now)) (map (λ d. d.items) made.items)) }
{
    let mut made = Vec::new(alloc);
    'demands: for states in &rule.demands {
        made.push(numbers(alloc, side, states, names)?)?;
    }
    Ok(made)
}

/// The rule, of states of this side.
pub fn copied_rule<A: Duplicate + Drop>(
    alloc: Global,
    side: Side,
    rule: &StaRule<A>,
    names: &mut IndexSet<Name>,
) -> Result<StaRule<A>, Memory>
    ensures { IfOk result (λ made. IsMadeOf (names_in names.old.keys) (names_in names.new.keys) (plain_rule rule.now) (plain_formula rule.now.guard) (demands_of side (plain_rule rule.now)) (plain_rule made)) }
{
    let guard = rule.guard.copy(alloc)?;
    let demands = copied_demands(alloc, side, rule, names)?;
    let constructor = rule.constructor;
    Ok(StaRule {
        constructor,
        guard,
        demands,
    })
}

/// The rules, of states of this side.
pub fn copied_rules<A: Duplicate + Drop>(
    alloc: Global,
    side: Side,
    rules: &[StaRule<A>],
    names: &mut IndexSet<Name>,
) -> Result<Vec<StaRule<A>>, Memory>
    ensures { IfOk result (λ made. AreCopied (names_in names.old.keys) (names_in names.new.keys) side (map plain_rule rules.now) (map plain_rule made.items)) }
{
    let mut made = Vec::new(alloc);
    'rules: for rule in rules {
        made.push(copied_rule(alloc, side, rule, names)?)?;
    }
    Ok(made)
}

/// What is asked of a child.
fn triples_at(asked: &[Vec<Triple>], child: usize) -> &[Triple]
    ensures { map plain_triple result.now ≡ get_or (map (λ d. map plain_triple d.items) asked.now) child [] }
{
    if child >= asked.len() {
        return &[];
    }
    &asked[child]
}

/// The numbers of what is demanded and asked of a child.
fn child_numbers(
    alloc: Global,
    states: &[u64],
    triples: &[Triple],
    names: &mut IndexSet<Name>,
) -> Result<Vec<u64>, Memory>
    ensures { IfOk result (λ made. Numbers (names_in names.old.keys) (names_in names.new.keys) [] made.items (firsts states.now ++ asked (map tidy (map plain_triple triples.now)))) }
{
    let mut made = Vec::new(alloc);
    number_states(Side::First, states, names, &mut made)?;
    number_asked(alloc, triples, names, &mut made)?;
    Ok(made)
}

/// What is demanded and asked of each child.
fn way_demands<A>(
    alloc: Global,
    rule: &StaRule<A>,
    asked: &[Vec<Triple>],
    names: &mut IndexSet<Name>,
) -> Result<Vec<Vec<u64>>, Memory>
    ensures { IfOk result (λ made. AreNumbered (names_in names.old.keys) (names_in names.new.keys) (length rule.now.demands.items) (way_demands (plain_rule rule.now) asked.now) (map (λ d. d.items) made.items)) }
{
    let mut made = Vec::new(alloc);
    'children: for child in 0..rule.demands.len() {
        let triples = triples_at(asked, child);
        made.push(child_numbers(alloc, &rule.demands[child], triples, names)?)?;
    }
    Ok(made)
}

/// A rule that applies where the rule and the way do.
pub fn way_rule<A: Duplicate + Drop, M>(
    alloc: Global,
    rule: &StaRule<A>,
    way: &Way<A, M>,
    names: &mut IndexSet<Name>,
) -> Result<StaRule<A>, Memory>
    ensures { IfOk result (λ made. IsMadeOf (names_in names.old.keys) (names_in names.new.keys) (plain_rule rule.now) (both_of (plain_formula rule.now.guard) (plain_formula way.now.guard)) (way_demands (plain_rule rule.now) way.now.demands.items) (plain_rule made)) }
{
    let mut guards = Vec::new(alloc);
    guards.push(rule.guard.copy(alloc)?)?;
    guards.push(way.guard.copy(alloc)?)?;
    let demands = way_demands(alloc, rule, &way.demands, names)?;
    let constructor = rule.constructor;
    Ok(StaRule {
        constructor,
        guard: conjunction(guards),
        demands,
    })
}

/// One for each of the ways, but for those that are found to apply nowhere.
pub fn way_rules<T: Theory, M>(
    theory: &T,
    alloc: Global,
    rule: &StaRule<T::Atom>,
    ways: &[Way<T::Atom, M>],
    names: &mut IndexSet<Name>,
) -> Result<Vec<StaRule<T::Atom>>, Memory>
    requires guard { EveryAtom (T.atom_fits theory.now) (plain_formula rule.now.guard) }
    requires guards { All (λ y. EveryAtom (T.atom_fits theory.now) (plain_formula y.guard)) ways.now }
    ensures { IfOk result (λ made. AreWayMade T.atom_holds (T.meaning theory.now).has (names_in names.old.keys) (names_in names.new.keys) (plain_rule rule.now) ways.now (map plain_rule made.items)) }
{
    let mut made = Vec::new(alloc);
    'ways: for way in ways {
        if are_apart(theory, alloc, &rule.guard, &way.guard)? {
            continue;
        }
        made.push(way_rule(alloc, rule, way, names)?)?;
    }
    Ok(made)
}
