//! Parts of automata: the states that one state reaches.

ghost use Rattle.std.specs.Prelude.{ℕ, ◌≡◌, ◌≤◌, ◌<◌, nat_eq, length, map, Contains, IfOk, MatchOption};
ghost use Rattle.std.specs.List.{IsDistinct};
ghost use Rattle.sta_core.specs.Fits.{RulesFit};
ghost use Rattle.sta_core.specs.Machine.{plain_rule};
ghost use Rattle.sta_classes.specs.Rules.{plain_rules};
ghost use Rattle.sta_ops.specs.Trimmed.{state_named, Meets, AreNames, AreNamesOfAll, IsNamedRule, AreNamedRules, DemandedBy, DemandedByAny, AreAllNamed, IsTrimmed};

use fast_fault::Memory;
use indexmap::IndexSet;
use label_core::Duplicate;
use sta_core::{Lang, Sta, StaRule};
use std::alloc::Global;

/// The numbers of the states, in the order in which they are met.
fn name_states(alloc: Global, states: &[u64], met: &mut IndexSet<u64>) -> Result<Vec<u64>, Memory>
    ensures { IfOk result (λ names. Meets met.old.keys met.new.keys (Contains states.now) × AreNames met.new.keys states.now names.items) }
{
    let mut names = Vec::new(alloc);
    'states: for state in states {
        let (name, _) = met.insert_full(*state)?;
        names.push(name as u64)?;
    }
    Ok(names)
}

/// The demands, of states under such numbers.
fn name_demands(
    alloc: Global,
    demands: &[Vec<u64>],
    met: &mut IndexSet<u64>,
) -> Result<Vec<Vec<u64>>, Memory>
    ensures { IfOk result (λ names. Meets met.old.keys met.new.keys (DemandedBy (map (λ d. d.items) demands.now)) × AreNamesOfAll met.new.keys (map (λ d. d.items) demands.now) (map (λ d. d.items) names.items)) }
{
    let mut names = Vec::new(alloc);
    'demands: for states in demands {
        names.push(name_states(alloc, states, met)?)?;
    }
    Ok(names)
}

/// The rule, where states have such numbers.
fn name_rule<A: Duplicate + Drop>(
    alloc: Global,
    rule: &StaRule<A>,
    met: &mut IndexSet<u64>,
) -> Result<StaRule<A>, Memory>
    ensures { IfOk result (λ named. Meets met.old.keys met.new.keys (DemandedBy (plain_rule rule.now).demands) × IsNamedRule met.new.keys (plain_rule rule.now) (plain_rule named)) }
{
    let guard = rule.guard.copy(alloc)?;
    let demands = name_demands(alloc, &rule.demands, met)?;
    let constructor = rule.constructor;
    Ok(StaRule {
        constructor,
        guard,
        demands,
    })
}

/// The rules of a state, where states have such numbers.
fn name_rules<A: Duplicate + Drop>(
    alloc: Global,
    rules: &[StaRule<A>],
    met: &mut IndexSet<u64>,
) -> Result<Vec<StaRule<A>>, Memory>
    ensures { IfOk result (λ named. Meets met.old.keys met.new.keys (DemandedByAny (map plain_rule rules.now)) × AreNamedRules met.new.keys (map plain_rule rules.now) (map plain_rule named.items)) }
{
    let mut named = Vec::new(alloc);
    'rules: for rule in rules {
        named.push(name_rule(alloc, rule, met)?)?;
    }
    Ok(named)
}

/// The state that was met after so many others, if there is one.
fn state_at(met: &IndexSet<u64>, place: usize) -> Option<u64>
    ensures state { MatchOption result (length met.now.keys ≤ place) (λ state. (place < length met.now.keys) × (state_named met.now.keys place ≡ state)) }
    ensures once { IsDistinct nat_eq met.now.keys }
{
    let states = met.as_slice();
    if place >= states.len() {
        return None;
    }
    Some(states[place])
}

/// The rules of the states that are met, and of those that these reach.
fn reached<A: Duplicate + Drop>(
    alloc: Global,
    sta: &Sta<A>,
    met: &mut IndexSet<u64>,
) -> Result<Vec<Vec<StaRule<A>>>, Memory>
    requires start { (s : ℕ) → Contains met.old.keys s → s < length sta.now.rules }
    ensures named { IfOk result (λ rules. AreAllNamed sta.now.rules met.old.keys met.new.keys (plain_rules rules.items)) }
    ensures fit { IfOk result (λ rules. RulesFit sta.now.ranks rules.items) }
{
    let whole = sta.rules();
    let mut rules = Vec::new(alloc);
    'places: for place in 0..whole.len() {
        let Some(state) = state_at(met, place) else {
            return Ok(rules);
        };
        rules.push(name_rules(alloc, sta.rules_of(state), met)?)?;
    }
    // each state is met once, so there are no more than states
    let states = met.as_slice();
    prove!(states.len() <= whole.len());
    Ok(rules)
}

/// The language, of an automaton with the states alone that its state reaches.
pub fn trimmed<A: Duplicate + Drop>(alloc: Global, lang: &Lang<A>) -> Result<Lang<A>, Memory>
    requires { lang.now.state < length lang.now.sta.rules }
    ensures { IfOk result (IsTrimmed lang.now) }
{
    let mut met = IndexSet::new(alloc);
    met.insert(lang.state)?;
    let rules = reached(alloc, &lang.sta, &mut met)?;
    let ranks = Vec::from_slice(alloc, lang.sta.ranks())?;
    let sta = Sta::new(ranks, rules);
    Ok(Lang { sta, state: 0 })
}
