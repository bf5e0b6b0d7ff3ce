//! Rules for what two states accept both.

ghost use Rattle.std.specs.Prelude.{◌≡◌, ◌++◌, length, map, All, IfOk, OnOk};
ghost use Rattle.std.specs.List.{flat_map};
ghost use Rattle.sta_core.specs.Machine.{plain_rule};
ghost use Rattle.sta_ops.specs.Rules.{moved, joined, both, pairs_with, pairs, AreAsWide};

use crate::copies::move_rules;
use fast_fault::Memory;
use label_core::{Duplicate, conjunction};
use sta_core::StaRule;
use std::alloc::Global;

/// The states of both lists.
fn concat(alloc: Global, first: &[u64], second: &[u64]) -> Result<Vec<u64>, Memory>
    ensures { IfOk result (λ states. states.items ≡ first.now ++ second.now) }
{
    let mut states = Vec::from_slice(alloc, first)?;
    states.extend_from_slice(second)?;
    Ok(states)
}

/// What both demand of each child.
fn join_demands(
    alloc: Global,
    first: &[Vec<u64>],
    second: &[Vec<u64>],
) -> Result<Vec<Vec<u64>>, Memory>
    requires { length second.now ≡ length first.now }
    ensures { IfOk result (λ demands. map (λ d. d.items) demands.items ≡ joined (map (λ d. d.items) first.now) (map (λ d. d.items) second.now)) }
{
    let mut demands = Vec::new(alloc);
    for i in 0..first.len() {
        demands.push(concat(alloc, &first[i], &second[i])?)?;
    }
    Ok(demands)
}

/// A rule that applies where both do.
fn join<A: Duplicate + Drop>(
    alloc: Global,
    first: &StaRule<A>,
    second: &StaRule<A>,
) -> Result<StaRule<A>, Memory>
    requires { length second.now.demands.items ≡ length first.now.demands.items }
    ensures { IfOk result (λ rule. plain_rule rule ≡ both (plain_rule first.now) (plain_rule second.now)) }
{
    let mut guards = Vec::new(alloc);
    guards.push(first.guard.copy(alloc)?)?;
    guards.push(second.guard.copy(alloc)?)?;
    let demands = join_demands(alloc, &first.demands, &second.demands)?;
    let constructor = first.constructor;
    Ok(StaRule {
        constructor,
        guard: conjunction(guards),
        demands,
    })
}

/// Adds a rule for each of the others with the same constructor.
fn add_pairs<A: Duplicate + Drop>(
    alloc: Global,
    rule: &StaRule<A>,
    others: &[StaRule<A>],
    rules: &mut Vec<StaRule<A>>,
) -> Result<(), Memory>
    requires { AreAsWide rule.now others.now }
    ensures { OnOk result (map plain_rule rules.new.items ≡ map plain_rule rules.old.items ++ pairs_with (plain_rule rule.now) (map plain_rule others.now)) }
{
    for other in others {
        if other.constructor == rule.constructor {
            rules.push(join(alloc, rule, other)?)?;
        }
    }
    Ok(())
}

/// A rule for each two of one constructor.
fn pairs<A: Duplicate + Drop>(
    alloc: Global,
    first: &[StaRule<A>],
    second: &[StaRule<A>],
) -> Result<Vec<StaRule<A>>, Memory>
    requires { All (λ r. AreAsWide r second.now) first.now }
    ensures { IfOk result (λ rules. map plain_rule rules.items ≡ pairs (map plain_rule first.now) (map plain_rule second.now)) }
{
    let mut rules = Vec::new(alloc);
    for rule in first {
        add_pairs(alloc, rule, second, &mut rules)?;
    }
    Ok(rules)
}

/// The same, where the second ones are of states under numbers that are `by` greater.
pub fn both<A: Duplicate + Drop>(
    alloc: Global,
    first: &[StaRule<A>],
    second: &[StaRule<A>],
    by: u64,
) -> Result<Vec<StaRule<A>>, Memory>
    requires { All (λ r. AreAsWide r second.now) first.now }
    ensures { IfOk result (λ rules. map plain_rule rules.items ≡ pairs (map plain_rule first.now) (map (λ r. moved by (plain_rule r)) second.now)) }
{
    let others = move_rules(alloc, second, by)?;
    pairs(alloc, first, &others)
}
