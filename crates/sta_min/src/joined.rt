//! The rules of several states together.

ghost use Rattle.std.specs.Prelude.{◌≡◌, ◌<◌, ◌++◌, [], length, map, get_or, All, IfOk, OnOk};
ghost use Rattle.std.specs.List.{flat_map};
ghost use Rattle.sta_core.specs.Machine.{plain_rule};
ghost use Rattle.sta_classes.specs.Rules.{plain_rules};

use crate::demands::copy_demands;
use fast_fault::Memory;
use label_core::Duplicate;
use sta_core::StaRule;
use std::alloc::Global;

/// The same rule.
fn copy_rule<A: Duplicate + Drop>(alloc: Global, rule: &StaRule<A>) -> Result<StaRule<A>, Memory>
    ensures { IfOk result (λ copy. plain_rule copy ≡ plain_rule rule.now) }
{
    let guard = rule.guard.copy(alloc)?;
    let demands = copy_demands(alloc, &rule.demands)?;
    let constructor = rule.constructor;
    Ok(StaRule {
        constructor,
        guard,
        demands,
    })
}

/// Adds the rules.
fn add_rules<A: Duplicate + Drop>(
    alloc: Global,
    rules: &[StaRule<A>],
    joined: &mut Vec<StaRule<A>>,
) -> Result<(), Memory>
    ensures { OnOk result (map plain_rule joined.new.items ≡ map plain_rule joined.old.items ++ map plain_rule rules.now) }
{
    for rule in rules {
        joined.push(copy_rule(alloc, rule)?)?;
    }
    Ok(())
}

/// The rules of these states, one state after the other.
pub fn joined<A: Duplicate + Drop>(
    alloc: Global,
    rules: &[Vec<StaRule<A>>],
    states: &[u32],
) -> Result<Vec<StaRule<A>>, Memory>
    requires { All (λ i. i < length rules.now) states.now }
    ensures { IfOk result (λ joined. map plain_rule joined.items ≡ flat_map (λ i. get_or (plain_rules rules.now) i []) states.now) }
{
    let mut joined = Vec::new(alloc);
    'states: for state in states {
        add_rules(alloc, &rules[*state as usize], &mut joined)?;
    }
    Ok(joined)
}
