//! Copies of rules, of states under other numbers.

ghost use Rattle.std.specs.Prelude.{◌≡◌, ◌+◌, ◌++◌, length, map, IfOk, OnOk};
ghost use Rattle.sta_core.specs.Machine.{plain_rule};
ghost use Rattle.sta_classes.specs.Rules.{plain_rules};
ghost use Rattle.sta_ops.specs.Rules.{moved, beside};

use fast_fault::Memory;
use label_core::Duplicate;
use sta_core::StaRule;
use std::alloc::Global;

/// The states under numbers that are `by` greater.
fn move_states(alloc: Global, states: &[u64], by: u64) -> Result<Vec<u64>, Memory>
    ensures { IfOk result (λ copies. copies.items ≡ map (λ s. by + s) states.now) }
{
    let mut copies = Vec::new(alloc);
    for state in states {
        // so many states are out of reach of any memory
        let Some(number) = by.checked_add(*state) else {
            return Err(Memory);
        };
        copies.push(number)?;
    }
    Ok(copies)
}

/// The demands, of states under such numbers.
fn move_demands(alloc: Global, demands: &[Vec<u64>], by: u64) -> Result<Vec<Vec<u64>>, Memory>
    ensures { IfOk result (λ copies. map (λ d. d.items) copies.items ≡ map (λ d. map (λ s. by + s) d.items) demands.now) }
{
    let mut copies = Vec::new(alloc);
    for states in demands {
        copies.push(move_states(alloc, states, by)?)?;
    }
    Ok(copies)
}

/// The rule, where states have such numbers.
fn move_rule<A: Duplicate + Drop>(
    alloc: Global,
    rule: &StaRule<A>,
    by: u64,
) -> Result<StaRule<A>, Memory>
    ensures { IfOk result (λ copy. plain_rule copy ≡ moved by (plain_rule rule.now)) }
{
    let guard = rule.guard.copy(alloc)?;
    let demands = move_demands(alloc, &rule.demands, by)?;
    let constructor = rule.constructor;
    Ok(StaRule {
        constructor,
        guard,
        demands,
    })
}

/// The rules of a state, where states have such numbers.
pub fn move_rules<A: Duplicate + Drop>(
    alloc: Global,
    rules: &[StaRule<A>],
    by: u64,
) -> Result<Vec<StaRule<A>>, Memory>
    ensures { IfOk result (λ copies. map plain_rule copies.items ≡ map (λ r. moved by (plain_rule r)) rules.now) }
{
    let mut copies = Vec::new(alloc);
    for rule in rules {
        copies.push(move_rule(alloc, rule, by)?)?;
    }
    Ok(copies)
}

/// Adds the rules of all states, where states have such numbers.
pub fn add_states<A: Duplicate + Drop>(
    alloc: Global,
    from: &[Vec<StaRule<A>>],
    by: u64,
    rules: &mut Vec<Vec<StaRule<A>>>,
) -> Result<(), Memory>
    ensures { OnOk result (plain_rules rules.new.items ≡ plain_rules rules.old.items ++ map (λ those. map (λ r. moved by (plain_rule r)) those.items) from.now) }
{
    for those in from {
        rules.push(move_rules(alloc, those, by)?)?;
    }
    Ok(())
}

/// The rules of both automata: the states of the second one are behind those of the first one.
pub fn beside<A: Duplicate + Drop>(
    alloc: Global,
    first: &[Vec<StaRule<A>>],
    second: &[Vec<StaRule<A>>],
) -> Result<Vec<Vec<StaRule<A>>>, Memory>
    ensures { IfOk result (λ rules. plain_rules rules.items ≡ beside (plain_rules first.now) (plain_rules second.now)) }
{
    let mut rules = Vec::new(alloc);
    add_states(alloc, first, 0, &mut rules)?;
    add_states(alloc, second, first.len() as u64, &mut rules)?;
    Ok(rules)
}

/// The rules of one state and then those of another one, where states have such numbers.
pub fn either<A: Duplicate + Drop>(
    alloc: Global,
    first: &[StaRule<A>],
    second: &[StaRule<A>],
    by: u64,
) -> Result<Vec<StaRule<A>>, Memory>
    ensures { IfOk result (λ rules. map plain_rule rules.items ≡ map plain_rule first.now ++ map (λ r. moved by (plain_rule r)) second.now) }
{
    let mut rules = move_rules(alloc, first, 0)?;
    for rule in second {
        rules.push(move_rule(alloc, rule, by)?)?;
    }
    Ok(rules)
}
