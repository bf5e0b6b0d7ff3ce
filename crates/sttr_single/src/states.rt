//! The lookahead with states for joints.

ghost use Rattle.std.specs.Prelude.{◌≡◌, ◌++◌, ◌∷◌, [], length, map, All, IfOk};
ghost use Rattle.sta_core.specs.Fits.{RuleFits};
ghost use Rattle.sta_core.specs.Machine.{plain_rule};
ghost use Rattle.sta_classes.specs.Rules.{plain_rules};
ghost use Rattle.sttr_single.specs.Joints.{rules_in, DemandsOwn, with_more};

use crate::joints::Joint;
use fast_fault::Memory;
use label_core::Duplicate;
use sta_core::{Sta, StaRule};
use std::alloc::Global;
use sttr_core::Sttr;

/// The lookahead of the transducer, whose rules demand its own states alone.
pub fn looks_of<A, M>(sttr: &Sttr<A, M>) -> &Sta<A>
    ensures looks { result.now ≡ sttr.now.looks }
    ensures own { DemandsOwn sttr.now.looks }
{
    let looks = sttr.lookahead();
    let _rules = looks.rules();
    looks
}

/// The same demands again.
fn copied_demands(alloc: Global, demands: &[Vec<u64>]) -> Result<Vec<Vec<u64>>, Memory>
    ensures { IfOk result (λ copies. map (λ d. d.items) copies.items ≡ map (λ d. d.items) demands.now) }
{
    let mut copies = Vec::new(alloc);
    for states in demands {
        copies.push(Vec::from_slice(alloc, states)?)?;
    }
    Ok(copies)
}

/// The same rule again.
fn copied_rule<A: Duplicate + Drop>(alloc: Global, rule: &StaRule<A>) -> Result<StaRule<A>, Memory>
    ensures { IfOk result (λ copy. plain_rule copy ≡ plain_rule rule.now) }
{
    let guard = rule.guard.copy(alloc)?;
    let demands = copied_demands(alloc, &rule.demands)?;
    let constructor = rule.constructor;
    Ok(StaRule {
        constructor,
        guard,
        demands,
    })
}

/// The same rules again.
fn copied_rules<A: Duplicate + Drop>(
    alloc: Global,
    rules: &[StaRule<A>],
) -> Result<Vec<StaRule<A>>, Memory>
    ensures { IfOk result (λ copies. map plain_rule copies.items ≡ map plain_rule rules.now) }
{
    let mut copies = Vec::new(alloc);
    for rule in rules {
        copies.push(copied_rule(alloc, rule)?)?;
    }
    Ok(copies)
}

/// The rules of each state again.
fn copied_states<A: Duplicate + Drop>(
    alloc: Global,
    states: &[Vec<StaRule<A>>],
) -> Result<Vec<Vec<StaRule<A>>>, Memory>
    ensures { IfOk result (λ copies. plain_rules copies.items ≡ plain_rules states.now) }
{
    let mut copies = Vec::new(alloc);
    for rules in states {
        copies.push(copied_rules(alloc, rules)?)?;
    }
    Ok(copies)
}

/// The rules of the joints.
fn all_rules<A: Duplicate + Drop>(
    alloc: Global,
    joints: &[Joint<A>],
) -> Result<Vec<StaRule<A>>, Memory>
    ensures { IfOk result (λ rules. map plain_rule rules.items ≡ rules_in joints.now) }
{
    let mut rules = Vec::new(alloc);
    for joint in joints {
        rules.push(copied_rule(alloc, &joint.rule)?)?;
    }
    Ok(rules)
}

/// A state for all joints.
pub fn one_state<A: Duplicate + Drop>(
    alloc: Global,
    joints: &[Joint<A>],
) -> Result<Vec<Vec<StaRule<A>>>, Memory>
    ensures { IfOk result (λ states. plain_rules states.items ≡ rules_in joints.now ∷ []) }
{
    let mut states = Vec::new(alloc);
    states.push(all_rules(alloc, joints)?)?;
    Ok(states)
}

/// A state for each joint.
pub fn each_state<A: Duplicate + Drop>(
    alloc: Global,
    joints: &[Joint<A>],
) -> Result<Vec<Vec<StaRule<A>>>, Memory>
    ensures { IfOk result (λ states. plain_rules states.items ≡ map (λ x. plain_rule x.rule ∷ []) joints.now) }
{
    let mut states = Vec::new(alloc);
    for joint in joints {
        let mut rules = Vec::new(alloc);
        rules.push(copied_rule(alloc, &joint.rule)?)?;
        states.push(rules)?;
    }
    Ok(states)
}

/// The automaton with more states behind its own.
pub fn with_states<A: Duplicate + Drop>(
    alloc: Global,
    looks: &Sta<A>,
    mut more: Vec<Vec<StaRule<A>>>,
) -> Result<Sta<A>, Memory>
    requires { All (λ those. All (RuleFits looks.now.ranks (length looks.now.rules)) those.items) more.items }
    ensures { IfOk result (λ made. made ≡ with_more looks.now (plain_rules more.items)) }
{
    let mut rules = copied_states(alloc, looks.rules())?;
    rules.append(&mut more)?;
    let ranks = Vec::from_slice(alloc, looks.ranks())?;
    Ok(Sta::new(ranks, rules))
}
