//! The rules of "not s".
//!
//! A rule for each combination of what the rules of s demand, place by place, where no rule is left that may apply as soon
//! as one of its demands is not met; so no automaton is made deterministic.

ghost use Rattle.std.specs.Prelude.{ℕ, ◌≡◌, ◌<◌, ◌^◌, ◌==◌, ◌&&◌, ◌++◌, ◌∷◌, [], cond, length, map, All, IfOk, OnOk};
ghost use Rattle.std.specs.List.{list_any};
ghost use Rattle.model_sta.specs.Sets.{rows_meet};
ghost use Rattle.model_sta.specs.Least.{rows_of, rows_at};
ghost use Rattle.label_core.specs.Formula.{plain_formula};
ghost use Rattle.sta_core.specs.Machine.{plain_rule};
ghost use Rattle.sta_classes.specs.Guards.{firing_guards};
ghost use Rattle.sta_ops.specs.Opposites.{plain_begun, is_no, is_yes, may_hold, not_rule, rules_for, AreOfClasses, AreNotRules};

use crate::begun::{Begun, all_begun, copy_demands, demands_met};
use fast_fault::Memory;
use label_core::{Duplicate, Formula, disjunction, negation};
use sta_classes::Table;
use sta_core::StaRule;
use std::alloc::Global;

/// Whether the rule applies over such children, but for its guard.
fn lets_fire<A, V>(
    table: &Table<A, V>,
    rule: &StaRule<A>,
    constructor: u32,
    children: &[u32],
) -> bool
    requires { All (λ k. k < length table.now.found) children.now }
    ensures { result ≡ (((plain_rule rule.now).constructor == constructor) && rows_meet (rows_at table.now.found children.now) (plain_rule rule.now).demands) }
{
    rule.constructor == constructor && demands_met(table, children, &rule.demands)
}

/// The guards of the rules that apply over such children, but for their guards.
fn firing<A: Duplicate + Drop, V>(
    alloc: Global,
    table: &Table<A, V>,
    rules: &[StaRule<A>],
    constructor: u32,
    children: &[u32],
) -> Result<Vec<Formula<A>>, Memory>
    requires { All (λ k. k < length table.now.found) children.now }
    ensures { IfOk result (λ guards. map plain_formula guards.items ≡ firing_guards constructor (rows_at table.now.found children.now) (map plain_rule rules.now)) }
{
    let mut guards = Vec::new(alloc);
    for rule in rules {
        if lets_fire(table, rule, constructor, children) {
            guards.push(rule.guard.copy(alloc)?)?;
        }
    }
    Ok(guards)
}

/// Whether the formula is written as one that never holds.
#[tactic(auto, using(label_core::proofs::Formulas::on_parts))]
fn is_no<A>(formula: &Formula<A>) -> bool
    ensures { result ≡ is_no (plain_formula formula.now) }
{
    match formula {
        Formula::Yes => false,
        Formula::No => true,
        Formula::Atom(_) => false,
        Formula::Not(_) => false,
        Formula::And(_) => false,
        Formula::Or(parts) => parts.is_empty(),
    }
}

/// Whether the formula is written as one that always holds.
fn is_yes<A>(formula: &Formula<A>) -> bool
    ensures { result ≡ is_yes (plain_formula formula.now) }
{
    match formula {
        Formula::Yes => true,
        Formula::No => false,
        Formula::Atom(_) => false,
        Formula::Not(inner) => is_no(inner),
        Formula::And(_) => false,
        Formula::Or(_) => false,
    }
}

/// Whether one of the formulas is written as one that always holds.
fn has_yes<A>(formulas: &[Formula<A>]) -> bool
    ensures { result ≡ list_any is_yes (map plain_formula formulas.now) }
{
    for formula in formulas {
        if is_yes(formula) {
            return true;
        }
    }
    false
}

/// Adds the rule for the node, unless a rule always applies to it.
fn add_rule<A: Duplicate + Drop, V>(
    alloc: Global,
    table: &Table<A, V>,
    rules: &[StaRule<A>],
    constructor: u32,
    node: &Begun,
    made: &mut Vec<StaRule<A>>,
) -> Result<(), Memory>
    requires { All (λ k. k < length table.now.found) node.now.children.items }
    ensures { OnOk result (map plain_rule made.new.items ≡ map plain_rule made.old.items ++ cond (may_hold (rows_of table.now.found) (map plain_rule rules.now) constructor (plain_begun node.now)) (not_rule (rows_of table.now.found) (map plain_rule rules.now) constructor (plain_begun node.now) ∷ []) []) }
{
    let guards = firing(alloc, table, rules, constructor, &node.children)?;
    if has_yes(&guards) {
        return Ok(());
    }
    let guard = negation(alloc, disjunction(guards))?;
    let demands = copy_demands(alloc, &node.demands)?;
    made.push(StaRule {
        constructor,
        guard,
        demands,
    })?;
    Ok(())
}

/// Adds the rules for the nodes.
fn add_rules<A: Duplicate + Drop, V>(
    alloc: Global,
    table: &Table<A, V>,
    rules: &[StaRule<A>],
    constructor: u32,
    nodes: &[Begun],
    made: &mut Vec<StaRule<A>>,
) -> Result<(), Memory>
    requires { AreOfClasses (rows_of table.now.found) (map plain_begun nodes.now) }
    ensures { OnOk result (map plain_rule made.new.items ≡ map plain_rule made.old.items ++ rules_for (rows_of table.now.found) (map plain_rule rules.now) constructor (map plain_begun nodes.now)) }
{
    'nodes: for node in nodes {
        add_rule(alloc, table, rules, constructor, node, made)?;
    }
    Ok(())
}

/// The rules of "not s", where s has these rules, and each state has the number of its opposite.
pub fn opposite_rules<A: Duplicate + Drop, V>(
    alloc: Global,
    table: &Table<A, V>,
    ranks: &[u32],
    rules: &[StaRule<A>],
    opposites: &[u64],
) -> Result<Vec<StaRule<A>>, Memory>
    requires few { length ranks.now < 2 ^ 32 }
    requires states { All (λ r. All (λ d. All (λ s. s < length opposites.now) d.items) r.demands.items) rules.now }
    ensures { IfOk result (λ made. AreNotRules opposites.now ranks.now (rows_of table.now.found) (map plain_rule rules.now) (map plain_rule made.items)) }
{
    let mut made = Vec::new(alloc);
    'constructors: for constructor in 0..ranks.len() {
        let rank = ranks[constructor];
        let constructor = constructor as u32;
        let nodes = all_begun(alloc, table, rules, constructor, opposites, rank)?;
        add_rules(alloc, table, rules, constructor, &nodes, &mut made)?;
    }
    Ok(made)
}
