//! The rules of blocks, as states of an automaton.

ghost use Rattle.std.specs.Prelude.{◌≡◌, ◌<◌, ◌^◌, ◌++◌, ◌∷◌, [], length, map, All, IfOk, OnOk, MatchOption};
ghost use Rattle.sta_core.specs.Machine.{plain_rule};
ghost use Rattle.sta_classes.specs.Meant.{IsBuilt};
ghost use Rattle.sta_classes.specs.declared.class.TheConstants.{CAP};
ghost use Rattle.sta_classes.specs.Rules.{plain_rules};
ghost use Rattle.sta_min.specs.Parents.{plain_parents};
ghost use Rattle.sta_min.specs.Written.{classes_in, IsRuleOver, IsRuleFor, NoneIsIn, AreRulesFor, AreRulesOfBlocks, IsGoodParents};

use crate::demands::copy_demands;
use crate::dense::Blocks;
use crate::parents::Parents;
use crate::targets::guard_of;
use fast_fault::Memory;
use label_core::Theory;
use sta_classes::Table;
use sta_core::StaRule;
use std::alloc::Global;

/// Those of the classes that are in the block.
fn classes_in(alloc: Global, dense: &[u32], block: u32, classes: &[u32]) -> Result<Vec<u32>, Memory>
    requires { All (λ k. k < length dense.now) classes.now }
    ensures { IfOk result (λ those. those.items ≡ classes_in dense.now block classes.now) }
{
    let mut those = Vec::new(alloc);
    for class in classes {
        if dense[*class as usize] == block {
            those.push(*class)?;
        }
    }
    Ok(those)
}

/// The rule for the parents, over the labels with which they have one of the classes.
fn rule_over<T: Theory>(
    theory: &T,
    alloc: Global,
    table: &Table<T::Atom, T::Value>,
    parents: &Parents,
    classes: &[u32],
) -> Result<StaRule<T::Atom>, Memory>
    requires built { IsBuilt (T.meaning theory.now) CAP table.now }
    requires children { All (λ k. k < length table.now.found) parents.now.children.items }
    requires classes { All (λ k. k < length table.now.found) classes.now }
    ensures { IfOk result (λ rule. IsRuleOver T.Atom.eq T.atom_holds table.now (plain_parents parents.now) classes.now (plain_rule rule)) }
{
    let constructor = parents.constructor;
    let guard = guard_of(
        theory,
        alloc,
        table,
        constructor,
        &parents.children,
        classes,
    )?;
    let demands = copy_demands(alloc, &parents.demands)?;
    Ok(StaRule {
        constructor,
        guard,
        demands,
    })
}

/// The rule with which the parents are in the block, if some of their classes are.
fn rule_for<T: Theory>(
    theory: &T,
    alloc: Global,
    table: &Table<T::Atom, T::Value>,
    dense: &[u32],
    block: u32,
    parents: &Parents,
) -> Result<Option<StaRule<T::Atom>>, Memory>
    requires built { IsBuilt (T.meaning theory.now) CAP table.now }
    requires dense { length dense.now ≡ length table.now.found }
    requires parents { IsGoodParents table.now (plain_parents parents.now) }
    ensures { IfOk result (λ made. MatchOption made (NoneIsIn dense.now block (plain_parents parents.now)) (λ rule. IsRuleFor T.Atom.eq T.atom_holds table.now dense.now block (plain_parents parents.now) (plain_rule rule))) }
{
    let classes = classes_in(alloc, dense, block, &parents.targets)?;
    if classes.is_empty() {
        return Ok(None);
    }
    let rule = rule_over(theory, alloc, table, parents, &classes)?;
    Ok(Some(rule))
}

/// Adds the rule, if there is one.
fn add_made<A: Drop>(made: Option<StaRule<A>>, rules: &mut Vec<StaRule<A>>) -> Result<(), Memory>
    ensures { OnOk result (MatchOption made (rules.new.items ≡ rules.old.items) (λ rule. rules.new.items ≡ rules.old.items ++ rule ∷ [])) }
{
    match made {
        Some(rule) => rules.push(rule)?,
        None => {}
    }
    Ok(())
}

/// The rules of the block.
fn rules_for<T: Theory>(
    theory: &T,
    alloc: Global,
    table: &Table<T::Atom, T::Value>,
    dense: &[u32],
    block: u32,
    all: &[Parents],
) -> Result<Vec<StaRule<T::Atom>>, Memory>
    requires built { IsBuilt (T.meaning theory.now) CAP table.now }
    requires dense { length dense.now ≡ length table.now.found }
    requires parents { All (λ p. IsGoodParents table.now (plain_parents p)) all.now }
    ensures { IfOk result (λ rules. AreRulesFor T.Atom.eq T.atom_holds table.now dense.now block (map plain_parents all.now) (map plain_rule rules.items)) }
{
    let mut rules = Vec::new(alloc);
    'parents: for i in 0..all.len() {
        let made = rule_for(theory, alloc, table, dense, block, &all[i])?;
        add_made(made, &mut rules)?;
    }
    Ok(rules)
}

/// The rules of each block.
pub fn rules_of_blocks<T: Theory>(
    theory: &T,
    alloc: Global,
    table: &Table<T::Atom, T::Value>,
    blocks: &Blocks,
    all: &[Parents],
) -> Result<Vec<Vec<StaRule<T::Atom>>>, Memory>
    requires built { IsBuilt (T.meaning theory.now) CAP table.now }
    requires few { length blocks.now.firsts.items < 2 ^ 32 }
    requires dense { length blocks.now.dense.items ≡ length table.now.found }
    requires parents { All (λ p. IsGoodParents table.now (plain_parents p)) all.now }
    ensures { IfOk result (λ rules. AreRulesOfBlocks T.Atom.eq T.atom_holds table.now blocks.now.dense.items (map plain_parents all.now) (length blocks.now.firsts.items) (plain_rules rules.items)) }
{
    let mut rules = Vec::new(alloc);
    'numbers: for block in 0..blocks.firsts.len() as u32 {
        rules.push(rules_for(theory, alloc, table, &blocks.dense, block, all)?)?;
    }
    Ok(rules)
}
