//! Automata with a state for "not s" beside each state s.

ghost use Rattle.std.specs.Prelude.{◌≡◌, ◌<◌, ◌^◌, length, All, IfOk, OnOk};
ghost use Rattle.model_sta.specs.Least.{rows_of};
ghost use Rattle.sta_core.specs.Fits.{RulesFit};
ghost use Rattle.sta_classes.specs.Rules.{plain_rules};
ghost use Rattle.sta_ops.specs.Doubled.{AddsOpposites};

use crate::copies::add_states;
use crate::numbers::Opposites;
use crate::opposites::opposite_rules;
use fast_fault::Memory;
use label_core::Duplicate;
use sta_classes::Table;
use sta_core::StaRule;
use std::alloc::Global;

/// Adds the new opposites.
fn add_opposites<A: Duplicate + Drop, V>(
    alloc: Global,
    table: &Table<A, V>,
    ranks: &[u32],
    rules: &[Vec<StaRule<A>>],
    opposites: &Opposites,
    doubled: &mut Vec<Vec<StaRule<A>>>,
) -> Result<(), Memory>
    requires few { length ranks.now < 2 ^ 32 }
    requires fit { RulesFit ranks.now rules.now }
    requires many { length opposites.now.numbers.items ≡ length rules.now }
    requires fresh { All (λ s. s < length rules.now) opposites.now.fresh.items }
    ensures { OnOk result (AddsOpposites opposites.now.numbers.items opposites.now.fresh.items ranks.now (rows_of table.now.found) (plain_rules rules.now) (plain_rules doubled.old.items) (plain_rules doubled.new.items)) }
{
    'fresh: for state in &opposites.fresh {
        let those = opposite_rules(
            alloc,
            table,
            ranks,
            &rules[*state as usize],
            &opposites.numbers,
        )?;
        doubled.push(those)?;
    }
    Ok(())
}

/// The rules of the states, and behind them those of the new opposites.
pub fn doubled<A: Duplicate + Drop, V>(
    alloc: Global,
    table: &Table<A, V>,
    ranks: &[u32],
    rules: &[Vec<StaRule<A>>],
    opposites: &Opposites,
) -> Result<Vec<Vec<StaRule<A>>>, Memory>
    requires few { length ranks.now < 2 ^ 32 }
    requires fit { RulesFit ranks.now rules.now }
    requires many { length opposites.now.numbers.items ≡ length rules.now }
    requires fresh { All (λ s. s < length rules.now) opposites.now.fresh.items }
    ensures { IfOk result (λ made. AddsOpposites opposites.now.numbers.items opposites.now.fresh.items ranks.now (rows_of table.now.found) (plain_rules rules.now) (plain_rules rules.now) (plain_rules made.items)) }
{
    let mut made = Vec::new(alloc);
    add_states(alloc, rules, 0, &mut made)?;
    add_opposites(alloc, table, ranks, rules, opposites, &mut made)?;
    Ok(made)
}
