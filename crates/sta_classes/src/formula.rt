//! The formula of the labels over which children of given classes have a given set.

ghost use Rattle.std.specs.Prelude.{◌≡◌, ◌<◌, ◌==◌, ◌&&◌, length, map, IfOk, All};
ghost use Rattle.model_sta.specs.Sets.{rows_meet};
ghost use Rattle.label_core.specs.Formula.{plain_formula};
ghost use Rattle.sta_core.specs.Machine.{plain_rule};
ghost use Rattle.sta_classes.specs.Guards.{firing_guards};
ghost use Rattle.sta_classes.specs.RowFormula.{signed, some_fires, row_formula};
ghost use Rattle.sta_classes.specs.Rows.{class_rows_at};
ghost use Rattle.sta_classes.specs.Rules.{plain_rules};

use crate::class::{Class, demands_met};
use crate::row::Row;
use fast_fault::Memory;
use label_core::{Duplicate, Formula, added, conjunction, disjunction, negation};
use sta_core::StaRule;
use std::alloc::Global;

/// Holds of the labels over which such children have the state, or of those over which they don't.
fn state_formula<A: Duplicate + Drop, V>(
    alloc: Global,
    rules: &[StaRule<A>],
    constructor: u32,
    found: &[Class<V>],
    children: &[usize],
    sign: bool,
) -> Result<Formula<A>, Memory>
    requires children { All (λ k. k < length found.now) children.now }
    ensures { IfOk result (λ formula. plain_formula formula ≡ signed sign (some_fires constructor (class_rows_at found.now children.now) (map plain_rule rules.now))) }
{
    let mut guards = Vec::new(alloc);
    for rule in rules {
        if rule.constructor == constructor && demands_met(found, children, &rule.demands) {
            added(&mut guards, rule.guard.copy(alloc))?;
        }
    }
    let fires = disjunction(guards);
    if sign {
        return Ok(fires);
    }
    negation(alloc, fires)
}

/// Holds of exactly the labels over which such children have the row.
pub fn row_formula<A: Duplicate + Drop, V>(
    alloc: Global,
    rules: &[Vec<StaRule<A>>],
    constructor: u32,
    found: &[Class<V>],
    children: &[usize],
    row: &Row,
) -> Result<Formula<A>, Memory>
    requires children { All (λ k. k < length found.now) children.now }
    requires row { length row.now ≡ length rules.now }
    ensures { IfOk result (λ formula. plain_formula formula ≡ row_formula constructor (class_rows_at found.now children.now) (plain_rules rules.now) row.now) }
{
    let mut parts = Vec::new(alloc);
    for i in 0..rules.len() {
        let part = state_formula(
            alloc,
            &rules[i],
            constructor,
            found,
            children,
            row.has(i as u64),
        );
        added(&mut parts, part)?;
    }
    Ok(conjunction(parts))
}

/// The numbers as places.
pub fn places(alloc: Global, numbers: &[u32]) -> Result<Vec<usize>, Memory>
    ensures { IfOk result (λ made. made.items ≡ numbers.now) }
{
    let mut made = Vec::new(alloc);
    for number in numbers {
        made.push(*number as usize)?;
    }
    Ok(made)
}
