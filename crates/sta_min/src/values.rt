//! Labels that tell the guards of a constructor apart.

ghost use Rattle.std.specs.Prelude.{◌<◌, ◌≡◌, ◌^◌, length, map, IfOk, OnOk, IfErr};
ghost use Rattle.label_core.specs.Formula.{plain_formula};
ghost use Rattle.label_split.specs.Signs.{FormulasFit, signs_at};
ghost use Rattle.label_split.specs.Split.{SplitsInto};
ghost use Rattle.sta_core.specs.Machine.{plain_rule};
ghost use Rattle.sta_classes.specs.Grow.{Grown, Some};
ghost use Rattle.sta_classes.specs.Guards.{all_guards, GuardsFit};
ghost use Rattle.sta_classes.specs.Rows.{lists_of};
ghost use Rattle.sta_classes.specs.Rules.{plain_rules};
ghost use Rattle.sta_classes.specs.Stop.{ClassStopsFor};
ghost use Rattle.sta_min.specs.Values.{IsGuardAt, AreGuardsAt, TellApart, TellAllApart};

use fast_fault::Memory;
use label_core::{Duplicate, Formula, Theory};
use label_split::{SignRow, SplitStop, split};
use sta_classes::ClassStop;
use sta_core::StaRule;
use std::alloc::Global;

/// Adds the rule's guard, if it has the constructor.
fn add_guard<A: Duplicate + Drop>(
    alloc: Global,
    rule: &StaRule<A>,
    constructor: u32,
    guards: &mut Vec<Formula<A>>,
) -> Result<(), Memory>
    ensures { OnOk result (Grown (map plain_formula guards.old.items) (map plain_formula guards.new.items) (IsGuardAt constructor (plain_rule rule.now))) }
{
    if rule.constructor == constructor {
        guards.push(rule.guard.copy(alloc)?)?;
    }
    Ok(())
}

/// Adds the guards of those of the rules that have the constructor.
fn add_guards<A: Duplicate + Drop>(
    alloc: Global,
    rules: &[StaRule<A>],
    constructor: u32,
    guards: &mut Vec<Formula<A>>,
) -> Result<(), Memory>
    ensures { OnOk result (Grown (map plain_formula guards.old.items) (map plain_formula guards.new.items) (Some (λ r. IsGuardAt constructor (plain_rule r)) rules.now)) }
{
    'rules: for rule in rules {
        add_guard(alloc, rule, constructor, guards)?;
    }
    Ok(())
}

/// The guards of all rules with the constructor.
fn guards_at<A: Duplicate + Drop>(
    alloc: Global,
    rules: &[Vec<StaRule<A>>],
    constructor: u32,
) -> Result<Vec<Formula<A>>, Memory>
    ensures { IfOk result (λ guards. AreGuardsAt (plain_rules rules.now) constructor (map plain_formula guards.items)) }
{
    let mut guards = Vec::new(alloc);
    'states: for those in rules {
        add_guards(alloc, those, constructor, &mut guards)?;
    }
    Ok(guards)
}

/// The values of the rows.
fn values_in<V: Drop>(alloc: Global, rows: Vec<SignRow<V>>) -> Result<Vec<V>, Memory>
    ensures { IfOk result (λ values. values.items ≡ map (λ r. r.value) rows.items) }
{
    let mut values = Vec::new(alloc);
    for row in rows {
        values.push(row.value)?;
    }
    Ok(values)
}

/// The rows of signs of the guards.
fn rows_at<T: Theory>(
    theory: &T,
    alloc: Global,
    guards: &[Formula<T::Atom>],
) -> Result<Vec<SignRow<T::Value>>, ClassStop<T::Chain>>
    requires fit { FormulasFit (T.atom_fits theory.now) guards.now }
    ensures rows { IfOk result (λ rows. SplitsInto (T.meaning theory.now) (signs_at T.atom_holds guards.now) rows.items) }
    ensures stop { IfErr result (ClassStopsFor (T.meaning theory.now) ⊥ (map plain_formula guards.now)) }
{
    match split(theory, alloc, guards, u32::MAX) {
        Ok(rows) => Ok(rows),
        Err(SplitStop::Wide(chain)) => Err(ClassStop::Wide(chain)),
        Err(SplitStop::TooMany) => Err(ClassStop::Memory),
        Err(SplitStop::Memory) => Err(ClassStop::Memory),
    }
}

/// A value for each row of truth values that the guards of all rules with the constructor have.
fn values_at<T: Theory>(
    theory: &T,
    alloc: Global,
    rules: &[Vec<StaRule<T::Atom>>],
    constructor: u32,
) -> Result<Vec<T::Value>, ClassStop<T::Chain>>
    requires fit { GuardsFit (T.atom_fits theory.now) (plain_rules rules.now) }
    ensures tell { IfOk result (λ values. TellApart (T.meaning theory.now) (plain_rules rules.now) constructor values.items) }
    ensures stop { IfErr result (ClassStopsFor (T.meaning theory.now) ⊥ (all_guards (plain_rules rules.now))) }
{
    let guards = guards_at(alloc, rules, constructor)?;
    let rows = rows_at(theory, alloc, &guards)?;
    Ok(values_in(alloc, rows)?)
}

/// The same for each constructor.
pub fn all_values<T: Theory>(
    theory: &T,
    alloc: Global,
    rules: &[Vec<StaRule<T::Atom>>],
    constructors: u32,
) -> Result<Vec<Vec<T::Value>>, ClassStop<T::Chain>>
    requires fit { GuardsFit (T.atom_fits theory.now) (plain_rules rules.now) }
    ensures tell { IfOk result (λ values. TellAllApart (T.meaning theory.now) (plain_rules rules.now) constructors (lists_of values.items)) }
    ensures stop { IfErr result (ClassStopsFor (T.meaning theory.now) ⊥ (all_guards (plain_rules rules.now))) }
{
    let mut values = Vec::new(alloc);
    'constructors: for constructor in 0..constructors {
        values.push(values_at(theory, alloc, rules, constructor)?)?;
    }
    Ok(values)
}
