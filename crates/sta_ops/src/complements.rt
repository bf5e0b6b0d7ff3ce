//! The complement of a language, and the difference of two.

ghost use Rattle.std.specs.Prelude.{◌≡◌, ◌<◌, length, IfOk, IfErr};
ghost use Rattle.model_sta.specs.Least.{rows_of};
ghost use Rattle.sta_core.specs.Fits.{RulesFit};
ghost use Rattle.sta_core.specs.Sta.{AtomsFit};
ghost use Rattle.sta_classes.specs.Rules.{plain_rules};
ghost use Rattle.sta_classes.specs.Meant.{StopsClasses};
ghost use Rattle.sta_ops.specs.Doubled.{IsDoubledBy};
ghost use Rattle.sta_ops.specs.Languages.{HasComplement, HasDifference, IsMadeOfBoth};
ghost use Rattle.sta_ops.specs.Trimmed.{ReachesAll};

use crate::doubled::doubled;
use crate::joins::intersect;
use crate::numbers::number;
use crate::trim::trimmed;
use fast_fault::Memory;
use label_core::{Duplicate, Theory};
use sta_classes::{ClassStop, Table, classes};
use sta_core::{Lang, Sta, StaRule};
use std::alloc::Global;

/// The language of the opposite of the state.
fn opposite_of<A: Duplicate + Drop, V>(
    alloc: Global,
    table: &Table<A, V>,
    ranks: &[u32],
    rules: &[Vec<StaRule<A>>],
    state: u64,
) -> Result<Lang<A>, Memory>
    requires fit { RulesFit ranks.now rules.now }
    requires state { state < length rules.now }
    ensures { IfOk result (IsDoubledBy (rows_of table.now.found) ranks.now (plain_rules rules.now) state) }
{
    // so many constructors are out of reach of any memory
    if ranks.len() > u32::MAX as usize {
        return Err(Memory);
    }
    let opposites = number(alloc, table, rules.len() as u64)?;
    let state = opposites.numbers[state as usize];
    let rules = doubled(alloc, table, ranks, rules, &opposites)?;
    let ranks = Vec::from_slice(alloc, ranks)?;
    let sta = Sta::new(ranks, rules);
    Ok(Lang { sta, state })
}

/// The trees that are not in the language, by the states of the automaton and the opposites that are new.
fn negated<T: Theory>(
    theory: &T,
    alloc: Global,
    a: &Lang<T::Atom>,
    most: u32,
) -> Result<Lang<T::Atom>, ClassStop<T::Chain>>
    requires state { a.now.state < length a.now.sta.rules }
    requires fit { AtomsFit (T.atom_fits theory.now) a.now.sta }
    ensures language { IfOk result (HasComplement (T.meaning theory.now) a.now) }
    ensures made { IfOk result (IsMadeOfBoth (T.meaning theory.now) (T.atom_fits theory.now) a.now a.now) }
    ensures stop { IfErr result (StopsClasses (T.meaning theory.now) a.now.sta most) }
{
    let table = classes(theory, alloc, &a.sta, most)?;
    let made = opposite_of(alloc, &table, a.sta.ranks(), a.sta.rules(), a.state)?;
    Ok(made)
}

/// The trees that are not in the language.
pub fn complement<T: Theory>(
    theory: &T,
    alloc: Global,
    a: &Lang<T::Atom>,
    most: u32,
) -> Result<Lang<T::Atom>, ClassStop<T::Chain>>
    requires state { a.now.state < length a.now.sta.rules }
    requires fit { AtomsFit (T.atom_fits theory.now) a.now.sta }
    ensures language { IfOk result (HasComplement (T.meaning theory.now) a.now) }
    ensures made { IfOk result (IsMadeOfBoth (T.meaning theory.now) (T.atom_fits theory.now) a.now a.now) }
    ensures reached { IfOk result ReachesAll }
    ensures stop { IfErr result (StopsClasses (T.meaning theory.now) a.now.sta most) }
{
    let made = negated(theory, alloc, a, most)?;
    let part = trimmed(alloc, &made)?;
    Ok(part)
}

/// The trees of the first language that are not in the second.
pub fn difference<T: Theory>(
    theory: &T,
    alloc: Global,
    a: &Lang<T::Atom>,
    b: &Lang<T::Atom>,
    most: u32,
) -> Result<Lang<T::Atom>, ClassStop<T::Chain>>
    requires ranks { b.now.sta.ranks ≡ a.now.sta.ranks }
    requires first { a.now.state < length a.now.sta.rules }
    requires second { b.now.state < length b.now.sta.rules }
    requires first_fit { AtomsFit (T.atom_fits theory.now) a.now.sta }
    requires second_fit { AtomsFit (T.atom_fits theory.now) b.now.sta }
    ensures language { IfOk result (HasDifference (T.meaning theory.now) a.now b.now) }
    ensures made { IfOk result (IsMadeOfBoth (T.meaning theory.now) (T.atom_fits theory.now) a.now b.now) }
    ensures reached { IfOk result ReachesAll }
    ensures stop { IfErr result (StopsClasses (T.meaning theory.now) b.now.sta most) }
{
    let others = complement(theory, alloc, b, most)?;
    let made = intersect(theory, alloc, a, &others)?;
    Ok(made)
}
