//! The union and the intersection of two languages.

ghost use Rattle.std.specs.Prelude.{◌≡◌, ◌<◌, ◌+◌, length, IfOk};
ghost use Rattle.sta_core.specs.Fits.{RulesFit};
ghost use Rattle.sta_core.specs.Sta.{AtomsFit};
ghost use Rattle.sta_classes.specs.Rules.{plain_rules};
ghost use Rattle.sta_ops.specs.Languages.{HasUnion, HasIntersection, IsMadeOfBoth};
ghost use Rattle.sta_ops.specs.Trimmed.{ReachesAll};

use crate::copies::{beside, either};
use crate::pairs::both;
use crate::trim::trimmed;
use fast_fault::Memory;
use label_core::Theory;
use sta_core::{Lang, Sta, StaRule};
use std::alloc::Global;

/// The language of the last state.
fn last_state<A: Drop>(
    alloc: Global,
    ranks: &[u32],
    rules: Vec<Vec<StaRule<A>>>,
) -> Result<Lang<A>, Memory>
    requires fit { RulesFit ranks.now rules.items }
    requires some { 0 < length rules.items }
    ensures ranks { IfOk result (λ made. made.sta.ranks ≡ ranks.now) }
    ensures rules { IfOk result (λ made. made.sta.rules ≡ plain_rules rules.items) }
    ensures state { IfOk result (λ made. made.state + 1 ≡ length rules.items) }
{
    let ranks = Vec::from_slice(alloc, ranks)?;
    let state = rules.len() as u64 - 1;
    let sta = Sta::new(ranks, rules);
    Ok(Lang { sta, state })
}

/// The trees that are in either language, by the states of both automata and one more.
fn united<T: Theory>(
    theory: &T,
    alloc: Global,
    a: &Lang<T::Atom>,
    b: &Lang<T::Atom>,
) -> Result<Lang<T::Atom>, Memory>
    requires ranks { b.now.sta.ranks ≡ a.now.sta.ranks }
    requires first { a.now.state < length a.now.sta.rules }
    requires second { b.now.state < length b.now.sta.rules }
    requires first_fit { AtomsFit (T.atom_fits theory.now) a.now.sta }
    requires second_fit { AtomsFit (T.atom_fits theory.now) b.now.sta }
    ensures language { IfOk result (HasUnion (T.meaning theory.now) a.now b.now) }
    ensures made { IfOk result (IsMadeOfBoth (T.meaning theory.now) (T.atom_fits theory.now) a.now b.now) }
{
    let first = a.sta.rules();
    let second = b.sta.rules();
    let mut rules = beside(alloc, first, second)?;
    let by = first.len() as u64;
    rules.push(either(
        alloc,
        &first[a.state as usize],
        &second[b.state as usize],
        by,
    )?)?;
    last_state(alloc, a.sta.ranks(), rules)
}

/// The trees that are in either language.
pub fn union<T: Theory>(
    theory: &T,
    alloc: Global,
    a: &Lang<T::Atom>,
    b: &Lang<T::Atom>,
) -> Result<Lang<T::Atom>, Memory>
    requires ranks { b.now.sta.ranks ≡ a.now.sta.ranks }
    requires first { a.now.state < length a.now.sta.rules }
    requires second { b.now.state < length b.now.sta.rules }
    requires first_fit { AtomsFit (T.atom_fits theory.now) a.now.sta }
    requires second_fit { AtomsFit (T.atom_fits theory.now) b.now.sta }
    ensures language { IfOk result (HasUnion (T.meaning theory.now) a.now b.now) }
    ensures made { IfOk result (IsMadeOfBoth (T.meaning theory.now) (T.atom_fits theory.now) a.now b.now) }
    ensures reached { IfOk result ReachesAll }
{
    let made = united(theory, alloc, a, b)?;
    let part = trimmed(alloc, &made)?;
    Ok(part)
}

/// The trees that are in both languages, by the states of both automata and one more.
fn intersected<T: Theory>(
    theory: &T,
    alloc: Global,
    a: &Lang<T::Atom>,
    b: &Lang<T::Atom>,
) -> Result<Lang<T::Atom>, Memory>
    requires ranks { b.now.sta.ranks ≡ a.now.sta.ranks }
    requires first { a.now.state < length a.now.sta.rules }
    requires second { b.now.state < length b.now.sta.rules }
    requires first_fit { AtomsFit (T.atom_fits theory.now) a.now.sta }
    requires second_fit { AtomsFit (T.atom_fits theory.now) b.now.sta }
    ensures language { IfOk result (HasIntersection (T.meaning theory.now) a.now b.now) }
    ensures made { IfOk result (IsMadeOfBoth (T.meaning theory.now) (T.atom_fits theory.now) a.now b.now) }
{
    let first = a.sta.rules();
    let second = b.sta.rules();
    let mut rules = beside(alloc, first, second)?;
    let by = first.len() as u64;
    rules.push(both(
        alloc,
        &first[a.state as usize],
        &second[b.state as usize],
        by,
    )?)?;
    last_state(alloc, a.sta.ranks(), rules)
}

/// The trees that are in both languages.
pub fn intersect<T: Theory>(
    theory: &T,
    alloc: Global,
    a: &Lang<T::Atom>,
    b: &Lang<T::Atom>,
) -> Result<Lang<T::Atom>, Memory>
    requires ranks { b.now.sta.ranks ≡ a.now.sta.ranks }
    requires first { a.now.state < length a.now.sta.rules }
    requires second { b.now.state < length b.now.sta.rules }
    requires first_fit { AtomsFit (T.atom_fits theory.now) a.now.sta }
    requires second_fit { AtomsFit (T.atom_fits theory.now) b.now.sta }
    ensures language { IfOk result (HasIntersection (T.meaning theory.now) a.now b.now) }
    ensures made { IfOk result (IsMadeOfBoth (T.meaning theory.now) (T.atom_fits theory.now) a.now b.now) }
    ensures reached { IfOk result ReachesAll }
{
    let made = intersected(theory, alloc, a, b)?;
    let part = trimmed(alloc, &made)?;
    Ok(part)
}
