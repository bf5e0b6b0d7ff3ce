//! The rules of one constructor, of all states.

ghost use Rattle.std.specs.Prelude.{◌≡◌, true, not, map, IfOk};
ghost use Rattle.std.specs.List.{list_all};
ghost use Rattle.label_core.specs.Formula.{plain_formula};
ghost use Rattle.sta_core.specs.Machine.{plain_rule};
ghost use Rattle.sta_classes.specs.Applying.{is_fixed, meets_at, chosen, guards_in, IsRules, AreRules};

use crate::class::row_has_each;
use crate::likes::likes_of;
use crate::row::Row;
use fast_fault::Memory;
use label_core::{Duplicate, Formula, added, both};
use sta_core::StaRule;
use std::alloc::Global;
use std::hash::Hash;

/// A rule, and the state that it is of.
#[derive(Drop)]
pub struct Owned<'a, A> {
    pub state: usize,
    pub rule: &'a StaRule<A>,
}

/// The rules of one constructor.
#[derive(Drop)]
pub struct Rules<'a, A> {
    pub list: Vec<Owned<'a, A>>,
    /// For each of them, the state that it is of.
    pub states: Vec<usize>,
    /// The numbers of all of them.
    pub all: Row,
    /// The numbers of those with a guard that isn't left out.
    pub guarded: Row,
    /// For each of them, the number of one with the same guard.
    pub likes: Vec<usize>,
}

/// Whether no atom stands in the formula, so that no label needs to be asked.
#[cycle(fixed)]
fn is_fixed<A>(formula: &Formula<A>) -> bool
    ensures { result ≡ is_fixed (plain_formula formula.now) }
{
    match formula {
        Formula::Yes | Formula::No => true,
        Formula::Atom(_) => false,
        Formula::Not(inner) => is_fixed(inner),
        Formula::And(parts) => are_fixed(parts),
        Formula::Or(parts) => are_fixed(parts),
    }
}

/// The same of each of the formulas.
#[cycle(fixed)]
fn are_fixed<A>(formulas: &[Formula<A>]) -> bool
    ensures { result ≡ list_all (λ f. is_fixed (plain_formula f)) formulas.now }
{
    for formula in formulas {
        if !is_fixed(formula) {
            return false;
        }
    }
    true
}

/// The state of each rule, the numbers of all of them, and those of the rules with a guard that has atoms.
fn numbers_of<A>(alloc: Global, list: &[Owned<A>]) -> Result<(Vec<usize>, Row, Row), Memory>
    ensures { IfOk result (λ made. (made.0.items ≡ map (λ x. x.state) list.now) × (made.1 ≡ map (λ x. true) list.now) × (made.2 ≡ map (λ x. not (is_fixed (plain_rule x.rule.now).guard)) list.now)) }
{
    let places = list.len();
    let (mut all, mut guarded) = both(Row::new(alloc, places), Row::new(alloc, places))?;
    let mut states = Vec::new(alloc);
    for i in 0..list.len() {
        states.push(list[i].state)?;
        let rule = list[i].rule;
        all.put(i, true);
        guarded.put(i, !is_fixed(&rule.guard));
    }
    Ok((states, all, guarded))
}

/// The numbers of the rules whose demands at the place the row meets.
pub fn met_at<A>(alloc: Global, list: &[Owned<A>], place: usize, row: &Row) -> Result<Row, Memory>
    ensures { IfOk result (λ made. made ≡ map (λ x. meets_at place row.now (plain_rule x.rule.now)) list.now) }
{
    let mut made = Row::new(alloc, list.len())?;
    for i in 0..list.len() {
        let rule = list[i].rule;
        let meets = place >= rule.demands.len() || row_has_each(row, &rule.demands[place]);
        made.put(i, meets);
    }
    Ok(made)
}

/// The guards of the rules with these numbers.
pub fn guards_of<A: Duplicate + Drop>(
    alloc: Global,
    list: &[Owned<A>],
    numbers: &Row,
) -> Result<Vec<Formula<A>>, Memory>
    ensures { IfOk result (λ guards. map plain_formula guards.items ≡ chosen numbers.now (guards_in list.now)) }
{
    let mut guards = Vec::new(alloc);
    for i in 0..list.len() {
        if numbers.has(i as u64) {
            let rule = list[i].rule;
            added(&mut guards, rule.guard.copy(alloc))?;
        }
    }
    Ok(guards)
}

impl<'a, A: Eq + Hash> Rules<'a, A> {
    /// The rules of all states that have the constructor.
    pub fn new(
        alloc: Global,
        rules: &'a [Vec<StaRule<A>>],
        constructor: u32,
    ) -> Result<Rules<'a, A>, Memory>
        ensures { IfOk result (IsRules A.eq rules.now constructor) }
    {
        let mut list = Vec::new(alloc);
        'states: for state in 0..rules.len() {
            'rules: for rule in &rules[state] {
                if rule.constructor == constructor {
                    list.push(Owned { state, rule })?;
                }
            }
        }
        let ((states, all, guarded), likes) = both(
            numbers_of(alloc, &list),
            likes_of(alloc, &list),
        )?;
        Ok(Rules {
            list,
            states,
            all,
            guarded,
            likes,
        })
    }
}

/// The rules of each constructor.
pub fn each_rules<'a, A: Eq + Hash>(
    alloc: Global,
    rules: &'a [Vec<StaRule<A>>],
    constructors: usize,
) -> Result<Vec<Rules<'a, A>>, Memory>
    ensures { IfOk result (λ each. AreRules A.eq rules.now constructors each.items) }
{
    // an automaton of so many constructors is out of reach of any memory
    if constructors > u32::MAX as usize {
        return Err(Memory);
    }
    let mut each = Vec::new(alloc);
    'constructors: for constructor in 0..constructors {
        added(&mut each, Rules::new(alloc, rules, constructor as u32))?;
    }
    Ok(each)
}
