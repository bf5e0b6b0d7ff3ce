//! The rules of an automaton by their constructors.

ghost use Rattle.std.specs.Prelude.{◌≡◌, ◌++◌, map, IfOk, OnOk};
ghost use Rattle.sta_core.specs.Machine.{plain_rule};
ghost use Rattle.sta_marks.specs.Rules.{plain_rules, owned_one, owned_of, owned_from, plain_owned, AreGrouped};

use fast_fault::Memory;
use sta_core::{Sta, StaRule};
use std::alloc::Global;

/// A rule, and the state that it is of.
#[derive(Drop)]
pub struct Owned<'a, A> {
    pub state: usize,
    pub rule: &'a StaRule<A>,
}

/// An automaton, and the rules of each constructor.
#[derive(Drop)]
pub struct Table<'a, A> {
    pub sta: &'a Sta<A>,
    pub lists: Vec<Vec<Owned<'a, A>>>,
}

/// Adds the rule, if it has the constructor.
fn add_rule<'a, A>(
    rule: &'a StaRule<A>,
    state: usize,
    constructor: usize,
    list: &mut Vec<Owned<'a, A>>,
) -> Result<(), Memory>
    ensures { OnOk result (map plain_owned list.new.items ≡ map plain_owned list.old.items ++ owned_one constructor state (plain_rule rule.now)) }
{
    if rule.constructor as usize == constructor {
        list.push(Owned { state, rule })?;
    }
    Ok(())
}

/// Adds those of the rules that have the constructor.
fn add_rules<'a, A>(
    rules: &'a [StaRule<A>],
    state: usize,
    constructor: usize,
    list: &mut Vec<Owned<'a, A>>,
) -> Result<(), Memory>
    ensures { OnOk result (map plain_owned list.new.items ≡ map plain_owned list.old.items ++ owned_of constructor state (map plain_rule rules.now)) }
{
    'rules: for rule in rules {
        add_rule(rule, state, constructor, list)?;
    }
    Ok(())
}

/// The rules of all states that have the constructor.
fn rules_with<'a, A>(
    alloc: Global,
    rules: &'a [Vec<StaRule<A>>],
    constructor: usize,
) -> Result<Vec<Owned<'a, A>>, Memory>
    ensures { IfOk result (λ list. map plain_owned list.items ≡ owned_from constructor 0 (plain_rules rules.now)) }
{
    let mut list = Vec::new(alloc);
    'states: for state in 0..rules.len() {
        add_rules(&rules[state], state, constructor, &mut list)?;
    }
    Ok(list)
}

impl<'a, A> Table<'a, A> {
    /// The rules of the automaton by their constructors.
    pub fn new(alloc: Global, sta: &'a Sta<A>) -> Result<Table<'a, A>, Memory>
        ensures sta { IfOk result (λ table. table.sta.now ≡ sta.now) }
        ensures grouped { IfOk result (λ table. AreGrouped table.sta.now table.lists.items) }
    {
        let rules = sta.rules();
        let mut lists = Vec::new(alloc);
        'constructors: for constructor in 0..sta.ranks().len() {
            lists.push(rules_with(alloc, rules, constructor)?)?;
        }
        Ok(Table { sta, lists })
    }
}
