//! Which class a node over children of given classes has.

ghost use Rattle.std.specs.Prelude.{ℕ, ◌≡◌, ◌<◌, length, map, All, IfOk, IfErr};
ghost use Rattle.std.specs.List.{list_any, list_all};
ghost use Rattle.model_tree.specs.Formula.{EveryAtom};
ghost use Rattle.model_sta.specs.Sets.{has, rows_meet, fires, step};
ghost use Rattle.model_sta.specs.Least.{rows_at};
ghost use Rattle.label_core.specs.Meaning.{KeepsValue};
ghost use Rattle.sta_core.specs.Machine.{plain_rule};
ghost use Rattle.sta_core.specs.Sta.{automaton_of, rule_meaning};
ghost use Rattle.sta_classes.specs.Guards.{all_guards, GuardsFit};
ghost use Rattle.sta_classes.specs.Meant.{IsTableOf};
ghost use Rattle.sta_classes.specs.Plain.{class_row};
ghost use Rattle.sta_classes.specs.Rules.{plain_rules};
ghost use Rattle.sta_classes.specs.Stop.{ClassStopsFor};
ghost use Rattle.sta_min.specs.Steps.{IsRead, AreRows, IsNode, IsClassOf};

use crate::firsts::number_of;
use crate::values::all_values;
use fast_fault::Memory;
use indexmap::IndexMap;
use label_core::Theory;
use sta_classes::{ClassStop, Table};
use sta_core::StaRule;
use std::alloc::Global;

/// A table with the rules that it is of, the class of each set of states, and values that tell the guards of each
/// constructor apart.
#[derive(Drop)]
pub struct Steps<'s, 't, A, V> {
    pub table: &'s Table<'t, A, V>,
    pub rules: &'s [Vec<StaRule<A>>],
    pub classes: IndexMap<Vec<bool>, u32>,
    pub values: Vec<Vec<V>>,
}

/// A constructor over children of these classes, with the value's label.
#[derive(Drop)]
pub struct Node<'n, V> {
    pub constructor: u32,
    pub value: &'n V,
    pub children: &'n [u32],
}

/// Whether the class has each of the states.
fn has_each<A, V>(table: &Table<A, V>, class: u32, states: &[u64]) -> bool
    requires { class < length table.now.found }
    ensures { result ≡ list_all (has (class_row table.now class)) states.now }
{
    for state in states {
        if !table.has(class, *state) {
            return false;
        }
    }
    true
}

/// Whether children of these classes have what is demanded of them.
fn demands_met<A, V>(table: &Table<A, V>, children: &[u32], demands: &[Vec<u64>]) -> bool
    requires { All (λ k. k < length table.now.found) children.now }
    ensures { result ≡ rows_meet (rows_at table.now.found children.now) (map (λ d. d.items) demands.now) }
{
    let mut i = 0;
    for child in children {
        if i >= demands.len() {
            return true;
        }
        if !has_each(table, *child, &demands[i]) {
            return false;
        }
        i += 1;
    }
    true
}

/// Whether the rule applies to the node.
fn applies<T: Theory>(
    theory: &T,
    table: &Table<T::Atom, T::Value>,
    rule: &StaRule<T::Atom>,
    node: &Node<T::Value>,
) -> bool
    requires fit { EveryAtom (T.atom_fits theory.now) (plain_rule rule.now).guard }
    requires value { KeepsValue (T.meaning theory.now) node.now.value.now }
    requires children { All (λ k. k < length table.now.found) node.now.children.now }
    ensures { result ≡ fires node.now.constructor (T.label_of node.now.value.now) (rows_at table.now.found node.now.children.now) (rule_meaning T.atom_holds (plain_rule rule.now)) }
{
    rule.constructor == node.constructor
        && rule.guard.holds(theory, node.value)
        && demands_met(table, node.children, &rule.demands)
}

/// Whether one of the rules applies to the node.
fn one_applies<T: Theory>(
    theory: &T,
    table: &Table<T::Atom, T::Value>,
    rules: &[StaRule<T::Atom>],
    node: &Node<T::Value>,
) -> bool
    requires fit { All (λ r. EveryAtom (T.atom_fits theory.now) (plain_rule r).guard) rules.now }
    requires value { KeepsValue (T.meaning theory.now) node.now.value.now }
    requires children { All (λ k. k < length table.now.found) node.now.children.now }
    ensures { result ≡ list_any (fires node.now.constructor (T.label_of node.now.value.now) (rows_at table.now.found node.now.children.now)) (map (rule_meaning T.atom_holds) (map plain_rule rules.now)) }
{
    for rule in rules {
        if applies(theory, table, rule, node) {
            return true;
        }
    }
    false
}

/// The states that accept trees of the node.
fn states_of<T: Theory>(
    theory: &T,
    alloc: Global,
    steps: &Steps<T::Atom, T::Value>,
    node: &Node<T::Value>,
) -> Result<Vec<bool>, Memory>
    requires read { IsRead (T.meaning theory.now) (T.atom_fits theory.now) steps.now }
    requires node { IsNode (T.meaning theory.now) steps.now.table.now node.now.constructor node.now.value.now node.now.children.now }
    ensures { IfOk result (λ row. row.items ≡ step (automaton_of T.atom_holds steps.now.table.now.machine) node.now.constructor (T.label_of node.now.value.now) (rows_at steps.now.table.now.found node.now.children.now)) }
{
    let mut row = Vec::new(alloc);
    'states: for rules in steps.rules {
        row.push(one_applies(theory, steps.table, rules, node))?;
    }
    Ok(row)
}

/// The class of the node.
pub fn class_of<T: Theory>(
    theory: &T,
    alloc: Global,
    steps: &Steps<T::Atom, T::Value>,
    node: &Node<T::Value>,
) -> Result<u32, Memory>
    requires read { IsRead (T.meaning theory.now) (T.atom_fits theory.now) steps.now }
    requires node { IsNode (T.meaning theory.now) steps.now.table.now node.now.constructor node.now.value.now node.now.children.now }
    ensures { IfOk result (IsClassOf T.atom_holds steps.now.table.now node.now.constructor (T.label_of node.now.value.now) node.now.children.now) }
{
    let row = states_of(theory, alloc, steps, node)?;
    match steps.classes.get(&row).copied() {
        Some(class) => Ok(class),
        None => Ok(0),
    }
}

/// The states that the class has, of the first so many.
fn row_of<A, V>(
    alloc: Global,
    table: &Table<A, V>,
    class: u32,
    states: u64,
) -> Result<Vec<bool>, Memory>
    requires class { class < length table.now.found }
    requires states { length (class_row table.now class) ≡ states }
    ensures { IfOk result (λ row. row.items ≡ class_row table.now class) }
{
    let mut row = Vec::new(alloc);
    'states: for state in 0..states {
        row.push(table.has(class, state))?;
    }
    Ok(row)
}

/// The class of each set of states.
pub fn classes_of<A, V>(
    alloc: Global,
    table: &Table<A, V>,
    states: u64,
) -> Result<IndexMap<Vec<bool>, u32>, Memory>
    requires states { (k : ℕ) → k < length table.now.found → length (class_row table.now k) ≡ states }
    ensures { IfOk result (AreRows table.now (length table.now.found)) }
{
    let mut classes = IndexMap::new(alloc);
    'classes: for class in 0..table.len() {
        let row = row_of(alloc, table, class, states)?;
        number_of(&mut classes, row, class)?;
    }
    Ok(classes)
}

/// What is read of a table of the rules.
pub fn steps_of<'s, 't, T: Theory>(
    theory: &T,
    alloc: Global,
    table: &'s Table<'t, T::Atom, T::Value>,
    rules: &'s [Vec<StaRule<T::Atom>>],
    constructors: u32,
) -> Result<Steps<'s, 't, T::Atom, T::Value>, ClassStop<T::Chain>>
    requires table { IsTableOf (T.meaning theory.now) table.now.machine table.now }
    requires rules { plain_rules rules.now ≡ table.now.machine.rules }
    requires fit { GuardsFit (T.atom_fits theory.now) (plain_rules rules.now) }
    requires constructors { constructors ≡ length table.now.machine.ranks }
    ensures read { IfOk result (IsRead (T.meaning theory.now) (T.atom_fits theory.now)) }
    ensures table { IfOk result (λ steps. steps.table.now ≡ table.now) }
    ensures stop { IfErr result (ClassStopsFor (T.meaning theory.now) ⊥ (all_guards (plain_rules rules.now))) }
{
    let values = all_values(theory, alloc, rules, constructors)?;
    let classes = classes_of(alloc, table, rules.len() as u64)?;
    Ok(Steps {
        table,
        rules,
        classes,
        values,
    })
}
