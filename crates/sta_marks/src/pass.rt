//! One pass over a tree.

ghost use Rattle.std.specs.Prelude.{◌≡◌, ◌≢◌, ◌<◌, ◌++◌, [], ◌&&◌, length, map, get_or, All, IfOk, OnOk};
ghost use Rattle.std.specs.List.{list_all};
ghost use Rattle.model_tree.specs.Formula.{EveryAtom};
ghost use Rattle.model_tree.specs.Tree.{relabel, constructor_of, label_of, EveryLabel};
ghost use Rattle.model_sta.specs.Sets.{has, rows_meet, step};
ghost use Rattle.label_core.specs.Meaning.{KeepsValue};
ghost use Rattle.sta_core.specs.Machine.{plain_rule};
ghost use Rattle.sta_core.specs.Sta.{automaton_of, rule_meaning, AtomsFit};
ghost use Rattle.sta_marks.specs.Nodes.{marks_of};
ghost use Rattle.sta_marks.specs.Rows.{no_state, rows_at, with_row};
ghost use Rattle.sta_marks.specs.Rules.{applies, plain_owned, AreGrouped};
ghost use Rattle.sta_marks.specs.Filled.{tried, tried_each};

use crate::marks::Marks;
use crate::rules::{Owned, Table};
use fast_fault::Memory;
use fast_tree::Tree;
use label_core::Theory;
use sta_core::{Sta, StaRule};
use std::alloc::Global;

/// Whether the node has the mark of each of the states.
fn has_each(marks: &Marks, node: usize, states: &[u64]) -> bool
    ensures { result ≡ list_all (has (get_or marks.now.rows node [])) states.now }
{
    for state in states {
        if !marks.is_marked(node, *state as usize) {
            return false;
        }
    }
    true
}

/// Whether each of the children has the marks that are demanded of it.
fn demands_met(marks: &Marks, children: &[usize], demands: &[Vec<u64>]) -> bool
    ensures { result ≡ rows_meet (rows_at marks.now children.now) (map (λ d. d.items) demands.now) }
{
    let mut i = 0;
    for child in children {
        if i >= demands.len() {
            return true;
        }
        if !has_each(marks, *child, &demands[i]) {
            return false;
        }
        i += 1;
    }
    true
}

/// Whether the rule applies to a node with the value over the children. The guard is asked last.
fn applies<T: Theory>(
    theory: &T,
    rule: &StaRule<T::Atom>,
    value: &T::Value,
    children: &[usize],
    marks: &Marks,
) -> bool
    requires fit { EveryAtom (T.atom_fits theory.now) (plain_rule rule.now).guard }
    requires value { KeepsValue (T.meaning theory.now) value.now }
    ensures { result ≡ applies (T.label_of value.now) (rows_at marks.now children.now) (rule_meaning T.atom_holds (plain_rule rule.now)) }
{
    demands_met(marks, children, &rule.demands) && rule.guard.holds(theory, value)
}

/// Marks the node with the state of the rule, if the rule applies. A state that it has isn't asked for again.
fn try_rule<T: Theory>(
    theory: &T,
    own: &Owned<T::Atom>,
    value: &T::Value,
    node: usize,
    children: &[usize],
    marks: &mut Marks,
)
    requires fit { EveryAtom (T.atom_fits theory.now) (plain_owned own.now).1.guard }
    requires value { KeepsValue (T.meaning theory.now) value.now }
    requires node { node < length marks.old.rows }
    requires state { own.now.state < marks.old.states }
    ensures { marks.new ≡ with_row marks.old node (tried T.atom_holds (T.label_of value.now) (rows_at marks.old children.now) (get_or marks.old.rows node []) (plain_owned own.now)) }
{
    if marks.is_marked(node, own.state) {
        return;
    }
    if applies(theory, own.rule, value, children, marks) {
        marks.put(node, own.state);
    }
}

/// Tries each of the rules.
fn try_rules<T: Theory>(
    theory: &T,
    list: &[Owned<T::Atom>],
    value: &T::Value,
    node: usize,
    children: &[usize],
    marks: &mut Marks,
)
    requires fit { All (λ x. EveryAtom (T.atom_fits theory.now) (plain_owned x).1.guard) list.now }
    requires value { KeepsValue (T.meaning theory.now) value.now }
    requires node { node < length marks.old.rows }
    requires low { All (λ x. x.state < marks.old.states) list.now }
    requires apart { All (λ k. k ≢ node) children.now }
    ensures { marks.new ≡ with_row marks.old node (tried_each T.atom_holds (T.label_of value.now) (rows_at marks.old children.now) (get_or marks.old.rows node []) (map plain_owned list.now)) }
{
    'rules: for own in list {
        try_rule(theory, own, value, node, children, marks);
    }
}

/// Marks the node of the tree's root, once its children have their marks.
fn mark_root<T: Theory>(
    theory: &T,
    table: &Table<T::Atom>,
    tree: &Tree<T::Value>,
    node: usize,
    children: &[usize],
    marks: &mut Marks,
)
    requires grouped { AreGrouped table.now.sta.now table.now.lists.items }
    requires fits { AtomsFit (T.atom_fits theory.now) table.now.sta.now }
    requires value { KeepsValue (T.meaning theory.now) (label_of tree.now) }
    requires node { node < length marks.old.rows }
    requires states { marks.old.states ≡ length table.now.sta.now.rules }
    requires blank { get_or marks.old.rows node [] ≡ no_state marks.old.states }
    requires apart { All (λ k. k ≢ node) children.now }
    ensures { marks.new ≡ with_row marks.old node (step (automaton_of T.atom_holds table.now.sta.now) (constructor_of tree.now) (T.label_of (label_of tree.now)) (rows_at marks.old children.now)) }
{
    let constructor = tree.constructor() as usize;
    if constructor >= table.lists.len() {
        return;
    }
    try_rules(
        theory,
        &table.lists[constructor],
        tree.label(),
        node,
        children,
        marks,
    );
}

/// Adds the nodes of the tree with their marks.
#[tactic(auto, using(crate::proofs::Passed::on_marks))]
fn mark<T: Theory>(
    theory: &T,
    alloc: Global,
    table: &Table<T::Atom>,
    tree: &Tree<T::Value>,
    marks: &mut Marks,
) -> Result<(), Memory>
    requires grouped { AreGrouped table.now.sta.now table.now.lists.items }
    requires fits { AtomsFit (T.atom_fits theory.now) table.now.sta.now }
    requires labels { EveryLabel (KeepsValue (T.meaning theory.now)) tree.now }
    requires states { marks.old.states ≡ length table.now.sta.now.rules }
    ensures states { OnOk result (marks.new.states ≡ marks.old.states) }
    ensures rows { OnOk result (marks.new.rows ≡ marks.old.rows ++ marks_of (automaton_of T.atom_holds table.now.sta.now) (relabel T.label_of tree.now)) }
{
    let node = marks.nodes();
    marks.add()?;
    let mut children = Vec::new(alloc);
    for child in tree.children() {
        children.push(marks.nodes())?;
        mark(theory, alloc, table, child, marks)?;
    }
    mark_root(theory, table, tree, node, &children, marks);
    Ok(())
}

/// Marks each node of the tree with the states that accept the subtree at it.
pub fn mark_nodes<T: Theory>(
    theory: &T,
    alloc: Global,
    sta: &Sta<T::Atom>,
    tree: &Tree<T::Value>,
) -> Result<Marks, Memory>
    requires fits { AtomsFit (T.atom_fits theory.now) sta.now }
    requires labels { EveryLabel (KeepsValue (T.meaning theory.now)) tree.now }
    ensures { IfOk result (λ marks. marks.rows ≡ marks_of (automaton_of T.atom_holds sta.now) (relabel T.label_of tree.now)) }
{
    let table = Table::new(alloc, sta)?;
    let mut marks = Marks::new(alloc, sta.states() as usize);
    mark(theory, alloc, &table, tree, &mut marks)?;
    Ok(marks)
}
