//! Which rules apply at a node.

ghost use Rattle.std.specs.Prelude.{◌≡◌, ◌<◌, map, All, drop, get_or, [], length, IfOk};
ghost use Rattle.std.specs.List.{list_all};
ghost use Rattle.model_tree.specs.Formula.{EveryAtom};
ghost use Rattle.model_tree.specs.Tree.{relabel, relabel_all, trees_of, label_of, children_of};
ghost use Rattle.model_sta.specs.Automaton.{rule_applies};
ghost use Rattle.model_sta.specs.Sets.{has, rows_meet, sets_of};
ghost use Rattle.model_sttr.specs.Terms.{with_maps};
ghost use Rattle.model_sttr.specs.Transducer.{out_rules};
ghost use Rattle.label_core.specs.Meaning.{KeepsValue};
ghost use Rattle.sta_core.specs.Machine.{plain_rule};
ghost use Rattle.sta_core.specs.Sta.{automaton_of, rule_meaning};
ghost use Rattle.sttr_core.specs.Fits.{EveryMap, LabelsFit};
ghost use Rattle.sttr_core.specs.Machine.{transducer_of};
ghost use Rattle.sttr_core.specs.Terms.{plain_term};
ghost use Rattle.apply_laws.specs.Reached.{terms_of};
ghost use Rattle.sta_marks.specs.Nodes.{nodes_of, nodes_of_all};
ghost use Rattle.sttr_apply.specs.Sizes.{size_of, StandsAt, IsScene};

use crate::sizes::Size;
use fast_fault::Memory;
use fast_tree::Tree;
use label_core::Labels;
use sta_core::StaRule;
use sta_marks::Marks;
use std::alloc::Global;
use sttr_core::{Sttr, Term};

/// A transducer at work on a tree.
#[derive(Drop)]
pub struct Scene<'a, 'r, T: Labels> {
    pub theory: &'a T,
    pub alloc: Global,
    pub sttr: &'a Sttr<T::Atom, T::Map>,
    /// The whole tree.
    pub root: &'r Tree<T::Value>,
    /// The states of the lookahead that accept the subtrees at its nodes.
    pub marks: &'a Marks,
    /// The sizes of these.
    pub sizes: &'a [Size],
}

/// Whether the node has the mark of each of the states.
fn has_each(marks: &Marks, node: u32, states: &[u64]) -> bool
    ensures { result ≡ list_all (has (get_or marks.now.rows node [])) states.now }
{
    'states: for state in states {
        if !marks.has(node, *state) {
            return false;
        }
    }
    true
}

impl<'a, 'r, T: Labels> Scene<'a, 'r, T> {
    /// The number of the node of a child, where the first child's has this number.
    pub fn number_of(&self, first: u32, children: &[Tree<T::Value>], child: usize) -> u32
        requires scene { IsScene T.label_of (automaton_of T.atom_holds self.now.sttr.now.looks) self.now.root.now self.now.sizes.now self.now.marks.now.rows }
        requires placed { StandsAt first (nodes_of_all (trees_of children.now)) (nodes_of self.now.root.now) }
        requires child { child < length children.now }
        ensures { StandsAt result (nodes_of_all (trees_of (drop child children.now))) (nodes_of self.now.root.now) }
    {
        let mut number = first;
        'skip: for _ in 0..child {
            number += self.sizes[number as usize].nodes;
        }
        number
    }

    /// Whether the children have what is demanded of them.
    fn demands_met(&self, first: u32, children: &[Tree<T::Value>], demands: &[Vec<u64>]) -> bool
        requires scene { IsScene T.label_of (automaton_of T.atom_holds self.now.sttr.now.looks) self.now.root.now self.now.sizes.now self.now.marks.now.rows }
        requires placed { StandsAt first (nodes_of_all (trees_of children.now)) (nodes_of self.now.root.now) }
        ensures { result ≡ rows_meet (sets_of (automaton_of T.atom_holds self.now.sttr.now.looks) (relabel_all T.label_of (trees_of children.now))) (map (λ d. d.items) demands.now) }
    {
        let mut number = first;
        let mut i = 0;
        'children: for child in children {
            let _ = child;
            if i >= demands.len() {
                return true;
            }
            if !has_each(self.marks, number, &demands[i]) {
                return false;
            }
            number += self.sizes[number as usize].nodes;
            i += 1;
        }
        true
    }

    /// Whether the rule applies to the tree. The guard is asked last.
    fn applies(&self, first: u32, tree: &Tree<T::Value>, rule: &StaRule<T::Atom>) -> bool
        requires scene { IsScene T.label_of (automaton_of T.atom_holds self.now.sttr.now.looks) self.now.root.now self.now.sizes.now self.now.marks.now.rows }
        requires placed { StandsAt first (nodes_of_all (children_of tree.now)) (nodes_of self.now.root.now) }
        requires atoms { EveryAtom (T.atom_fits self.now.theory.now) (plain_rule rule.now).guard }
        requires value { KeepsValue (T.meaning self.now.theory.now) (label_of tree.now) }
        ensures { result ≡ rule_applies (automaton_of T.atom_holds self.now.sttr.now.looks) (relabel T.label_of tree.now) (rule_meaning T.atom_holds (plain_rule rule.now)) }
    {
        if rule.constructor != tree.constructor() {
            return false;
        }
        if !self.demands_met(first, tree.children(), &rule.demands) {
            return false;
        }
        rule.guard.holds(self.theory, tree.label())
    }

    /// The terms of the state's rules that apply to the tree.
    pub fn terms_at(
        &self,
        first: u32,
        tree: &Tree<T::Value>,
        state: u64,
    ) -> Result<Vec<&'a Term<T::Map>>, Memory>
        requires fits { LabelsFit (T.atom_fits self.now.theory.now) (T.map_fits self.now.theory.now) self.now.sttr.now }
        requires scene { IsScene T.label_of (automaton_of T.atom_holds self.now.sttr.now.looks) self.now.root.now self.now.sizes.now self.now.marks.now.rows }
        requires placed { StandsAt first (nodes_of_all (children_of tree.now)) (nodes_of self.now.root.now) }
        requires value { KeepsValue (T.meaning self.now.theory.now) (label_of tree.now) }
        ensures terms { IfOk result (λ terms. map (λ t. with_maps T.make (plain_term t.now)) terms.items ≡ terms_of (automaton_of T.atom_holds self.now.sttr.now.looks) (relabel T.label_of tree.now) (out_rules (transducer_of T.atom_holds T.make self.now.sttr.now) state)) }
        ensures maps { IfOk result (λ terms. All (λ t. EveryMap (T.map_fits self.now.theory.now) (plain_term t.now)) terms.items) }
    {
        let mut terms = Vec::new(self.alloc);
        if state >= self.sttr.states() {
            return Ok(terms);
        }
        'rules: for rule in self.sttr.rules_of(state) {
            if !self.applies(first, tree, &rule.rule) {
                continue;
            }
            terms.push(&rule.term)?;
        }
        Ok(terms)
    }
}
