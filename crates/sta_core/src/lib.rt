//! Alternating tree automata over any label theory, and which trees their states accept.
//!
//! Its promise: the answer of `accepts` is exactly acceptance, and it takes no memory, so it can't fail.
#![tactic(auto)]

ghost use Rattle.std.specs.Prelude.{◌≡◌, ◌<◌, [], length, map, All, slice_index_or};
ghost use Rattle.std.specs.List.{list_all};
ghost use Rattle.model_tree.specs.Tree.{relabel, relabel_all, trees_of, EveryLabel};
ghost use Rattle.model_sta.specs.Automaton.{is_accepted, meet_demands, rule_applies};
ghost use Rattle.model_tree.specs.Formula.{EveryAtom};
ghost use Rattle.label_core.specs.Formula.{plain_formula};
ghost use Rattle.label_core.specs.Meaning.{KeepsValue};
ghost use Rattle.sta_core.specs.Fits.{RuleFits, RulesFit};
ghost use Rattle.sta_core.specs.Machine.{plain_rule};
ghost use Rattle.sta_core.specs.Sta.{automaton_of, rule_meaning, AtomsFit};

use fast_tree::Tree;
use label_core::{Formula, Theory};
use std::marker::Model;

/// A rule of a state.
#[derive(Drop)]
pub struct StaRule<A> {
    pub constructor: u32,
    pub guard: Formula<A>,
    pub demands: Vec<Vec<u64>>,
}

/// The ranks of the constructors, and the rules of each state, which fit.
#[derive(Drop)]
pub struct Sta<A> {
    ranks: Vec<u32>,
    rules: Vec<Vec<StaRule<A>>>,
}

impl<A> Model for Sta<A> {
    ghost use Rattle.std.specs.Prelude.{map};
    ghost use Rattle.sta_core.specs.Fits.{RulesFit};
    ghost use Rattle.sta_core.specs.Machine.{Machine, coded_machine, plain_rule};

    ghost Value = { Machine A };

    ghost coded = { coded_machine A.code };

    ghost view = { λ s. record { ranks = s.ranks.items; rules = map (λ those. map plain_rule those.items) s.rules.items } };

    ghost invariant = { λ s. RulesFit s.ranks.items s.rules.items };
}

impl<A> Sta<A> {
    /// Rules that fit make an automaton.
    pub fn new(ranks: Vec<u32>, rules: Vec<Vec<StaRule<A>>>) -> Sta<A>
        requires { RulesFit ranks.items rules.items }
        ensures { result ≡ record { ranks = ranks.items; rules = map (λ those. map plain_rule those.items) rules.items } }
    {
        Sta { ranks, rules }
    }

    /// How many states there are.
    pub fn states(&self) -> u64
        ensures { result ≡ length self.now.rules }
    {
        self.rules.len() as u64
    }

    /// How many children each constructor has.
    pub fn ranks(&self) -> &[u32]
        ensures { result.now ≡ self.now.ranks }
    {
        &self.ranks
    }

    /// The rules of each state.
    #[tactic(auto, using(crate::proofs::Meaning::on_machines))]
    pub fn rules(&self) -> &[Vec<StaRule<A>>]
        ensures rules { map (λ those. map plain_rule those.items) result.now ≡ self.now.rules }
        ensures fit { All (λ those. All (RuleFits self.now.ranks (length self.now.rules)) those.items) result.now }
    {
        &self.rules
    }

    /// The rules of a state.
    #[tactic(auto, using(crate::proofs::Meaning::on_machines))]
    pub fn rules_of(&self, state: u64) -> &[StaRule<A>]
        requires { state < length self.now.rules }
        ensures rules { map plain_rule result.now ≡ slice_index_or self.now.rules state [] }
        ensures fit { All (RuleFits self.now.ranks (length self.now.rules)) result.now }
    {
        &self.rules[state as usize]
    }
}

/// The trees that a state accepts.
#[derive(Drop)]
pub struct Lang<A> {
    pub sta: Sta<A>,
    pub state: u64,
}

/// Whether the state accepts the tree. Takes no memory.
#[cycle(accepts)]
#[tactic(auto, using(crate::proofs::Meaning::on_rules))]
pub fn accepts<T: Theory>(theory: &T, sta: &Sta<T::Atom>, state: u64, tree: &Tree<T::Value>) -> bool
    requires fits { AtomsFit (T.atom_fits theory.now) sta.now }
    requires state { state < length sta.now.rules }
    requires labels { EveryLabel (KeepsValue (T.meaning theory.now)) tree.now }
    ensures { result ≡ is_accepted (automaton_of T.atom_holds sta.now) (relabel T.label_of tree.now) state }
{
    for rule in sta.rules_of(state) {
        if applies(theory, sta, rule, tree) {
            return true;
        }
    }
    false
}

/// Whether the rule applies to the tree.
#[cycle(accepts)]
#[tactic(auto, using(crate::proofs::Meaning::on_rules))]
fn applies<T: Theory>(
    theory: &T,
    sta: &Sta<T::Atom>,
    rule: &StaRule<T::Atom>,
    tree: &Tree<T::Value>,
) -> bool
    requires fits { AtomsFit (T.atom_fits theory.now) sta.now }
    requires atoms { EveryAtom (T.atom_fits theory.now) (plain_formula rule.now.guard) }
    requires demands { All (λ d. All (λ n. n < length sta.now.rules) d.items) rule.now.demands.items }
    requires labels { EveryLabel (KeepsValue (T.meaning theory.now)) tree.now }
    ensures { result ≡ rule_applies (automaton_of T.atom_holds sta.now) (relabel T.label_of tree.now) (rule_meaning T.atom_holds (plain_rule rule.now)) }
{
    rule.constructor == tree.constructor()
        && rule.guard.holds(theory, tree.label())
        && children_meet(theory, sta, &rule.demands, tree.children())
}

/// Whether each child is accepted by every state demanded of it.
#[cycle(accepts)]
#[tactic(auto, using(crate::proofs::Meaning::on_rules))]
fn children_meet<T: Theory>(
    theory: &T,
    sta: &Sta<T::Atom>,
    demands: &[Vec<u64>],
    children: &[Tree<T::Value>],
) -> bool
    requires fits { AtomsFit (T.atom_fits theory.now) sta.now }
    requires demands { All (λ d. All (λ n. n < length sta.now.rules) d.items) demands.now }
    requires labels { All (EveryLabel (KeepsValue (T.meaning theory.now))) children.now }
    ensures { result ≡ meet_demands (automaton_of T.atom_holds sta.now) (relabel_all T.label_of (trees_of children.now)) (map (λ d. d.items) demands.now) }
{
    let mut i = 0;
    for child in children {
        if i >= demands.len() {
            return true;
        }
        if !accepted_by_each(theory, sta, &demands[i], child) {
            return false;
        }
        i += 1;
    }
    true
}

/// Whether each of the states accepts the tree.
#[cycle(accepts)]
#[tactic(auto, using(crate::proofs::Meaning::on_rules))]
fn accepted_by_each<T: Theory>(
    theory: &T,
    sta: &Sta<T::Atom>,
    states: &[u64],
    tree: &Tree<T::Value>,
) -> bool
    requires fits { AtomsFit (T.atom_fits theory.now) sta.now }
    requires states { All (λ s. s < length sta.now.rules) states.now }
    requires labels { EveryLabel (KeepsValue (T.meaning theory.now)) tree.now }
    ensures { result ≡ list_all (is_accepted (automaton_of T.atom_holds sta.now) (relabel T.label_of tree.now)) states.now }
{
    for state in states {
        if !accepts(theory, sta, *state, tree) {
            return false;
        }
    }
    true
}
