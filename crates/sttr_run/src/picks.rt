//! Rules that may apply together at a node of the middle term.

ghost use Rattle.std.specs.Prelude.{◌≡◌, ◌⊎◌, ◌++◌, ◌∷◌, [], ℕ, List, Bool, true, false, map, get_or, All, Contains, None, Some, IsSome, IfOk, IfErr, OnOk};
ghost use Rattle.std.specs.Option.{option_map};
ghost use Rattle.model_tree.specs.Formula.{formula_holds};
ghost use Rattle.model_tree.specs.Label.{Label};
ghost use Rattle.label_core.specs.Formula.{plain_formula};
ghost use Rattle.label_split.specs.Signs.{FormulasFit};
ghost use Rattle.model_sttr.specs.Guards.{MakesBy};
ghost use Rattle.sta_core.specs.Machine.{plain_rule};
ghost use Rattle.sta_core.specs.Sta.{automaton_of};
ghost use Rattle.sttr_core.specs.Machine.{plain_out};
ghost use Rattle.sttr_core.specs.Terms.{plain_term};
ghost use Rattle.sttr_run.specs.Drafts.{all_say, AddsProducts};
ghost use Rattle.sttr_run.specs.Found.{IsNodeIn, IsGuardOf, GuardStands, FiredStands, PickStands, MayRun, MayKeep, HeadMayRun, MayFollow, MapStands, chained, IsNodeOver, AreNodesOver};
ghost use Rattle.sttr_run.specs.Picks.{wanted_in, pick_guards, IsWith, AddsPicks, AreWithEach, AreHolding, AreFired, ArePicks, AreApplied};
ghost use Rattle.sttr_run.specs.Plain.{plain_second, plain_triple, plain_head};
ghost use Rattle.sttr_run.specs.Runs.{CanRun, IsRunStop, OnTerm};
ghost use Rattle.sttr_run.specs.Sets.{Grown};

use crate::drafts::{Draft, add_guards};
use crate::running::{RunStop, Second};
use crate::states::StateSet;
use crate::triples::{Head, Triple, WayTerm};
use fast_fault::Memory;
use label_core::{Duplicate, Formula, Labels, Put, PutMap, Verdict, put_formula};
use label_split::find;
use sta_core::StaRule;
use std::alloc::Global;
use sttr_core::{SttrRule, Term};

/// The second as it runs over the term of a rule of the triple's first part.
#[derive(Drop)]
pub struct Run<'r, T: Labels> {
    pub theory: &'r T,
    pub alloc: Global,
    pub second: &'r Second<'r, T::Atom, T::Map>,
    pub term: &'r Term<T::Map>,
    pub triple: &'r Triple,
}

/// A node of the term.
#[derive(Drop)]
pub struct Node<'r, M> {
    pub constructor: u32,
    pub map: &'r M,
    pub parts: &'r [Term<M>],
}

/// A rule of a node's constructor, with its guard over the first's label.
#[derive(Drop)]
pub struct Fired<'r, A, M> {
    pub guard: Formula<A>,
    pub demands: &'r [Vec<u64>],
    pub term: Option<&'r Term<M>>,
}

/// One rule for each of some states: their guards, and what they demand; and a term, if one of them has one.
#[derive(Drop)]
pub struct Pick<'r, A, M> {
    pub guards: Vec<Formula<A>>,
    pub demands: Vec<&'r [Vec<u64>]>,
    pub term: Option<&'r Term<M>>,
}

impl<'r, A: Duplicate + Drop, M> Pick<'r, A, M> {
    /// With one more rule.
    fn with(&self, alloc: Global, fired: &Fired<'r, A, M>) -> Result<Pick<'r, A, M>, Memory>
        ensures { IfOk result (IsWith self.now fired.now) }
    {
        let mut guards = Vec::new(alloc);
        add_guards(alloc, &self.guards, &mut guards)?;
        guards.push(fired.guard.copy(alloc)?)?;
        let mut demands = Vec::from_slice(alloc, &self.demands)?;
        demands.push(fired.demands)?;
        let term = fired.term;
        Ok(Pick {
            guards,
            demands,
            term,
        })
    }
}

/// Adds each of the picks with one more rule.
fn add_picks<'r, A: Duplicate + Drop, M>(
    alloc: Global,
    picks: &[Pick<'r, A, M>],
    fired: &Fired<'r, A, M>,
    made: &mut Vec<Pick<'r, A, M>>,
) -> Result<(), Memory>
    ensures { OnOk result (AddsPicks picks.now fired.now made.old.items made.new.items) }
{
    'picks: for pick in picks {
        made.push(pick.with(alloc, fired)?)?;
    }
    Ok(())
}

/// Each of the picks with each of the rules.
fn with_each<'r, A: Duplicate + Drop, M>(
    alloc: Global,
    picks: &[Pick<'r, A, M>],
    fired: &[Fired<'r, A, M>],
) -> Result<Vec<Pick<'r, A, M>>, Memory>
    ensures { IfOk result (λ made. AreWithEach picks.now fired.now made.items) }
{
    let mut made = Vec::new(alloc);
    'rules: for rule in fired {
        add_picks(alloc, picks, rule, &mut made)?;
    }
    Ok(made)
}

/// No rules.
fn no_rules<'r, A: Drop, M>(alloc: Global) -> Result<Vec<Pick<'r, A, M>>, Memory>
    ensures { IfOk result (λ picks. (x : _) × (picks.items ≡ x ∷ []) × (x.guards.items ≡ []) × (x.demands.items ≡ []) × (x.term ≡ None)) }
{
    let guards = Vec::new(alloc);
    let demands = Vec::new(alloc);
    let term = None;
    let mut picks = Vec::new(alloc);
    picks.push(Pick {
        guards,
        demands,
        term,
    })?;
    Ok(picks)
}

/// What is demanded of the child.
pub fn wanted(alloc: Global, demands: &[&[Vec<u64>]], child: usize) -> Result<StateSet, Memory>
    ensures { IfOk result (λ all. Grown [] all.states.items (Contains (wanted_in (map (λ d. map (λ s. s.items) d.now) demands.now) child))) }
{
    let mut all = StateSet::new(alloc);
    'demands: for demand in demands {
        if child >= demand.len() {
            continue;
        }
        all.add_each(&demand[child])?;
    }
    Ok(all)
}

impl<'r, T: Labels> Run<'r, T> {
    /// What the guard says of the first's label.
    fn put(&self, map: &T::Map, guard: &Formula<T::Atom>) -> Result<Formula<T::Atom>, RunStop>
        requires can { CanRun T.atom_fits T.map_fits T.map_makes self.now.theory.now (plain_second self.now.second.now) (plain_term self.now.term.now) (plain_triple self.now.triple.now) }
        requires map { MakesBy (plain_term self.now.term.now) map.now }
        requires guard { IsGuardOf (plain_second self.now.second.now) (plain_formula guard.now) }
        ensures holds { IfOk result (λ made. (l : Label) → (T.meaning self.now.theory.now).has l → formula_holds (λ a. T.atom_holds a l) (plain_formula made) ≡ formula_holds (λ a. T.atom_holds a (T.make map.now l)) (plain_formula guard.now)) }
        ensures stands { IfOk result (λ made. GuardStands T.Map.eq T.is_put T.is_chained (T.atom_fits self.now.theory.now) (T.map_fits self.now.theory.now) T.map_makes (plain_second self.now.second.now) (plain_term self.now.term.now) (plain_triple self.now.triple.now).second (plain_formula made)) }
        ensures stop { IfErr result (IsRunStop T.put_outside T.chain_outside (plain_second self.now.second.now) (plain_term self.now.term.now)) }
    {
        match put_formula(self.theory, self.alloc, map, guard)? {
            Put::Formula(formula) => Ok(formula),
            Put::Range(number) => Err(RunStop::Range(number)),
        }
    }

    /// The map, or the second one after it.
    fn map(&self, first: &T::Map, then: Option<&T::Map>) -> Result<T::Map, RunStop>
        requires can { CanRun T.atom_fits T.map_fits T.map_makes self.now.theory.now (plain_second self.now.second.now) (plain_term self.now.term.now) (plain_triple self.now.triple.now) }
        requires first { MakesBy (plain_term self.now.term.now) first.now }
        requires then { MayFollow (plain_second self.now.second.now) (plain_triple self.now.triple.now).second (option_map (λ n. n.now) then) }
        ensures makes { IfOk result (λ made. (l : Label) → (T.meaning self.now.theory.now).has l → T.make made l ≡ chained T.make first.now (option_map (λ n. n.now) then.entry) l) }
        ensures stands { IfOk result (MapStands T.Map.eq T.is_put T.is_chained (T.atom_fits self.now.theory.now) (T.map_fits self.now.theory.now) T.map_makes (plain_second self.now.second.now) (plain_term self.now.term.now) (plain_triple self.now.triple.now).second) }
        ensures stop { IfErr result (IsRunStop T.put_outside T.chain_outside (plain_second self.now.second.now) (plain_term self.now.term.now)) }
    {
        match then {
            None => {
                let map = self.theory.copy_map(self.alloc, first)?;
                Ok(map)
            }
            Some(second) => match self.theory.chain_maps(self.alloc, first, second)? {
                PutMap::Map(map) => Ok(map),
                PutMap::Range(number) => Err(RunStop::Range(number)),
            },
        }
    }

    /// The rules of a state of the lookahead that may apply at the node.
    fn looks(
        &self,
        node: &Node<'r, T::Map>,
        rules: &'r [StaRule<T::Atom>],
    ) -> Result<Vec<Fired<'r, T::Atom, T::Map>>, RunStop>
        requires can { CanRun T.atom_fits T.map_fits T.map_makes self.now.theory.now (plain_second self.now.second.now) (plain_term self.now.term.now) (plain_triple self.now.triple.now) }
        requires map { MakesBy (plain_term self.now.term.now) node.now.map.now }
        requires rules { Contains (plain_second self.now.second.now).looks.rules (map plain_rule rules.now) }
        ensures fired { IfOk result (λ fired. AreFired T.atom_holds T.make (T.meaning self.now.theory.now).has node.now.constructor node.now.map.now (λ r. r) (λ r. None) (map plain_rule rules.now) fired.items) }
        ensures stand { IfOk result (λ fired. All (FiredStands T.Map.eq T.is_put T.is_chained (T.atom_fits self.now.theory.now) (T.map_fits self.now.theory.now) T.map_makes (plain_second self.now.second.now) (plain_term self.now.term.now) (plain_triple self.now.triple.now).second) fired.items) }
        ensures stop { IfErr result (IsRunStop T.put_outside T.chain_outside (plain_second self.now.second.now) (plain_term self.now.term.now)) }
    {
        let mut fired = Vec::new(self.alloc);
        'rules: for rule in rules {
            if rule.constructor != node.constructor {
                continue;
            }
            let guard = self.put(node.map, &rule.guard)?;
            let demands = &rule.demands;
            let term = None;
            fired.push(Fired {
                guard,
                demands,
                term,
            })?;
        }
        Ok(fired)
    }

    /// The rules of a state that may apply at the node.
    fn rules(
        &self,
        node: &Node<'r, T::Map>,
        rules: &'r [SttrRule<T::Atom, T::Map>],
    ) -> Result<Vec<Fired<'r, T::Atom, T::Map>>, RunStop>
        requires can { CanRun T.atom_fits T.map_fits T.map_makes self.now.theory.now (plain_second self.now.second.now) (plain_term self.now.term.now) (plain_triple self.now.triple.now) }
        requires map { MakesBy (plain_term self.now.term.now) node.now.map.now }
        requires rules { Contains (plain_second self.now.second.now).rules (map plain_out rules.now) }
        ensures fired { IfOk result (λ fired. AreFired T.atom_holds T.make (T.meaning self.now.theory.now).has node.now.constructor node.now.map.now (λ r. r.rule) (λ r. Some r.term) (map plain_out rules.now) fired.items) }
        ensures stand { IfOk result (λ fired. All (FiredStands T.Map.eq T.is_put T.is_chained (T.atom_fits self.now.theory.now) (T.map_fits self.now.theory.now) T.map_makes (plain_second self.now.second.now) (plain_term self.now.term.now) (plain_triple self.now.triple.now).second) fired.items) }
        ensures stop { IfErr result (IsRunStop T.put_outside T.chain_outside (plain_second self.now.second.now) (plain_term self.now.term.now)) }
    {
        let mut fired = Vec::new(self.alloc);
        'rules: for rule in rules {
            if rule.rule.constructor != node.constructor {
                continue;
            }
            let guard = self.put(node.map, &rule.rule.guard)?;
            let demands = &rule.rule.demands;
            let term = Some(&rule.term);
            fired.push(Fired {
                guard,
                demands,
                term,
            })?;
        }
        Ok(fired)
    }

    /// Whether the guards may hold of some label. Where that can't be told, they may.
    fn may_hold(&self, guards: &[Formula<T::Atom>]) -> Result<bool, Memory>
        requires { FormulasFit (T.atom_fits self.now.theory.now) guards.now }
        ensures { IfOk result (λ may. may ≡ false → (l : Label) → (T.meaning self.now.theory.now).has l → all_say T.atom_holds (map plain_formula guards.now) l ≡ false) }
    {
        match find(self.theory, self.alloc, guards)? {
            Verdict::Unsat => Ok(false),
            Verdict::Sat(_) => Ok(true),
            Verdict::Wide(_) => Ok(true),
        }
    }

    /// Those of the picks that may hold.
    fn holding(
        &self,
        picks: Vec<Pick<'r, T::Atom, T::Map>>,
    ) -> Result<Vec<Pick<'r, T::Atom, T::Map>>, Memory>
        requires stand { All (PickStands T.Map.eq T.is_put T.is_chained (T.atom_fits self.now.theory.now) (T.map_fits self.now.theory.now) T.map_makes (plain_second self.now.second.now) (plain_term self.now.term.now) (plain_triple self.now.triple.now).second) picks.items }
        ensures kept { IfOk result (λ kept. AreHolding T.atom_holds T.make (T.meaning self.now.theory.now).has picks.entry.items kept.items) }
    {
        let mut picks = picks;
        let mut kept = Vec::new(self.alloc);
        'picks: while let Some(pick) = picks.pop() {
            if !self.may_hold(&pick.guards)? {
                continue;
            }
            kept.push(pick)?;
        }
        Ok(kept)
    }

    /// Each of the picks with a rule of the lookahead's state.
    fn with_look(
        &self,
        node: &Node<'r, T::Map>,
        state: u64,
        picks: &[Pick<'r, T::Atom, T::Map>],
    ) -> Result<Vec<Pick<'r, T::Atom, T::Map>>, RunStop>
        requires can { CanRun T.atom_fits T.map_fits T.map_makes self.now.theory.now (plain_second self.now.second.now) (plain_term self.now.term.now) (plain_triple self.now.triple.now) }
        requires map { MakesBy (plain_term self.now.term.now) node.now.map.now }
        requires stand { All (PickStands T.Map.eq T.is_put T.is_chained (T.atom_fits self.now.theory.now) (T.map_fits self.now.theory.now) T.map_makes (plain_second self.now.second.now) (plain_term self.now.term.now) (plain_triple self.now.triple.now).second) picks.now }
        ensures picks { IfOk result (λ made. (all : List ℕ) → ArePicks T.atom_holds T.make (T.meaning self.now.theory.now).has node.now.constructor node.now.map.now (automaton_of T.atom_holds (plain_second self.now.second.now).looks) all picks.now → ArePicks T.atom_holds T.make (T.meaning self.now.theory.now).has node.now.constructor node.now.map.now (automaton_of T.atom_holds (plain_second self.now.second.now).looks) (state ∷ all) made.items) }
        ensures stand { IfOk result (λ made. All (PickStands T.Map.eq T.is_put T.is_chained (T.atom_fits self.now.theory.now) (T.map_fits self.now.theory.now) T.map_makes (plain_second self.now.second.now) (plain_term self.now.term.now) (plain_triple self.now.triple.now).second) made.items) }
        ensures stop { IfErr result (IsRunStop T.put_outside T.chain_outside (plain_second self.now.second.now) (plain_term self.now.term.now)) }
    {
        let second = self.second;
        let looks = second.looks;
        match looks.rules().get(state as usize) {
            None => Ok(Vec::new(self.alloc)),
            Some(rules) => {
                let fired = self.looks(node, rules)?;
                let picks = with_each(self.alloc, picks, &fired)?;
                Ok(picks)
            }
        }
    }

    /// One rule for each of the states that are demanded of the node, as far as they may hold together.
    pub fn picks(
        &self,
        node: &Node<'r, T::Map>,
        all: &StateSet,
    ) -> Result<Vec<Pick<'r, T::Atom, T::Map>>, RunStop>
        requires can { CanRun T.atom_fits T.map_fits T.map_makes self.now.theory.now (plain_second self.now.second.now) (plain_term self.now.term.now) (plain_triple self.now.triple.now) }
        requires map { MakesBy (plain_term self.now.term.now) node.now.map.now }
        ensures picks { IfOk result (λ made. ArePicks T.atom_holds T.make (T.meaning self.now.theory.now).has node.now.constructor node.now.map.now (automaton_of T.atom_holds (plain_second self.now.second.now).looks) all.now.states.items made.items) }
        ensures stand { IfOk result (λ made. All (PickStands T.Map.eq T.is_put T.is_chained (T.atom_fits self.now.theory.now) (T.map_fits self.now.theory.now) T.map_makes (plain_second self.now.second.now) (plain_term self.now.term.now) (plain_triple self.now.triple.now).second) made.items) }
        ensures stop { IfErr result (IsRunStop T.put_outside T.chain_outside (plain_second self.now.second.now) (plain_term self.now.term.now)) }
    {
        let states = all.as_slice();
        let mut picks = no_rules(self.alloc)?;
        let mut left = states.len();
        'states: while left > 0 {
            left -= 1;
            picks = self.with_look(node, states[left], &picks)?;
        }
        let picks = self.holding(picks)?;
        Ok(picks)
    }

    /// Each of the picks with a rule of the state.
    pub fn with_rule(
        &self,
        node: &Node<'r, T::Map>,
        state: u64,
        picks: &[Pick<'r, T::Atom, T::Map>],
    ) -> Result<Vec<Pick<'r, T::Atom, T::Map>>, RunStop>
        requires can { CanRun T.atom_fits T.map_fits T.map_makes self.now.theory.now (plain_second self.now.second.now) (plain_term self.now.term.now) (plain_triple self.now.triple.now) }
        requires map { MakesBy (plain_term self.now.term.now) node.now.map.now }
        requires stand { All (PickStands T.Map.eq T.is_put T.is_chained (T.atom_fits self.now.theory.now) (T.map_fits self.now.theory.now) T.map_makes (plain_second self.now.second.now) (plain_term self.now.term.now) (plain_triple self.now.triple.now).second) picks.now }
        ensures picks { IfOk result (λ made. AreApplied T.atom_holds T.make (T.meaning self.now.theory.now).has node.now.constructor node.now.map.now (get_or (plain_second self.now.second.now).rules state []) picks.now made.items) }
        ensures terms { IfOk result (λ made. All (λ x. IsSome x.term) made.items) }
        ensures stand { IfOk result (λ made. All (PickStands T.Map.eq T.is_put T.is_chained (T.atom_fits self.now.theory.now) (T.map_fits self.now.theory.now) T.map_makes (plain_second self.now.second.now) (plain_term self.now.term.now) (plain_triple self.now.triple.now).second) made.items) }
        ensures stop { IfErr result (IsRunStop T.put_outside T.chain_outside (plain_second self.now.second.now) (plain_term self.now.term.now)) }
    {
        let second = self.second;
        let states = second.rules;
        match states.get(state as usize) {
            None => Ok(Vec::new(self.alloc)),
            Some(rules) => {
                let fired = self.rules(node, rules)?;
                let picks = with_each(self.alloc, picks, &fired)?;
                let picks = self.holding(picks)?;
                Ok(picks)
            }
        }
    }

    /// Adds each of the ways, with the guards.
    pub fn guard(
        &self,
        guards: Vec<Formula<T::Atom>>,
        ways: &[Draft<T::Atom, T::Map>],
        found: &mut Vec<Draft<T::Atom, T::Map>>,
    ) -> Result<(), Memory>
        ensures { OnOk result ((first : _) × (first.guards.items ≡ guards.items) × (first.demands.items ≡ []) × (first.terms.items ≡ []) × AddsProducts T.Map.eq first ways.now found.old.items found.new.items) }
    {
        let demands = Vec::new(self.alloc);
        let terms = Vec::new(self.alloc);
        let first = Draft {
            guards,
            demands,
            terms,
        };
        self.add_products(&first, ways, found)
    }

    /// A node over the terms of each way, with this map, or the second one after it.
    pub fn nodes(
        &self,
        constructor: u32,
        first: &'r T::Map,
        then: Option<&'r T::Map>,
        rows: Vec<Draft<T::Atom, T::Map>>,
    ) -> Result<Vec<Draft<T::Atom, T::Map>>, RunStop>
        requires can { CanRun T.atom_fits T.map_fits T.map_makes self.now.theory.now (plain_second self.now.second.now) (plain_term self.now.term.now) (plain_triple self.now.triple.now) }
        requires first { MakesBy (plain_term self.now.term.now) first.now }
        requires then { MayFollow (plain_second self.now.second.now) (plain_triple self.now.triple.now).second (option_map (λ n. n.now) then) }
        ensures nodes { IfOk result (λ made. AreNodesOver T.make (T.meaning self.now.theory.now).has (MapStands T.Map.eq T.is_put T.is_chained (T.atom_fits self.now.theory.now) (T.map_fits self.now.theory.now) T.map_makes (plain_second self.now.second.now) (plain_term self.now.term.now) (plain_triple self.now.triple.now).second) constructor (chained T.make first.now (option_map (λ n. n.now) then.entry)) rows.items made.items) }
        ensures stop { IfErr result (IsRunStop T.put_outside T.chain_outside (plain_second self.now.second.now) (plain_term self.now.term.now)) }
    {
        let mut rows = rows;
        let mut made = Vec::new(self.alloc);
        'rows: while let Some(row) = rows.pop() {
            let Draft {
                guards,
                demands,
                terms: parts,
            } = row;
            let map = self.map(first, then)?;
            let mut terms = Vec::new(self.alloc);
            terms.push(WayTerm::Node(constructor, map, parts))?;
            made.push(Draft {
                guards,
                demands,
                terms,
            })?;
        }
        Ok(made)
    }
}
