//! The states of an image, one after the other as they are met.

ghost use Rattle.std.specs.Prelude.{◌≡◌, ◌<◌, ◌++◌, [], ◌∷◌, ℕ, ⊤, length, map, All, Contains, IfOk, IfErr, OnOk};
ghost use Rattle.model_sttr.specs.Terms.{with_maps};
ghost use Rattle.model_sttr.specs.Transducer.{run};
ghost use Rattle.sta_core.specs.Machine.{plain_rule};
ghost use Rattle.sttr_core.specs.Machine.{plain_out};
ghost use Rattle.sttr_core.specs.Terms.{plain_term};
ghost use Rattle.std.specs.Option.{option_map};
ghost use Rattle.sttr_theory.specs.Triples.{AreWays, LookName, middle};
ghost use Rattle.sttr_run.specs.Fits.{RuleStands};
ghost use Rattle.sttr_run.specs.Plain.{plain_head, plain_second, plain_triple, way_at};
ghost use Rattle.sttr_preimage.specs.Names.{plain_name, names_in};
ghost use Rattle.sttr_preimage.specs.Tidy.{tidy_way};
ghost use Rattle.sttr_preimage.specs.Images.{CanAsk, HasOutRule, HasRules, HasAllWays, AreAllRows, HasOne, IsSecond, IsMiddle, IsRange, IsLookName, WayStands, first_of, second_of};
ghost use Rattle.sttr_preimage.specs.Through.{IsThroughMap, IsThroughStop};
ghost use Rattle.sttr_preimage.specs.Called.{KeepsOutput};

use crate::names::{Name, Side, name_at};
use crate::rules::{copied_rules, way_rules};
use fast_fault::Memory;
use indexmap::IndexSet;
use label_core::Labels;
use sta_core::{Sta, StaRule};
use std::alloc::Global;
use sttr_core::{Sttr, SttrRule};
use sttr_run::{Head, RunStop, Second, Triple, Way, ways};

/// A transducer, and a second one that runs over its outputs.
#[derive(Drop)]
pub struct Image<'s, T: Labels> {
    pub theory: &'s T,
    pub alloc: Global,
    pub sttr: &'s Sttr<T::Atom, T::Map>,
    pub second: Second<'s, T::Atom, T::Map>,
}

impl<'s, T: Labels> Image<'s, T> {
    /// All ways in which the triple runs over the rule's term.
    pub fn ways_over(
        &self,
        rule: &SttrRule<T::Atom, T::Map>,
        triple: &Triple,
    ) -> Result<Vec<Way<T::Atom, T::Map>>, RunStop>
        requires can { CanAsk T.atom_fits T.map_fits T.map_makes self.now.theory.now self.now.sttr.now (plain_second self.now.second) ⊥ ⊤ }
        requires rule { (q : ℕ) × HasOutRule self.now.sttr.now q (plain_out rule.now) }
        requires states { All (λ s. s < length (plain_second self.now.second).looks.rules) triple.now.all.items }
        ensures ways { IfOk result (λ ys. AreWays (first_of T.atom_holds T.make self.now.sttr.now (plain_second self.now.second)) (second_of T.atom_holds T.make self.now.sttr.now (plain_second self.now.second)) (T.meaning self.now.theory.now).has (with_maps T.make (plain_term rule.now.term)) (plain_triple triple.now) (map tidy_way (map (way_at T.atom_holds T.make) ys.items))) }
        ensures made { IfOk result (λ ys. All (WayStands T.is_put T.make (T.meaning self.now.theory.now) (T.atom_fits self.now.theory.now) self.now.sttr.now (plain_second self.now.second) (IsThroughMap T.Map.eq T.is_chained (T.map_fits self.now.theory.now) T.map_makes self.now.sttr.now (plain_second self.now.second) (KeepsOutput (plain_triple triple.now)))) ys.items) }
        ensures stop { IfErr result (IsThroughStop T.put_outside T.chain_outside self.now.sttr.now (plain_second self.now.second)) }
    {
        ways(self.theory, self.alloc, &self.second, &rule.term, triple)
    }

    /// The rules for all ways in which the triple runs over the rule's term.
    fn rules_over(
        &self,
        rule: &SttrRule<T::Atom, T::Map>,
        triple: &Triple,
        names: &mut IndexSet<Name>,
    ) -> Result<Vec<StaRule<T::Atom>>, RunStop>
        requires can { CanAsk T.atom_fits T.map_fits T.map_makes self.now.theory.now self.now.sttr.now (plain_second self.now.second) ⊥ ⊤ }
        requires rule { (q : ℕ) × HasOutRule self.now.sttr.now q (plain_out rule.now) }
        requires states { All (λ s. s < length (plain_second self.now.second).looks.rules) triple.now.all.items }
        ensures rules { IfOk result (λ rules. HasAllWays T.is_put T.make (T.meaning self.now.theory.now) (T.atom_fits self.now.theory.now) self.now.sttr.now (plain_second self.now.second) (names_in names.old.keys) (names_in names.new.keys) (plain_triple triple.now) (plain_out rule.now) (map plain_rule rules.items)) }
        ensures stop { IfErr result (IsThroughStop T.put_outside T.chain_outside self.now.sttr.now (plain_second self.now.second)) }
    {
        let ways = self.ways_over(rule, triple)?;
        let rules = way_rules(self.theory, self.alloc, &rule.rule, &ways, names)?;
        Ok(rules)
    }

    /// The rules of a state between.
    fn middle_rules(
        &self,
        state: u64,
        all: &[u64],
        names: &mut IndexSet<Name>,
    ) -> Result<Vec<StaRule<T::Atom>>, RunStop>
        requires can { CanAsk T.atom_fits T.map_fits T.map_makes self.now.theory.now self.now.sttr.now (plain_second self.now.second) ⊥ ⊤ }
        requires state { state < length self.now.sttr.now.rules }
        requires states { All (λ s. s < length (plain_second self.now.second).looks.rules) all.now }
        ensures rules { IfOk result (λ rules. HasRules T.is_put T.make (T.meaning self.now.theory.now) (T.atom_fits self.now.theory.now) self.now.sttr.now (plain_second self.now.second) (names_in names.old.keys) (names_in names.new.keys) (middle state all.now) (map plain_rule rules.items)) }
        ensures stop { IfErr result (IsThroughStop T.put_outside T.chain_outside self.now.sttr.now (plain_second self.now.second)) }
    {
        let triple = triple_of(self.alloc, state, all, None)?;
        let mut rules = Vec::new(self.alloc);
        'rules: for rule in self.sttr.rules_of(state) {
            add_all(&mut rules, self.rules_over(rule, &triple, names)?)?;
        }
        Ok(rules)
    }

    /// The rules of the state of this name.
    fn rules_for(
        &self,
        name: &Name,
        names: &mut IndexSet<Name>,
    ) -> Result<Vec<StaRule<T::Atom>>, RunStop>
        requires can { CanAsk T.atom_fits T.map_fits T.map_makes self.now.theory.now self.now.sttr.now (plain_second self.now.second) (IsSecond (plain_name name.now)) (IsMiddle (plain_name name.now)) }
        requires name { IsLookName T.atom_holds T.make self.now.sttr.now (plain_second self.now.second) (IsSecond (plain_name name.now)) (IsMiddle (plain_name name.now)) (plain_name name.now) }
        ensures rules { IfOk result (λ rules. HasRules T.is_put T.make (T.meaning self.now.theory.now) (T.atom_fits self.now.theory.now) self.now.sttr.now (plain_second self.now.second) (names_in names.old.keys) (names_in names.new.keys) (plain_name name.now) (map plain_rule rules.items)) }
        ensures stop { IfErr result (IsThroughStop T.put_outside T.chain_outside self.now.sttr.now (plain_second self.now.second)) }
        ensures between { IfErr result (λ e. IsRange e → IsMiddle (plain_name name.now)) }
    {
        match name {
            Name::First(state) => {
                let rules = self.sttr.lookahead().rules_of(*state);
                Ok(copied_rules(self.alloc, Side::First, rules, names)?)
            }
            Name::Second(state) => {
                let rules = self.second.looks.rules_of(*state);
                Ok(copied_rules(self.alloc, Side::Second, rules, names)?)
            }
            Name::Middle(state, all) => self.middle_rules(*state, all, names),
        }
    }

    /// The rules of the states of all names, and of those that they ask.
    pub fn rows(&self, names: &mut IndexSet<Name>) -> Result<Vec<Vec<StaRule<T::Atom>>>, RunStop>
        requires can { CanAsk T.atom_fits T.map_fits T.map_makes self.now.theory.now self.now.sttr.now (plain_second self.now.second) (HasOne IsSecond (names_in names.old.keys)) (HasOne IsMiddle (names_in names.old.keys)) }
        requires known { (x : LookName) → Contains (names_in names.old.keys) x → IsLookName T.atom_holds T.make self.now.sttr.now (plain_second self.now.second) (HasOne IsSecond (names_in names.old.keys)) (HasOne IsMiddle (names_in names.old.keys)) x }
        ensures rows { IfOk result (λ rows. AreAllRows T.is_put T.make (T.meaning self.now.theory.now) (T.atom_fits self.now.theory.now) self.now.sttr.now (plain_second self.now.second) (HasOne IsSecond (names_in names.old.keys)) (HasOne IsMiddle (names_in names.old.keys)) (names_in names.old.keys) (names_in names.new.keys) (map (λ those. map plain_rule those.items) rows.items)) }
        ensures stop { IfErr result (IsThroughStop T.put_outside T.chain_outside self.now.sttr.now (plain_second self.now.second)) }
        ensures between { IfErr result (λ e. IsRange e → HasOne IsMiddle (names_in names.old.keys)) }
    {
        let mut rows = Vec::new(self.alloc);
        'places: for place in 0..u32::MAX {
            let Some(name) = name_at(self.alloc, names, place as usize)? else {
                return Ok(rows);
            };
            rows.push(self.rules_for(&name, names)?)?;
        }
        // so many states are out of reach of any memory
        Err(RunStop::Memory)
    }

    /// The same, where no state stands between.
    pub fn side_rows(
        &self,
        names: &mut IndexSet<Name>,
    ) -> Result<Vec<Vec<StaRule<T::Atom>>>, Memory>
        requires can { CanAsk T.atom_fits T.map_fits T.map_makes self.now.theory.now self.now.sttr.now (plain_second self.now.second) (HasOne IsSecond (names_in names.old.keys)) (HasOne IsMiddle (names_in names.old.keys)) }
        requires known { (x : LookName) → Contains (names_in names.old.keys) x → IsLookName T.atom_holds T.make self.now.sttr.now (plain_second self.now.second) (HasOne IsSecond (names_in names.old.keys)) (HasOne IsMiddle (names_in names.old.keys)) x }
        requires sides { HasOne IsMiddle (names_in names.old.keys) → ⊥ }
        ensures rows { IfOk result (λ rows. AreAllRows T.is_put T.make (T.meaning self.now.theory.now) (T.atom_fits self.now.theory.now) self.now.sttr.now (plain_second self.now.second) (HasOne IsSecond (names_in names.old.keys)) (HasOne IsMiddle (names_in names.old.keys)) (names_in names.old.keys) (names_in names.new.keys) (map (λ those. map plain_rule those.items) rows.items)) }
    {
        match self.rows(names) {
            Ok(rows) => Ok(rows),
            Err(RunStop::Memory) => Err(Memory),
            // nothing is asked of outputs
            Err(RunStop::Range(_)) => unreachable!(),
        }
    }
}

/// A state of the transducer, the states that are asked of its output, and what then runs over it.
pub fn triple_of(
    alloc: Global,
    state: u64,
    all: &[u64],
    second: Option<Head>,
) -> Result<Triple, Memory>
    ensures { IfOk result (λ made. plain_triple made ≡ record { first = run state; all = all.now; second = option_map plain_head second }) }
{
    let all = Vec::from_slice(alloc, all)?;
    Ok(Triple {
        first: Head::Run(state),
        all,
        second,
    })
}

/// Puts more behind the others.
pub fn add_all<X: Drop>(those: &mut Vec<X>, mut more: Vec<X>) -> Result<(), Memory>
    ensures { OnOk result (those.new.items ≡ those.old.items ++ more.items) }
{
    those.append(&mut more)?;
    Ok(())
}

/// The lookahead of the transducer, whose rules fit.
pub fn looks_of<A, M>(sttr: &Sttr<A, M>) -> &Sta<A>
    ensures looks { result.now ≡ sttr.now.looks }
    ensures stand { All (All (RuleStands sttr.now.looks.ranks (length sttr.now.looks.rules))) sttr.now.looks.rules }
{
    let looks = sttr.lookahead();
    let _rules = looks.rules();
    looks
}

/// The rules of an automaton fit. Does nothing.
pub fn rules_stand<A>(sta: &Sta<A>)
    ensures { All (All (RuleStands sta.now.ranks (length sta.now.rules))) sta.now.rules }
{
    let _rules = sta.rules();
}

/// The ranks of the automaton's constructors.
pub fn copied_ranks<A>(alloc: Global, sta: &Sta<A>) -> Result<Vec<u32>, Memory>
    ensures { IfOk result (λ ranks. ranks.items ≡ sta.now.ranks) }
{
    Ok(Vec::from_slice(alloc, sta.ranks())?)
}
