//! The states that run a second transducer over outputs of a first one, one after the other as they are met.

ghost use Rattle.std.specs.Prelude.{is_some, true, ◌≡◌, ◌<◌, ◌∷◌, [], ℕ, ⊤, length, map, All, Contains, IfOk, IfErr};
ghost use Rattle.model_sttr.specs.Transducer.{run};
ghost use Rattle.model_tree.specs.Formula.{EveryAtom};
ghost use Rattle.label_core.specs.Formula.{plain_formula};
ghost use Rattle.sta_core.specs.Machine.{plain_rule};
ghost use Rattle.sttr_core.specs.Machine.{plain_out};
ghost use Rattle.sttr_core.specs.Terms.{plain_term};
ghost use Rattle.sttr_theory.specs.Triples as plain;
ghost use Rattle.sttr_run.specs.Plain.{plain_second, plain_triple};
ghost use Rattle.sttr_preimage.specs.Names.{names_in};
ghost use Rattle.sttr_preimage.specs.Called.{plain_called, called_in, KeepsOutput, HasTerm, IsTermOf, AreOutMade, AreOwnRules};
ghost use Rattle.sttr_preimage.specs.Images.{CanAsk, HasOne, HasOutRule};
ghost use Rattle.sttr_preimage.specs.Outs.{HasState, HasAllOuts, HasOuts, AreAllOuts, IsTransFor};
ghost use Rattle.sttr_preimage.specs.Through.{IsThroughMap, IsThroughStop};

use crate::apart::are_apart;
use crate::called::{Called, called_at, number_called};
use crate::image::{Image, add_all, copied_ranks, triple_of};
use crate::names::{Name, Side};
use crate::rules::{copied_rule, way_rule};
use crate::terms::{over_children, renamed};
use fast_fault::Memory;
use indexmap::IndexSet;
use label_core::Labels;
use sta_core::{Sta, StaRule};
use std::alloc::Global;
use sttr_core::{Sttr, SttrRule, Term, Trans};
use sttr_run::{Head, RunStop, Triple, Way, WayTerm};

/// The term of a way that has one.
fn way_term<T: Labels>(
    theory: &T,
    alloc: Global,
    term: &Option<WayTerm<T::Map>>,
    called: &mut IndexSet<Called>,
) -> Result<Term<T::Map>, Memory>
    requires { HasTerm term.now }
    ensures { IfOk result (λ made. IsTermOf T.make (T.meaning theory.now).has T.Map.eq (called_in called.old.keys) (called_in called.new.keys) term.now (plain_term made)) }
{
    match term {
        None => unreachable!(),
        Some(term) => renamed(theory, alloc, term, called),
    }
}

/// The rules for some ways over a rule, which give what the ways do, but for those that are found to apply nowhere.
fn outs_of_ways<T: Labels>(
    theory: &T,
    alloc: Global,
    rule: &StaRule<T::Atom>,
    ways: &[Way<T::Atom, T::Map>],
    names: &mut IndexSet<Name>,
    called: &mut IndexSet<Called>,
) -> Result<Vec<SttrRule<T::Atom, T::Map>>, Memory>
    requires guard { EveryAtom (T.atom_fits theory.now) (plain_formula rule.now.guard) }
    requires guards { All (λ y. EveryAtom (T.atom_fits theory.now) (plain_formula y.guard)) ways.now }
    requires terms { All (λ y. HasTerm y.term) ways.now }
    ensures { IfOk result (λ made. AreOutMade T.make (T.meaning theory.now).has T.Map.eq T.atom_holds (names_in names.old.keys) (names_in names.new.keys) (called_in called.old.keys) (called_in called.new.keys) (plain_rule rule.now) ways.now (map plain_out made.items)) }
{
    let mut made = Vec::new(alloc);
    'ways: for way in ways {
        if are_apart(theory, alloc, &rule.guard, &way.guard)? {
            continue;
        }
        let rule = way_rule(alloc, rule, way, names)?;
        let term = way_term(theory, alloc, &way.term, called)?;
        made.push(SttrRule { rule, term })?;
    }
    Ok(made)
}

/// The second's rules over the tree itself.
fn own_rules<T: Labels>(
    theory: &T,
    alloc: Global,
    rules: &[SttrRule<T::Atom, T::Map>],
    names: &mut IndexSet<Name>,
    called: &mut IndexSet<Called>,
) -> Result<Vec<SttrRule<T::Atom, T::Map>>, Memory>
    ensures { IfOk result (λ made. AreOwnRules T.make (T.meaning theory.now).has T.Map.eq (names_in names.old.keys) (names_in names.new.keys) (called_in called.old.keys) (called_in called.new.keys) (map plain_out rules.now) (map plain_out made.items)) }
{
    let mut made = Vec::new(alloc);
    'rules: for out in rules {
        let rule = copied_rule(alloc, Side::Second, &out.rule, names)?;
        let term = over_children(theory, alloc, &out.term, called)?;
        made.push(SttrRule { rule, term })?;
    }
    Ok(made)
}

impl<'s, T: Labels> Image<'s, T> {
    /// The rules for all ways in which the triple runs over the rule's term.
    fn outs_over(
        &self,
        rule: &SttrRule<T::Atom, T::Map>,
        triple: &Triple,
        names: &mut IndexSet<Name>,
        called: &mut IndexSet<Called>,
    ) -> Result<Vec<SttrRule<T::Atom, T::Map>>, RunStop>
        requires can { CanAsk T.atom_fits T.map_fits T.map_makes self.now.theory.now self.now.sttr.now (plain_second self.now.second) ⊥ ⊤ }
        requires rule { (q : ℕ) × HasOutRule self.now.sttr.now q (plain_out rule.now) × ((plain_triple triple.now).first ≡ run q) }
        requires known { HasState T.is_put T.make (T.meaning self.now.theory.now) (T.atom_fits self.now.theory.now) self.now.sttr.now (plain_second self.now.second) (KeepsOutput (plain_triple triple.now)) (plain_triple triple.now) }
        ensures rules { IfOk result (λ rules. HasAllOuts T.is_put T.make (T.meaning self.now.theory.now) (T.atom_fits self.now.theory.now) self.now.sttr.now (plain_second self.now.second) (IsThroughMap T.Map.eq T.is_chained (T.map_fits self.now.theory.now) T.map_makes self.now.sttr.now (plain_second self.now.second)) (names_in names.old.keys) (names_in names.new.keys) (called_in called.old.keys) (called_in called.new.keys) (plain_triple triple.now) (plain_out rule.now) (map plain_out rules.items)) }
        ensures stop { IfErr result (IsThroughStop T.put_outside T.chain_outside self.now.sttr.now (plain_second self.now.second)) }
    {
        let ways = self.ways_over(rule, triple)?;
        let rules = outs_of_ways(self.theory, self.alloc, &rule.rule, &ways, names, called)?;
        Ok(rules)
    }

    /// The rules of a state that runs the second over outputs of a state of the first.
    fn rules_through(
        &self,
        state: u64,
        triple: &Triple,
        names: &mut IndexSet<Name>,
        called: &mut IndexSet<Called>,
    ) -> Result<Vec<SttrRule<T::Atom, T::Map>>, RunStop>
        requires can { CanAsk T.atom_fits T.map_fits T.map_makes self.now.theory.now self.now.sttr.now (plain_second self.now.second) ⊥ ⊤ }
        requires first { (plain_triple triple.now).first ≡ run state }
        requires known { HasState T.is_put T.make (T.meaning self.now.theory.now) (T.atom_fits self.now.theory.now) self.now.sttr.now (plain_second self.now.second) (KeepsOutput (plain_triple triple.now)) (plain_triple triple.now) }
        ensures rules { IfOk result (λ rules. HasOuts T.is_put T.make (T.meaning self.now.theory.now) (T.atom_fits self.now.theory.now) self.now.sttr.now (plain_second self.now.second) (IsThroughMap T.Map.eq T.is_chained (T.map_fits self.now.theory.now) T.map_makes self.now.sttr.now (plain_second self.now.second)) (names_in names.old.keys) (names_in names.new.keys) (called_in called.old.keys) (called_in called.new.keys) (plain_triple triple.now) (map plain_out rules.items)) }
        ensures stop { IfErr result (IsThroughStop T.put_outside T.chain_outside self.now.sttr.now (plain_second self.now.second)) }
    {
        let mut rules = Vec::new(self.alloc);
        'rules: for rule in self.sttr.rules_of(state) {
            add_all(&mut rules, self.outs_over(rule, triple, names, called)?)?;
        }
        Ok(rules)
    }

    /// The rules of a state.
    fn out_rules(
        &self,
        one: &Called,
        names: &mut IndexSet<Name>,
        called: &mut IndexSet<Called>,
    ) -> Result<Vec<SttrRule<T::Atom, T::Map>>, RunStop>
        requires can { CanAsk T.atom_fits T.map_fits T.map_makes self.now.theory.now self.now.sttr.now (plain_second self.now.second) ⊥ ⊤ }
        requires known { HasState T.is_put T.make (T.meaning self.now.theory.now) (T.atom_fits self.now.theory.now) self.now.sttr.now (plain_second self.now.second) (KeepsOutput (plain_called one.now)) (plain_called one.now) }
        ensures rules { IfOk result (λ rules. HasOuts T.is_put T.make (T.meaning self.now.theory.now) (T.atom_fits self.now.theory.now) self.now.sttr.now (plain_second self.now.second) (IsThroughMap T.Map.eq T.is_chained (T.map_fits self.now.theory.now) T.map_makes self.now.sttr.now (plain_second self.now.second)) (names_in names.old.keys) (names_in names.new.keys) (called_in called.old.keys) (called_in called.new.keys) (plain_called one.now) (map plain_out rules.items)) }
        ensures stop { IfErr result (IsThroughStop T.put_outside T.chain_outside self.now.sttr.now (plain_second self.now.second)) }
    {
        match one {
            Called::Through(state, all, head) => {
                let triple = triple_of(self.alloc, *state, all, Some(*head))?;
                self.rules_through(*state, &triple, names, called)
            }
            Called::Own(state) => {
                let rules = &self.second.rules[*state as usize];
                Ok(own_rules(self.theory, self.alloc, rules, names, called)?)
            }
        }
    }

    /// The rules of all states, and of those that they call.
    fn out_rows(
        &self,
        names: &mut IndexSet<Name>,
        called: &mut IndexSet<Called>,
    ) -> Result<Vec<Vec<SttrRule<T::Atom, T::Map>>>, RunStop>
        requires can { CanAsk T.atom_fits T.map_fits T.map_makes self.now.theory.now self.now.sttr.now (plain_second self.now.second) ⊥ ⊤ }
        requires known { (x : plain.Triple) → Contains (called_in called.old.keys) x → HasState T.is_put T.make (T.meaning self.now.theory.now) (T.atom_fits self.now.theory.now) self.now.sttr.now (plain_second self.now.second) (HasOne KeepsOutput (called_in called.old.keys)) x }
        ensures rows { IfOk result (λ rows. AreAllOuts T.is_put T.make (T.meaning self.now.theory.now) (T.atom_fits self.now.theory.now) self.now.sttr.now (plain_second self.now.second) (IsThroughMap T.Map.eq T.is_chained (T.map_fits self.now.theory.now) T.map_makes self.now.sttr.now (plain_second self.now.second)) (HasOne KeepsOutput (called_in called.old.keys)) (names_in names.old.keys) (names_in names.new.keys) (called_in called.old.keys) (called_in called.new.keys) (map (λ those. map plain_out those.items) rows.items)) }
        ensures stop { IfErr result (IsThroughStop T.put_outside T.chain_outside self.now.sttr.now (plain_second self.now.second)) }
    {
        let mut rows = Vec::new(self.alloc);
        'places: for place in 0..u32::MAX {
            let Some(one) = called_at(self.alloc, called, place as usize)? else {
                return Ok(rows);
            };
            rows.push(self.out_rules(&one, names, called)?)?;
        }
        // so many states are out of reach of any memory
        Err(RunStop::Memory)
    }

    /// The transducer that begins with this state, with the states that it calls and a lookahead for them.
    pub fn trans_for(&self, start: Called) -> Result<Trans<T::Atom, T::Map>, RunStop>
        requires can { CanAsk T.atom_fits T.map_fits T.map_makes self.now.theory.now self.now.sttr.now (plain_second self.now.second) ⊥ ⊤ }
        requires known { HasState T.is_put T.make (T.meaning self.now.theory.now) (T.atom_fits self.now.theory.now) self.now.sttr.now (plain_second self.now.second) (KeepsOutput (plain_called start)) (plain_called start) }
        ensures trans { IfOk result (IsTransFor T.is_put T.make (T.meaning self.now.theory.now) (T.atom_fits self.now.theory.now) self.now.sttr.now (plain_second self.now.second) (IsThroughMap T.Map.eq T.is_chained (T.map_fits self.now.theory.now) T.map_makes self.now.sttr.now (plain_second self.now.second)) (plain_called start)) }
        ensures stop { IfErr result (IsThroughStop T.put_outside T.chain_outside self.now.sttr.now (plain_second self.now.second)) }
    {
        let mut called = IndexSet::new(self.alloc);
        let state = number_called(&mut called, start)?;
        let mut names = IndexSet::new(self.alloc);
        let rules = self.out_rows(&mut names, &mut called)?;
        let rows = self.rows(&mut names)?;
        let ranks = copied_ranks(self.alloc, self.sttr.lookahead())?;
        let looks = Sta::new(ranks, rows);
        let sttr = Sttr::new(looks, rules);
        Ok(Trans { sttr, state })
    }
}
