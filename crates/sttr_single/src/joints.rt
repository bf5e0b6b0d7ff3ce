//! Rules that apply where two rules of a state do.

ghost use Rattle.std.specs.Prelude.{ℕ, ◌≡◌, ◌<◌, [], ⊤, length, get_or, IfOk, OnOk, MatchOption};
ghost use Rattle.model_tree.specs.Formula.{EveryAtom};
ghost use Rattle.label_core.specs.Formula.{plain_formula};
ghost use Rattle.sta_core.specs.Machine.{plain_rule};
ghost use Rattle.sttr_core.specs.Fits.{LabelsFit};
ghost use Rattle.sttr_single.specs.Joints.{both_hold, AreApart, IsJoint, NeverMeet, AreJoints, AddsJoints};

use crate::demands::joined_for;
use crate::same::is_same;
use fast_fault::Memory;
use label_core::{Formula, Labels, Theory, Verdict, conjunction};
use label_split::find;
use sta_core::{Sta, StaRule};
use std::alloc::Global;
use sttr_core::Sttr;

/// Two rules of a state, by their places in its list.
#[derive(Clone, Copy)]
pub struct Place {
    pub state: u64,
    pub first: u64,
    pub second: u64,
}

/// A rule that applies where the rules at these places do.
#[derive(Drop)]
pub struct Joint<A> {
    pub place: Place,
    pub rule: StaRule<A>,
}

/// A transducer whose rules are joined.
#[derive(Drop)]
pub struct Joining<'a, T: Labels> {
    pub theory: &'a T,
    pub alloc: Global,
    pub sttr: &'a Sttr<T::Atom, T::Map>,
}

/// The guard that holds where both do, unless it is found that no label has both.
fn joint_guard<T: Theory>(
    theory: &T,
    alloc: Global,
    first: &Formula<T::Atom>,
    second: &Formula<T::Atom>,
) -> Result<Option<Formula<T::Atom>>, Memory>
    requires first { EveryAtom (T.atom_fits theory.now) (plain_formula first.now) }
    requires second { EveryAtom (T.atom_fits theory.now) (plain_formula second.now) }
    ensures { IfOk result (λ made. MatchOption made (AreApart T.atom_holds (T.meaning theory.now).has (plain_formula first.now) (plain_formula second.now)) (λ g. plain_formula g ≡ both_hold (plain_formula first.now) (plain_formula second.now))) }
{
    let mut guards = Vec::new(alloc);
    guards.push(first.copy(alloc)?)?;
    guards.push(second.copy(alloc)?)?;
    match find(theory, alloc, &guards)? {
        Verdict::Unsat => Ok(None),
        Verdict::Sat(_) | Verdict::Wide(_) => Ok(Some(conjunction(guards))),
    }
}

/// A rule that applies where both do, unless it is found that they never do.
fn joined_rule<T: Theory>(
    theory: &T,
    alloc: Global,
    looks: &Sta<T::Atom>,
    first: &StaRule<T::Atom>,
    second: &StaRule<T::Atom>,
) -> Result<Option<StaRule<T::Atom>>, Memory>
    requires first { EveryAtom (T.atom_fits theory.now) (plain_formula first.now.guard) }
    requires second { EveryAtom (T.atom_fits theory.now) (plain_formula second.now.guard) }
    ensures { IfOk result (λ made. MatchOption made (NeverMeet (plain_rule first.now) (plain_rule second.now) looks.now T.atom_holds (T.meaning theory.now).has) (λ p. IsJoint (plain_rule first.now) (plain_rule second.now) looks.now (plain_rule p))) }
{
    if second.constructor != first.constructor {
        return Ok(None);
    }
    let Some(demands) = joined_for(alloc, looks, first, second)? else {
        return Ok(None);
    };
    let Some(guard) = joint_guard(theory, alloc, &first.guard, &second.guard)? else {
        return Ok(None);
    };
    let constructor = first.constructor;
    Ok(Some(StaRule {
        constructor,
        guard,
        demands,
    }))
}

impl<'a, T: Labels> Joining<'a, T> {
    /// Adds the joint of the rules at these places, unless they are alike or never meet.
    fn add_joint(&self, place: Place, joints: &mut Vec<Joint<T::Atom>>) -> Result<(), Memory>
        requires fits { LabelsFit (T.atom_fits self.now.theory.now) (T.map_fits self.now.theory.now) self.now.sttr.now }
        requires state { place.state < length self.now.sttr.now.rules }
        requires order { place.first < place.second }
        requires second { place.second < length (get_or self.now.sttr.now.rules place.state []) }
        ensures { OnOk result (AddsJoints T.atom_holds T.Map.eq (T.meaning self.now.theory.now).has self.now.sttr.now (λ q i j. (q ≡ place.state) × (i ≡ place.first) × (j ≡ place.second)) joints.old.items joints.new.items) }
    {
        let rules = self.sttr.rules_of(place.state);
        let first = &rules[place.first as usize];
        let second = &rules[place.second as usize];
        if is_same(&first.term, &second.term) {
            return Ok(());
        }
        let looks = self.sttr.lookahead();
        let Some(rule) = joined_rule(self.theory, self.alloc, looks, &first.rule, &second.rule)?
        else {
            return Ok(());
        };
        joints.push(Joint { place, rule })?;
        Ok(())
    }

    /// Adds the joints of the rule at this place with those behind it.
    fn add_joints_with(
        &self,
        state: u64,
        first: u64,
        joints: &mut Vec<Joint<T::Atom>>,
    ) -> Result<(), Memory>
        requires fits { LabelsFit (T.atom_fits self.now.theory.now) (T.map_fits self.now.theory.now) self.now.sttr.now }
        requires state { state < length self.now.sttr.now.rules }
        requires first { first < length (get_or self.now.sttr.now.rules state []) }
        ensures { OnOk result (AddsJoints T.atom_holds T.Map.eq (T.meaning self.now.theory.now).has self.now.sttr.now (λ q i j. (q ≡ state) × (i ≡ first)) joints.old.items joints.new.items) }
    {
        let count = self.sttr.rules_of(state).len() as u64;
        'seconds: for second in first + 1..count {
            let place = Place {
                state,
                first,
                second,
            };
            self.add_joint(place, joints)?;
        }
        Ok(())
    }

    /// Adds the joints of the state's rules.
    fn add_joints_of(&self, state: u64, joints: &mut Vec<Joint<T::Atom>>) -> Result<(), Memory>
        requires fits { LabelsFit (T.atom_fits self.now.theory.now) (T.map_fits self.now.theory.now) self.now.sttr.now }
        requires state { state < length self.now.sttr.now.rules }
        ensures { OnOk result (AddsJoints T.atom_holds T.Map.eq (T.meaning self.now.theory.now).has self.now.sttr.now (λ q i j. q ≡ state) joints.old.items joints.new.items) }
    {
        let count = self.sttr.rules_of(state).len() as u64;
        'firsts: for first in 0..count {
            self.add_joints_with(state, first, joints)?;
        }
        Ok(())
    }

    /// A joint of each two unlike rules of a state, but for those that are found to meet nowhere.
    pub fn joints(&self) -> Result<Vec<Joint<T::Atom>>, Memory>
        requires fits { LabelsFit (T.atom_fits self.now.theory.now) (T.map_fits self.now.theory.now) self.now.sttr.now }
        ensures { IfOk result (λ made. AreJoints T.atom_holds T.Map.eq (T.meaning self.now.theory.now).has self.now.sttr.now (λ q i j. ⊤) made.items) }
    {
        let mut joints = Vec::new(self.alloc);
        'states: for state in 0..self.sttr.states() {
            self.add_joints_of(state, &mut joints)?;
        }
        Ok(joints)
    }
}
