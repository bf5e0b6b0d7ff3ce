//! The classes in the order of their least trees.
//!
//! Each turn takes a candidate with the fewest nodes. It is a least tree of its class, since each other tree with a new
//! set is over trees of classes that come later. Then come the candidates over lists of kinds of which one is new.

ghost use Rattle.std.specs.Prelude.{MatchResult};
ghost use Rattle.sta_classes.specs.Searched.{IsReady, IsOver, HasOffered, HasNewOffered, IsUnderway, GoesOn, IsBegun, IsWhole, StopsSearch};

use crate::class::cost_over;
use crate::keep::kept;
use crate::known::Known;
use crate::lists::new_lists;
use crate::pending::{Over, Pending};
use crate::row::numbers_at;
use crate::rules::Rules;
use crate::splits::{Splits, add_to_splits, no_splits};
use crate::stop::ClassStop;
use label_core::{Theory, both};
use sta_core::StaRule;
use std::alloc::Global;

/// What a search for the classes of an automaton goes by.
#[derive(Drop)]
pub struct Search<'a, T: Theory> {
    pub theory: &'a T,
    pub alloc: Global,
    pub ranks: &'a [u32],
    pub rules: &'a [Vec<StaRule<T::Atom>>],
    /// The rules of each constructor.
    pub own: &'a [Rules<'a, T::Atom>],
    pub most: u32,
}

/// What a search has offered, and what it knows of the rules of each constructor.
#[derive(Drop)]
pub struct Offers<V> {
    pub pending: Pending<V>,
    pub splits: Vec<Splits<V>>,
}

/// How far a search is.
#[derive(Drop)]
pub struct Course<V> {
    pub known: Known<V>,
    pub offers: Offers<V>,
}

impl<T: Theory> Search<'_, T> {
    /// Offers the trees over these children with labels that tell the guards apart which the children leave open, and sees
    /// whether there are too many sets then.
    fn open(
        &self,
        known: &Known<T::Value>,
        offers: &mut Offers<T::Value>,
        constructor: usize,
        children: &[usize],
    ) -> Result<(), ClassStop<T::Chain>>
        requires ready { IsReady T.Atom.eq (T.atom_fits self.now.theory.now) self.now.ranks.now self.now.rules.now self.now.own.now }
        requires over { IsOver T.label_of self.now.ranks.now known.now.classes.items constructor children.now }
        requires under { IsUnderway (T.meaning self.now.theory.now) self.now.ranks.now self.now.rules.now self.now.own.now self.now.most known.now offers.old }
        ensures { MatchResult result (λ _. GoesOn (T.meaning self.now.theory.now) self.now.ranks.now self.now.rules.now self.now.own.now self.now.most known.now offers.old offers.new (HasOffered (T.meaning self.now.theory.now) self.now.ranks.now self.now.rules.now known.now.classes.items constructor children.now)) (StopsSearch (T.meaning self.now.theory.now) self.now.ranks.now self.now.rules.now self.now.most) }
    {
        let own = &self.own[constructor];
        let split = &mut offers.splits[constructor];
        let key = split.key(self.alloc, own, children)?;
        let number = split.number(self.theory, self.alloc, own, &key)?;
        let nodes = cost_over(&known.classes, children);
        let over = Over {
            constructor: constructor as u32,
            nodes,
            children,
        };
        let pending = &mut offers.pending;
        'labels: for label in &offers.splits[constructor].told[number] {
            let row = numbers_at(
                self.alloc,
                &own.states,
                self.rules.len(),
                &key,
                &label.holds,
            )?;
            pending.offer(self.theory, self.alloc, row, &over, &label.value)?;
        }
        if pending.sets.len() > self.most as usize {
            return Err(ClassStop::Classes);
        }
        Ok(())
    }

    /// Offers the trees over lists of kinds of which the last class is one, or before there are classes those of no children.
    fn open_new(
        &self,
        known: &Known<T::Value>,
        offers: &mut Offers<T::Value>,
    ) -> Result<(), ClassStop<T::Chain>>
        requires ready { IsReady T.Atom.eq (T.atom_fits self.now.theory.now) self.now.ranks.now self.now.rules.now self.now.own.now }
        requires under { IsUnderway (T.meaning self.now.theory.now) self.now.ranks.now self.now.rules.now self.now.own.now self.now.most known.now offers.old }
        ensures { MatchResult result (λ _. GoesOn (T.meaning self.now.theory.now) self.now.ranks.now self.now.rules.now self.now.own.now self.now.most known.now offers.old offers.new (HasNewOffered (T.meaning self.now.theory.now) self.now.ranks.now self.now.rules.now known.now.classes.items known.now.places.items)) (StopsSearch (T.meaning self.now.theory.now) self.now.ranks.now self.now.rules.now self.now.most) }
    {
        'constructors: for constructor in 0..self.ranks.len() {
            let places = &known.places[constructor];
            let lists = new_lists(self.alloc, places, known.classes.len())?;
            'lists: for children in &lists {
                self.open(known, offers, constructor, children)?;
            }
        }
        Ok(())
    }

    /// Takes turns until no candidate is left: each offers the trees over the last class, those of no children at first, and
    /// makes the candidate that it takes one more class.
    fn go_on(&self, course: &mut Course<T::Value>) -> Result<(), ClassStop<T::Chain>>
        requires ready { IsReady T.Atom.eq (T.atom_fits self.now.theory.now) self.now.ranks.now self.now.rules.now self.now.own.now }
        requires begun { IsBegun (T.meaning self.now.theory.now) self.now.ranks.now self.now.rules.now self.now.own.now self.now.most course.old }
        ensures { MatchResult result (λ _. IsWhole (T.meaning self.now.theory.now) self.now.ranks.now self.now.rules.now self.now.most course.new.known) (StopsSearch (T.meaning self.now.theory.now) self.now.ranks.now self.now.rules.now self.now.most) }
    {
        'turns: loop {
            self.open_new(&course.known, &mut course.offers)?;
            let Some(class) = course.offers.pending.take() else {
                return Ok(());
            };
            let told = add_to_splits(
                self.alloc,
                self.ranks,
                self.own,
                &mut course.offers.splits,
                &class.row,
            );
            course.known.add(self.alloc, kept(class, (), told)?)?;
        }
    }

    /// All classes, where there are not more than `most`.
    pub fn run(&self) -> Result<Known<T::Value>, ClassStop<T::Chain>>
        requires ready { IsReady T.Atom.eq (T.atom_fits self.now.theory.now) self.now.ranks.now self.now.rules.now self.now.own.now }
        ensures { MatchResult result (IsWhole (T.meaning self.now.theory.now) self.now.ranks.now self.now.rules.now self.now.most) (StopsSearch (T.meaning self.now.theory.now) self.now.ranks.now self.now.rules.now self.now.most) }
    {
        let begun = Known::new(self.alloc, self.ranks, self.rules);
        let (known, splits) = both(begun, no_splits(self.alloc, self.ranks.len()))?;
        let pending = Pending::new(self.alloc);
        let offers = Offers { pending, splits };
        let mut course = Course { known, offers };
        let ended = self.go_on(&mut course);
        kept(course.known, course.offers, ended)
    }
}
