//! Operations on languages over the same constructors and labels.

ghost use Rattle.std.specs.Prelude.{IfOk};
ghost use Rattle.model_tree.specs.Tree.{EveryLabel};
ghost use Rattle.ops_tests.specs.Over.{IsOver, HasFields, Shows};

use crate::rules::{Line, add_rule};
use fast_tree::Tree;
use flat_label::{BoolAtom, Bools, Never};
use sta_classes::ClassStop;
use sta_core::{Lang, StaRule, accepts};
use sta_min::{Minimal, minimize};
use sta_ops::{Found, Wanted, compare, complement, difference, empty, union};
use sta_tests::checked;
use std::alloc::Global;
use std::test::Fail;

/// More classes than any of the languages has.
const MANY: u32 = 1000;

/// The constructors by their ranks, and labels of so many truth values.
#[derive(Drop)]
pub(crate) struct Alphabet {
    alloc: Global,
    fields: u32,
    ranks: Vec<u32>,
}

impl Alphabet {
    pub(crate) fn new(alloc: Global, fields: u32, ranks: &[u32]) -> Result<Alphabet, Fail> {
        let ranks = Vec::from_slice(alloc, ranks)?;
        Ok(Alphabet {
            alloc,
            fields,
            ranks,
        })
    }

    /// The language of one of the states that have these rules.
    pub(crate) fn lang_of(
        &self,
        rules: Vec<Vec<StaRule<BoolAtom>>>,
        state: u64,
    ) -> Result<Lang<BoolAtom>, Fail>
        ensures { IfOk result (IsOver self.now.ranks.items self.now.fields) }
    {
        let ranks = Vec::from_slice(self.alloc, &self.ranks)?;
        let sta = checked(self.fields, ranks, rules).ok_or("the rules don't fit")?;
        if state >= sta.states() {
            return Err("no such state".into());
        }
        if sta.ranks() != &self.ranks[..] {
            return Err("the ranks are others".into());
        }
        Ok(Lang { sta, state })
    }

    /// The language of state 0, where states have these rules.
    pub(crate) fn lang(&self, lines: &[Line<'_, '_>]) -> Result<Lang<BoolAtom>, Fail>
        ensures { IfOk result (IsOver self.now.ranks.items self.now.fields) }
    {
        let mut rules = Vec::new(self.alloc);
        for line in lines {
            add_rule(self.alloc, *line, &mut rules)?;
        }
        self.lang_of(rules, 0)
    }

    pub(crate) fn union(
        &self,
        a: &Lang<BoolAtom>,
        b: &Lang<BoolAtom>,
    ) -> Result<Lang<BoolAtom>, Fail>
        requires first { IsOver self.now.ranks.items self.now.fields a.now }
        requires second { IsOver self.now.ranks.items self.now.fields b.now }
        ensures { IfOk result (IsOver self.now.ranks.items self.now.fields) }
    {
        let theory = Bools::new(self.fields);
        Ok(union(&theory, self.alloc, a, b)?)
    }

    /// The complement, where there may be so many classes.
    pub(crate) fn complement_within(
        &self,
        a: &Lang<BoolAtom>,
        most: u32,
    ) -> Result<Lang<BoolAtom>, ClassStop<Never>>
        requires { IsOver self.now.ranks.items self.now.fields a.now }
        ensures { IfOk result (IsOver self.now.ranks.items self.now.fields) }
    {
        let theory = Bools::new(self.fields);
        complement(&theory, self.alloc, a, most)
    }

    pub(crate) fn complement(&self, a: &Lang<BoolAtom>) -> Result<Lang<BoolAtom>, Fail>
        requires { IsOver self.now.ranks.items self.now.fields a.now }
        ensures { IfOk result (IsOver self.now.ranks.items self.now.fields) }
    {
        Ok(self.complement_within(a, MANY).ok().ok_or("no complement")?)
    }

    pub(crate) fn difference(
        &self,
        a: &Lang<BoolAtom>,
        b: &Lang<BoolAtom>,
    ) -> Result<Lang<BoolAtom>, Fail>
        requires first { IsOver self.now.ranks.items self.now.fields a.now }
        requires second { IsOver self.now.ranks.items self.now.fields b.now }
        ensures { IfOk result (IsOver self.now.ranks.items self.now.fields) }
    {
        let theory = Bools::new(self.fields);
        Ok(
            difference(&theory, self.alloc, a, b, MANY)
                .ok()
                .ok_or("no difference")?,
        )
    }

    pub(crate) fn minimal(&self, a: &Lang<BoolAtom>) -> Result<Minimal<BoolAtom>, Fail>
        requires { IsOver self.now.ranks.items self.now.fields a.now }
        ensures { IfOk result (λ m. IsOver self.now.ranks.items self.now.fields m.lang) }
    {
        let theory = Bools::new(self.fields);
        Ok(
            minimize(&theory, self.alloc, a, MANY)
                .ok()
                .ok_or("no automaton")?,
        )
    }

    /// What is found of the trees of the language.
    pub(crate) fn member(&self, a: &Lang<BoolAtom>) -> Result<Found<Vec<bool>>, Fail>
        requires { IsOver self.now.ranks.items self.now.fields a.now }
    {
        let theory = Bools::new(self.fields);
        Ok(empty(&theory, self.alloc, a, MANY).ok().ok_or("no answer")?)
    }

    /// What is found of the trees that are wanted of the languages.
    pub(crate) fn compared(
        &self,
        wanted: Wanted,
        a: &Lang<BoolAtom>,
        b: &Lang<BoolAtom>,
    ) -> Result<Found<Vec<bool>>, Fail>
        requires first { IsOver self.now.ranks.items self.now.fields a.now }
        requires second { IsOver self.now.ranks.items self.now.fields b.now }
        ensures { IfOk result (Shows (HasFields self.now.fields)) }
    {
        let theory = Bools::new(self.fields);
        match compare(&theory, self.alloc, wanted, a, b, MANY) {
            Ok(found) => Ok(found),
            Err(_) => Err("no answer".into()),
        }
    }

    /// What is found of the trees in exactly one of the languages.
    pub(crate) fn telling(
        &self,
        a: &Lang<BoolAtom>,
        b: &Lang<BoolAtom>,
    ) -> Result<Found<Vec<bool>>, Fail>
        requires first { IsOver self.now.ranks.items self.now.fields a.now }
        requires second { IsOver self.now.ranks.items self.now.fields b.now }
        ensures { IfOk result (Shows (HasFields self.now.fields)) }
    {
        self.compared(Wanted::One, a, b)
    }

    pub(crate) fn accepts(&self, a: &Lang<BoolAtom>, tree: &Tree<Vec<bool>>) -> bool
        requires lang { IsOver self.now.ranks.items self.now.fields a.now }
        requires labels { EveryLabel (HasFields self.now.fields) tree.now }
    {
        let theory = Bools::new(self.fields);
        accepts(&theory, &a.sta, a.state, tree)
    }
}
