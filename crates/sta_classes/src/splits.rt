//! The rules of a constructor that children let fire, and labels that tell the guards of such rules apart.

ghost use Rattle.std.specs.Prelude.{Vec, ◌≡◌, ◌<◌, ◌++◌, ◌∷◌, [], Bool, List, true, All, length, map, get_or, IfOk, OnOk, MatchResult};
ghost use Rattle.std.specs.Global.{Global};
ghost use Rattle.model_sta.specs.Sets.{rows_meet};
ghost use Rattle.model_tree.specs.Formula.{EveryAtom};
ghost use Rattle.sta_core.specs.Machine.{plain_rule};
ghost use Rattle.sta_classes.specs.Applying.{guards_in, AreFit};
ghost use Rattle.sta_classes.specs.Bits.{both};
ghost use Rattle.sta_classes.specs.Splits.{AreMet, AreTelling, AreTold, AreAllTold, IsUnder, AreFresh, IsNextSplit, NextSplits};
ghost use Rattle.sta_classes.specs.Stop.{ClassStopsFor};
ghost use Rattle.sta_classes.specs.declared.splits.Told.{Told};

use crate::row::{Row, numbers_at};
use crate::rules::{Owned, Rules, guards_of, met_at};
use crate::stop::ClassStop;
use fast_fault::Memory;
use indexmap::IndexSet;
use label_core::{Theory, added};
use label_split::{SignRow, SplitStop, split};
use std::alloc::Global;

/// A label, and the rules whose guards hold of it.
#[derive(Drop)]
pub struct Told<V> {
    pub holds: Row,
    pub value: V,
}

/// What is known of the rules of a constructor.
#[derive(Drop)]
pub struct Splits<V> {
    /// For each class, at each place, the numbers of the rules whose demands it meets there.
    pub met: Vec<Vec<Row>>,
    /// The sets of guards that children have left open so far, each guard by the number of a rule.
    pub sets: IndexSet<Row>,
    /// For each such set, labels that tell the guards apart.
    pub told: Vec<Vec<Told<V>>>,
}

/// Each of the rows, in order, with the rules whose guards hold of its label in place of the signs. None of them is left.
fn tell_each<T: Theory>(
    theory: &T,
    alloc: Global,
    list: &[Owned<T::Atom>],
    rows: &mut Vec<SignRow<T::Value>>,
) -> Result<Vec<Told<T::Value>>, Memory>
    requires fit { All (λ x. EveryAtom (T.atom_fits theory.now) (plain_rule x.rule.now).guard) list.now }
    requires kept { All (λ r. (T.meaning theory.now).keeps (T.label_of r.value)) rows.old.items }
    ensures { IfOk result (λ told. AreTelling (T.meaning theory.now) list.now rows.old.items [] told.items) }
{
    let mut told = Vec::new(alloc);
    // the last one is taken first
    rows.reverse();
    'rows: while let Some(row) = rows.pop() {
        let mut holds = Row::new(alloc, list.len())?;
        for i in 0..list.len() {
            let rule = list[i].rule;
            holds.put(i, rule.guard.holds(theory, &row.value));
        }
        told.push(Told {
            holds,
            value: row.value,
        })?;
    }
    Ok(told)
}

/// Puts labels that tell the guards of the rules with these numbers apart behind the others.
fn tell<T: Theory>(
    theory: &T,
    alloc: Global,
    list: &[Owned<T::Atom>],
    numbers: &Row,
    told: &mut Vec<Vec<Told<T::Value>>>,
) -> Result<(), ClassStop<T::Chain>>
    requires fit { All (λ x. EveryAtom (T.atom_fits theory.now) (plain_rule x.rule.now).guard) list.now }
    ensures { MatchResult result (λ _. (labels : Vec (Told T.Value) Global) × AreTold (T.meaning theory.now) list.now numbers.now labels.items × (told.new.items ≡ told.old.items ++ labels ∷ [])) (ClassStopsFor (T.meaning theory.now) ⊥ (guards_in list.now)) }
{
    let rows = split(theory, alloc, &guards_of(alloc, list, numbers)?, u32::MAX);
    match rows {
        Ok(mut rows) => Ok(added(told, tell_each(theory, alloc, list, &mut rows))?),
        Err(SplitStop::Wide(chain)) => Err(ClassStop::Wide(chain)),
        Err(SplitStop::TooMany) => Err(ClassStop::Memory),
        Err(SplitStop::Memory) => Err(ClassStop::Memory),
    }
}

impl<V: Drop> Splits<V> {
    /// Tells which rules the children of one more class meet at each place.
    pub fn add<A>(
        &mut self,
        alloc: Global,
        list: &[Owned<A>],
        places: u32,
        row: &Row,
    ) -> Result<(), Memory>
        ensures { OnOk result (IsNextSplit list.now places row.now self.old self.new) }
    {
        let mut made = Vec::new(alloc);
        'places: for place in 0..places {
            added(&mut made, met_at(alloc, list, place as usize, row))?;
        }
        added(&mut self.met, Ok(made))
    }

    /// The numbers of the rules whose demands are met by children of these classes.
    pub fn key<A>(&self, alloc: Global, own: &Rules<A>, children: &[usize]) -> Result<Row, Memory>
        requires all { own.now.all ≡ map (λ x. true) own.now.list.items }
        requires known { All (λ k. k < length self.now.met.items) children.now }
        requires met { (rows : List (List Bool)) × AreMet own.now.list.items (length children.now) rows self.now.met.items }
        ensures { IfOk result (λ key. (rows : List (List Bool)) → AreMet own.now.list.items (length children.now) rows self.now.met.items → key ≡ map (λ x. rows_meet (map (λ k. get_or rows k []) children.now) (plain_rule x.rule.now).demands) own.now.list.items) }
    {
        let mut key = own.all.copy(alloc)?;
        for place in 0..children.len() {
            key.meet(&self.met[children[place]][place]);
        }
        Ok(key)
    }

    /// The number of the labels that tell the guards of these rules apart.
    pub fn number<T: Theory<Value = V>>(
        &mut self,
        theory: &T,
        alloc: Global,
        own: &Rules<T::Atom>,
        key: &Row,
    ) -> Result<usize, ClassStop<T::Chain>>
        requires fit { AreFit T.Atom.eq (T.atom_fits theory.now) own.now }
        requires many { length key.now ≡ length own.now.guarded }
        requires told { AreAllTold (T.meaning theory.now) own.now.list.items self.old }
        ensures { MatchResult result (IsUnder (T.meaning theory.now) own.now.list.items (both own.now.guarded key.now) self.old self.new) (ClassStopsFor (T.meaning theory.now) ⊥ (guards_in own.now.list.items)) }
    {
        let open = numbers_at(alloc, &own.likes, own.likes.len(), &own.guarded, key)?;
        let (number, new) = self.sets.insert_full(open)?;
        if new {
            let numbers = &self.sets.as_slice()[number];
            tell(theory, alloc, &own.list, numbers, &mut self.told)?;
        }
        Ok(number)
    }
}

/// Nothing is known of the rules of so many constructors.
pub fn no_splits<V: Drop>(alloc: Global, constructors: usize) -> Result<Vec<Splits<V>>, Memory>
    ensures { IfOk result (λ splits. AreFresh constructors splits.items) }
{
    let mut splits = Vec::new(alloc);
    'constructors: for _ in 0..constructors {
        splits.push(Splits {
            met: Vec::new(alloc),
            sets: IndexSet::new(alloc),
            told: Vec::new(alloc),
        })?;
    }
    Ok(splits)
}

/// Tells which rules of each constructor a child of one more class meets.
pub fn add_to_splits<A, V: Drop>(
    alloc: Global,
    ranks: &[u32],
    own: &[Rules<A>],
    splits: &mut Vec<Splits<V>>,
    row: &Row,
) -> Result<(), Memory>
    requires own { length own.now ≡ length ranks.now }
    requires many { length splits.old.items ≡ length ranks.now }
    ensures { OnOk result (NextSplits ranks.now own.now row.now splits.old.items splits.new.items) }
{
    'constructors: for constructor in 0..splits.len() {
        let list = &own[constructor].list;
        splits[constructor].add(alloc, list, ranks[constructor], row)?;
    }
    Ok(())
}
