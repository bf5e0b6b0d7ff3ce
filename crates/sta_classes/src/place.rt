//! The kinds of classes at one place of a constructor.

ghost use Rattle.std.specs.Prelude.{◌≡◌, ◌<◌, ◌++◌, ◌∷◌, [], length, get_or, cond, IfOk, OnOk, Decides};
ghost use Rattle.sta_classes.specs.Grow.{Grown};
ghost use Rattle.sta_classes.specs.Places.{AsksFor, AreAsked, IsNumbered, IsNext};

use crate::keep::kept;
use crate::row::Row;
use fast_fault::Memory;
use indexmap::IndexSet;
use label_core::added;
use sta_core::StaRule;
use std::alloc::Global;

/// What the rules of a constructor demand at one place, and of which kind each class is there.
#[derive(Drop)]
pub struct Place {
    /// The states that some rule demands.
    pub states: Vec<u64>,
    /// Which of them the classes of each kind have.
    pub kinds: IndexSet<Row>,
    /// The first class of each kind.
    pub firsts: Vec<usize>,
    /// The kind of each class.
    pub kind_of: Vec<usize>,
}

/// Adds the states that the rule demands at the place, if it has the constructor.
fn add_of_rule<A>(
    rule: &StaRule<A>,
    constructor: u32,
    place: usize,
    list: &mut Vec<u64>,
) -> Result<(), Memory>
    ensures { OnOk result (Grown list.old.items list.new.items (AsksFor constructor place rule.now)) }
{
    if rule.constructor != constructor {
        return Ok(());
    }
    if place >= rule.demands.len() {
        return Ok(());
    }
    'states: for state in &rule.demands[place] {
        if list.contains(state) {
            continue;
        }
        list.push(*state)?;
    }
    Ok(())
}

/// Puts the class behind the list, if it is the first of its kind.
fn note(firsts: &mut Vec<usize>, class: usize, new: bool) -> Result<(), Memory>
    ensures { OnOk result (firsts.new.items ≡ cond new (firsts.old.items ++ class ∷ []) firsts.old.items) }
{
    if new {
        firsts.push(class)?;
    }
    Ok(())
}

impl Place {
    /// The place, before there are classes.
    pub fn new<A>(
        alloc: Global,
        rules: &[Vec<StaRule<A>>],
        constructor: u32,
        place: usize,
    ) -> Result<Place, Memory>
        ensures states { IfOk result (λ made. AreAsked rules.now constructor place made.states.items) }
        ensures numbered { IfOk result (IsNumbered []) }
    {
        let mut states = Vec::new(alloc);
        'states: for those in rules {
            'rules: for rule in those {
                add_of_rule(rule, constructor, place, &mut states)?;
            }
        }
        Ok(Place {
            states,
            kinds: IndexSet::new(alloc),
            firsts: Vec::new(alloc),
            kind_of: Vec::new(alloc),
        })
    }

    /// Tells the kind of one more class.
    pub fn add(&mut self, alloc: Global, row: &Row) -> Result<(), Memory>
        ensures { OnOk result (IsNext row.now self.old self.new) }
    {
        let mut key = Row::new(alloc, self.states.len())?;
        for i in 0..self.states.len() {
            key.put(i, row.has(self.states[i]));
        }
        let (kind, new) = self.kinds.insert_full(key)?;
        let noted = note(&mut self.firsts, self.kind_of.len(), new);
        added(&mut self.kind_of, kept(kind, (), noted))
    }

    /// Whether the class is the first of its kind.
    pub fn begins(&self, class: usize) -> bool
        requires known { class < length self.now.kind_of.items }
        requires low { get_or self.now.kind_of.items class 0 < length self.now.firsts.items }
        ensures { Decides result (get_or self.now.firsts.items (get_or self.now.kind_of.items class 0) 0 ≡ class) }
    {
        self.firsts[self.kind_of[class]] == class
    }
}
