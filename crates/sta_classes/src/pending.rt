//! Sets that trees have, and of each that is no class yet the cheapest candidate.

ghost use Rattle.std.specs.Prelude.{◌≡◌, ◌≤◌, [], length, IfOk, OnOk, MatchOption, Ok};
ghost use Rattle.sta_classes.specs.declared.class.Class.{Class};
ghost use Rattle.sta_classes.specs.Rows.{found_of};
ghost use Rattle.sta_classes.specs.Pending.{AreKept, IsOffered, IsTaken, IsDone, is_dearer, leaves, kept_at};

use crate::class::{CAP, Class};
use crate::row::Row;
use fast_fault::Memory;
use indexmap::IndexSet;
use label_core::{Theory, added, both};
use std::alloc::Global;
use std::collections::BinaryHeap;

/// A tree over trees of classes, but for its label.
#[derive(Drop)]
pub struct Over<'a> {
    pub constructor: u32,
    pub nodes: u64,
    pub children: &'a [usize],
}

/// The sets that are known to be those of trees, and the cheapest candidate of each that is still pending.
#[derive(Drop)]
pub struct Pending<V> {
    pub sets: IndexSet<Row>,
    pub best: Vec<Option<Class<V>>>,
    /// The numbers of pending sets, with what their candidates leave up to the cap.
    pub order: BinaryHeap<(u64, usize)>,
}

impl Over<'_> {
    /// The tree with this set, with copies of it and of the label.
    fn class<T: Theory>(
        &self,
        theory: &T,
        alloc: Global,
        row: &Row,
        value: &T::Value,
    ) -> Result<Class<T::Value>, Memory>
        ensures { IfOk result (λ c. found_of T.label_of c ≡ record { row = row.now; nodes = self.now.nodes; constructor = self.now.constructor; label = T.label_of value.now; children = self.now.children.now }) }
    {
        let children = Vec::from_slice(alloc, self.children)?;
        let (value, row) = both(theory.copy_value(alloc, value), row.copy(alloc))?;
        let constructor = self.constructor;
        let nodes = self.nodes;
        Ok(Class {
            row,
            nodes,
            constructor,
            value,
            children,
        })
    }
}

/// Whether there is a candidate that has more nodes than these.
fn is_dearer<V>(candidate: &Option<Class<V>>, nodes: u64) -> bool
    ensures { result ≡ is_dearer candidate.now nodes }
{
    match candidate {
        Some(class) => nodes < class.nodes,
        None => false,
    }
}

/// Whether there is a candidate that leaves so many nodes up to the cap.
fn leaves<V>(candidate: &Option<Class<V>>, room: u64) -> bool
    ensures { result ≡ leaves candidate.now room }
{
    match candidate {
        Some(class) => class.nodes <= CAP && CAP - class.nodes == room,
        None => false,
    }
}

/// Puts the candidate that was made at the number, which is the next one or has one already.
fn keep<V: Drop>(
    best: &mut Vec<Option<Class<V>>>,
    number: usize,
    made: Result<Class<V>, Memory>,
) -> Result<(), Memory>
    requires { number ≤ length best.old.items }
    ensures { OnOk result ((class : Class V) × (made ≡ Ok class) × (best.new.items ≡ kept_at best.old.items number class)) }
{
    let candidate = Some(made?);
    if number == best.len() {
        return added(best, Ok(candidate));
    }
    best[number] = candidate;
    Ok(())
}

impl<V: Drop> Pending<V> {
    /// No sets yet.
    pub fn new(alloc: Global) -> Pending<V>
        ensures kept { AreKept result }
        ensures none { result.best.items ≡ [] }
    {
        Pending {
            sets: IndexSet::new(alloc),
            best: Vec::new(alloc),
            order: BinaryHeap::new(alloc),
        }
    }

    /// Keeps the tree for its set, if the set is new or has only candidates with more nodes.
    pub fn offer<T: Theory<Value = V>>(
        &mut self,
        theory: &T,
        alloc: Global,
        row: Row,
        over: &Over<'_>,
        value: &V,
    ) -> Result<(), Memory>
        requires kept { AreKept self.old }
        requires capped { over.now.nodes ≤ CAP }
        ensures { OnOk result (AreKept self.new × IsOffered T.label_of self.old self.new (record { row = row; nodes = over.now.nodes; constructor = over.now.constructor; label = T.label_of value.now; children = over.now.children.now })) }
    {
        let (number, new) = self.sets.insert_full(row)?;
        if !new && !is_dearer(&self.best[number], over.nodes) {
            return Ok(());
        }
        self.order.push((CAP - over.nodes, number))?;
        let made = over.class(theory, alloc, &self.sets.as_slice()[number], value);
        keep(&mut self.best, number, made)
    }

    /// Takes the cheapest candidate.
    pub fn take(&mut self) -> Option<Class<V>>
        requires kept { AreKept self.old }
        ensures kept { AreKept self.new }
        ensures taken { MatchOption result (IsDone self.old self.new) (IsTaken self.old self.new) }
    {
        'order: while let Some(first) = self.order.pop() {
            if leaves(&self.best[first.1], first.0) {
                return self.best[first.1].take();
            }
        }
        None
    }
}
