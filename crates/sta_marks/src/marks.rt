//! Marks of nodes, as bits in words.

ghost use Rattle.std.specs.Prelude.{◌≡◌, ◌<◌, ◌++◌, ◌∷◌, [], false, true, length, get_or, OnOk};
ghost use Rattle.model_sta.specs.Sets.{has};
ghost use Rattle.sta_marks.specs.Rows.{no_state, with_row, with_state};

use fast_fault::Memory;
use std::alloc::Global;
use std::marker::Model;

/// Of each node of a tree, in preorder from 0, the states that accept the subtree at it.
#[derive(Drop)]
pub struct Marks {
    words: Vec<u64>,
    states: usize,
    nodes: usize,
}

impl Model for Marks {
    ghost use Rattle.std.specs.Prelude.{◌≡◌, ◌*◌, length};
    ghost use Rattle.sta_marks.specs.Rows.{Marked, rows_in, width};

    ghost Value = { Marked };

    ghost view = { λ s. record { states = s.states; rows = rows_in s.states s.nodes s.words.items } };

    ghost invariant = { λ s. length s.words.items ≡ s.nodes * width s.states };
}

impl Marks {
    /// Marks of so many states, and of no node.
    pub(crate) fn new(alloc: Global, states: usize) -> Marks
        ensures { result ≡ record { states = states; rows = [] } }
    {
        Marks {
            words: Vec::new(alloc),
            states,
            nodes: 0,
        }
    }

    /// How many nodes there are.
    pub(crate) fn nodes(&self) -> usize
        ensures { result ≡ length self.now.rows }
    {
        self.nodes
    }

    /// Whether the node has the mark of the state.
    pub(crate) fn is_marked(&self, node: usize, state: usize) -> bool
        ensures { result ≡ has (get_or self.now.rows node []) state }
    {
        if node >= self.nodes || state >= self.states {
            return false;
        }
        let word = self.words[node * (self.states / 64 + 1) + state / 64];
        (word >> (state % 64)) & 1 == 1
    }

    /// Whether the state accepts the subtree at the node. Takes no memory.
    pub fn has(&self, node: u32, state: u64) -> bool
        ensures { result ≡ has (get_or self.now.rows node []) state }
    {
        self.is_marked(node as usize, state as usize)
    }

    /// Adds a node without marks.
    pub(crate) fn add(&mut self) -> Result<(), Memory>
        ensures { OnOk result (self.new ≡ record { states = self.old.states; rows = self.old.rows ++ no_state self.old.states ∷ [] }) }
    {
        let long = self.words.len() + (self.states / 64 + 1);
        self.words.resize(long, 0)?;
        self.nodes += 1;
        Ok(())
    }

    /// Marks the node with the state.
    pub(crate) fn put(&mut self, node: usize, state: usize)
        requires node { node < length self.old.rows }
        requires state { state < self.old.states }
        ensures { self.new ≡ with_row self.old node (with_state state true (get_or self.old.rows node [])) }
    {
        self.words[node * (self.states / 64 + 1) + state / 64] |= 1 << (state % 64);
    }
}
