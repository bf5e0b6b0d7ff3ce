//! What runs over a term, and a way in which it does.

use label_core::Formula;

/// A child as it is, or what a state gives on it.
#[derive(Clone, Copy, Debug, PartialEq, Eq, Hash)]
pub enum Head {
    Same,
    Run(u64),
}

/// What the first gives, states of the second's lookahead that are demanded of it, and what then runs over it, if anything.
#[derive(Drop)]
pub struct Triple {
    pub first: Head,
    pub all: Vec<u64>,
    pub second: Option<Head>,
}

/// What a way gives: what a triple gives on a child, or a new node.
#[derive(Drop)]
pub enum WayTerm<M> {
    Call(Triple, u32),
    Node(u32, M, Vec<WayTerm<M>>),
}

/// A guard of the first's label, triples that each child has to meet, and a term where the triple has a second part.
#[derive(Drop)]
pub struct Way<A, M> {
    pub guard: Formula<A>,
    pub demands: Vec<Vec<Triple>>,
    pub term: Option<WayTerm<M>>,
}
