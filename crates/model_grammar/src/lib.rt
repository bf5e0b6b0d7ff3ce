//! The whole grammar of programs and of tree files as relations between tokens and trees, and the printed text of a
//! program, for contracts.
//!
//! What a reader of the product must believe about its syntax stands here and in `model_program`, which has tokens and
//! the forms that join them. Nothing here knows how a text is read.
#![tactic(auto)]

mod laws;

pub use laws::{goes_wrong_once, nesting_is_limited, prefix_is_infix, printed_trees_read_back};

/// An operation on one operand.
#[derive(Clone, Copy, PartialEq, Eq)]
pub enum Op1 {
    Complement,
    Minimize,
    Domain,
    GetWitness,
}

/// An operation on two operands.
#[derive(Clone, Copy, PartialEq, Eq)]
pub enum Op2 {
    Intersect,
    Union,
    Difference,
    PreImage,
    Compose,
    Restrict,
    RestrictOut,
    Apply,
}

/// A comparison.
#[derive(Clone, Copy, PartialEq, Eq)]
pub enum Rel {
    Equal,
    NotEqual,
    Less,
    AtMost,
    Greater,
    AtLeast,
}

/// An operator that joins two operands or more.
#[derive(Clone, Copy, PartialEq, Eq)]
pub enum Chain {
    Disjunction,
    Conjunction,
    Sum,
    Product,
}

/// How tightly a label expression binds, from the loosest: the nonterminals E, Conj, Neg, Cmp, Sum, Prod, Unary and Prim
/// of the grammar.
#[derive(Clone, Copy, PartialEq, Eq)]
pub enum Level {
    E,
    Conj,
    Neg,
    Cmp,
    Sum,
    Prod,
    Unary,
    Prim,
}
