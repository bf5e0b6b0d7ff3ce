//! The program tree: what a program says, with the place of each name and each node in its text.
//!
//! Its promise: each type has its plain form (`specs/View.antt`), which is all that contracts say of it.
#![tactic(auto)]

pub mod expressions;
pub mod items;
mod page;
mod print_expressions;
mod print_items;
mod print_lists;
mod print_rules;
mod print_terms;
mod spelling;

pub use fast_fault::{Pos, Text};
pub use model_grammar::{Op1, Op2, Rel};
pub use print_items::print;

/// A name where it stands.
#[derive(Drop)]
pub struct Name {
    pub text: Text,
    pub place: Pos,
}

/// A type of trees: the fields of each label, and the constructors.
#[derive(Drop)]
pub struct TypeItem {
    pub name: Name,
    pub fields: Vec<FieldItem>,
    pub ctors: Vec<CtorItem>,
}

/// A field. The sorts `int`, `bool` and `string` are kept as `Int`, `Bool` and `String`.
#[derive(Drop)]
pub struct FieldItem {
    pub name: Name,
    pub sort: Name,
}

/// A constructor and the number of its children.
#[derive(Drop)]
pub struct CtorItem {
    pub name: Name,
    pub rank: i128,
}

/// The child that a variable names is in a language.
#[derive(Drop)]
pub struct Demand {
    pub language: Name,
    pub child: Name,
}
