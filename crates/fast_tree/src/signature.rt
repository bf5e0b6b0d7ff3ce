//! The types of trees.

use fast_fault::Text;

/// What the values of a field are.
#[derive(Clone, Copy, Debug, PartialEq, Eq, PartialOrd, Ord)]
pub enum Sort {
    Int,
    Bool,
    Text,
}

/// A field of the labels of a type.
#[derive(Drop)]
pub struct FieldOf {
    pub name: Text,
    pub sort: Sort,
}

/// A constructor of a type. Its rank is the number of children that its trees have.
#[derive(Drop)]
pub struct CtorOf {
    pub name: Text,
    pub rank: u32,
}

/// A type of trees. A constructor's number in a tree is its place in this list, counted from 0.
#[derive(Drop)]
pub struct Signature {
    pub name: Text,
    pub fields: Vec<FieldOf>,
    pub constructors: Vec<CtorOf>,
}
