//! Items, and the expressions and output terms in them.

ghost use Rattle.std.specs.Prelude.{◌≡◌, ◌++◌, ◌∷◌, [], OnOk};
ghost use Rattle.fast_syntax.specs.Plain.{plain_item, plain_program};

use crate::expressions::Expr;
use crate::{Demand, Name, TypeItem};
use fast_fault::{Memory, Pos};
use model_grammar::{Op1, Op2};
use std::alloc::Global;

#[derive(Drop)]
pub struct Program {
    pub items: Vec<Item>,
}

impl Program {
    /// A program without items.
    pub fn new(alloc: Global) -> Program
        ensures { plain_program result ≡ [] }
    {
        Program {
            items: Vec::new(alloc),
        }
    }

    /// One item more, at the end.
    pub fn add(&mut self, item: Item) -> Result<(), Memory>
        ensures { OnOk result (plain_program self.new ≡ plain_program self.old ++ plain_item item ∷ []) }
    {
        Ok(self.items.push(item)?)
    }

    /// Frees it. How each of its parts is freed is proved here, and not again in each crate that lets a program go.
    pub fn let_go(self) {}
}

/// An item. Its place is that of its first token.
#[derive(Drop)]
pub struct Item {
    pub place: Pos,
    pub body: Body,
}

#[derive(Drop)]
pub enum Body {
    Sorts(TypeItem),
    Tree(TreeItem),
    Lang(LangItem),
    Trans(TransItem),
    Def(DefItem),
    Assert(AssertItem),
}

/// A tree of a type.
#[derive(Drop)]
pub struct TreeItem {
    pub name: Name,
    pub of: Name,
    pub value: X,
}

/// A language of trees of a type.
#[derive(Drop)]
pub struct LangItem {
    pub name: Name,
    pub of: Name,
    pub rules: Vec<Rule>,
}

/// A tree with this constructor is in the language where the guard holds of its label and each demand of its children.
#[derive(Drop)]
pub struct Rule {
    pub ctor: Name,
    pub vars: Vec<Name>,
    pub guard: Option<Expr>,
    pub given: Vec<Demand>,
}

/// A transformation of trees of one type into trees of another.
#[derive(Drop)]
pub struct TransItem {
    pub name: Name,
    pub from: Name,
    pub into: Name,
    pub rules: Vec<OutRule>,
}

/// Where the rule holds of a tree, the tree is made into the output.
#[derive(Drop)]
pub struct OutRule {
    pub rule: Rule,
    pub out: Out,
}

/// An output term. Its place is that of its constructor or first name.
#[derive(Drop)]
pub enum Out {
    /// A child as it is.
    Child(Name),
    /// What a transformation makes of a child.
    Call(Name, Name),
    /// A constructor with labels and children.
    Node(Name, Vec<Expr>, Vec<Out>),
}

/// A language, or with an output type a transformation, by an expression.
#[derive(Drop)]
pub struct DefItem {
    pub name: Name,
    pub from: Name,
    pub into: Option<Name>,
    pub value: X,
}

/// An expression of a language, a transformation or a tree. Its place is that of its keyword, constructor or name.
#[derive(Drop)]
pub enum X {
    Named(Name),
    One(Op1, Pos, Box<X>),
    Two(Op2, Pos, Box<X>, Box<X>),
    Literal(Name, Vec<Expr>, Vec<X>),
}

/// A claim, and whether it is asserted to be true or false.
#[derive(Drop)]
pub struct AssertItem {
    pub wanted: bool,
    pub claim: Claim,
}

#[derive(Drop)]
pub enum Claim {
    /// Two languages have the same trees.
    Equal(X, X),
    /// A tree is in a language.
    Member(X, X),
    /// A language has no tree, or a transformation no output.
    Empty(X),
    /// Each output of a transformation on a tree of the first language is in the second.
    TypeCheck(X, X, X),
}
