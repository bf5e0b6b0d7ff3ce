//! Label expressions.

use fast_fault::{Pos, Text};
use model_grammar::Rel;

/// A label expression. Its place is that of its first operator's token, or of the name or constant that it is.
#[cycle(expression)]
#[derive(Drop)]
pub struct Expr {
    pub place: Pos,
    pub node: Node,
}

/// `Or`, `And`, `Sum` and `Prod` have at least two parts, and a product is taken from the left.
#[cycle(expression)]
#[derive(Drop)]
pub enum Node {
    Field(Text),
    Num(i128),
    Str(Text),
    Truth(bool),
    Or(Vec<Expr>),
    And(Vec<Expr>),
    Not(Box<Expr>),
    Compare(Rel, Box<Expr>, Box<Expr>),
    Sum(Vec<SumPart>),
    Prod(Vec<ProdPart>),
    Minus(Box<Expr>),
}

/// A part of a sum, and whether it is subtracted; the first never is.
#[cycle(expression)]
#[derive(Drop)]
pub struct SumPart {
    pub minus: bool,
    pub part: Expr,
}

/// A part of a product, and whether the remainder by it is taken; by the first it never is.
#[cycle(expression)]
#[derive(Drop)]
pub struct ProdPart {
    pub remainder: bool,
    pub part: Expr,
}
