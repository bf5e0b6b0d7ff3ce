//! Label expressions as they are written, places aside.

ghost use Rattle.std.specs.Prelude.{◌≡◌, ◌∷◌, [], true, IfOk, MatchResult, map};
ghost use Rattle.fast_syntax.specs.Plain.{plain_expr};
ghost use Rattle.fast_syntax.specs.Slices.{plain_sum_parts, plain_prod_parts};
ghost use Rattle.record_label.specs.Parts.{unmarked};
ghost use Rattle.record_label.specs.Written.{first_mark, marks_of, marks_of_parts, Adds, WrittenAlike};

use fast_fault::{Memory, Text};
use fast_syntax::expressions::{Expr, Node, ProdPart, SumPart};
use label_core::added;
use model_grammar::{Chain, Rel};
use std::alloc::Global;

/// A piece of a label expression. What joins parts stands in front of them, and an end behind the parts of a chain.
#[derive(PartialEq, Eq, Drop)]
pub enum Mark {
    Field(Text),
    Number(i128),
    Constant(Text),
    Truth(bool),
    Not,
    Minus,
    Compare(Rel),
    Chain(Chain),
    Part(bool),
    End,
}

/// A label expression as it is written, piece by piece.
#[derive(PartialEq, Eq, Drop)]
pub struct Written {
    pub marks: Vec<Mark>,
}

/// The piece that stands first: what joins the parts of the expression, or all of it where it has none.
fn first_mark(alloc: Global, expr: &Expr) -> Result<Mark, Memory>
    ensures { IfOk result (λ mark. mark ≡ first_mark (plain_expr expr.now)) }
{
    match &expr.node {
        Node::Field(name) => Ok(Mark::Field(name.copy(alloc)?)),
        Node::Num(value) => Ok(Mark::Number(*value)),
        Node::Str(text) => Ok(Mark::Constant(text.copy(alloc)?)),
        Node::Truth(value) => Ok(Mark::Truth(*value)),
        Node::Not(_) => Ok(Mark::Not),
        Node::Minus(_) => Ok(Mark::Minus),
        Node::Compare(rel, _, _) => Ok(Mark::Compare(*rel)),
        Node::Or(_) => Ok(Mark::Chain(Chain::Disjunction)),
        Node::And(_) => Ok(Mark::Chain(Chain::Conjunction)),
        Node::Sum(_) => Ok(Mark::Chain(Chain::Sum)),
        Node::Prod(_) => Ok(Mark::Chain(Chain::Product)),
    }
}

/// Pieces that are written, and whether memory ran out meanwhile, which is asked once they all are.
#[derive(Drop)]
struct Pieces {
    marks: Vec<Mark>,
    wants: bool,
}

impl Pieces {
    /// Adds the piece, if it could be made.
    fn add(&mut self, mark: Result<Mark, Memory>)
        ensures { MatchResult mark (λ one. Adds (one ∷ []) self.old self.new) (λ _. self.new.wants ≡ true) }
    {
        match mark {
            Ok(mark) => match self.marks.push(mark) {
                Ok(()) => {}
                Err(_refused) => self.wants = true,
            }
            Err(_want) => self.wants = true,
        }
    }
}

/// Adds the pieces of the expression.
#[cycle(written)]
fn add_marks(alloc: Global, expr: &Expr, pieces: &mut Pieces)
    ensures { Adds (marks_of (plain_expr expr.now)) pieces.old pieces.new }
{
    pieces.add(first_mark(alloc, expr));
    match &expr.node {
        Node::Field(_) | Node::Num(_) | Node::Str(_) | Node::Truth(_) => {}
        Node::Not(part) | Node::Minus(part) => add_marks(alloc, part, pieces),
        Node::Compare(_, left, right) => {
            add_marks(alloc, left, pieces);
            add_marks(alloc, right, pieces);
        }
        Node::Or(parts) | Node::And(parts) => add_operands(alloc, parts, pieces),
        Node::Sum(parts) => add_summands(alloc, parts, pieces),
        Node::Prod(parts) => add_factors(alloc, parts, pieces),
    }
}

/// Adds the pieces of the parts of a conjunction or a disjunction.
#[cycle(written)]
fn add_operands(alloc: Global, parts: &[Expr], pieces: &mut Pieces)
    ensures { Adds (marks_of_parts (unmarked (map plain_expr parts.now))) pieces.old pieces.new }
{
    for part in parts {
        pieces.add(Ok(Mark::Part(false)));
        add_marks(alloc, part, pieces);
    }
    pieces.add(Ok(Mark::End));
}

/// Adds the pieces of the parts of a sum.
#[cycle(written)]
fn add_summands(alloc: Global, parts: &[SumPart], pieces: &mut Pieces)
    ensures { Adds (marks_of_parts (plain_sum_parts parts.now)) pieces.old pieces.new }
{
    for part in parts {
        pieces.add(Ok(Mark::Part(part.minus)));
        add_marks(alloc, &part.part, pieces);
    }
    pieces.add(Ok(Mark::End));
}

/// Adds the pieces of the parts of a product.
#[cycle(written)]
fn add_factors(alloc: Global, parts: &[ProdPart], pieces: &mut Pieces)
    ensures { Adds (marks_of_parts (plain_prod_parts parts.now)) pieces.old pieces.new }
{
    for part in parts {
        pieces.add(Ok(Mark::Part(part.remainder)));
        add_marks(alloc, &part.part, pieces);
    }
    pieces.add(Ok(Mark::End));
}

impl Written {
    /// Nothing is written.
    pub fn nothing(alloc: Global) -> Written
        ensures { result.marks.items ≡ [] }
    {
        Written {
            marks: Vec::new(alloc),
        }
    }

    /// What the expression is written as.
    pub fn of(alloc: Global, expr: &Expr) -> Result<Written, Memory>
        ensures { IfOk result (λ made. made.marks.items ≡ marks_of (plain_expr expr.now)) }
    {
        let mut pieces = Pieces {
            marks: Vec::new(alloc),
            wants: false,
        };
        add_marks(alloc, expr, &mut pieces);
        if pieces.wants {
            return Err(Memory);
        }
        Ok(Written {
            marks: pieces.marks,
        })
    }

    /// The same again.
    pub fn copy(&self, alloc: Global) -> Result<Written, Memory>
        ensures { IfOk result (λ copy. copy.marks.items ≡ self.now.marks.items) }
    {
        let mut marks = Vec::new(alloc);
        for mark in &self.marks {
            added(&mut marks, mark.copy(alloc))?;
        }
        Ok(Written { marks })
    }
}

impl Mark {
    /// The same again.
    fn copy(&self, alloc: Global) -> Result<Mark, Memory>
        ensures { IfOk result (λ copy. copy ≡ self.now) }
    {
        match self {
            Mark::Field(name) => Ok(Mark::Field(name.copy(alloc)?)),
            Mark::Number(value) => Ok(Mark::Number(*value)),
            Mark::Constant(text) => Ok(Mark::Constant(text.copy(alloc)?)),
            Mark::Truth(value) => Ok(Mark::Truth(*value)),
            Mark::Not => Ok(Mark::Not),
            Mark::Minus => Ok(Mark::Minus),
            Mark::Compare(rel) => Ok(Mark::Compare(*rel)),
            Mark::Chain(kind) => Ok(Mark::Chain(*kind)),
            Mark::Part(marked) => Ok(Mark::Part(*marked)),
            Mark::End => Ok(Mark::End),
        }
    }
}

/// Expressions with the same pieces are the same, places aside.
pub fn written_alike()
    ensures { WrittenAlike }
{}
