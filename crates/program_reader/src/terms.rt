//! Expressions of languages, transformations and trees.
//!
//! Nothing here calls itself: the stack that is needed doesn't grow with the expression.

ghost use Rattle.std.specs.Prelude.{◌≡◌, ◌<◌, map, length, IfOk};
ghost use Rattle.read_forms.specs.Reads.{closed};
ghost use Rattle.read_forms.specs.Fronts.{Leaves};
ghost use Rattle.model_grammar.specs.Syntax.{two};
ghost use Rattle.model_grammar.specs.Terms.{IsX};
ghost use Rattle.fast_syntax.specs.View.{plain_name};
ghost use Rattle.fast_syntax.specs.Plain.{plain_expr, plain_x};
ghost use Rattle.label_reader.specs.Results.{left, Reads};
ghost use Rattle.program_reader.specs.Nodes.{IsXInside};
ghost use Rattle.program_reader.specs.Growing.{IsRow, IsGrown, IsLeft, Begins};

use crate::labels::read_labels;
use crate::operations::{Front, front_next};
use fast_fault::Memory;
use fast_lex::Word;
use fast_syntax::expressions::Expr;
use fast_syntax::items::X;
use fast_syntax::{Name, Op1, Op2, Pos};
use label_reader::{Items, Reader, Stop, kept, kept_if};
use std::alloc::Global;

/// A node whose next child is to be read, and what stands before that child.
#[derive(Drop)]
pub(crate) enum Open {
    One(Op1, Pos),
    First(Op2, Pos),
    Second(Op2, Pos, X),
    Inner(Name, Vec<Expr>, Vec<X>),
}

/// How far an expression has been read: to its end, or to a child of a node.
#[derive(Drop)]
pub(crate) enum Begun {
    Whole(X),
    Part(Open),
}

/// A name, an operation, or a tree.
pub(crate) fn read_x(reader: &mut Reader) -> Result<X, Stop>
    ensures { Reads IsX closed (left reader.old) (left reader.new) plain_x result }
{
    if reader.is_next(Word::Id) {
        let name = reader.name()?;
        return Ok(X::Named(name));
    }
    reader.sign(Word::RoundOpen)?;
    read_x_inside(reader)
}

/// What stands behind an opening parenthesis. The open nodes stand in a list, so a deep expression takes no stack.
pub(crate) fn read_x_inside(reader: &mut Reader) -> Result<X, Stop>
    ensures { Reads IsXInside closed (left reader.old) (left reader.new) plain_x result }
{
    let mut here = begin_x_inside(reader)?;
    let mut around = Vec::new(reader.alloc);
    'nodes: loop {
        match here {
            Begun::Part(node) => {
                around.push(node)?;
                here = begin_x(reader)?;
            }
            Begun::Whole(x) => {
                let Some(node) = around.pop() else {
                    return Ok(x);
                };
                here = resume_x(reader, node, x)?;
            }
        }
    }
}

fn begin_x(reader: &mut Reader) -> Result<Begun, Stop>
    ensures begins { Begins IsX (left reader.old) (left reader.new) result }
    ensures shorter { IfOk result (λ _. length (left reader.new) < length (left reader.old)) }
{
    if reader.is_next(Word::Id) {
        let name = reader.name()?;
        return Ok(Begun::Whole(X::Named(name)));
    }
    reader.sign(Word::RoundOpen)?;
    begin_x_inside(reader)
}

fn begin_x_inside(reader: &mut Reader) -> Result<Begun, Stop>
    ensures { Begins IsXInside (left reader.old) (left reader.new) result }
{
    match front_next(reader) {
        Front::One(op, place) => {
            reader.advance();
            Ok(Begun::Part(Open::One(op, place)))
        }
        Front::Two(op, place) => {
            reader.advance();
            Ok(Begun::Part(Open::First(op, place)))
        }
        Front::Tree => {
            let name = reader.name()?;
            let (name, labels) = kept(name, read_labels(reader))?;
            let none = Vec::new(reader.alloc);
            Ok(begin_child(reader, name, labels, none))
        }
    }
}

/// Behind some children of a node, its closing parenthesis or its next child.
fn begin_child(reader: &mut Reader, name: Name, labels: Vec<Expr>, children: Vec<X>) -> Begun
    ensures { Leaves (IsRow (plain_name name) (map plain_expr labels.items) (map plain_x children.items)) (IsLeft result) closed (left reader.old) (left reader.new) }
{
    if reader.is_next(Word::RoundClose) {
        reader.advance();
        return Begun::Whole(X::Literal(name, labels, children));
    }
    Begun::Part(Open::Inner(name, labels, children))
}

/// The operation on two expressions.
fn on_two(alloc: Global, op: Op2, place: Pos, first: X, second: X) -> Result<X, Memory>
    ensures { IfOk result (λ x. plain_x x ≡ two op place (plain_x first) (plain_x second)) }
{
    let (second, first) = kept(second, Box::new(alloc, first))?;
    let second = Box::new(alloc, second)?;
    Ok(X::Two(op, place, first, second))
}

/// What comes of an open node behind its next child.
fn resume_x(reader: &mut Reader, node: Open, x: X) -> Result<Begun, Stop>
    ensures { Begins (IsGrown node (plain_x x)) (left reader.old) (left reader.new) result }
{
    let whole = match node {
        Open::One(op, place) => {
            let x = Box::new(reader.alloc, x)?;
            X::One(op, place, x)
        }
        Open::First(op, place) => return Ok(Begun::Part(Open::Second(op, place, x))),
        Open::Second(op, place, first) => on_two(reader.alloc, op, place, first, x)?,
        Open::Inner(name, labels, children) => {
            let mut all = children;
            all.push(x)?;
            return Ok(begin_child(reader, name, labels, all));
        }
    };
    let whole = kept_if(whole, reader.sign(Word::RoundClose))?;
    Ok(Begun::Whole(whole))
}

/// The children of a tree.
pub(crate) struct Children;

impl Items for Children {
    ghost use Rattle.model_grammar.specs.Syntax as plain;
    ghost use Rattle.model_grammar.specs.Terms.{IsX};
    ghost use Rattle.read_forms.specs.Reads.{closed};
    ghost use Rattle.fast_syntax.specs.Plain.{plain_x};

    type Item = X;

    ghost Plain = { plain.X };

    ghost plain = { plain_x };

    ghost spelled = { IsX };

    ghost goes_on = { closed };

    fn read_item(reader: &mut Reader) -> Result<X, Stop> {
        read_x(reader)
    }
}
