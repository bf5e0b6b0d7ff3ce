//! Label expressions, from the loosest level to the tightest.

ghost use Rattle.std.specs.Prelude.{◌≡◌, true, false, MatchOption, MatchResult};
ghost use Rattle.model_program.specs.Lexeme.{Lexeme};
ghost use Rattle.model_program.specs.declared.Word.TheVariants.{RoundOpen};
ghost use Rattle.model_program.specs.Joined.{IsOther};
ghost use Rattle.read_forms.specs.Reads.{closed};
ghost use Rattle.model_grammar.specs.declared.Chain.TheVariants.{Product};
ghost use Rattle.model_grammar.specs.declared.Level.TheVariants.{Neg, Cmp, Unary, Prim};
ghost use Rattle.model_grammar.specs.Expressions.{IsExpr};
ghost use Rattle.model_grammar.specs.Syntax.{compare, chain, part, no_parts};
ghost use Rattle.model_grammar.specs.Printed.{chain_level};
ghost use Rattle.fast_syntax.specs.Plain.{plain_expr};
ghost use Rattle.label_reader.specs.Results.{left, behind, Reads, IfMade};
ghost use Rattle.label_reader.specs.Operands.{prefixed};
ghost use Rattle.label_reader.specs.Levels.{GoesOn};
ghost use Rattle.label_reader.specs.Found.{IsOperator};
ghost use Rattle.label_reader.specs.Constants.{NoNumeral, IsNumeralNext};
ghost use Rattle.label_reader.specs.Inside.{IsBehindFirst, AreTwo, IsUnsigned, IsWhole};

use crate::constants::{numeral_next, read_numeral, read_string};
use crate::keep::{kept, to_close};
use crate::operands::Operands;
use crate::operators::{Operator, Prefix, operand, operator_next, sign_next, starts_primary};
use crate::reader::Reader;
use crate::stop::Stop;
use fast_fault::Pos;
use fast_lex::Word;
use fast_syntax::Text;
use fast_syntax::expressions::{Expr, Node};
use model_grammar::{Chain, Level, Rel};
use std::alloc::Global;

/// A label expression of a level.
#[cycle(expression)]
pub fn read_level(reader: &mut Reader, level: Level) -> Result<Expr, Stop>
    ensures { Reads (IsExpr level) (GoesOn level) (left reader.old) (left reader.new) plain_expr result }
{
    match level {
        Level::E => read_chain(reader, Chain::Disjunction),
        Level::Conj => read_chain(reader, Chain::Conjunction),
        Level::Neg => read_negation(reader),
        Level::Cmp => read_comparison(reader),
        Level::Sum => read_chain(reader, Chain::Sum),
        Level::Prod => read_chain(reader, Chain::Product),
        Level::Unary => read_unary(reader),
        Level::Prim => read_primary(reader),
    }
}

/// Operands with signs between them. One operand alone stands for itself.
#[cycle(expression)]
fn read_chain(reader: &mut Reader, kind: Chain) -> Result<Expr, Stop>
    ensures { Reads (IsExpr (chain_level kind)) (GoesOn (chain_level kind)) (left reader.old) (left reader.new) plain_expr result }
{
    let first = read_level(reader, operand(kind))?;
    let Some((place, _mark)) = sign_next(reader, kind) else {
        return Ok(first);
    };
    let mut parts = Operands::new(reader.alloc, kind).with(false, Ok(first))?;
    'parts: while let Some((_place, mark)) = sign_next(reader, kind) {
        reader.advance();
        parts = parts.with(mark, read_level(reader, operand(kind)))?;
    }
    let node = parts.into_node();
    Ok(Expr { place, node })
}

#[cycle(expression)]
fn read_negation(reader: &mut Reader) -> Result<Expr, Stop>
    ensures { Reads (IsExpr Neg) (GoesOn Neg) (left reader.old) (left reader.new) plain_expr result }
{
    let Some(sign) = reader.peek_if(Word::Not) else {
        return read_level(reader, Level::Cmp);
    };
    reader.advance();
    prefixed(
        reader.alloc,
        sign.place,
        Prefix::Not,
        read_level(reader, Level::Cmp),
    )
}

/// `not` or `-` before the operand that was read.
fn prefixed(
    alloc: Global,
    place: Pos,
    prefix: Prefix,
    read: Result<Expr, Stop>,
) -> Result<Expr, Stop>
    ensures { IfMade read (λ inside whole. plain_expr whole ≡ prefixed prefix place (plain_expr inside)) result }
{
    let inside = Box::new(alloc, read?)?;
    let node = match prefix {
        Prefix::Not => Node::Not(inside),
        Prefix::Minus => Node::Minus(inside),
    };
    Ok(Expr { place, node })
}

#[cycle(expression)]
fn read_comparison(reader: &mut Reader) -> Result<Expr, Stop>
    ensures { Reads (IsExpr Cmp) (GoesOn Cmp) (left reader.old) (left reader.new) plain_expr result }
{
    let left = read_level(reader, Level::Sum)?;
    let Operator::Compare(place, rel) = operator_next(reader) else {
        return Ok(left);
    };
    reader.advance();
    let both = kept(left, read_level(reader, Level::Sum));
    compared(reader.alloc, place, rel, both)
}

fn compared(
    alloc: Global,
    place: Pos,
    rel: Rel,
    read: Result<(Expr, Expr), Stop>,
) -> Result<Expr, Stop>
    ensures { IfMade read (λ both whole. plain_expr whole ≡ compare place rel (plain_expr both.0) (plain_expr both.1)) result }
{
    let (left, right) = read?;
    let (right, left) = kept(right, Box::new(alloc, left))?;
    let right = Box::new(alloc, right)?;
    let node = Node::Compare(rel, left, right);
    Ok(Expr { place, node })
}

/// The remainder of the first of two expressions by the second.
fn remainder(alloc: Global, place: Pos, read: Result<(Expr, Expr), Stop>) -> Result<Expr, Stop>
    ensures { IfMade read (λ both whole. plain_expr whole ≡ chain Product place (part false (plain_expr both.0) (part true (plain_expr both.1) no_parts))) result }
{
    let node = Operands::two(alloc, Chain::Product, true, read)?.into_node();
    Ok(Expr { place, node })
}

/// A number with `-` before it is a constant.
#[cycle(expression)]
fn read_unary(reader: &mut Reader) -> Result<Expr, Stop>
    ensures { Reads (IsExpr Unary) (GoesOn Unary) (left reader.old) (left reader.new) plain_expr result }
{
    let Operator::Minus(place) = operator_next(reader) else {
        return read_primary(reader);
    };
    reader.advance();
    if reader.is_next(Word::Number) {
        let number = read_numeral(reader)?;
        let node = Node::Num(-number);
        return Ok(Expr { place, node });
    }
    prefixed(reader.alloc, place, Prefix::Minus, read_primary(reader))
}

/// A name or a constant, or what parentheses hold: an expression, or an operator before its operands.
#[cycle(expression)]
fn read_primary(reader: &mut Reader) -> Result<Expr, Stop>
    ensures { Reads (IsExpr Prim) closed (left reader.old) (left reader.new) plain_expr result }
{
    if !reader.is_next(Word::RoundOpen) {
        return read_leaf(reader);
    }
    reader.advance();
    match operator_next(reader) {
        // Behind the `-` either an expression goes on, or the operands follow that are subtracted.
        Operator::Minus(place) => {
            let before = *reader;
            let whole = read_level(reader, Level::E)?;
            match unsigned(whole, &before, reader) {
                Ok(first) => read_further(reader, Chain::Sum, place, true, first),
                Err(inside) => to_close(Ok(inside), reader),
            }
        }
        Operator::Many(place, kind) => {
            reader.advance();
            let first = read_primary(reader)?;
            read_further(reader, kind, place, false, first)
        }
        Operator::Percent(place) => {
            reader.advance();
            remainder(reader.alloc, place, read_two(reader))
        }
        Operator::Compare(place, rel) => {
            reader.advance();
            compared(reader.alloc, place, rel, read_two(reader))
        }
        Operator::Other => to_close(read_level(reader, Level::E), reader),
    }
}

/// A name or a constant.
fn read_leaf(reader: &mut Reader) -> Result<Expr, Stop>
    requires { IsOther RoundOpen (left reader.old) }
    ensures { Reads (IsExpr Prim) closed (left reader.old) (left reader.new) plain_expr result }
{
    let Some(token) = reader.peek() else {
        return Err(Stop::Wrong);
    };
    let place = token.place;
    match token.word {
        Word::Id => {
            reader.advance();
            let node = Node::Field(Text::of(reader.alloc, token.text)?);
            Ok(Expr { place, node })
        }
        Word::True => {
            reader.advance();
            let node = Node::Truth(true);
            Ok(Expr { place, node })
        }
        Word::False => {
            reader.advance();
            let node = Node::Truth(false);
            Ok(Expr { place, node })
        }
        Word::Quoted => {
            let node = Node::Str(read_string(reader)?);
            Ok(Expr { place, node })
        }
        _ => {
            let node = Node::Num(read_numeral(reader)?);
            Ok(Expr { place, node })
        }
    }
}

/// The operand behind the `-`, where the expression is nothing more and a further operand comes.
fn unsigned(whole: Expr, before: &Reader, rest: &Reader) -> Result<Expr, Expr>
    ensures { MatchResult result (λ first. IsUnsigned (plain_expr whole) (behind before.now) (plain_expr first) (left rest.now)) (λ same. IsWhole (plain_expr whole) (behind before.now) (plain_expr same) (left rest.now)) }
{
    if !starts_primary(rest) {
        return Err(whole);
    }
    let Expr { place, node } = whole;
    match node {
        Node::Minus(operand) => Ok(Box::into_inner(operand)),
        Node::Num(number) => {
            let mut behind = *before;
            behind.advance();
            match numeral_next(&behind) {
                Some((place, number)) => Ok(Expr {
                    place,
                    node: Node::Num(number),
                }),
                None => Err(Expr {
                    place,
                    node: Node::Num(number),
                }),
            }
        }
        other => Err(Expr { place, node: other }),
    }
}

/// The operands behind the first one, and the closing parenthesis.
#[cycle(expression)]
fn read_further(
    reader: &mut Reader,
    kind: Chain,
    place: Pos,
    mark: bool,
    first: Expr,
) -> Result<Expr, Stop>
    ensures { (op : Lexeme) → IsOperator kind mark place op.word op.place → Reads (IsBehindFirst kind op (plain_expr first)) closed (left reader.old) (left reader.new) plain_expr result }
{
    let both = kept(first, read_primary(reader));
    let mut parts = Operands::two(reader.alloc, kind, mark, both)?;
    'parts: while !reader.is_next(Word::RoundClose) {
        parts = parts.with(mark, read_primary(reader))?;
    }
    reader.advance();
    let node = parts.into_node();
    Ok(Expr { place, node })
}

/// Two operands, and the closing parenthesis.
#[cycle(expression)]
fn read_two(reader: &mut Reader) -> Result<(Expr, Expr), Stop>
    ensures { Reads AreTwo closed (left reader.old) (left reader.new) (λ x. (plain_expr x.0, plain_expr x.1)) result }
{
    let left = read_primary(reader)?;
    to_close(kept(left, read_primary(reader)), reader)
}
