//! Label expressions as text: operators between their operands, and parentheses where they are needed.

ghost use Rattle.std.specs.Prelude.{◌≡◌, ◌∷◌, IfOk};
ghost use Rattle.model_grammar.specs.Operators.{rel_word, chain_word};
ghost use Rattle.model_grammar.specs.Expressions.{operand};
ghost use Rattle.model_grammar.specs.Printed.{rank, own_level, fits, at_level, bracketed, stands_behind_minus, behind_minus, expression, operands, further, truth_word, token, blank};
ghost use Rattle.model_grammar.specs.Places.{nowhere};
ghost use Rattle.model_grammar.specs.Syntax as plain;
ghost use Rattle.fast_syntax.specs.Adds.{Adds};
ghost use Rattle.fast_syntax.specs.Plain.{plain_expr};
ghost use Rattle.fast_syntax.specs.Slices.{plain_operands, plain_sum_parts, plain_prod_parts};

use crate::expressions::{Expr, Node, ProdPart, SumPart};
use crate::page::Page;
use fast_fault::Memory;
use model_grammar::{Chain, Level, Rel};
use model_program::Word;
use std::alloc::Global;

fn rel_word(rel: Rel) -> Word
    ensures { result ≡ rel_word rel }
{
    match rel {
        Rel::Equal => Word::Equal,
        Rel::NotEqual => Word::NotEqual,
        Rel::Less => Word::Less,
        Rel::AtMost => Word::AtMost,
        Rel::Greater => Word::Greater,
        Rel::AtLeast => Word::AtLeast,
    }
}

fn chain_word(chain: Chain, marked: bool) -> Word
    ensures { result ≡ chain_word chain marked }
{
    match (chain, marked) {
        (Chain::Disjunction, _) => Word::Or,
        (Chain::Conjunction, _) => Word::And,
        (Chain::Sum, false) => Word::Plus,
        (Chain::Sum, true) => Word::Minus,
        (Chain::Product, false) => Word::Star,
        (Chain::Product, true) => Word::Percent,
    }
}

/// The level of the operands of a chain.
fn operand(chain: Chain) -> Level
    ensures { result ≡ operand chain }
{
    match chain {
        Chain::Disjunction => Level::Conj,
        Chain::Conjunction => Level::Neg,
        Chain::Sum => Level::Prod,
        Chain::Product => Level::Unary,
    }
}

fn truth_word(value: bool) -> Word
    ensures { result ≡ truth_word value }
{
    if value { Word::True } else { Word::False }
}

/// How tightly a level binds.
fn rank(level: Level) -> u32
    ensures { result ≡ rank level }
{
    match level {
        Level::E => 0,
        Level::Conj => 1,
        Level::Neg => 2,
        Level::Cmp => 3,
        Level::Sum => 4,
        Level::Prod => 5,
        Level::Unary => 6,
        Level::Prim => 7,
    }
}

/// The tightest level at which an expression stands without parentheses.
fn own_level(e: &Expr) -> Level
    ensures { result ≡ own_level (plain_expr e.now) }
{
    match &e.node {
        Node::Field(_) | Node::Str(_) | Node::Truth(_) => Level::Prim,
        Node::Num(number) if *number >= 0 => Level::Prim,
        Node::Num(_) | Node::Minus(_) => Level::Unary,
        Node::Not(_) => Level::Neg,
        Node::Compare(_, _, _) => Level::Cmp,
        Node::Or(_) => Level::E,
        Node::And(_) => Level::Conj,
        Node::Sum(_) => Level::Sum,
        Node::Prod(_) => Level::Prod,
    }
}

fn stands_at(level: Level, e: &Expr) -> bool
    ensures { result ≡ fits level (own_level (plain_expr e.now)) }
{
    rank(level) <= rank(own_level(e))
}

fn stands_behind_minus(e: &Expr) -> bool
    ensures { result ≡ stands_behind_minus (plain_expr e.now) }
{
    matches!(&e.node, Node::Field(_) | Node::Str(_) | Node::Truth(_))
}

#[cycle(print_expression)]
pub(crate) fn append_expression(alloc: Global, page: &mut Page, e: &Expr) -> Result<(), Memory>
    ensures { IfOk result (λ _. Adds page.old page.new (expression (plain_expr e.now))) }
{
    match &e.node {
        Node::Field(text) => page.text(text),
        Node::Num(number) => page.number(alloc, *number),
        Node::Str(text) => page.quoted(alloc, text),
        Node::Truth(value) => page.word(truth_word(*value)),
        Node::Not(inside) => {
            page.word(Word::Not)?;
            page.blank()?;
            append_at(alloc, page, Level::Cmp, inside)
        }
        Node::Compare(rel, left, right) => {
            append_at(alloc, page, Level::Sum, left)?;
            append_further(alloc, page, rel_word(*rel), Level::Sum, right)
        }
        Node::Minus(inside) => append_minus(alloc, page, inside),
        Node::Or(parts) => append_operands(alloc, page, Chain::Disjunction, parts),
        Node::And(parts) => append_operands(alloc, page, Chain::Conjunction, parts),
        Node::Sum(parts) => append_sum(alloc, page, parts),
        Node::Prod(parts) => append_product(alloc, page, parts),
    }
}

/// An expression at a level, with parentheses where it doesn't stand there by itself.
#[cycle(print_expression)]
fn append_at(alloc: Global, page: &mut Page, level: Level, e: &Expr) -> Result<(), Memory>
    ensures { IfOk result (λ _. Adds page.old page.new (at_level level (plain_expr e.now) (expression (plain_expr e.now)))) }
{
    if stands_at(level, e) {
        append_expression(alloc, page, e)
    } else {
        append_bracketed(alloc, page, e)
    }
}

#[cycle(print_expression)]
fn append_bracketed(alloc: Global, page: &mut Page, e: &Expr) -> Result<(), Memory>
    ensures { IfOk result (λ _. Adds page.old page.new (bracketed (expression (plain_expr e.now)))) }
{
    page.word(Word::RoundOpen)?;
    append_expression(alloc, page, e)?;
    page.word(Word::RoundClose)
}

#[cycle(print_expression)]
fn append_minus(alloc: Global, page: &mut Page, inside: &Expr) -> Result<(), Memory>
    ensures { IfOk result (λ _. Adds page.old page.new (expression (plain.minus nowhere (plain_expr inside.now)))) }
{
    page.word(Word::Minus)?;
    if stands_behind_minus(inside) {
        append_expression(alloc, page, inside)
    } else {
        append_bracketed(alloc, page, inside)
    }
}

/// A sign with blanks, and the operand behind it.
#[cycle(print_expression)]
fn append_further(
    alloc: Global,
    page: &mut Page,
    sign: Word,
    level: Level,
    e: &Expr,
) -> Result<(), Memory>
    ensures { IfOk result (λ _. Adds page.old page.new (blank ∷ token sign ∷ blank ∷ at_level level (plain_expr e.now) (expression (plain_expr e.now)))) }
{
    page.blank()?;
    page.word(sign)?;
    page.blank()?;
    append_at(alloc, page, level, e)
}

#[cycle(print_expression)]
fn append_operands(
    alloc: Global,
    page: &mut Page,
    chain: Chain,
    parts: &[Expr],
) -> Result<(), Memory>
    ensures { IfOk result (λ _. Adds page.old page.new (operands chain (plain_operands parts.now))) }
{
    let Some((first, later)) = parts.split_first() else {
        return Ok(());
    };
    append_at(alloc, page, operand(chain), first)?;
    for part in later {
        append_further(alloc, page, chain_word(chain, false), operand(chain), part)?;
    }
    Ok(())
}

#[cycle(print_expression)]
fn append_sum(alloc: Global, page: &mut Page, parts: &[SumPart]) -> Result<(), Memory>
    ensures { IfOk result (λ _. Adds page.old page.new (operands Chain.Sum (plain_sum_parts parts.now))) }
{
    let Some((first, later)) = parts.split_first() else {
        return Ok(());
    };
    append_at(alloc, page, Level::Prod, &first.part)?;
    for part in later {
        let sign = chain_word(Chain::Sum, part.minus);
        append_further(alloc, page, sign, Level::Prod, &part.part)?;
    }
    Ok(())
}

#[cycle(print_expression)]
fn append_product(alloc: Global, page: &mut Page, parts: &[ProdPart]) -> Result<(), Memory>
    ensures { IfOk result (λ _. Adds page.old page.new (operands Chain.Product (plain_prod_parts parts.now))) }
{
    let Some((first, later)) = parts.split_first() else {
        return Ok(());
    };
    append_at(alloc, page, Level::Unary, &first.part)?;
    for part in later {
        let sign = chain_word(Chain::Product, part.remainder);
        append_further(alloc, page, sign, Level::Unary, &part.part)?;
    }
    Ok(())
}
