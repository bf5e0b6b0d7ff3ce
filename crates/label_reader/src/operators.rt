//! Operators: whether one comes next, and which one, exactly as the grammar has them.

ghost use Rattle.std.specs.Prelude.{◌≡◌, true, false, MatchOption};
ghost use Rattle.model_grammar.specs.Expressions.{operand};
ghost use Rattle.read_forms.specs.Reads.{Stops};
ghost use Rattle.model_grammar.specs.declared.Level.TheVariants.{Prim};
ghost use Rattle.label_reader.specs.Results.{left, behind};
ghost use Rattle.label_reader.specs.Levels.{BeginsAt, NoSign};
ghost use Rattle.label_reader.specs.Found.{IsFoundNext, IsSigned};
ghost use Rattle.label_reader.specs.Inside.{StartsPrimary};

use crate::reader::Reader;
use fast_fault::Pos;
use fast_lex::Word;
use model_grammar::{Chain, Level, Rel};

/// An operator that stands before its one operand.
#[derive(Clone, Copy)]
pub(crate) enum Prefix {
    Not,
    Minus,
}

/// The level of the operands of a chain.
pub(crate) fn operand(kind: Chain) -> Level
    ensures { result ≡ operand kind }
{
    match kind {
        Chain::Disjunction => Level::Conj,
        Chain::Conjunction => Level::Neg,
        Chain::Sum => Level::Prod,
        Chain::Product => Level::Unary,
    }
}

/// Where the next token is a sign between operands of the chain: its place, and whether it marks the operand behind it.
pub(crate) fn sign_next(reader: &Reader, kind: Chain) -> Option<(Pos, bool)>
    ensures { MatchOption result (NoSign kind (left reader.now)) (λ x. IsSigned kind (left reader.now) (behind reader.now) x.0 x.1) }
{
    let Some(token) = reader.peek() else {
        return None;
    };
    let mark = match (kind, token.word) {
        (Chain::Disjunction, Word::Or) => false,
        (Chain::Conjunction, Word::And) => false,
        (Chain::Sum, Word::Plus) => false,
        (Chain::Sum, Word::Minus) => true,
        (Chain::Product, Word::Star) => false,
        (Chain::Product, Word::Percent) => true,
        _ => return None,
    };
    Some((token.place, mark))
}

/// The operator that comes next, and its place.
#[derive(Clone, Copy)]
pub(crate) enum Operator {
    Minus(Pos),
    /// Another one that may stand before any number of operands.
    Many(Pos, Chain),
    Percent(Pos),
    Compare(Pos, Rel),
    /// None of them comes next.
    Other,
}

pub(crate) fn operator_next(reader: &Reader) -> Operator
    ensures { IsFoundNext (left reader.now) (behind reader.now) result }
{
    let Some(token) = reader.peek() else {
        return Operator::Other;
    };
    let place = token.place;
    match token.word {
        Word::Minus => Operator::Minus(place),
        Word::Or => Operator::Many(place, Chain::Disjunction),
        Word::And => Operator::Many(place, Chain::Conjunction),
        Word::Plus => Operator::Many(place, Chain::Sum),
        Word::Star => Operator::Many(place, Chain::Product),
        Word::Percent => Operator::Percent(place),
        Word::Equal => Operator::Compare(place, Rel::Equal),
        Word::NotEqual => Operator::Compare(place, Rel::NotEqual),
        Word::Less => Operator::Compare(place, Rel::Less),
        Word::AtMost => Operator::Compare(place, Rel::AtMost),
        Word::Greater => Operator::Compare(place, Rel::Greater),
        Word::AtLeast => Operator::Compare(place, Rel::AtLeast),
        _ => Operator::Other,
    }
}

/// Whether a primary expression comes next, if any expression does that doesn't begin with `-` or `not`.
pub(crate) fn starts_primary(reader: &Reader) -> bool
    ensures yes { result ≡ true → StartsPrimary (left reader.now) }
    ensures no { result ≡ false → Stops (BeginsAt Prim) (left reader.now) }
{
    match reader.peek() {
        Some(token) => matches!(
            token.word,
            Word::Id | Word::Number | Word::Quoted | Word::True | Word::False | Word::RoundOpen
        ),
        None => false,
    }
}
