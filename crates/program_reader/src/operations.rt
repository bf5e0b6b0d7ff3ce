//! Operations: whether a word is one, and which one, exactly as the grammar has them.

ghost use Rattle.label_reader.specs.Results.{left, behind};
ghost use Rattle.program_reader.specs.Operations.{IsFront};

use fast_lex::Word;
use fast_syntax::{Op1, Op2, Pos};
use label_reader::Reader;

/// What stands first in the parentheses of an expression: an operation on one or two operands, with its place, or a tree.
#[derive(Clone, Copy)]
pub(crate) enum Front {
    One(Op1, Pos),
    Two(Op2, Pos),
    Tree,
}

/// What comes next, behind an opening parenthesis.
pub(crate) fn front_next(reader: &Reader) -> Front
    ensures { IsFront (left reader.now) (behind reader.now) result }
{
    let Some(token) = reader.peek() else {
        return Front::Tree;
    };
    let place = token.place;
    match token.word {
        Word::Complement => Front::One(Op1::Complement, place),
        Word::Minimize => Front::One(Op1::Minimize, place),
        Word::Domain => Front::One(Op1::Domain, place),
        Word::GetWitness => Front::One(Op1::GetWitness, place),
        Word::Intersect => Front::Two(Op2::Intersect, place),
        Word::Union => Front::Two(Op2::Union, place),
        Word::Difference => Front::Two(Op2::Difference, place),
        Word::PreImage => Front::Two(Op2::PreImage, place),
        Word::Compose => Front::Two(Op2::Compose, place),
        Word::Restrict => Front::Two(Op2::Restrict, place),
        Word::RestrictOut => Front::Two(Op2::RestrictOut, place),
        Word::Apply => Front::Two(Op2::Apply, place),
        _ => Front::Tree,
    }
}
