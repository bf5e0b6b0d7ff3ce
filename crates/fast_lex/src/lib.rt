//! The tokens of a text, which borrow it.
//!
//! Its promise: the tokens are the longest pieces of the text, with blanks and comments they cover it, each stands at the
//! byte, line and column that it tells, and where a text isn't made of pieces the first place is told at which none starts.
#![tactic(auto)]

ghost use Rattle.std.specs.Prelude.{◌≡◌, ◌≤◌, length};
ghost use Rattle.std.specs.Str.{chars};
ghost use Rattle.model_tree.specs.Limits.{most_bytes};
ghost use Rattle.model_program.specs.Cuts.{body_of};
ghost use Rattle.fast_lex.specs.Kinds.{kind_of};
ghost use Rattle.fast_lex.specs.Tokens.{IsLexed, IsBody};

mod laws;
mod piece;
mod place;
mod quoted;
mod scan;
mod values;
mod words;

use fast_fault::Pos;
pub use laws::{
    quoted_stands_for_one, spellings_differ, stops_at_one_place, stops_or_is_whole, tokens_are_one,
    tokens_have_texts,
};
pub use model_program::Word;
use piece::piece;
pub use place::place_behind;
use scan::{front, next_char};
use std::alloc::Global;
pub use values::{is_quoted, number_value, quoted_value};

/// A token: which word it is, its text, and the byte and the place at which it starts.
#[derive(Clone, Copy)]
pub struct Token<'t> {
    pub word: Word,
    pub text: &'t str,
    pub start: u32,
    pub place: Pos,
}

/// What sort of token a word is.
#[derive(Clone, Copy, Debug, PartialEq, Eq)]
pub enum Kind {
    Id,
    Keyword,
    Number,
    Quoted,
    Sign,
}

impl<'t> Token<'t> {
    /// The sort of the token, read off its word.
    pub fn kind(&self) -> Kind
        ensures { result ≡ kind_of self.now.word }
    {
        match self.word {
            Word::Id => Kind::Id,
            Word::Number => Kind::Number,
            Word::Quoted => Kind::Quoted,
            Word::RoundOpen
            | Word::RoundClose
            | Word::SquareOpen
            | Word::SquareClose
            | Word::CurlyOpen
            | Word::CurlyClose
            | Word::Comma
            | Word::Bar
            | Word::Colon
            | Word::Assign
            | Word::Arrow
            | Word::Same
            | Word::Equal
            | Word::NotEqual
            | Word::AtMost
            | Word::AtLeast
            | Word::Less
            | Word::Greater
            | Word::Plus
            | Word::Minus
            | Word::Star
            | Word::Percent
            | Word::Element => Kind::Sign,
            _ => Kind::Keyword,
        }
    }
}

/// What `tokens` answers: the tokens, the first place at which no token, blank or comment starts, or want of memory.
#[derive(Drop)]
pub enum Lexed<'t> {
    Tokens(Vec<Token<'t>>),
    NoToken(Pos),
    Memory,
}

// The text without the byte order mark that may begin it.
fn body<'t>(text: &'t str) -> &'t str
    ensures { IsBody text.now result.now }
{
    if let Some((c, after)) = next_char(text) {
        if c == '\u{feff}' {
            return after;
        }
    }
    text
}

/// The tokens of a text.
pub fn tokens<'t>(alloc: Global, text: &'t str) -> Lexed<'t>
    requires { length text.now ≤ most_bytes }
    ensures { IsLexed text.now result }
{
    let mut found = Vec::new(alloc);
    let mut rest = body(text);
    let mut place = place_behind(Pos { line: 1, column: 1 }, front(text, rest));
    while !rest.is_empty() {
        let Some(next) = piece(rest) else {
            return Lexed::NoToken(place);
        };
        let passed = front(rest, next.rest);
        let behind = place_behind(place, passed);
        if let Some(word) = next.word {
            let start = (text.len() - rest.len()) as u32;
            let token = Token {
                word,
                text: passed,
                start,
                place,
            };
            if found.push(token).is_err() {
                return Lexed::Memory;
            }
        }
        rest = next.rest;
        place = behind;
    }
    Lexed::Tokens(found)
}
