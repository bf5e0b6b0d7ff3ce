//! The token, blank or comment at the front of a text.

ghost use Rattle.std.specs.Prelude.{◌≡◌, MatchOption};
ghost use Rattle.std.specs.Str.{chars};
ghost use Rattle.model_program.specs.Characters.{begins_name, is_blank, in_name};
ghost use Rattle.model_program.specs.Pieces.{HasNoPiece, Name, Hyphenated, Digits, Sign, Comment};
ghost use Rattle.fast_lex.specs.Runs.{IsRun, IsNext, IsNextPiece, HasNone, HasNoDouble, NextIn, ends_double};

use crate::quoted::quoted;
use crate::scan::{Class, front, next_char, run_end};
use crate::words::{hyphenated_of, keyword_of, sign_of};
use model_program::Word;

/// What was found at the front of a text: which token, if it isn't a blank or a comment, and what follows it.
#[derive(Clone, Copy)]
pub(crate) struct Found<'t> {
    pub(crate) word: Option<Word>,
    pub(crate) rest: &'t str,
}

fn is_blank(c: char) -> bool
    ensures { result ≡ is_blank c }
{
    c == ' ' || c == '\t' || c == '\r' || c == '\n'
}

fn begins_name(c: char) -> bool
    ensures { result ≡ begins_name c }
{
    c.is_ascii_alphabetic() || c == '_'
}

// Whether a sign of two characters may end so.
fn ends_double(c: char) -> bool
    ensures { result ≡ ends_double c }
{
    c == '=' || c == '>'
}

// The keyword with a hyphen at the front of the text, whose part before the hyphen ends at `end`.
fn hyphenated<'t>(text: &'t str, end: &'t str) -> Option<Found<'t>>
    requires { IsRun in_name text.now end.now }
    ensures { MatchOption result (HasNone Hyphenated (chars text.now)) (λ x. IsNext Hyphenated x.word text.now x.rest.now) }
{
    let (hyphen, after) = next_char(end)?;
    if hyphen != '-' {
        return None;
    }
    let rest = run_end(after, Class::Name);
    let word = hyphenated_of(front(text, rest))?;
    Some(Found {
        word: Some(word),
        rest,
    })
}

// The name or the keyword at the front.
fn name<'t>(text: &'t str) -> Found<'t>
    requires { NextIn begins_name (chars text.now) }
    ensures { IsNextPiece result.word text.now result.rest.now }
{
    let rest = run_end(text, Class::Name);
    if let Some(found) = hyphenated(text, rest) {
        return found;
    }
    let word = keyword_of(front(text, rest)).unwrap_or(Word::Id);
    Found {
        word: Some(word),
        rest,
    }
}

// The run of digits at the front, where it isn't too long.
fn number<'t>(text: &'t str) -> Option<Found<'t>>
    ensures { MatchOption result (HasNone Digits (chars text.now)) (λ x. IsNext Digits x.word text.now x.rest.now) }
{
    let rest = run_end(text, Class::Digit);
    let count = front(text, rest).len();
    if count == 0 || count > 38 {
        return None;
    }
    Some(Found {
        word: Some(Word::Number),
        rest,
    })
}

// Two strokes, and all that follows on the line.
fn comment<'t>(text: &'t str) -> Option<Found<'t>>
    ensures { MatchOption result (HasNone Comment (chars text.now)) (λ x. IsNext Comment x.word text.now x.rest.now) }
{
    let (first, after) = next_char(text)?;
    let (second, inside) = next_char(after)?;
    if first != '/' || second != '/' {
        return None;
    }
    let rest = run_end(inside, Class::Line);
    Some(Found { word: None, rest })
}

// The sign of two characters at the front.
fn double_sign<'t>(text: &'t str) -> Option<Found<'t>>
    ensures { MatchOption result (HasNoDouble (chars text.now)) (λ x. IsNext Sign x.word text.now x.rest.now) }
{
    let (_, after) = next_char(text)?;
    let (second, rest) = next_char(after)?;
    // most signs have one character, and are told without a look at the spellings of two
    if !ends_double(second) {
        return None;
    }
    let word = sign_of(front(text, rest))?;
    Some(Found {
        word: Some(word),
        rest,
    })
}

fn sign<'t>(text: &'t str) -> Option<Found<'t>>
    ensures { MatchOption result (HasNone Sign (chars text.now)) (λ x. IsNext Sign x.word text.now x.rest.now) }
{
    if let Some(found) = double_sign(text) {
        return Some(found);
    }
    let (_, rest) = next_char(text)?;
    let word = sign_of(front(text, rest))?;
    Some(Found {
        word: Some(word),
        rest,
    })
}

/// The longest piece at the front.
pub(crate) fn piece<'t>(text: &'t str) -> Option<Found<'t>>
    ensures { MatchOption result (HasNoPiece (chars text.now)) (λ x. IsNextPiece x.word text.now x.rest.now) }
{
    let (c, after) = next_char(text)?;
    if is_blank(c) {
        return Some(Found {
            word: None,
            rest: after,
        });
    }
    if begins_name(c) {
        return Some(name(text));
    }
    if c.is_ascii_digit() {
        return number(text);
    }
    if c == '"' {
        return quoted(text);
    }
    if c == '/' {
        return comment(text);
    }
    sign(text)
}
