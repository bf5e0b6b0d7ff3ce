//! Quoted texts and the escapes in them.

ghost use Rattle.std.specs.Prelude.{◌≡◌, ℕ, ◌≤◌, MatchOption, length};
ghost use Rattle.std.specs.Str.{chars};
ghost use Rattle.model_program.specs.Characters.{AllIn, is_hexadecimal};
ghost use Rattle.model_program.specs.Pieces.{Text};
ghost use Rattle.model_program.specs.Quotes.{escape, amount};
ghost use Rattle.fast_lex.specs.Runs.{IsNext, HasNone};
ghost use Rattle.fast_lex.specs.Units.{IsNextBraced, HasNoBraced, IsNextUnit, HasNoUnit, IsNextEnd, HasNoEnd};

use crate::piece::Found;
use crate::scan::{Class, front, next_char, run_end};
use model_program::Word;

// What a backslash and this character stand for.
fn escape(c: char) -> Option<char>
    ensures { result ≡ escape c }
{
    match c {
        '"' => Some('"'),
        '\\' => Some('\\'),
        'n' => Some('\n'),
        't' => Some('\t'),
        _ => None,
    }
}

fn hexadecimal(digits: &str) -> u32
    requires all { AllIn is_hexadecimal (chars digits.now) }
    requires few { length (chars digits.now) ≤ 6 }
    ensures { result ≡ amount 16 0 (chars digits.now) }
{
    let mut value = 0u32;
    let mut rest = digits;
    while let Some((c, after)) = next_char(rest) {
        value = value * 16 + c.to_digit(16).unwrap_or(0);
        rest = after;
    }
    value
}

// The character whose number stands in braces at the front.
fn braced<'t>(text: &'t str) -> Option<(char, &'t str)>
    ensures { MatchOption result (HasNoBraced (chars text.now)) (λ x. IsNextBraced x.0 text.now x.1.now) }
{
    let (left, inside) = next_char(text)?;
    let end = run_end(inside, Class::Hexadecimal);
    let (right, rest) = next_char(end)?;
    let digits = front(inside, end);
    let count = digits.len();
    if left != '{' || right != '}' || count == 0 || count > 6 {
        return None;
    }
    let c = char::from_u32(hexadecimal(digits))?;
    Some((c, rest))
}

// The character or the escape at the front, and what it stands for.
pub(crate) fn unit<'t>(text: &'t str) -> Option<(char, &'t str)>
    ensures { MatchOption result (HasNoUnit (chars text.now)) (λ x. IsNextUnit x.0 text.now x.1.now) }
{
    let (c, after) = next_char(text)?;
    if c == '"' || c == '\n' {
        return None;
    }
    if c != '\\' {
        return Some((c, after));
    }
    let (d, end) = next_char(after)?;
    if d == 'u' {
        return braced(end);
    }
    let value = escape(d)?;
    Some((value, end))
}

// What follows the quoted text whose first quote stands before this.
fn quoted_end<'t>(inside: &'t str) -> Option<&'t str>
    ensures { MatchOption result (HasNoEnd (chars inside.now)) (λ rest. IsNextEnd inside.now rest.now) }
{
    let mut rest = inside;
    while let Some((c, after)) = next_char(rest) {
        if c == '"' {
            return Some(after);
        }
        let (_, behind) = unit(rest)?;
        rest = behind;
    }
    None
}

/// The quoted text at the front.
pub(crate) fn quoted<'t>(text: &'t str) -> Option<Found<'t>>
    ensures { MatchOption result (HasNone Text (chars text.now)) (λ x. IsNext Text x.word text.now x.rest.now) }
{
    let (quote, inside) = next_char(text)?;
    if quote != '"' {
        return None;
    }
    let rest = quoted_end(inside)?;
    Some(Found {
        word: Some(Word::Quoted),
        rest,
    })
}
