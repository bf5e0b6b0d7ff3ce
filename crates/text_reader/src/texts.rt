//! The tokens of a text that isn't too long and not nested too deep.

ghost use Rattle.std.specs.Prelude.{◌≡◌, ◌≤◌, ◌<◌, length, IfOk};
ghost use Rattle.std.specs.Str.{chars, IsUtf8};
ghost use Rattle.model_tree.specs.Limits.{most_bytes};
ghost use Rattle.model_program.specs.Cuts.{place_after};
ghost use Rattle.model_program.specs.Texts.{IsBadUtf8At};
ghost use Rattle.model_grammar.specs.Wrong.{place_of};
ghost use Rattle.label_reader.specs.Results.{lexemes};
ghost use Rattle.model_refusals.specs.Refusals.{IsEarlyRefusal, AreShallowTokens};
ghost use Rattle.text_reader.specs.Answers.{IfRefused};

use crate::nesting::nested;
use fast_fault::{Code, Memory, Pos, Refusal};
use fast_lex::{Lexed, Token, place_behind, tokens};
use std::alloc::Global;

/// Bytes of a text.
const MOST_BYTES: usize = 1_048_576;

/// Why no text was read.
#[derive(Debug, Drop)]
pub enum ReadStop {
    Refused(Refusal),
    Memory,
}

/// Where a text starts.
fn start() -> Pos
    ensures { result ≡ record { line = 1; column = 1 } }
{
    Pos { line: 1, column: 1 }
}

pub(crate) fn refused(code: Code, place: Pos) -> ReadStop
    ensures { result ≡ ReadStop.Refused (record { code = code; place = place }) }
{
    ReadStop::Refused(Refusal { code, place })
}

/// The text that the bytes are.
pub(crate) fn text_of<'t>(bytes: &'t [u8]) -> Result<&'t str, ReadStop>
    ensures same { IfOk result (λ text. text.now ≡ bytes.now) }
    ensures encoded { IfOk result (λ _. IsUtf8 bytes.now) }
    ensures short { IfOk result (λ _. length bytes.now ≤ most_bytes) }
    ensures refused { IfRefused result (λ refusal. IsEarlyRefusal bytes.now refusal.code refusal.place) }
{
    if bytes.len() > MOST_BYTES {
        return Err(refused(Code::TooLong, start()));
    }
    match str::from_utf8(bytes) {
        Ok(text) => Ok(text),
        Err(error) => {
            let front = &bytes[..error.valid_up_to()];
            let before = unsafe { str::from_utf8_unchecked(front) };
            Err(refused(Code::NotUtf8, place_behind(start(), before)))
        }
    }
}

/// The tokens of a text, none of which is nested too deep.
pub(crate) fn tokens_of<'t>(alloc: Global, text: &'t str) -> Result<Vec<Token<'t>>, ReadStop>
    requires { length text.now ≤ most_bytes }
    ensures are { IfOk result (λ found. AreShallowTokens text.now (lexemes found.items)) }
    ensures refused { IfRefused result (λ refusal. IsEarlyRefusal text.now refusal.code refusal.place) }
{
    match tokens(alloc, text) {
        Lexed::Tokens(found) => match nested(alloc, &found) {
            Ok(None) => Ok(found),
            Ok(Some(place)) => Err(refused(Code::Nested, place)),
            Err(Memory) => Err(ReadStop::Memory),
        },
        Lexed::NoToken(place) => Err(refused(Code::Token, place)),
        Lexed::Memory => Err(ReadStop::Memory),
    }
}

/// The place of a token of the text, or of its end behind the last one.
pub(crate) fn place_at(text: &str, found: &[Token], index: usize) -> Pos
    requires { length text.now ≤ most_bytes }
    ensures { result ≡ place_of index (lexemes found.now) (place_after (chars text.now)) }
{
    match found.get(index) {
        Some(token) => token.place,
        None => place_behind(start(), text),
    }
}
