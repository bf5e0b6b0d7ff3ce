//! Numbers and texts: each is read with the value that it stands for, and a number with more than 38 digits is refused.

ghost use Rattle.std.specs.Prelude.{◌≡◌, MatchOption, pos, ◌<◌, ◌^◌, Some, None};
ghost use Rattle.std.specs.Str.{chars};
ghost use Rattle.std.specs.Str.Parse.{digits_value};
ghost use Rattle.read_forms.specs.Reads.{closed};
ghost use Rattle.model_program.specs.Grammar.{IsDigits, IsNumber};
ghost use Rattle.label_reader.specs.Results.{left, behind, Reads};
ghost use Rattle.label_reader.specs.Constants.{NoNumeral, IsNumeralAt, IsQuotation};

use crate::reader::{Reader, is_same};
use crate::stop::Stop;
use fast_fault::Pos;
use fast_lex::{Word, is_quoted, quoted_value};
use fast_syntax::Text;

/// The number that the text writes, where it is 1 to 38 digits.
fn number_of(text: &str) -> Option<i128>
    ensures { MatchOption result (¬ (IsDigits (chars text.now))) (λ n. IsDigits (chars text.now) × (n ≡ pos (digits_value 10 (chars text.now))) × (digits_value 10 (chars text.now) < 10 ^ 38)) }
{
    let mut value = 0u128;
    let mut count = 0u32;
    let mut rest = text.chars();
    'digits: while let Some(first) = rest.next() {
        if count == 38 {
            return None;
        }
        let digit = first.to_digit(10)?;
        value = value * 10 + u128::from(digit);
        count += 1;
    }
    if count == 0 {
        return None;
    }
    Some(value as i128)
}

/// The number that the next token writes, where it is one, and its place.
pub(crate) fn numeral_next(reader: &Reader) -> Option<(Pos, i128)>
    ensures { MatchOption result (NoNumeral (left reader.now)) (λ x. IsNumeralAt (left reader.now) x.0 x.1 (behind reader.now)) }
{
    let Some(token) = reader.peek() else {
        return None;
    };
    if !is_same(token.word, Word::Number) {
        return None;
    }
    match number_of(token.text) {
        Some(number) => Some((token.place, number)),
        None => None,
    }
}

/// The number that the next token writes.
pub fn read_numeral(reader: &mut Reader) -> Result<i128, Stop>
    ensures { Reads IsNumber closed (left reader.old) (left reader.new) (λ n. n) result }
{
    let Some((_place, number)) = numeral_next(reader) else {
        return Err(Stop::Wrong);
    };
    reader.advance();
    Ok(number)
}

/// What a quoted text stands for.
pub fn read_string(reader: &mut Reader) -> Result<Text, Stop>
    ensures { Reads IsQuotation closed (left reader.old) (left reader.new) (λ t. t) result }
{
    let Some(token) = reader.peek_if(Word::Quoted) else {
        return Err(Stop::Wrong);
    };
    if !is_quoted(token.text) {
        return Err(Stop::Wrong);
    }
    let text = quoted_value(reader.alloc, token.text)?;
    reader.advance();
    Ok(text)
}
