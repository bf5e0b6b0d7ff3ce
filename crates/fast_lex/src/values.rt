//! What numbers and quoted texts stand for.

ghost use Rattle.std.specs.Prelude.{◌≡◌, ◌<◌, ◌≤◌, ◌^◌, true, false, length, IfOk};
ghost use Rattle.std.specs.Str.{chars};
ghost use Rattle.model_program.specs.Characters.{AllIn, is_digit};
ghost use Rattle.model_program.specs.Quotes.{number_value, quoted_value};
ghost use Rattle.fast_lex.specs.Units.{IsQuotedText, IsInsideOf};

use crate::quoted::{quoted, unit};
use crate::scan::next_char;
use fast_fault::{Memory, Text};
use std::alloc::Global;

/// The number that the text of a NUMBER token writes.
pub fn number_value(digits: &str) -> u128
    requires all { AllIn is_digit (chars digits.now) }
    requires few { length (chars digits.now) ≤ 38 }
    ensures value { result ≡ number_value (chars digits.now) }
    ensures bound { result < 10 ^ 38 }
{
    let mut value = 0u128;
    let mut rest = digits;
    while let Some((c, after)) = next_char(rest) {
        value = value * 10 + c.to_digit(10).unwrap_or(0) as u128;
        rest = after;
    }
    value
}

/// Whether the text is one quoted text, from its first character to its last.
pub fn is_quoted(text: &str) -> bool
    ensures yes { result ≡ true → IsQuotedText (chars text.now) }
    ensures no { result ≡ false → IsQuotedText (chars text.now) → ⊥ }
{
    match quoted(text) {
        Some(found) => next_char(found.rest).is_none(),
        None => false,
    }
}

/// The characters that the text of a STRING token stands for.
pub fn quoted_value(alloc: Global, text: &str) -> Result<Text, Memory>
    requires { IsQuotedText (chars text.now) }
    ensures { IfOk result (λ value. value ≡ quoted_value (chars text.now)) }
{
    let mut value = String::with_capacity(alloc, text.len())?;
    let mut rest = inside(text);
    while let Some((c, after)) = unit(rest) {
        value.push(c)?;
        rest = after;
    }
    Ok(Text::from(value))
}

// What follows the first quote.
fn inside<'t>(text: &'t str) -> &'t str
    requires { IsQuotedText (chars text.now) }
    ensures { IsInsideOf (chars text.now) (chars result.now) }
{
    match next_char(text) {
        Some((_, inside)) => inside,
        None => text,
    }
}
