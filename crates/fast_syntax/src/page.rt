//! A text that grows by tokens and blanks.

ghost use Rattle.std.specs.Prelude.{◌≡◌, ℕ, List, [], ◌∷◌, ◌++◌, ◌<◌, IfOk, encode_utf8_all, string_bytes};
ghost use Rattle.std.specs.Fmt.{signed_decimal};
ghost use Rattle.std.specs.Str.{chars, IsUtf8};
ghost use Rattle.model_tree.specs.Printed.{escaped, numbered, printed_text};
ghost use Rattle.model_program.specs.Cuts.{texts_of};
ghost use Rattle.model_program.specs.Pieces as pieces;
ghost use Rattle.model_grammar.specs.Printed.{token, blank, line_end, piece, whole};
ghost use Rattle.fast_syntax.specs.Adds.{Adds};
ghost use Rattle.fast_syntax.specs.View.{plain_name};

use crate::Name;
use crate::spelling::spelling;
use fast_fault::{Memory, Text};
use model_program::Word;
use std::alloc::Global;
use std::marker::Model;

#[derive(Drop)]
pub(crate) struct Page {
    text: String,
}

impl Model for Page {
    ghost use Rattle.std.specs.Prelude.{ℕ, List, string_bytes};
    ghost use Rattle.std.specs.Str.{chars};

    ghost Value = { List ℕ };

    ghost view = { λ s. chars (string_bytes s.text) };
}

impl Page {
    pub(crate) fn new(alloc: Global) -> Page
        ensures { result ≡ [] }
    {
        Page {
            text: String::new(alloc),
        }
    }

    /// The bytes of the text.
    pub(crate) fn into_bytes(self) -> Vec<u8>
        ensures bytes { result.items ≡ encode_utf8_all self }
        ensures encoded { IsUtf8 result.items }
    {
        self.text.into_bytes()
    }

    fn push_text(&mut self, text: &str) -> Result<(), Memory>
        ensures { IfOk result (λ _. self.new ≡ self.old ++ chars text.now) }
    {
        self.text.push_str(text)?;
        Ok(())
    }

    fn push_character(&mut self, character: char) -> Result<(), Memory>
        ensures { IfOk result (λ _. self.new ≡ self.old ++ character ∷ []) }
    {
        self.text.push(character)?;
        Ok(())
    }

    /// A keyword or a sign.
    pub(crate) fn word(&mut self, word: Word) -> Result<(), Memory>
        ensures { IfOk result (λ _. Adds self.old self.new (token word ∷ [])) }
    {
        self.push_text(spelling(word))
    }

    pub(crate) fn blank(&mut self) -> Result<(), Memory>
        ensures { IfOk result (λ _. Adds self.old self.new (blank ∷ [])) }
    {
        self.push_character(' ')
    }

    pub(crate) fn line_end(&mut self) -> Result<(), Memory>
        ensures { IfOk result (λ _. Adds self.old self.new (line_end ∷ [])) }
    {
        self.push_character('\n')
    }

    pub(crate) fn text(&mut self, text: &Text) -> Result<(), Memory>
        ensures { IfOk result (λ _. Adds self.old self.new (piece pieces.Name text.now ∷ [])) }
    {
        self.push_text(text.as_str())
    }

    /// A number, with `-` where it is negative.
    pub(crate) fn number(&mut self, alloc: Global, number: i128) -> Result<(), Memory>
        ensures { IfOk result (λ _. Adds self.old self.new (whole number)) }
    {
        let digits = decimal(alloc, number)?;
        self.push_text(digits.as_str())
    }

    /// A text in quotes, with its escapes.
    pub(crate) fn quoted(&mut self, alloc: Global, text: &Text) -> Result<(), Memory>
        ensures { IfOk result (λ _. Adds self.old self.new (piece pieces.Text (printed_text text.now) ∷ [])) }
    {
        self.push_character('"')?;
        for character in text.as_str().chars() {
            self.push_escaped(alloc, character)?;
        }
        self.push_character('"')
    }

    fn push_escaped(&mut self, alloc: Global, character: char) -> Result<(), Memory>
        ensures { IfOk result (λ _. self.new ≡ self.old ++ escaped character) }
    {
        match character {
            '"' => self.push_text("\\\""),
            '\\' => self.push_text("\\\\"),
            '\n' => self.push_text("\\n"),
            '\t' => self.push_text("\\t"),
            '\0'..='\u{1f}' | '\u{7f}' => self.push_by_number(alloc, character),
            _ => self.push_character(character),
        }
    }

    fn push_by_number(&mut self, alloc: Global, character: char) -> Result<(), Memory>
        requires { character < 128 }
        ensures { IfOk result (λ _. self.new ≡ self.old ++ numbered character) }
    {
        let number = escape_by_number(alloc, character)?;
        self.push_text(number.as_str())
    }
}

fn decimal(alloc: Global, number: i128) -> Result<String, Memory>
    ensures { IfOk result (λ digits. string_bytes digits ≡ signed_decimal number) }
{
    Ok(format!(in alloc; "{number}")?)
}

fn escape_by_number(alloc: Global, character: char) -> Result<String, Memory>
    ensures { IfOk result (λ escape. string_bytes escape ≡ numbered character) }
{
    Ok(format!(in alloc; "\\u{{{:x}}}", character as u32)?)
}
