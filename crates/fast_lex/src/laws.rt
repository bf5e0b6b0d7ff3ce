//! What holds of the tokens of every text.

ghost use Rattle.std.specs.Prelude.{◌≡◌, ℕ, List};
ghost use Rattle.fast_fault.specs.declared.place.Pos.{Pos};
ghost use Rattle.model_program.specs.declared.Word.{Word};
ghost use Rattle.model_program.specs.Lexeme.{Lexeme};
ghost use Rattle.model_program.specs.Cuts.{AreTokens, StopsAt};
ghost use Rattle.model_program.specs.TokenTexts.{HaveTexts};
ghost use Rattle.model_program.specs.Quotes.{IsQuoted, quoted_value};
ghost use Rattle.fast_lex.specs.Kinds.{IsSpelledAlone};

/// The tokens of a text are one list.
pub fn tokens_are_one()
    ensures { (text : List ℕ) (a b : List Lexeme) → AreTokens text a → AreTokens text b → a ≡ b }
{}

/// A text stops at one place.
pub fn stops_at_one_place()
    ensures { (text : List ℕ) (a b : Pos) → StopsAt text a → StopsAt text b → a ≡ b }
{}

/// A text that stops at a place isn't made of tokens, blanks and comments.
pub fn stops_or_is_whole()
    ensures { (text : List ℕ) (place : Pos) (found : List Lexeme) → StopsAt text place → AreTokens text found → ⊥ }
{}

/// Each token of a text has a text of its word: a name, up to 38 digits, a quoted text, or the word's spelling.
pub fn tokens_have_texts()
    ensures { (text : List ℕ) (found : List Lexeme) → AreTokens text found → HaveTexts found }
{}

/// A quoted text stands for one list of characters, and reading it from left to right gives that.
pub fn quoted_stands_for_one()
    ensures { (text values : List ℕ) → IsQuoted text values → quoted_value text ≡ values }
{}

/// No two keywords and no two signs have one spelling.
pub fn spellings_differ()
    ensures { (w : Word) → IsSpelledAlone w }
{}
