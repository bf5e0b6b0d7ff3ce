//! How keywords and signs are spelled.

ghost use Rattle.std.specs.Prelude.{◌≡◌};
ghost use Rattle.std.specs.Str.{chars};
ghost use Rattle.model_program.specs.Spellings.{spelling};

use model_program::Word;

/// The text of a keyword or a sign. A name, a number and a quoted text have none of their own.
pub(crate) fn spelling(word: Word) -> &'static str
    ensures { chars result.now ≡ spelling word }
{
    match word {
        Word::TypeWord => "type",
        Word::Tree => "tree",
        Word::Lang => "lang",
        Word::Trans => "trans",
        Word::Def => "def",
        Word::Where => "where",
        Word::Given => "given",
        Word::To => "to",
        Word::Intersect => "intersect",
        Word::Union => "union",
        Word::Complement => "complement",
        Word::Difference => "difference",
        Word::Minimize => "minimize",
        Word::Domain => "domain",
        Word::Compose => "compose",
        Word::Restrict => "restrict",
        Word::Apply => "apply",
        Word::In => "in",
        Word::And => "and",
        Word::Or => "or",
        Word::Not => "not",
        Word::True => "true",
        Word::False => "false",
        Word::AssertTrue => "assert-true",
        Word::AssertFalse => "assert-false",
        Word::PreImage => "pre-image",
        Word::RestrictOut => "restrict-out",
        Word::GetWitness => "get-witness",
        Word::IsEmpty => "is-empty",
        Word::TypeCheck => "type-check",
        Word::Id => "",
        Word::Number => "",
        Word::Quoted => "",
        Word::RoundOpen => "(",
        Word::RoundClose => ")",
        Word::SquareOpen => "[",
        Word::SquareClose => "]",
        Word::CurlyOpen => "{",
        Word::CurlyClose => "}",
        Word::Comma => ",",
        Word::Bar => "|",
        Word::Colon => ":",
        Word::Assign => ":=",
        Word::Arrow => "->",
        Word::Same => "==",
        Word::Equal => "=",
        Word::NotEqual => "!=",
        Word::AtMost => "<=",
        Word::AtLeast => ">=",
        Word::Less => "<",
        Word::Greater => ">",
        Word::Plus => "+",
        Word::Minus => "-",
        Word::Star => "*",
        Word::Percent => "%",
        Word::Element => "\u{2208}",
    }
}
