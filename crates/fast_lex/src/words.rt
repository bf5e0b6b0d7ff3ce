//! Which keyword or sign a text is.

ghost use Rattle.std.specs.Prelude.{◌≡◌};
ghost use Rattle.std.specs.Str.{chars};
ghost use Rattle.model_program.specs.Spellings.{spelled, keywords, hyphenated, signs};

use model_program::Word;

// The keyword that is spelled so, as a name could be.
pub(crate) fn keyword_of(text: &str) -> Option<Word>
    ensures { result ≡ spelled keywords (chars text.now) }
{
    Some(match text {
        "type" => Word::TypeWord,
        "tree" => Word::Tree,
        "lang" => Word::Lang,
        "trans" => Word::Trans,
        "def" => Word::Def,
        "where" => Word::Where,
        "given" => Word::Given,
        "to" => Word::To,
        "intersect" => Word::Intersect,
        "union" => Word::Union,
        "complement" => Word::Complement,
        "difference" => Word::Difference,
        "minimize" => Word::Minimize,
        "domain" => Word::Domain,
        "compose" => Word::Compose,
        "restrict" => Word::Restrict,
        "apply" => Word::Apply,
        "in" => Word::In,
        "and" => Word::And,
        "or" => Word::Or,
        "not" => Word::Not,
        "true" => Word::True,
        "false" => Word::False,
        _ => return None,
    })
}

// The keyword with a hyphen that is spelled so.
pub(crate) fn hyphenated_of(text: &str) -> Option<Word>
    ensures { result ≡ spelled hyphenated (chars text.now) }
{
    Some(match text {
        "assert-true" => Word::AssertTrue,
        "assert-false" => Word::AssertFalse,
        "pre-image" => Word::PreImage,
        "restrict-out" => Word::RestrictOut,
        "get-witness" => Word::GetWitness,
        "is-empty" => Word::IsEmpty,
        "type-check" => Word::TypeCheck,
        _ => return None,
    })
}

// The sign that is spelled so.
pub(crate) fn sign_of(text: &str) -> Option<Word>
    ensures { result ≡ spelled signs (chars text.now) }
{
    Some(match text {
        "(" => Word::RoundOpen,
        ")" => Word::RoundClose,
        "[" => Word::SquareOpen,
        "]" => Word::SquareClose,
        "{" => Word::CurlyOpen,
        "}" => Word::CurlyClose,
        "," => Word::Comma,
        "|" => Word::Bar,
        ":" => Word::Colon,
        ":=" => Word::Assign,
        "->" => Word::Arrow,
        "==" => Word::Same,
        "=" => Word::Equal,
        "!=" => Word::NotEqual,
        "<=" => Word::AtMost,
        ">=" => Word::AtLeast,
        "<" => Word::Less,
        ">" => Word::Greater,
        "+" => Word::Plus,
        "-" => Word::Minus,
        "*" => Word::Star,
        "%" => Word::Percent,
        "∈" => Word::Element,
        _ => return None,
    })
}
