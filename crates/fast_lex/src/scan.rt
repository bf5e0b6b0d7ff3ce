//! Characters, and runs of them, off the front of a text.

ghost use Rattle.std.specs.Prelude.{◌≡◌, ℕ, List, [], ◌∷◌, ◌++◌, MatchOption, encode_utf8};
ghost use Rattle.std.specs.Str.{chars};
ghost use Rattle.fast_lex.specs.Runs.{class_of, IsRun, IsBehind, IsSuffix};

/// The characters of which a run is made.
#[derive(Clone, Copy)]
pub(crate) enum Class {
    Name,
    Digit,
    Hexadecimal,
    Line,
}

fn is_in(class: Class, c: char) -> bool
    ensures { result ≡ class_of class c }
{
    match class {
        Class::Name => c.is_ascii_alphabetic() || c == '_' || c.is_ascii_digit() || c == '.',
        Class::Digit => c.is_ascii_digit(),
        Class::Hexadecimal => c.is_ascii_hexdigit(),
        Class::Line => c != '\n',
    }
}

// The first character, and what follows it.
pub(crate) fn next_char<'t>(text: &'t str) -> Option<(char, &'t str)>
    ensures bytes { MatchOption result (text.now ≡ []) (λ x. text.now ≡ encode_utf8 x.0 ++ x.1.now) }
    ensures chars { MatchOption result (chars text.now ≡ []) (λ x. chars text.now ≡ x.0 ∷ chars x.1.now) }
{
    let mut chars = text.chars();
    let c = chars.next()?;
    Some((c, chars.as_str()))
}

// What follows the characters of the class at the front.
pub(crate) fn run_end<'t>(text: &'t str, class: Class) -> &'t str
    ensures { IsRun (class_of class) text.now result.now }
{
    let mut rest = text;
    while let Some((c, after)) = next_char(rest) {
        if !is_in(class, c) {
            return rest;
        }
        rest = after;
    }
    rest
}

// What stands before `rest`, which ends the text.
pub(crate) fn front<'t>(text: &'t str, rest: &str) -> &'t str
    requires { IsSuffix text.now rest.now }
    ensures bytes { text.now ≡ result.now ++ rest.now }
    ensures chars { (front : List ℕ) → IsBehind front text.now rest.now → chars result.now ≡ front }
{
    let (front, _) = text.split_at(text.len() - rest.len());
    front
}
