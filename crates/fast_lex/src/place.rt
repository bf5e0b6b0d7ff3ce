//! Lines and columns.

ghost use Rattle.std.specs.Prelude.{◌≡◌, ℕ, ◌+◌, ◌<◌, ◌^◌, length};
ghost use Rattle.std.specs.Str.{chars};
ghost use Rattle.model_program.specs.Cuts.{place_next, place_behind};

use crate::scan::next_char;
use fast_fault::Pos;

fn next_place(place: Pos, c: char) -> Pos
    requires line { place.line + 1 < 2 ^ 32 }
    requires column { place.column + 1 < 2 ^ 32 }
    ensures { result ≡ place_next place c }
{
    if c == '\n' {
        Pos {
            line: place.line + 1,
            column: 1,
        }
    } else {
        Pos {
            line: place.line,
            column: place.column + 1,
        }
    }
}

/// The place behind the characters of `passed`.
pub fn place_behind(from: Pos, passed: &str) -> Pos
    requires line { from.line + length passed.now < 2 ^ 32 }
    requires column { from.column + 1 + length passed.now < 2 ^ 32 }
    ensures { result ≡ place_behind from (chars passed.now) }
{
    let mut place = from;
    let mut rest = passed;
    while let Some((c, after)) = next_char(rest) {
        place = next_place(place, c);
        rest = after;
    }
    place
}
