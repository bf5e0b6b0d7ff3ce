//! The failing condition that comes first.

ghost use Rattle.std.specs.Prelude.{◌≡◌};
ghost use Rattle.model_checks.specs.Failures.{fails_if, goes_before, first_among};

use fast_fault::{Code, Pos, Refusal};

/// Whether a failing condition goes before another.
fn goes_before(new: Refusal, known: Refusal) -> bool
    ensures { result ≡ goes_before new known }
{
    let (here, there) = (new.place, known.place);
    if here.line != there.line {
        return here.line < there.line;
    }
    if here.column != there.column {
        return here.column < there.column;
    }
    new.code.number() < known.code.number()
}

/// The first of the failing conditions, once it is known whether one more fails.
pub(crate) fn first_with(
    known: Option<Refusal>,
    fails: bool,
    code: Code,
    place: Pos,
) -> Option<Refusal>
    ensures { result ≡ first_among known (fails_if fails code place) }
{
    if !fails {
        return known;
    }
    let new = Refusal { code, place };
    match known {
        Some(old) if !goes_before(new, old) => known,
        _ => Some(new),
    }
}
