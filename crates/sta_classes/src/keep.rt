//! Values that are kept where what was done beside them ended well.
//!
//! They are of any type, and so is what is let go with them, so that each is dropped whole, and not part by part.

ghost use Rattle.std.specs.Prelude.{◌≡◌, MatchResult, Ok, Err};

/// The value without the rest, unless there was a stop.
pub fn kept<A: Drop, B: Drop, E>(value: A, _rest: B, ended: Result<(), E>) -> Result<A, E>
    ensures { MatchResult result (λ x. (x ≡ value) × (ended ≡ Ok tt)) (λ e. ended ≡ Err e) }
{
    match ended {
        Ok(()) => Ok(value),
        Err(stop) => Err(stop),
    }
}
