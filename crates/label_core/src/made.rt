//! Values that are made side by side, or one behind the other.
//!
//! They are of any type, so that one is dropped whole, and not part by part, where the other can't be made.

ghost use Rattle.std.specs.Prelude.{◌≡◌, ◌++◌, ◌∷◌, ◌⊎◌, [], MatchResult, OnOk, Ok, Err};

use fast_fault::Memory;

/// Both values, or why the first one that isn't there wasn't made.
pub fn both<A: Drop, B: Drop, E: Drop>(
    first: Result<A, E>,
    second: Result<B, E>,
) -> Result<(A, B), E>
    ensures { MatchResult result (λ both. (first ≡ Ok both.0) × (second ≡ Ok both.1)) (λ stop. (first ≡ Err stop) ⊎ (second ≡ Err stop)) }
{
    let first = first?;
    let second = second?;
    Ok((first, second))
}

/// Puts what was made behind the list, unless there was a stop.
pub fn added<A: Drop>(list: &mut Vec<A>, made: Result<A, Memory>) -> Result<(), Memory>
    ensures { OnOk result ((x : A) × (made ≡ Ok x) × (list.new.items ≡ list.old.items ++ x ∷ [])) }
{
    list.push(made?)?;
    Ok(())
}
