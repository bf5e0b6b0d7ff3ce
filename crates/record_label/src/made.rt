//! What is made and put behind a list, where a number out of range stops as well.
//!
//! It is of any type, so that it is dropped whole where it can't be put there.

ghost use Rattle.std.specs.Prelude.{◌≡◌, ◌∷◌, ◌++◌, []};
ghost use Rattle.record_label.specs.Follows.{Follows};

use lin_form::FormStop;

/// Puts what was made behind the list, unless there was a stop.
pub(crate) fn added<A: Drop>(list: &mut Vec<A>, made: Result<A, FormStop>) -> Result<(), FormStop>
    ensures { Follows made (λ x _. list.new.items ≡ list.old.items ++ x ∷ []) (λ _ _. ⊥) result }
{
    Ok(list.push(made?)?)
}
