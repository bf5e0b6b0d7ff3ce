//! The constructors of a type with their numbers: one is found by its name in constant time.

ghost use Rattle.std.specs.Prelude.{◌≡◌, Some, None, MatchOption, map};
ghost use Rattle.fast_syntax.specs.View.{plain_ctor};
ghost use Rattle.model_checks.specs.Types.{find_ctor, is_leaf, has_leaf};
ghost use Rattle.program_check.specs.Numbered.{HasCtors};

use crate::names::Names;
use crate::types::is_rank;
use fast_fault::Text;
use fast_syntax::CtorItem;

/// The first constructor of this name, where the constructors have these numbers.
pub(crate) fn ctor_named<'p>(
    ctors: &'p [CtorItem],
    numbers: &Names,
    name: &Text,
) -> Option<&'p CtorItem>
    ensures { HasCtors (map plain_ctor ctors.now) numbers.now → MatchOption result (find_ctor (map plain_ctor ctors.now) name.now ≡ None) (λ c. find_ctor (map plain_ctor ctors.now) name.now ≡ Some (plain_ctor c.now)) }
{
    match numbers.place(name) {
        Some(place) => ctors.get(place),
        None => None,
    }
}

/// There is a constructor without children, where the constructors have these numbers.
pub(crate) fn has_leaf(ctors: &[CtorItem], numbers: &Names) -> bool
    ensures { HasCtors (map plain_ctor ctors.now) numbers.now → result ≡ has_leaf (map plain_ctor ctors.now) }
{
    'ctors: for ctor in ctors {
        if is_leaf(ctors, numbers, &ctor.name.text) {
            return true;
        }
    }
    false
}

/// The constructor of this name has no children.
fn is_leaf(ctors: &[CtorItem], numbers: &Names, name: &Text) -> bool
    ensures { HasCtors (map plain_ctor ctors.now) numbers.now → result ≡ is_leaf (map plain_ctor ctors.now) name.now }
{
    match ctor_named(ctors, numbers, name) {
        Some(ctor) => is_rank(0, ctor.rank),
        None => false,
    }
}
