//! Whether trees are in languages.

ghost use Rattle.std.specs.Prelude.{◌≡◌, ℕ, List, IfOk, IfErr};
ghost use Rattle.fast_syntax.specs.Plain.{plain_x};
ghost use Rattle.model_tree.specs.Signature.{HasType};
ghost use Rattle.model_meaning.specs.Meaning.{input_type};
ghost use Rattle.model_meaning.specs.Values.{Printed};
ghost use Rattle.fast_eval.specs.Forms.{AreKnown, IsMadeOn};
ghost use Rattle.fast_eval.specs.Found.{IsInLimits};
ghost use Rattle.fast_eval.specs.Table.{IsGrown, AreBuilt};
ghost use Rattle.tree_values.specs.Forms.{IsTreeOn, IsTreeKnown};
ghost use Rattle.tree_values.specs.Members.{IsMember, IsMemberStop};
ghost use Rattle.tree_values.specs.Owed.{OwesNothing};
ghost use Rattle.tree_values.specs.Stops.{IsStopTyped};
ghost use Rattle.tree_values.specs.Trees.{meant, Tells};
ghost use Rattle.tree_values.specs.Values.{items_in, IsGiven};

use crate::stops::ValueStop;
use crate::values::{Given, value};
use fast_eval::{Built, belongs, type_of};
use fast_syntax::items::X;
use fast_tree::{Label, Tree};
use std::alloc::Global;

/// The value of the left side of `in`, and whether it is in the language of the right side.
#[derive(Drop)]
pub struct Membership {
    pub tree: Tree<Label>,
    pub inside: bool,
}

/// The value of a tree expression, and whether it is in a language.
pub fn member(
    alloc: Global,
    given: &Given,
    built: &mut Built,
    x: &X,
    y: &X,
) -> Result<Membership, ValueStop>
    requires given { IsGiven given.now }
    requires built { AreBuilt (items_in given.now) built.old }
    requires made { (type : List ℕ) × IsMadeOn (items_in given.now) type (plain_x y.now) × IsTreeOn (items_in given.now) type (plain_x x.now) }
    requires known { IsTreeKnown (items_in given.now) given.now.trees.now built.old (plain_x x.now) }
    requires also_known { AreKnown (items_in given.now) built.old (plain_x y.now) }
    ensures built { AreBuilt (items_in given.now) built.new }
    ensures grown { IsGrown built.old built.new }
    ensures member { IfOk result (λ m. (printed : List Printed) → Tells given.now.trees.now printed → IsMember (items_in given.now) printed (plain_x x.now) (plain_x y.now) m) }
    ensures owed { IfOk result (λ _. (printed : List Printed) → Tells given.now.trees.now printed → OwesNothing (items_in given.now) printed (input_type (items_in given.now) (plain_x y.now)) (plain_x x.now)) }
    ensures typed { IfOk result (λ m. HasType (input_type (items_in given.now) (plain_x y.now)) (meant m.tree)) }
    ensures limits { IfOk result (λ m. IsInLimits (meant m.tree)) }
    ensures stop { IfErr result (λ s. (printed : List Printed) → Tells given.now.trees.now printed → IsMemberStop (items_in given.now) printed given.now.limit (plain_x x.now) (plain_x y.now) s) }
    ensures shown { IfErr result (IsStopTyped (items_in given.now)) }
{
    let Some(of) = type_of(given.checked, y) else {
        unreachable!()
    };
    let tree = value(alloc, given, built, of, x)?;
    let inside = belongs(alloc, given.checked, built, given.limit, y, &tree)?;
    Ok(Membership { tree, inside })
}
