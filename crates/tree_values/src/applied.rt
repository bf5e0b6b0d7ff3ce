//! Transformations that are applied to values.

ghost use Rattle.std.specs.Prelude.{ℕ, List, IfOk, IfErr, map};
ghost use Rattle.std.specs.List.{All};
ghost use Rattle.model_tree.specs.Signature.{HasType};
ghost use Rattle.fast_syntax.specs.Plain.{plain_x};
ghost use Rattle.model_meaning.specs.Meaning.{input_type};
ghost use Rattle.fast_eval.specs.Forms.{IsMadeFrom, IsTransKnown};
ghost use Rattle.fast_eval.specs.Found.{IsInLimits};
ghost use Rattle.fast_eval.specs.Outputs.{cut_tree};
ghost use Rattle.fast_eval.specs.Table.{IsGrown, AreBuilt};
ghost use Rattle.tree_values.specs.Applied.{IsChoice, IsChosen, HasOutput, IsOutputStop};
ghost use Rattle.tree_values.specs.Trees.{meant};
ghost use Rattle.tree_values.specs.Values.{items_in, IsGiven};

use crate::sizes::{Measured, measure};
use crate::stops::{TwoOutputs, TypedTree, ValueStop};
use crate::values::Given;
use fast_cut::Cut;
use fast_eval::{Built, ends_of, outputs};
use fast_fault::Memory;
use fast_syntax::items::X;
use fast_tree::{Label, Tree};
use std::alloc::Global;

/// Which output is the value: the only one, where there is room for it. Else that there is none, or the first two.
#[derive(Drop)]
pub(crate) enum Choice {
    Nothing,
    Only(Option<Measured>),
    Two(Tree<Label>, Tree<Label>),
}

/// Chooses among outputs.
fn choose(alloc: Global, room: u64, cuts: &[Cut<'_, Label>]) -> Result<Choice, Memory>
    requires limits { All IsInLimits (map cut_tree cuts.now) }
    ensures { IfOk result (IsChoice room (map cut_tree cuts.now)) }
{
    match cuts {
        [] => Ok(Choice::Nothing),
        [only] => Ok(Choice::Only(measure(room, only.to_tree(alloc)?))),
        [first, second, ..] => {
            let first = first.to_tree(alloc)?;
            Ok(Choice::Two(first, second.to_tree(alloc)?))
        }
    }
}

/// Which output of the tree is the value.
fn chosen(
    alloc: Global,
    given: &Given,
    built: &mut Built,
    room: u64,
    f: &X,
    tree: &Tree<Label>,
) -> Result<Choice, ValueStop>
    requires given { IsGiven given.now }
    requires built { AreBuilt (items_in given.now) built.old }
    requires made { (from into : List ℕ) × IsMadeFrom (items_in given.now) from into (plain_x f.now) }
    requires known { IsTransKnown (items_in given.now) built.old (plain_x f.now) }
    requires typed { HasType (input_type (items_in given.now) (plain_x f.now)) (meant tree.now) }
    requires limits { IsInLimits (meant tree.now) }
    ensures built { AreBuilt (items_in given.now) built.new }
    ensures grown { IsGrown built.old built.new }
    ensures choice { IfOk result (IsChosen (items_in given.now) (plain_x f.now) (meant tree.now) room) }
    ensures stop { IfErr result (IsOutputStop (items_in given.now) given.now.limit (plain_x f.now) (meant tree.now)) }
{
    let cuts = outputs(alloc, given.checked, built, given.limit, f, tree)?;
    Ok(choose(alloc, room, &cuts)?)
}

/// The only output of the tree, if there is room for it.
pub(crate) fn only_output(
    alloc: Global,
    given: &Given,
    built: &mut Built,
    room: u64,
    f: &X,
    tree: Tree<Label>,
) -> Result<Option<Measured>, ValueStop>
    requires given { IsGiven given.now }
    requires built { AreBuilt (items_in given.now) built.old }
    requires made { (from into : List ℕ) × IsMadeFrom (items_in given.now) from into (plain_x f.now) }
    requires known { IsTransKnown (items_in given.now) built.old (plain_x f.now) }
    requires typed { HasType (input_type (items_in given.now) (plain_x f.now)) (meant tree) }
    requires limits { IsInLimits (meant tree) }
    ensures built { AreBuilt (items_in given.now) built.new }
    ensures grown { IsGrown built.old built.new }
    ensures output { IfOk result (HasOutput (items_in given.now) (plain_x f.now) (meant tree) room) }
    ensures stop { IfErr result (IsOutputStop (items_in given.now) given.now.limit (plain_x f.now) (meant tree)) }
{
    let ends = ends_of(given.checked, f);
    match chosen(alloc, given, built, room, f, &tree)? {
        Choice::Only(value) => Ok(value),
        Choice::Nothing => {
            let of = ends.from.copy(alloc)?;
            Err(ValueStop::NoOutput(TypedTree { of, tree }))
        }
        Choice::Two(first, second) => {
            let of = ends.from.copy(alloc)?;
            let into = ends.into.copy(alloc)?;
            Err(ValueStop::SeveralOutputs(TwoOutputs {
                input: TypedTree { of, tree },
                into,
                first,
                second,
            }))
        }
    }
}
