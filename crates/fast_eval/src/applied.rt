//! Outputs of transformations.

ghost use Rattle.std.specs.Prelude.{◌≡◌, ◌≤◌, ℕ, List, IfOk, IfErr, map, true};
ghost use Rattle.model_names.specs.Kinds.{transformation};
ghost use Rattle.model_tree.specs.Limits.{most_classes};
ghost use Rattle.model_tree.specs.Kept.{is_kept};
ghost use Rattle.model_tree.specs.Tree.{relabel};
ghost use Rattle.model_tree.specs.Signature.{HasType};
ghost use Rattle.fast_tree.specs.Entries.{label_meaning};
ghost use Rattle.fast_syntax.specs.Plain.{plain_x};
ghost use Rattle.model_meaning.specs.Meaning.{input_type};
ghost use Rattle.fast_build.specs.Items.{items_of};
ghost use Rattle.fast_eval.specs.Forms.{AreNamed, IsMadeFrom, IsTransKnown};
ghost use Rattle.fast_eval.specs.Outputs.{cut_tree, AreOutputsOf, StopsOutputs};
ghost use Rattle.fast_eval.specs.Scopes.{items_in, type_in, IsScope};
ghost use Rattle.fast_eval.specs.Table.{IsGrown, AreBuilt};

use crate::built::Built;
use crate::evaluation::{Scope, trans_of, transformation};
use crate::names::{Taken, build_names};
use crate::scopes::scope_of;
use crate::stops::OutputStop;
use fast_cut::Cut;
use fast_syntax::items::X;
use fast_tree::{Label, Tree};
use program_check::Checked;
use std::alloc::Global;

/// The outputs of the transformation of an expression for a tree, in order.
fn listed<'t>(
    alloc: Global,
    scope: &Scope,
    x: &X,
    tree: &'t Tree<Label>,
) -> Result<Vec<Cut<'t, Label>>, OutputStop>
    requires scope { IsScope scope.now }
    requires made { (into : List ℕ) × IsMadeFrom (items_in scope.now) (type_in scope.now) into (plain_x x.now) }
    requires named { AreNamed transformation scope.now.built.now (plain_x x.now) }
    requires typed { HasType (input_type (items_in scope.now) (plain_x x.now)) (relabel label_meaning tree.now) }
    requires kept { is_kept (relabel label_meaning tree.now) ≡ true }
    ensures outputs { IfOk result (λ cuts. AreOutputsOf (items_in scope.now) (plain_x x.now) (relabel label_meaning tree.now) (map cut_tree cuts.items)) }
    ensures stop { IfErr result (StopsOutputs (items_in scope.now) (plain_x x.now) scope.now.limit (relabel label_meaning tree.now)) }
{
    let own = transformation(alloc, scope, x)?;
    let own = trans_of(scope.built, &own);
    Ok(sttr_apply::outputs(scope.theory, alloc, own, tree)?)
}

/// The outputs of the transformation of an expression for a tree, in order, once the names in it are built.
pub fn outputs<'t>(
    alloc: Global,
    checked: &Checked,
    built: &mut Built,
    limit: u32,
    x: &X,
    tree: &'t Tree<Label>,
) -> Result<Vec<Cut<'t, Label>>, OutputStop>
    requires built { AreBuilt (items_of checked.now) built.old }
    requires made { (from into : List ℕ) × IsMadeFrom (items_of checked.now) from into (plain_x x.now) }
    requires known { IsTransKnown (items_of checked.now) built.old (plain_x x.now) }
    requires shallow { limit ≤ most_classes }
    requires typed { HasType (input_type (items_of checked.now) (plain_x x.now)) (relabel label_meaning tree.now) }
    requires kept { is_kept (relabel label_meaning tree.now) ≡ true }
    ensures built { AreBuilt (items_of checked.now) built.new }
    ensures grown { IsGrown built.old built.new }
    ensures outputs { IfOk result (λ cuts. AreOutputsOf (items_of checked.now) (plain_x x.now) (relabel label_meaning tree.now) (map cut_tree cuts.items)) }
    ensures stop { IfErr result (StopsOutputs (items_of checked.now) (plain_x x.now) limit (relabel label_meaning tree.now)) }
{
    build_names(alloc, checked, built, Taken::Transformation, x)?;
    let scope = scope_of(checked, built, limit, x);
    listed(alloc, &scope, x, tree)
}
