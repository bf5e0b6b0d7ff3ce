//! Outputs of the transformation of a name.

ghost use Rattle.std.specs.Prelude.{◌≡◌, ◌≤◌, IfOk, IfErr, map, true};
ghost use Rattle.std.specs.Str.{chars};
ghost use Rattle.model_tree.specs.Limits.{most_classes};
ghost use Rattle.model_tree.specs.Kept.{is_kept};
ghost use Rattle.model_tree.specs.Signature.{HasType};
ghost use Rattle.model_names.specs.Kinds.{transformation};
ghost use Rattle.model_meaning.specs.Meaning.{input_type};
ghost use Rattle.model_run.specs.Report.{named_x};
ghost use Rattle.model_run.specs.Texts.{IsNameOf};
ghost use Rattle.fast_eval.specs.Forms.{IsReadyName};
ghost use Rattle.fast_eval.specs.Outputs.{cut_tree, AreOutputsOf};
ghost use Rattle.fast_eval.specs.Table.{AreBuilt};
ghost use Rattle.tree_values.specs.Trees.{meant};
ghost use Rattle.fast_session.specs.Items.{IsBuiltMore};
ghost use Rattle.fast_session.specs.Kept.{items_in};
ghost use Rattle.fast_session.specs.Needed.{IsTreeStopped};

use crate::answers::Stopped;
use crate::inside::named;
use crate::items::{Around, Kept};
use crate::stops::unlisted;
use fast_cut::Cut;
use fast_eval::outputs;
use fast_tree::{Label, Tree};
use std::alloc::Global;

/// The outputs of the transformation of the name for the tree, in order, where all is built that the name needs.
pub fn outputs_of<'t>(
    alloc: Global,
    around: &Around,
    kept: &mut Kept,
    name: &str,
    tree: &'t Tree<Label>,
) -> Result<Vec<Cut<'t, Label>>, Stopped>
    requires shallow { around.now.limit ≤ most_classes }
    requires built { AreBuilt (items_in around.now) kept.old.built }
    requires named { IsNameOf (items_in around.now) transformation (chars name.now) }
    requires known { IsReadyName transformation (items_in around.now) kept.old.built (chars name.now) }
    requires typed { HasType (input_type (items_in around.now) (named_x (chars name.now))) (meant tree.now) }
    requires kept { is_kept (meant tree.now) ≡ true }
    ensures more { IsBuiltMore (items_in around.now) kept.old kept.new }
    ensures outputs { IfOk result (λ cuts. AreOutputsOf (items_in around.now) (named_x (chars name.now)) (meant tree.now) (map cut_tree cuts.items)) }
    ensures stopped { IfErr result (IsTreeStopped (items_in around.now) (chars name.now) (meant tree.now)) }
{
    let x = named(alloc, name)?;
    match outputs(
        alloc,
        around.checked,
        &mut kept.built,
        around.limit,
        &x,
        tree,
    ) {
        Ok(cuts) => Ok(cuts),
        Err(stop) => Err(unlisted(around.limit, stop)),
    }
}
