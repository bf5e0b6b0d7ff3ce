//! The compositions of items.

ghost use Rattle.std.specs.Prelude.{◌≤◌, IfErr, OnOk};
ghost use Rattle.std.specs.List.{Contains};
ghost use Rattle.model_tree.specs.Limits.{most_classes};
ghost use Rattle.fast_syntax.specs.Plain.{plain_item};
ghost use Rattle.model_run.specs.Items.{IsComposable};
ghost use Rattle.fast_session.specs.Items.{IsAlwaysStopped};
ghost use Rattle.fast_session.specs.Kept.{items_in};

use crate::answers::Stopped;
use crate::items::Around;
use crate::stops::uncomposed;
use fast_compose::composable;
use fast_syntax::items::Item;
use std::alloc::Global;

/// Whether the compositions of the item can be made.
pub fn can_compose(alloc: Global, around: &Around, item: &Item) -> Result<(), Stopped>
    requires there { Contains (items_in around.now) (plain_item item.now) }
    requires shallow { around.now.limit ≤ most_classes }
    ensures composable { OnOk result (IsComposable (items_in around.now) (plain_item item.now).body) }
    ensures stopped { IfErr result (IsAlwaysStopped (items_in around.now) around.now.limit (plain_item item.now)) }
{
    match composable(alloc, around.checked, around.limit, item) {
        Ok(()) => Ok(()),
        Err(stop) => Err(uncomposed(around.limit, stop)),
    }
}
