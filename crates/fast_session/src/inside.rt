//! Whether trees are in the language of a name.

ghost use Rattle.std.specs.Prelude.{◌≡◌, ◌≤◌, ◌↔◌, true, IfOk};
ghost use Rattle.std.specs.Str.{chars};
ghost use Rattle.model_tree.specs.Limits.{most_classes};
ghost use Rattle.model_tree.specs.Kept.{is_kept};
ghost use Rattle.model_tree.specs.Signature.{HasType};
ghost use Rattle.fast_syntax.specs.Plain.{plain_x};
ghost use Rattle.model_names.specs.Kinds.{language};
ghost use Rattle.model_meaning.specs.Meaning.{IsInLanguage, input_type};
ghost use Rattle.model_run.specs.Report.{named_x};
ghost use Rattle.model_run.specs.Texts.{IsNameOf};
ghost use Rattle.fast_eval.specs.Forms.{AreKnown};
ghost use Rattle.fast_eval.specs.Table.{AreBuilt};
ghost use Rattle.tree_values.specs.Trees.{meant};
ghost use Rattle.fast_eval.specs.declared.stops.EvalStop.TheVariants as stops;
ghost use Rattle.fast_session.specs.Items.{IsBuiltMore};
ghost use Rattle.fast_session.specs.Kept.{items_in};

use crate::items::{Around, Kept};
use fast_eval::{EvalStop, belongs};
use fast_fault::{Memory, Pos, Text};
use fast_syntax::Name;
use fast_syntax::items::X;
use fast_tree::{Label, Tree};
use std::alloc::Global;

/// The expression that is the name alone.
pub fn named(alloc: Global, name: &str) -> Result<X, Memory>
    ensures { IfOk result (λ x. plain_x x ≡ named_x (chars name.now)) }
{
    let text = Text::of(alloc, name)?;
    let place = Pos { line: 1, column: 1 };
    Ok(X::Named(Name { text, place }))
}

/// Want of memory, which alone stops the evaluation of a name.
fn memory_of(stop: EvalStop) -> Memory
    requires { stop ≡ stops.Memory }
{
    match stop {
        EvalStop::Memory => Memory,
        EvalStop::Classes | EvalStop::Wide(_) | EvalStop::Range(_) => unreachable!(),
    }
}

/// Whether the tree is in the language of the name, for which all is built that it needs.
pub fn is_member(
    alloc: Global,
    around: &Around,
    kept: &mut Kept,
    name: &str,
    tree: &Tree<Label>,
) -> Result<bool, Memory>
    requires shallow { around.now.limit ≤ most_classes }
    requires built { AreBuilt (items_in around.now) kept.old.built }
    requires language { IsNameOf (items_in around.now) language (chars name.now) }
    requires known { AreKnown (items_in around.now) kept.old.built (named_x (chars name.now)) }
    requires typed { HasType (input_type (items_in around.now) (named_x (chars name.now))) (meant tree.now) }
    requires kept { is_kept (meant tree.now) ≡ true }
    ensures more { IsBuiltMore (items_in around.now) kept.old kept.new }
    ensures inside { IfOk result (λ inside. (inside ≡ true) ↔ IsInLanguage (items_in around.now) (named_x (chars name.now)) (meant tree.now)) }
{
    let x = named(alloc, name)?;
    match belongs(
        alloc,
        around.checked,
        &mut kept.built,
        around.limit,
        &x,
        tree,
    ) {
        Ok(inside) => Ok(inside),
        Err(stop) => Err(memory_of(stop)),
    }
}
