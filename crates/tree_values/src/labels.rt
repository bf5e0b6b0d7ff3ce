//! Labels of literals.

ghost use Rattle.std.specs.Prelude.{◌≡◌, [], IfOk, map};
ghost use Rattle.model_tree.specs.Label.{row};
ghost use Rattle.model_tree.specs.Signature.{sorts_of};
ghost use Rattle.fast_tree.specs.Entries.{label_meaning};
ghost use Rattle.fast_tree.specs.Signatures.{plain_signature};
ghost use Rattle.fast_syntax.specs.Plain.{plain_expr};
ghost use Rattle.model_meaning.specs.Outputs.{made_label};
ghost use Rattle.tree_values.specs.Forms.{AreClosed};

use fast_fault::{Memory, Text};
use fast_syntax::expressions::Expr;
use fast_tree::{Label, Signature};
use label_core::Applied;
use record_label::{RowLabels, map_of};
use std::alloc::Global;

/// A type without fields.
fn without_fields(alloc: Global) -> Result<Signature, Memory>
    ensures { IfOk result (λ s. s.fields.items ≡ []) }
{
    Ok(Signature {
        name: Text::of(alloc, "")?,
        fields: Vec::new(alloc),
        constructors: Vec::new(alloc),
    })
}

/// The label that expressions without fields are.
pub(crate) fn label_of(alloc: Global, labels: &[Expr], into: &Signature) -> Result<Label, Memory>
    requires { AreClosed (sorts_of (plain_signature into.now)) (map plain_expr labels.now) }
    ensures { IfOk result (λ l. label_meaning l ≡ made_label [] [] (map plain_expr labels.now) (row [])) }
{
    let from = without_fields(alloc)?;
    let map = map_of(alloc, labels, &from, into)?;
    let theory = RowLabels::new(alloc, &from)?;
    match map.apply(alloc, &theory, &Label::new(Vec::new(alloc)))? {
        Applied::Value(label) => Ok(label),
        Applied::Range(_) => unreachable!(),
    }
}
