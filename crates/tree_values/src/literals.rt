//! The nodes of literals.

ghost use Rattle.std.specs.Prelude.{◌≡◌, ◌≤◌, IfOk, Some, map, is_some, true};
ghost use Rattle.std.specs.Option.{option_map_or};
ghost use Rattle.fast_syntax.specs.Plain.{plain_expr};
ghost use Rattle.fast_tree.specs.Signatures.{plain_signature};
ghost use Rattle.model_names.specs.Declared.{same_text, find_type};
ghost use Rattle.model_tree.specs.Signature.{names_of};
ghost use Rattle.model_meaning.specs.Outputs.{number_named};
ghost use Rattle.model_meaning.specs.Meaning.{signature_named};
ghost use Rattle.fast_build.specs.Items.{items_of};
ghost use Rattle.tree_values.specs.Forms.{IsLabelled};
ghost use Rattle.tree_values.specs.Values.{IsAbove};
ghost use Rattle.std.specs.Prelude.{position};

use crate::labels::label_of;
use crate::sizes::{Below, Measured};
use fast_fault::{Memory, Text};
use fast_syntax::expressions::Expr;
use fast_tree::{CtorOf, Signature, Tree};
use program_check::Checked;
use std::alloc::Global;

/// The place of the constructor of this name.
fn place_of(constructors: &[CtorOf], name: &Text) -> Option<usize>
    ensures { result ≡ position (λ c. same_text c.name name.now) constructors.now }
{
    constructors.iter().position(|ctor| ctor.name == *name)
}

/// The number of the constructor of this name.
fn number_of(signature: &Signature, name: &Text) -> Result<u32, Memory>
    requires { is_some (number_named (names_of (plain_signature signature.now)) name.now) ≡ true }
    ensures { IfOk result (λ n. number_named (names_of (plain_signature signature.now)) name.now ≡ Some n) }
{
    let Some(place) = place_of(&signature.constructors, name) else {
        unreachable!()
    };
    // a type of so many constructors is out of reach of any memory
    match u32::try_from(place) {
        Ok(number) => Ok(number),
        Err(_wide) => Err(Memory),
    }
}

/// The node above these trees.
fn above(
    alloc: Global,
    signature: &Signature,
    name: &Text,
    labels: &[Expr],
    below: Below,
) -> Result<Measured, Memory>
    requires { IsLabelled (plain_signature signature.now) name.now (map plain_expr labels.now) }
    ensures { IfOk result (IsAbove (plain_signature signature.now) name.now (map plain_expr labels.now) below) }
{
    let number = number_of(signature, name)?;
    let label = label_of(alloc, labels, signature)?;
    Ok(Measured {
        tree: Tree::new(number, label, below.trees),
        nodes: below.nodes,
        depth: below.depth,
    })
}

/// The tree of a literal above these trees.
pub(crate) fn literal(
    alloc: Global,
    checked: &Checked,
    of: &Text,
    name: &Text,
    labels: &[Expr],
    below: Below,
) -> Result<Measured, Memory>
    requires declared { is_some (find_type (items_of checked.now) of.now) ≡ true }
    requires node { IsLabelled (signature_named (items_of checked.now) (Some of.now)) name.now (map plain_expr labels.now) }
    ensures { IfOk result (IsAbove (signature_named (items_of checked.now) (Some of.now)) name.now (map plain_expr labels.now) below) }
{
    let Some(signature) = checked.signature(of) else {
        unreachable!()
    };
    above(alloc, signature, name, labels, below)
}
