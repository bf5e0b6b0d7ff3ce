//! Whole files.

ghost use Rattle.std.specs.Prelude.{◌≡◌, [], Some, None, map, IfOk, OnOk};
ghost use Rattle.fast_tree.specs.Signatures.{plain_signature};
ghost use Rattle.tree_reader.specs.Plain.{plain_tree};
ghost use Rattle.text_reader.specs.Answers.{IfRefused};
ghost use Rattle.model_grammar.specs.TreeFiles.{trees_of};
ghost use Rattle.model_checks.specs.Failures.{first_among};
ghost use Rattle.model_run.specs.Texts.{trees_failures, IsFileOf, IsFileRefused};
ghost use Rattle.tree_files.specs.Placed.{plain_placed, AreOfType, ArePlacedOf};

use crate::PlacedTree;
use crate::check::first_of_trees;
use crate::make::placed_trees;
use crate::types::TreeType;
use fast_fault::Memory;
use fast_tree::Signature;
use std::alloc::Global;
use text_reader::{ReadStop, read_trees};
use tree_reader::FileTree;

/// The trees of the type that the read ones stand for, or the first condition that fails in these.
fn typed(
    alloc: Global,
    signature: &Signature,
    trees: &[FileTree],
) -> Result<Vec<PlacedTree>, ReadStop>
    ensures sound { OnOk result (trees_failures (plain_signature signature.now) (trees_of (map plain_tree trees.now)) ≡ []) }
    ensures placed { IfOk result (λ placed. ArePlacedOf (plain_signature signature.now) (map plain_tree trees.now) (map plain_placed placed.items)) }
    ensures refused { IfRefused result (λ refusal. first_among None (trees_failures (plain_signature signature.now) (trees_of (map plain_tree trees.now))) ≡ Some refusal) }
{
    let Ok(of) = TreeType::new(alloc, signature) else {
        return Err(ReadStop::Memory);
    };
    if let Some(refusal) = first_of_trees(None, &of, trees) {
        return Err(ReadStop::Refused(refusal));
    }
    match placed_trees(alloc, &of, trees) {
        Ok(placed) => Ok(placed),
        Err(Memory) => Err(ReadStop::Memory),
    }
}

/// The trees of the type that the bytes are.
pub fn read_typed(
    alloc: Global,
    bytes: &[u8],
    signature: &Signature,
) -> Result<Vec<PlacedTree>, ReadStop>
    // What is given back is what the text spells, and the text spells nothing else.
    ensures file { IfOk result (λ placed. IsFileOf (plain_signature signature.now) bytes.now (map plain_placed placed.items)) }
    // Each of them has the type, and its numbers are in range.
    ensures typed { IfOk result (λ placed. AreOfType (plain_signature signature.now) (map plain_placed placed.items)) }
    // A refusal comes where its condition holds, at its place.
    ensures refused { IfRefused result (λ refusal. IsFileRefused (plain_signature signature.now) bytes.now refusal.code refusal.place) }
{
    let trees = read_trees(alloc, bytes)?;
    typed(alloc, signature, &trees)
}
