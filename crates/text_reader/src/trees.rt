//! The trees that a file is, or its first refusal, with the code and the place that the definitions give it.

ghost use Rattle.std.specs.Prelude.{◌≡◌, List, map, IfOk};
ghost use Rattle.model_grammar.specs.TreeFiles.{IsTreeFile};
ghost use Rattle.model_grammar.specs.TreeFiles as plain;
ghost use Rattle.model_grammar.specs.Texts.{IsText};
ghost use Rattle.tree_reader.specs.Plain.{plain_tree};
ghost use Rattle.model_refusals.specs.Refusals.{IsRefusal};
ghost use Rattle.text_reader.specs.Answers.{IfRefused};

use crate::texts::{ReadStop, place_at, refused, text_of, tokens_of};
use fast_fault::Code;
use label_reader::ReadTokensStop;
use std::alloc::Global;
use tree_reader::{FileTree, read_trees as read_tokens};

/// The trees that the bytes are.
pub fn read_trees(alloc: Global, bytes: &[u8]) -> Result<Vec<FileTree>, ReadStop>
    // What is read is what the text spells.
    ensures found { IfOk result (λ trees. IsText IsTreeFile bytes.now (map plain_tree trees.items)) }
    // The text spells nothing else.
    ensures only { IfOk result (λ trees. (other : List plain.FileTree) → IsText IsTreeFile bytes.now other → other ≡ map plain_tree trees.items) }
    // A refusal comes where its condition holds, at its place.
    ensures refused { IfRefused result (λ refusal. IsRefusal IsTreeFile bytes.now refusal.code refusal.place) }
{
    let text = text_of(bytes)?;
    let found = tokens_of(alloc, text)?;
    match read_tokens(alloc, &found) {
        Ok(trees) => Ok(trees),
        Err(ReadTokensStop::Wrong(before)) => {
            Err(refused(Code::Syntax, place_at(text, &found, before)))
        }
        Err(ReadTokensStop::Memory) => Err(ReadStop::Memory),
    }
}
