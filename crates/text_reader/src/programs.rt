//! The program that a text is, or its first refusal, with the code and the place that the definitions give it.

ghost use Rattle.std.specs.Prelude.{◌≡◌, List, IfOk};
ghost use Rattle.model_grammar.specs.Syntax as plain;
ghost use Rattle.model_grammar.specs.Grammar.{IsProgram};
ghost use Rattle.model_grammar.specs.Texts.{IsText};
ghost use Rattle.fast_syntax.specs.Plain.{plain_program};
ghost use Rattle.model_refusals.specs.Refusals.{IsRefusal};
ghost use Rattle.text_reader.specs.Answers.{IfRefused};

use crate::texts::{ReadStop, place_at, refused, text_of, tokens_of};
use fast_fault::Code;
use fast_syntax::items::Program;
use label_reader::ReadTokensStop;
use program_reader::read_items;
use std::alloc::Global;

/// The program that the bytes are.
pub fn read(alloc: Global, bytes: &[u8]) -> Result<Program, ReadStop>
    // What is read is what the text spells.
    ensures found { IfOk result (λ program. IsText IsProgram bytes.now (plain_program program)) }
    // The text spells nothing else.
    ensures only { IfOk result (λ program. (other : List plain.Item) → IsText IsProgram bytes.now other → other ≡ plain_program program) }
    // A refusal comes where its condition holds, at its place.
    ensures refused { IfRefused result (λ refusal. IsRefusal IsProgram bytes.now refusal.code refusal.place) }
{
    let text = text_of(bytes)?;
    let found = tokens_of(alloc, text)?;
    match read_items(alloc, &found) {
        Ok(program) => Ok(program),
        Err(ReadTokensStop::Wrong(before)) => {
            Err(refused(Code::Syntax, place_at(text, &found, before)))
        }
        Err(ReadTokensStop::Memory) => Err(ReadStop::Memory),
    }
}
