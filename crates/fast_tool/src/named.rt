//! Names of the command line.

ghost use Rattle.std.specs.Prelude.{◌≡◌, IfOk, IfErr, IfSome, IfNone};
ghost use Rattle.fast_tree.specs.Signatures.{plain_signature};
ghost use Rattle.model_names.specs.Kinds.{transformation};
ghost use Rattle.model_meaning.specs.Meaning.{input_type, output_type};
ghost use Rattle.program_check.specs.Tells.{kind_view};
ghost use Rattle.fast_build.specs.Items.{items_of};
ghost use Rattle.model_run.specs.Report.{named_x};
ghost use Rattle.fast_tool.specs.Commands.{kind_asked};
ghost use Rattle.model_run.specs.Texts.{IsNameOf, IsNameRefused};

use crate::words::Question;
use fast_fault::{Code, Memory, Text};
use fast_tree::Signature;
use program_check::{Checked, Kind3};
use std::alloc::Global;

/// The name that a word is. Names are ASCII, so the characters of one are its bytes.
pub fn name_of(alloc: Global, word: &str) -> Result<Text, Memory>
    ensures { IfOk result (λ name. name ≡ word.now) }
{
    let mut name = String::new(alloc);
    'bytes: for byte in word.as_bytes() {
        name.push(char::from(*byte))?;
    }
    Ok(Text::from(name))
}

/// The name of the type of the trees of which is asked, where this is of the right kind.
fn type_asked(question: Question, kind: Kind3<'_>) -> Option<&Text>
    ensures some { IfSome result (λ of. ((kind_view kind.entry).0 ≡ kind_asked question) × ((kind_view kind.entry).1.0 ≡ of.now)) }
    ensures none { IfNone result (¬ ((kind_view kind.entry).0 ≡ kind_asked question)) }
{
    match (question, kind) {
        (Question::Inside, Kind3::Language(of)) => Some(of),
        (Question::Outputs, Kind3::Transformation(from, _)) => Some(from),
        _ => None,
    }
}

/// The type of the trees of the language of this name, or of the inputs of its transformation; or why the name is refused.
pub fn type_of_trees<'c>(
    checked: &'c Checked,
    name: &Text,
    question: Question,
) -> Result<&'c Signature, Code>
    ensures named { IfOk result (λ _. IsNameOf (items_of checked.now) (kind_asked question) name.now) }
    ensures of { IfOk result (λ signature. plain_signature signature.now ≡ input_type (items_of checked.now) (named_x name.now)) }
    ensures refused { IfErr result (IsNameRefused (items_of checked.now) (kind_asked question) name.now) }
{
    let Some(kind) = checked.kind(name) else {
        return Err(Code::UnknownName);
    };
    let Some(of) = type_asked(question, kind) else {
        return Err(Code::WrongKind);
    };
    match checked.signature(of) {
        Some(signature) => Ok(signature),
        None => unreachable!(),
    }
}

/// The type of the outputs of the transformation of this name.
pub fn type_of_outputs<'c>(checked: &'c Checked, name: &Text) -> &'c Signature
    requires named { IsNameOf (items_of checked.now) transformation name.now }
    ensures { plain_signature result.now ≡ output_type (items_of checked.now) (named_x name.now) }
{
    let Some(Kind3::Transformation(_, into)) = checked.kind(name) else {
        unreachable!()
    };
    let Some(signature) = checked.signature(into) else {
        unreachable!()
    };
    signature
}
