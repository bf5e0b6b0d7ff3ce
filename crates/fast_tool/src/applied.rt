//! The outputs of transformations for trees that are given.

ghost use Rattle.std.specs.Prelude.{◌≡◌, ◌≢◌, ◌++◌, IfOk, IfErr, OnOk, Err, true, codes, map};
ghost use Rattle.std.specs.List.{All};
ghost use Rattle.fast_fault.specs.Written.{RoseExactlyWhere};
ghost use Rattle.fast_fault.specs.declared.status.Status.TheVariants.{SinkFault, TextFault};
ghost use Rattle.model_tree.specs.Kept.{is_kept};
ghost use Rattle.model_tree.specs.Scalars.{has_scalars};
ghost use Rattle.model_tree.specs.Signature.{HasType};
ghost use Rattle.fast_tree.specs.Signatures.{plain_signature};
ghost use Rattle.model_names.specs.Kinds.{transformation};
ghost use Rattle.model_meaning.specs.Meaning.{input_type};
ghost use Rattle.model_run.specs.Lines.{outputs_lines};
ghost use Rattle.model_run.specs.Outcomes.{shown_tree};
ghost use Rattle.model_run.specs.Report.{named_x, AreLinesOf};
ghost use Rattle.fast_eval.specs.Outputs.{cut_tree};
ghost use Rattle.fast_session.specs.Needed.{IsTreeStopped};
ghost use Rattle.fast_session.specs.Sessions.{items_in, IsSameProgram};
ghost use Rattle.tree_files.specs.Placed.{meant, plain_placed, IsOfType};
ghost use Rattle.fast_tool.specs.Answers.{IsPrepared, IsAnswered, IsUnanswered};

use crate::answers::Inquiry;
use crate::named::type_of_outputs;
use crate::refusals::{put_lines, refuse_item};
use fast_cut::Cut;
use fast_fault::{Memory, Sink, Status, Text};
use fast_session::{Session, Stopped};
use fast_tree::{Label, Signature, Tree, print_tree};
use std::alloc::Global;
use tree_files::PlacedTree;

/// Appends the line of an output.
fn append_output(
    alloc: Global,
    text: &mut Vec<u8>,
    cut: &Cut<'_, Label>,
    of: &Signature,
) -> Result<(), Memory>
    requires typed { HasType (plain_signature of.now) (cut_tree cut.now) }
    ensures text { OnOk result (text.new.items ≡ text.old.items ++ (codes "output" ++ (shown_tree (plain_signature of.now) (cut_tree cut.now) ++ codes "\n"))) }
    ensures scalars { OnOk result (has_scalars (cut_tree cut.now) ≡ true) }
{
    let tree = cut.to_tree(alloc)?;
    text.extend_from_slice(b"output ")?;
    text.extend_from_slice(&print_tree(alloc, &tree, of)?)?;
    text.push(b'\n')?;
    Ok(())
}

/// The lines of the outputs for the tree of this number.
fn outputs_text(
    alloc: Global,
    number: usize,
    cuts: &[Cut<'_, Label>],
    of: &Signature,
) -> Result<Vec<u8>, Memory>
    requires typed { All (HasType (plain_signature of.now)) (map cut_tree cuts.now) }
    ensures text { IfOk result (λ text. text.items ≡ outputs_lines (plain_signature of.now) number (map cut_tree cuts.now)) }
    ensures scalars { OnOk result (All (λ u. has_scalars u ≡ true) (map cut_tree cuts.now)) }
{
    let count = cuts.len();
    let mut text = format!(in alloc; "input {number} outputs {count}\n")?.into_bytes();
    'cuts: for cut in cuts {
        append_output(alloc, &mut text, cut, of)?;
    }
    Ok(text)
}

/// The lines of the outputs of the transformation of the name for the tree of this number.
fn listed(
    alloc: Global,
    session: &mut Session,
    name: &Text,
    number: usize,
    tree: &Tree<Label>,
) -> Result<Vec<u8>, Stopped>
    requires prepared { IsPrepared transformation session.old name.now }
    requires typed { HasType (input_type (items_in session.old) (named_x name.now)) (meant tree.now) }
    requires kept { is_kept (meant tree.now) ≡ true }
    ensures prepared { IsPrepared transformation session.new name.now }
    ensures program { IsSameProgram session.old session.new }
    ensures lines { IfOk result (λ text. AreLinesOf (items_in session.old) (named_x name.now) transformation number (meant tree.now) text.items) }
    ensures stopped { IfErr result (IsTreeStopped (items_in session.old) name.now (meant tree.now)) }
{
    let cuts = session.outputs(alloc, name.as_str(), tree)?;
    let of = type_of_outputs(session.checked(), name);
    Ok(outputs_text(alloc, number, &cuts, of)?)
}

/// Puts the outputs of the transformation of the name for a tree, as the tree of this number; or why there is no list of them.
pub fn tell_outputs<K: Sink>(
    alloc: Global,
    session: &mut Session,
    inquiry: &Inquiry,
    number: usize,
    given: &PlacedTree,
    sink: &mut K,
) -> Result<(), Status>
    requires prepared { IsPrepared transformation session.old inquiry.now.name.now }
    requires typed { IsOfType (input_type (items_in session.old) (named_x inquiry.now.name.now)) (plain_placed given.now) }
    ensures prepared { OnOk result (IsPrepared transformation session.new inquiry.now.name.now) }
    ensures program { IsSameProgram session.old session.new }
    ensures answered { OnOk result (IsAnswered (items_in session.old) transformation inquiry.now.name.now number (plain_placed given.now) (K.written sink.old) (K.written sink.new)) }
    ensures stopped { IfErr result (IsUnanswered (items_in session.old) transformation inquiry.now.name.now inquiry.now.trees.now number (plain_placed given.now) (K.written sink.old) (K.written sink.new)) }
    ensures faults { RoseExactlyWhere (result ≡ Err SinkFault) (K.faults sink.old) (K.faults sink.new) }
{
    match listed(alloc, session, inquiry.name, number, &given.tree) {
        Ok(lines) => put_lines(sink, &lines),
        Err(Stopped::By(cause)) => {
            let (checked, file) = (session.checked(), inquiry.trees);
            Err(refuse_item(alloc, sink, checked, file, given.place, &cause))
        }
        Err(Stopped::Memory) => Err(Status::Memory),
    }
}
