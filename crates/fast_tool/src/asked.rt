//! The commands that answer for trees: whether they are in a language, and what a transformation gives for them.

ghost use Rattle.std.specs.Prelude.{◌≡◌, ◌≢◌, map};
ghost use Rattle.fast_fault.specs.Written.{RoseExactlyWhere};
ghost use Rattle.fast_fault.specs.declared.status.Status.TheVariants.{SinkFault, TextFault};
ghost use Rattle.fast_syntax.specs.Plain.{plain_program};
ghost use Rattle.fast_tool.specs.Commands.{kind_asked};
ghost use Rattle.fast_tool.specs.Taken.{HeldReport};
ghost use Rattle.model_meaning.specs.Meaning.{input_type};
ghost use Rattle.model_run.specs.Report.{named_x, trees_script, NameReport, StatusReport, Reports};
ghost use Rattle.model_run.specs.Scripts.{Writes};
ghost use Rattle.model_run.specs.Texts.{IsNameOf};
ghost use Rattle.tree_files.specs.Placed.{plain_placed, AreOfType};

use crate::answers::{Inquiry, answer_all};
use crate::named::{name_of, type_of_trees};
use crate::reading::{take_checked, take_trees};
use crate::refusals::refuse_name;
use crate::words::{Asked, USUAL_CLASSES};
use fast_fault::{Memory, Sink, Status, Text, TextSource};
use fast_session::Session;
use program_check::Checked;
use std::alloc::Global;
use tree_files::PlacedTree;

/// Answers for each of the trees.
fn answer_trees<K: Sink>(
    alloc: Global,
    asked: Asked,
    checked: Checked,
    name: &Text,
    placed: &[PlacedTree],
    sink: &mut K,
) -> Status
    requires named { IsNameOf (plain_program checked.program) (kind_asked asked.question) name.now }
    requires typed { AreOfType (input_type (plain_program checked.program) (named_x name.now)) (map plain_placed placed.now) }
    ensures report { Reports (StatusReport (Writes (trees_script (plain_program checked.program) asked.entry.file.now name.now asked.entry.trees.now (kind_asked asked.entry.question) (map plain_placed placed.now)))) result (K.written sink.old) (K.written sink.new) }
    ensures faults { RoseExactlyWhere (result ≡ SinkFault) (K.faults sink.old) (K.faults sink.new) }
    ensures sure_text { result ≢ TextFault }
{
    match Session::new(alloc, checked, USUAL_CLASSES) {
        Ok(mut session) => {
            let inquiry = Inquiry {
                question: asked.question,
                name,
                trees: asked.trees,
            };
            answer_all(alloc, asked.file, &mut session, &inquiry, placed, sink)
        }
        Err(Memory) => Status::Memory,
    }
}

/// Looks the name up, takes the trees and answers for each.
fn answer_name<T: TextSource, K: Sink>(
    alloc: Global,
    asked: Asked,
    checked: Checked,
    texts: &mut T,
    sink: &mut K,
) -> Status
    ensures report { Reports (StatusReport (NameReport asked.entry.file.now asked.entry.name.now asked.entry.trees.now (kind_asked asked.entry.question) (T.held texts.old asked.entry.trees.now) (plain_program checked.program))) result (K.written sink.old) (K.written sink.new) }
    ensures faults { RoseExactlyWhere (result ≡ SinkFault) (K.faults sink.old) (K.faults sink.new) }
    ensures take_faults { RoseExactlyWhere (result ≡ TextFault) (T.faults texts.old) (T.faults texts.new) }
{
    let name = match name_of(alloc, asked.name) {
        Ok(name) => name,
        Err(Memory) => return Status::Memory,
    };
    let signature = match type_of_trees(&checked, &name, asked.question) {
        Ok(signature) => signature,
        Err(code) => return refuse_name(alloc, sink, code),
    };
    match take_trees(alloc, asked.trees, signature, texts, sink) {
        Ok(placed) => answer_trees(alloc, asked, checked, &name, &placed, sink),
        Err(status) => status,
    }
}

/// Takes the text of the file, and answers for each of the trees.
pub fn answer_file<T: TextSource, K: Sink>(
    alloc: Global,
    asked: Asked,
    texts: &mut T,
    sink: &mut K,
) -> Status
    ensures report { Reports (StatusReport (HeldReport asked.entry.file.now (T.held texts.old asked.entry.file.now) (NameReport asked.entry.file.now asked.entry.name.now asked.entry.trees.now (kind_asked asked.entry.question) (T.held texts.old asked.entry.trees.now)))) result (K.written sink.old) (K.written sink.new) }
    ensures faults { RoseExactlyWhere (result ≡ SinkFault) (K.faults sink.old) (K.faults sink.new) }
    ensures take_faults { RoseExactlyWhere (result ≡ TextFault) (T.faults texts.old) (T.faults texts.new) }
{
    match take_checked(alloc, asked.file, texts, sink) {
        Ok(checked) => answer_name(alloc, asked, checked, texts, sink),
        Err(status) => status,
    }
}
