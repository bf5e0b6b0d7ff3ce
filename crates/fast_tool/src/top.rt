//! The top call: the words, the text, and what the command does with the program.

ghost use Rattle.std.specs.Prelude.{◌≡◌, ◌≢◌, ◌≤◌, ℕ, List, Option, IfOk, IfSome, map, string_bytes, true};
ghost use Rattle.model_tree.specs.Limits.{most_classes};
ghost use Rattle.fast_fault.specs.Written.{RoseExactlyWhere};
ghost use Rattle.fast_fault.specs.declared.status.Status.TheVariants.{SinkFault, TextFault};
ghost use Rattle.fast_syntax.specs.Plain.{plain_program};
ghost use Rattle.model_run.specs.Words.{CommandForm, check_form, run_form};
ghost use Rattle.model_run.specs.Lines.{checked_line};
ghost use Rattle.model_run.specs.Report.{CheckReport, StatusReport, CommandReport, IsReport, Reports, IsDoable, IsDoneOrStopped};

use crate::asked::answer_file;
use crate::counted::run_self;
use crate::items::run_program;
use crate::reading::take_checked;
use crate::refusals::put_last;
use crate::words::{Command, USUAL_CLASSES, read_words};
use fast_fault::{Memory, Sink, Status, TextSource};
use program_check::Checked;
use std::alloc::Global;

const USAGE: &str =
    "usage: fast check FILE | run FILE [--classes N] | apply FILE NAME TREES | accepts FILE NAME TREES | self N\n";

/// The line of a program that passes.
fn checked_text(alloc: Global, checked: &Checked) -> Result<String, Memory>
    ensures { IfOk result (λ text. string_bytes text ≡ checked_line (plain_program checked.now.program)) }
{
    let count = checked.program().items.len();
    Ok(format!(in alloc; "checked {count} items\n")?)
}

/// Tells that the program passes.
fn tell_checked<K: Sink>(alloc: Global, checked: &Checked, sink: &mut K) -> Status
    ensures report { Reports (StatusReport (CheckReport (plain_program checked.now.program))) result (K.written sink.old) (K.written sink.new) }
    ensures faults { RoseExactlyWhere (result ≡ SinkFault) (K.faults sink.old) (K.faults sink.new) }
    ensures sure_text { result ≢ TextFault }
{
    match checked_text(alloc, checked) {
        Ok(line) => put_last(sink, line.as_bytes(), Status::Hold),
        Err(Memory) => Status::Memory,
    }
}

/// Takes the text of the file, and checks it.
fn check_file<T: TextSource, K: Sink>(
    alloc: Global,
    file: &str,
    texts: &mut T,
    sink: &mut K,
) -> Status
    ensures report { Reports (StatusReport (CommandReport (check_form file.now) (T.held texts.old))) result (K.written sink.old) (K.written sink.new) }
    ensures faults { RoseExactlyWhere (result ≡ SinkFault) (K.faults sink.old) (K.faults sink.new) }
    ensures take_faults { RoseExactlyWhere (result ≡ TextFault) (T.faults texts.old) (T.faults texts.new) }
{
    match take_checked(alloc, file, texts, sink) {
        Ok(checked) => tell_checked(alloc, &checked, sink),
        Err(status) => status,
    }
}

/// Takes the text of the file, and does its items.
fn run_file<T: TextSource, K: Sink>(
    alloc: Global,
    file: &str,
    limit: Option<u32>,
    texts: &mut T,
    sink: &mut K,
) -> Status
    requires few { IfSome limit (λ n. n ≤ most_classes) }
    ensures report { Reports (StatusReport (CommandReport (run_form file.now limit) (T.held texts.old))) result (K.written sink.old) (K.written sink.new) }
    ensures faults { RoseExactlyWhere (result ≡ SinkFault) (K.faults sink.old) (K.faults sink.new) }
    ensures take_faults { RoseExactlyWhere (result ≡ TextFault) (T.faults texts.old) (T.faults texts.new) }
{
    match take_checked(alloc, file, texts, sink) {
        Ok(checked) => run_program(alloc, file, checked, limit.unwrap_or(USUAL_CLASSES), sink),
        Err(status) => status,
    }
}

/// Obeys the words.
#[tactic(auto, using(crate::proofs::Texts::on_words))]
fn obey<T: TextSource, K: Sink>(
    alloc: Global,
    words: &[String],
    texts: &mut T,
    sink: &mut K,
) -> Status
    ensures report { Reports (IsReport (map string_bytes words.now) (T.held texts.old)) result (K.written sink.old) (K.written sink.new) }
    ensures sink_fault { RoseExactlyWhere (result ≡ SinkFault) (K.faults sink.old) (K.faults sink.new) }
    ensures text_fault { RoseExactlyWhere (result ≡ TextFault) (T.faults texts.old) (T.faults texts.new) }
{
    match read_words(words) {
        None => put_last(sink, USAGE.as_bytes(), Status::Words),
        Some(Command::Check { file }) => check_file(alloc, file, texts, sink),
        Some(Command::Run { file, limit }) => run_file(alloc, file, limit, texts, sink),
        Some(Command::Answer(asked)) => answer_file(alloc, asked, texts, sink),
        Some(Command::Generated { number }) => run_self(alloc, number, sink),
    }
}

/// Obeys a command line: does what its words ask, reads texts by their names, and puts the report line by line.
pub fn run<T: TextSource, K: Sink>(
    alloc: Global,
    words: &[String],
    texts: &mut T,
    sink: &mut K,
) -> Status
    // What this call appended is, with the status, a legal report of these words over the texts that are held.
    ensures report { Reports (IsReport (map string_bytes words.now) (T.held texts.old)) result (K.written sink.old) (K.written sink.new) }
    // A fault is answered exactly where the count of faults of that object rose in this call.
    ensures sink_fault { RoseExactlyWhere (result ≡ SinkFault) (K.faults sink.old) (K.faults sink.new) }
    ensures text_fault { RoseExactlyWhere (result ≡ TextFault) (T.faults texts.old) (T.faults texts.new) }
    // Where nothing in the words, the text or its items stands in the way, nothing but a fault or want of memory stops the
    // report.
    ensures complete { (form : CommandForm) → IsDoable (map string_bytes words.now) (T.held texts.old) form → IsDoneOrStopped result }
{
    obey(alloc, words, texts, sink)
}
