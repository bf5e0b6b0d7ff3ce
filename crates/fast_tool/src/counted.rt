//! The program that is made from a number: its items in order, whose verdicts are counted and whose lines aren't put.

ghost use Rattle.std.specs.Prelude.{◌≡◌, ◌≢◌, ◌≤◌, ◌<◌, ◌-◌, ◌^◌, List, [], ◌∷◌, IfOk, IfErr, OnOk, Err, length, string_bytes};
ghost use Rattle.model_tree.specs.Limits.{usual_classes};
ghost use Rattle.fast_fault.specs.Written.{RoseExactlyWhere};
ghost use Rattle.fast_fault.specs.declared.status.Status.TheVariants.{SinkFault, TextFault};
ghost use Rattle.fast_fault.specs.declared.status.Status.TheVariants as ends;
ghost use Rattle.fast_syntax.specs.Plain.{plain_program};
ghost use Rattle.model_grammar.specs.Syntax as plain;
ghost use Rattle.model_run.specs.Generator.{self_text};
ghost use Rattle.model_run.specs.Outcomes.{Outcome};
ghost use Rattle.model_run.specs.Report.{Reports, ProgramReport, SelfReport, StatusReport, self_name};
ghost use Rattle.fast_build.specs.Items.{items_of};
ghost use Rattle.fast_session.specs.Answers.{line_outcome};
ghost use Rattle.fast_session.specs.Items.{HaveScalars, IsTyped};
ghost use Rattle.fast_session.specs.Sessions.{items_in, IsAt, IsSameProgram};
ghost use Rattle.fast_tool.specs.Tallies.{verdict_in, tally_line, status_for, IsTally, IsCounted, IsHalted, IsTold};

use crate::generator::self_text;
use crate::lines::line_text;
use crate::reading::{read_checked, tell_unread};
use crate::refusals::{put_last, refuse_item};
use crate::words::USUAL_CLASSES;
use fast_fault::{Memory, Sink, Status};
use fast_session::{Halt, Line, Session, Step};
use program_check::Checked;
use std::alloc::Global;

/// The name by which refusals call the text.
const NAME: &str = "self";

/// How many assertions passed, and how many failed.
#[derive(Clone, Copy)]
struct Tally {
    passed: usize,
    failed: usize,
}

impl Tally {
    /// Counts the verdict of an item, if it has one.
    fn count(&mut self, verdict: Option<bool>)
        requires passed { self.old.passed < 2 ^ 64 - 1 }
        requires failed { self.old.failed < 2 ^ 64 - 1 }
        ensures { (outcomes : List Outcome) (o : Outcome) → IsTally self.old outcomes → verdict ≡ verdict_in o → IsTally self.new (o ∷ outcomes) }
    {
        match verdict {
            Some(true) => self.passed += 1,
            Some(false) => self.failed += 1,
            None => {}
        }
    }
}

/// The verdict of a line, if it has one.
fn verdict_in(line: &Line) -> Option<bool>
    ensures { (items : List plain.Item) → result ≡ verdict_in (line_outcome items line.now) }
{
    match line {
        Line::Tree { .. } | Line::Minimal { .. } => None,
        Line::Verdict { passes, .. } => Some(*passes),
    }
}

/// The verdict of a line that can be shown.
fn shown_verdict(alloc: Global, checked: &Checked, line: &Line) -> Result<Option<bool>, Status>
    requires typed { IsTyped (line_outcome (items_of checked.now) line.now) }
    ensures verdict { IfOk result (λ verdict. verdict ≡ verdict_in (line_outcome (items_of checked.now) line.now)) }
    ensures scalars { OnOk result (HaveScalars (line_outcome (items_of checked.now) line.now)) }
    ensures memory { IfErr result (λ status. status ≡ ends.Memory) }
{
    match line_text(alloc, checked, line) {
        Ok(_text) => Ok(verdict_in(line)),
        Err(Memory) => Err(Status::Memory),
    }
}

/// Does the next item, and tells its verdict, if it has one.
fn do_next<K: Sink>(
    alloc: Global,
    session: &mut Session,
    sink: &mut K,
) -> Result<Option<bool>, Status>
    requires at { (done : List Outcome) × IsAt session.old done × (length done < length (items_in session.old)) }
    ensures program { IsSameProgram session.old session.new }
    ensures done { IfOk result (λ verdict. (done : List Outcome) → IsAt session.old done → IsCounted session.old session.new done verdict) }
    ensures untouched { OnOk result (sink.new ≡ sink.old) }
    ensures halted { IfErr result (λ status. (done : List Outcome) → IsAt session.old done → IsHalted session.old done (K.written sink.old) (K.written sink.new) status) }
    ensures faults { RoseExactlyWhere (result ≡ Err SinkFault) (K.faults sink.old) (K.faults sink.new) }
{
    match session.step(alloc) {
        Ok(Step::Line(line)) => shown_verdict(alloc, session.checked(), &line),
        Ok(Step::Silent) => Ok(None),
        Ok(Step::Done) | Err(Halt::Ended(_)) => unreachable!(),
        Err(Halt::Refused(cause, place)) => {
            let checked = session.checked();
            Err(refuse_item(alloc, sink, checked, NAME, place, &cause))
        }
        Err(Halt::Memory) => Err(Status::Memory),
    }
}

/// The line of the counts.
fn tally_text(alloc: Global, number: u32, count: usize, tally: Tally) -> Result<String, Memory>
    ensures { IfOk result (λ text. string_bytes text ≡ tally_line number count tally) }
{
    let Tally { passed, failed } = tally;
    Ok(format!(in alloc; "self {number}: items {count}, passed {passed}, failed {failed}\n")?)
}

/// The status of a run in which so many assertions failed.
fn status_for(failed: usize) -> Status
    ensures { result ≡ status_for failed }
{
    match failed {
        0 => Status::Hold,
        _ => Status::Fails,
    }
}

/// Puts the line of the counts, where all items are done.
fn tell_tally<K: Sink>(
    alloc: Global,
    number: u32,
    count: usize,
    tally: Tally,
    sink: &mut K,
) -> Status
    ensures told { IsTold number count tally (K.written sink.old) (K.written sink.new) result }
    ensures faults { RoseExactlyWhere (result ≡ SinkFault) (K.faults sink.old) (K.faults sink.new) }
    ensures sure_text { result ≢ TextFault }
{
    match tally_text(alloc, number, count, tally) {
        Ok(line) => put_last(sink, line.as_bytes(), status_for(tally.failed)),
        Err(Memory) => Status::Memory,
    }
}

/// Does the items in order, and puts the line of their counts, or that of the refusal at which the run stops.
fn count_items<K: Sink>(alloc: Global, number: u32, session: &mut Session, sink: &mut K) -> Status
    requires at { IsAt session.old [] }
    requires limit { session.old.limit ≡ usual_classes }
    ensures report { Reports (StatusReport (SelfReport number (items_in session.old))) result (K.written sink.old) (K.written sink.new) }
    ensures faults { RoseExactlyWhere (result ≡ SinkFault) (K.faults sink.old) (K.faults sink.new) }
    ensures sure_text { result ≢ TextFault }
{
    let count = session.checked().program().items.len();
    let mut tally = Tally {
        passed: 0,
        failed: 0,
    };
    'items: for _ in 0..count {
        match do_next(alloc, session, sink) {
            Err(status) => return status,
            Ok(verdict) => tally.count(verdict),
        }
    }
    tell_tally(alloc, number, count, tally, sink)
}

/// Does the items of the program that is made from the number, and puts one line: that of the counts, or that of a refusal.
pub fn run_self<K: Sink>(alloc: Global, number: u32, sink: &mut K) -> Status
    requires { number ≤ 200 }
    ensures report { Reports (StatusReport (ProgramReport self_name (self_text number) (SelfReport number))) result (K.written sink.old) (K.written sink.new) }
    ensures faults { RoseExactlyWhere (result ≡ SinkFault) (K.faults sink.old) (K.faults sink.new) }
    ensures sure_text { result ≢ TextFault }
{
    let text = match self_text(alloc, number) {
        Ok(text) => text,
        Err(Memory) => return Status::Memory,
    };
    let checked = match read_checked(alloc, &text) {
        Ok(checked) => checked,
        Err(stop) => return tell_unread(alloc, sink, NAME, stop),
    };
    match Session::new(alloc, checked, USUAL_CLASSES) {
        Ok(mut session) => count_items(alloc, number, &mut session, sink),
        Err(Memory) => Status::Memory,
    }
}
