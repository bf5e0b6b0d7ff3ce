//! The items of a program in order, and one line for each put.

ghost use Rattle.std.specs.Prelude.{◌≡◌, ◌≢◌, ◌≤◌, ◌<◌, List, [], IfOk, IfErr, OnOk, Err, length};
ghost use Rattle.model_tree.specs.Limits.{most_classes};
ghost use Rattle.fast_fault.specs.Written.{Appends, RoseExactlyWhere};
ghost use Rattle.fast_fault.specs.declared.status.Status.TheVariants.{SinkFault, TextFault};
ghost use Rattle.fast_syntax.specs.Plain.{plain_program};
ghost use Rattle.model_grammar.specs.Syntax as plain;
ghost use Rattle.model_run.specs.Outcomes.{Outcome, says_fail, line_of};
ghost use Rattle.model_run.specs.Report.{Reports, RunReport, StatusReport};
ghost use Rattle.fast_build.specs.Items.{items_of};
ghost use Rattle.fast_session.specs.Answers.{line_outcome};
ghost use Rattle.fast_session.specs.Items.{HaveScalars, IsTyped};
ghost use Rattle.fast_session.specs.Sessions.{items_in, IsAt, IsSession, IsSameProgram};
ghost use Rattle.fast_tool.specs.Runs.{ItemsReport, IsDone, IsCutShort, IsStopped};

use crate::lines::line_text;
use crate::refusals::{put_line, refuse_item};
use fast_fault::{Memory, Sink, Status};
use fast_session::{Halt, Line, Session, Step};
use program_check::Checked;
use std::alloc::Global;

/// Whether a line says that an assertion fails.
fn says_fail(line: &Line) -> bool
    ensures { (items : List plain.Item) → result ≡ says_fail (line_outcome items line.now) }
{
    match line {
        Line::Tree { .. } | Line::Minimal { .. } => false,
        Line::Verdict { passes, .. } => !*passes,
    }
}

/// Puts the line of an item, and tells whether it says that an assertion fails.
fn put_outcome<K: Sink>(
    alloc: Global,
    checked: &Checked,
    line: &Line,
    sink: &mut K,
) -> Result<bool, Status>
    requires typed { IsTyped (line_outcome (items_of checked.now) line.now) }
    ensures put { IfOk result (λ fails. Appends (K.written sink.old) (K.written sink.new) (line_of (line_outcome (items_of checked.now) line.now)) × (fails ≡ says_fail (line_outcome (items_of checked.now) line.now))) }
    ensures scalars { OnOk result (HaveScalars (line_outcome (items_of checked.now) line.now)) }
    ensures cut { IfErr result (IsCutShort (line_outcome (items_of checked.now) line.now) (K.written sink.old) (K.written sink.new)) }
    ensures faults { RoseExactlyWhere (result ≡ Err SinkFault) (K.faults sink.old) (K.faults sink.new) }
{
    match line_text(alloc, checked, line) {
        Ok(text) => match put_line(sink, &text) {
            Ok(()) => Ok(says_fail(line)),
            Err(fault) => Err(fault),
        },
        Err(Memory) => Err(Status::Memory),
    }
}

/// Does the next item, and tells whether it has a verdict that says that the assertion fails.
fn do_next<K: Sink>(
    alloc: Global,
    file: &str,
    session: &mut Session,
    sink: &mut K,
) -> Result<bool, Status>
    requires at { (done : List Outcome) × IsAt session.old done × (length done < length (items_in session.old)) }
    ensures program { IsSameProgram session.old session.new }
    ensures done { IfOk result (λ fails. (done : List Outcome) → IsAt session.old done → IsDone session.old session.new done (K.written sink.old) (K.written sink.new) fails) }
    ensures stopped { IfErr result (λ status. (done : List Outcome) → IsAt session.old done → IsStopped file.now session.old done (K.written sink.old) (K.written sink.new) status) }
    ensures faults { RoseExactlyWhere (result ≡ Err SinkFault) (K.faults sink.old) (K.faults sink.new) }
{
    match session.step(alloc) {
        Ok(Step::Line(line)) => put_outcome(alloc, session.checked(), &line, sink),
        Ok(Step::Silent) => Ok(false),
        Ok(Step::Done) | Err(Halt::Ended(_)) => unreachable!(),
        Err(Halt::Refused(cause, place)) => {
            let checked = session.checked();
            Err(refuse_item(alloc, sink, checked, file, place, &cause))
        }
        Err(Halt::Memory) => Err(Status::Memory),
    }
}

/// Does the items in order.
#[tactic(auto, using(crate::proofs::Runs::on_runs))]
fn run_items<K: Sink>(alloc: Global, file: &str, session: &mut Session, sink: &mut K) -> Status
    requires { IsAt session.old [] }
    ensures report { Reports (ItemsReport file.now session.old) result (K.written sink.old) (K.written sink.new) }
    ensures faults { RoseExactlyWhere (result ≡ SinkFault) (K.faults sink.old) (K.faults sink.new) }
    ensures sure_text { result ≢ TextFault }
{
    let count = session.checked().program().items.len();
    let mut failed = false;
    'items: for _ in 0..count {
        match do_next(alloc, file, session, sink) {
            Err(fault) => return fault,
            Ok(fails) => failed |= fails,
        }
    }
    if failed { Status::Fails } else { Status::Hold }
}

/// Does the items. `limit` is how many trees may be told apart.
pub fn run_program<K: Sink>(
    alloc: Global,
    file: &str,
    checked: Checked,
    limit: u32,
    sink: &mut K,
) -> Status
    requires shallow { limit ≤ most_classes }
    ensures report { Reports (StatusReport (RunReport file.now limit (plain_program checked.program))) result (K.written sink.old) (K.written sink.new) }
    ensures faults { RoseExactlyWhere (result ≡ SinkFault) (K.faults sink.old) (K.faults sink.new) }
    ensures sure_text { result ≢ TextFault }
{
    match Session::new(alloc, checked, limit) {
        Ok(mut session) => run_items(alloc, file, &mut session, sink),
        Err(Memory) => Status::Memory,
    }
}
