//! Trees that are given to a language or a transformation, one after another, and the lines of each put.

ghost use Rattle.std.specs.Prelude.{◌≡◌, ◌≢◌, ◌↔◌, ℕ, List, [], IfOk, IfErr, OnOk, Err, true, string_bytes, map};
ghost use Rattle.fast_fault.specs.Written.{Appends, RoseExactlyWhere};
ghost use Rattle.fast_fault.specs.declared.status.Status.TheVariants.{SinkFault, TextFault};
ghost use Rattle.model_tree.specs.Limits.{usual_classes};
ghost use Rattle.model_tree.specs.Kept.{is_kept};
ghost use Rattle.model_tree.specs.Signature.{HasType};
ghost use Rattle.model_names.specs.Kinds.{Kind, language};
ghost use Rattle.model_meaning.specs.Meaning.{IsInLanguage, input_type};
ghost use Rattle.model_run.specs.Report.{named_x, trees_script, StatusReport, Reports};
ghost use Rattle.model_run.specs.Scripts.{Writes};
ghost use Rattle.model_run.specs.Texts.{IsNameOf};
ghost use Rattle.fast_session.specs.Needed.{IsHaltNeeded};
ghost use Rattle.fast_session.specs.Sessions.{items_in, IsAt, IsSameProgram};
ghost use Rattle.tree_files.specs.Placed.{meant, plain_placed, IsOfType, AreOfType};
ghost use Rattle.fast_tool.specs.Answers.{answer_line, IsCutLine, IsPrepared, IsUnprepared, IsAnswered, IsUnanswered};
ghost use Rattle.fast_tool.specs.Commands.{kind_asked};

use crate::applied::tell_outputs;
use crate::refusals::{put_line, refuse_item};
use crate::words::Question;
use fast_fault::{Memory, Sink, Status, Text};
use fast_session::{Halt, Session};
use fast_tree::{Label, Tree};
use std::alloc::Global;
use tree_files::PlacedTree;

/// What is asked of trees, by which name, and the file of the trees.
#[derive(Clone, Copy)]
pub struct Inquiry<'a> {
    pub question: Question,
    pub name: &'a Text,
    pub trees: &'a str,
}

/// Builds what the name needs.
fn prepared(alloc: Global, session: &mut Session, name: &Text) -> Result<(), Halt>
    requires at { IsAt session.old [] }
    ensures prepared { (kind : Kind) → IsNameOf (items_in session.old) kind name.now → OnOk result (IsPrepared kind session.new name.now) }
    ensures program { IsSameProgram session.old session.new }
    ensures halt { IfErr result (IsHaltNeeded (items_in session.old) session.old.limit name.now) }
{
    session.prepare(alloc, name.as_str())
}

/// Whether a tree is in the language of the name.
fn is_inside(
    alloc: Global,
    session: &mut Session,
    name: &Text,
    tree: &Tree<Label>,
) -> Result<bool, Memory>
    requires prepared { IsPrepared language session.old name.now }
    requires typed { HasType (input_type (items_in session.old) (named_x name.now)) (meant tree.now) }
    requires kept { is_kept (meant tree.now) ≡ true }
    ensures prepared { OnOk result (IsPrepared language session.new name.now) }
    ensures program { IsSameProgram session.old session.new }
    ensures inside { IfOk result (λ inside. (inside ≡ true) ↔ IsInLanguage (items_in session.old) (named_x name.now) (meant tree.now)) }
{
    // a session that is prepared has no other reason
    match session.member(alloc, name.as_str(), tree) {
        Ok(inside) => Ok(inside),
        Err(_) => Err(Memory),
    }
}

/// The line of the tree of this number, counted from 1.
fn answer_text(alloc: Global, number: usize, inside: bool) -> Result<String, Memory>
    ensures { IfOk result (λ text. string_bytes text ≡ answer_line number inside) }
{
    if inside {
        Ok(format!(in alloc; "input {number} yes\n")?)
    } else {
        Ok(format!(in alloc; "input {number} no\n")?)
    }
}

/// Puts the line of the tree of this number.
fn put_answer<K: Sink>(
    alloc: Global,
    number: usize,
    inside: bool,
    sink: &mut K,
) -> Result<(), Status>
    ensures ok { OnOk result (Appends (K.written sink.old) (K.written sink.new) (answer_line number inside)) }
    ensures err { IfErr result (IsCutLine (answer_line number inside) (K.written sink.old) (K.written sink.new)) }
    ensures faults { RoseExactlyWhere (result ≡ Err SinkFault) (K.faults sink.old) (K.faults sink.new) }
{
    match answer_text(alloc, number, inside) {
        Ok(line) => put_line(sink, line.as_bytes()),
        Err(Memory) => Err(Status::Memory),
    }
}

/// Builds what the name needs, or puts why an item that it needs can't be built.
fn prepare<K: Sink>(
    alloc: Global,
    file: &str,
    session: &mut Session,
    name: &Text,
    sink: &mut K,
) -> Result<(), Status>
    requires at { IsAt session.old [] }
    ensures prepared { (kind : Kind) → IsNameOf (items_in session.old) kind name.now → OnOk result (IsPrepared kind session.new name.now) }
    ensures program { IsSameProgram session.old session.new }
    ensures untouched { OnOk result (sink.new ≡ sink.old) }
    ensures stopped { IfErr result (IsUnprepared (items_in session.old) session.old.limit file.now name.now (K.written sink.old) (K.written sink.new)) }
    ensures faults { RoseExactlyWhere (result ≡ Err SinkFault) (K.faults sink.old) (K.faults sink.new) }
    ensures sure_text { result ≢ Err TextFault }
{
    match prepared(alloc, session, name) {
        Ok(()) => Ok(()),
        Err(Halt::Refused(cause, place)) => {
            let checked = session.checked();
            Err(refuse_item(alloc, sink, checked, file, place, &cause))
        }
        Err(Halt::Ended(_)) => unreachable!(),
        Err(Halt::Memory) => Err(Status::Memory),
    }
}

/// Puts whether a tree is in the language of the name, as the tree of this number.
fn tell_inside<K: Sink>(
    alloc: Global,
    session: &mut Session,
    name: &Text,
    number: usize,
    given: &PlacedTree,
    sink: &mut K,
) -> Result<(), Status>
    requires prepared { IsPrepared language session.old name.now }
    requires typed { IsOfType (input_type (items_in session.old) (named_x name.now)) (plain_placed given.now) }
    ensures prepared { OnOk result (IsPrepared language session.new name.now) }
    ensures program { IsSameProgram session.old session.new }
    ensures answered { OnOk result (IsAnswered (items_in session.old) language name.now number (plain_placed given.now) (K.written sink.old) (K.written sink.new)) }
    ensures stopped { (trees : List ℕ) → IfErr result (IsUnanswered (items_in session.old) language name.now trees number (plain_placed given.now) (K.written sink.old) (K.written sink.new)) }
    ensures faults { RoseExactlyWhere (result ≡ Err SinkFault) (K.faults sink.old) (K.faults sink.new) }
{
    match is_inside(alloc, session, name, &given.tree) {
        Ok(inside) => put_answer(alloc, number, inside, sink),
        Err(Memory) => Err(Status::Memory),
    }
}

/// Puts what is asked of a tree, as the tree of this number.
fn answer<K: Sink>(
    alloc: Global,
    session: &mut Session,
    inquiry: &Inquiry,
    number: usize,
    given: &PlacedTree,
    sink: &mut K,
) -> Result<(), Status>
    requires prepared { IsPrepared (kind_asked inquiry.now.question) session.old inquiry.now.name.now }
    requires typed { IsOfType (input_type (items_in session.old) (named_x inquiry.now.name.now)) (plain_placed given.now) }
    ensures prepared { OnOk result (IsPrepared (kind_asked inquiry.now.question) session.new inquiry.now.name.now) }
    ensures program { IsSameProgram session.old session.new }
    ensures answered { OnOk result (IsAnswered (items_in session.old) (kind_asked inquiry.now.question) inquiry.now.name.now number (plain_placed given.now) (K.written sink.old) (K.written sink.new)) }
    ensures stopped { IfErr result (IsUnanswered (items_in session.old) (kind_asked inquiry.now.question) inquiry.now.name.now inquiry.now.trees.now number (plain_placed given.now) (K.written sink.old) (K.written sink.new)) }
    ensures faults { RoseExactlyWhere (result ≡ Err SinkFault) (K.faults sink.old) (K.faults sink.new) }
{
    match inquiry.question {
        Question::Inside => tell_inside(alloc, session, inquiry.name, number, given, sink),
        Question::Outputs => tell_outputs(alloc, session, inquiry, number, given, sink),
    }
}

/// Answers for each of the trees.
fn answer_each<K: Sink>(
    alloc: Global,
    session: &mut Session,
    inquiry: &Inquiry,
    placed: &[PlacedTree],
    sink: &mut K,
) -> Status
    requires prepared { IsPrepared (kind_asked inquiry.now.question) session.old inquiry.now.name.now }
    requires typed { AreOfType (input_type (items_in session.old) (named_x inquiry.now.name.now)) (map plain_placed placed.now) }
    ensures report { (file : List ℕ) → Reports (StatusReport (Writes (trees_script (items_in session.old) file inquiry.now.name.now inquiry.now.trees.now (kind_asked inquiry.now.question) (map plain_placed placed.now)))) result (K.written sink.old) (K.written sink.new) }
    ensures faults { RoseExactlyWhere (result ≡ SinkFault) (K.faults sink.old) (K.faults sink.new) }
    ensures sure_text { result ≢ TextFault }
{
    'trees: for (before, given) in placed.iter().enumerate() {
        match answer(alloc, session, inquiry, before + 1, given, sink) {
            Ok(()) => {}
            Err(status) => return status,
        }
    }
    Status::Hold
}

/// Builds what the name needs, and then answers for each of the trees.
pub fn answer_all<K: Sink>(
    alloc: Global,
    file: &str,
    session: &mut Session,
    inquiry: &Inquiry,
    placed: &[PlacedTree],
    sink: &mut K,
) -> Status
    requires at { IsAt session.old [] }
    requires limit { session.old.limit ≡ usual_classes }
    requires named { IsNameOf (items_in session.old) (kind_asked inquiry.now.question) inquiry.now.name.now }
    requires typed { AreOfType (input_type (items_in session.old) (named_x inquiry.now.name.now)) (map plain_placed placed.now) }
    ensures report { Reports (StatusReport (Writes (trees_script (items_in session.old) file.now inquiry.now.name.now inquiry.now.trees.now (kind_asked inquiry.now.question) (map plain_placed placed.now)))) result (K.written sink.old) (K.written sink.new) }
    ensures faults { RoseExactlyWhere (result ≡ SinkFault) (K.faults sink.old) (K.faults sink.new) }
    ensures sure_text { result ≢ TextFault }
{
    match prepare(alloc, file, session, inquiry.name, sink) {
        Ok(()) => answer_each(alloc, session, inquiry, placed, sink),
        Err(status) => status,
    }
}
