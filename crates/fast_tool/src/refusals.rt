//! Lines that are put, and the lines of refusals.

ghost use Rattle.std.specs.Prelude.{◌≡◌, ◌≢◌, ◌<◌, ◌≤◌, length, IfOk, IfErr, OnOk, OnErr, Err, true, string_bytes, codes, ◌++◌, suc};
ghost use Rattle.fast_fault.specs.Written.{Appends, AppendsPrefix, RoseExactlyWhere};
ghost use Rattle.fast_fault.specs.declared.status.Status.TheVariants.{TextRefused, RunRefused, SinkFault, TextFault};
ghost use Rattle.model_tree.specs.Scalars.{has_scalars};
ghost use Rattle.model_tree.specs.Signature.{HasType};
ghost use Rattle.model_run.specs.Lines.{refusal_line, name_line, stop_shows, stop_line};
ghost use Rattle.model_run.specs.Outcomes.{shown_tree};
ghost use Rattle.fast_build.specs.Items.{items_of};
ghost use Rattle.tree_values.specs.Stops.{type_of_tree};
ghost use Rattle.tree_values.specs.Trees.{meant};
ghost use Rattle.fast_session.specs.declared.answers.Cause.TheVariants.{NotComposable, NoOutput, SeveralOutputs};
ghost use Rattle.model_run.specs.Loads.{load_shown};
ghost use Rattle.sttr_apply.specs.Plain.{load_of};
ghost use Rattle.fast_session.specs.Answers.{plain_cause, IsCauseTyped, CanBeShown};
ghost use Rattle.fast_tool.specs.Runs.{IsFault, EndsWith, IsRefusal};
ghost use Rattle.fast_tool.specs.Runs.{rules_shown};
ghost use Rattle.fast_tool.specs.Taken.{refusal_head};

use crate::lines::append_tree;
use fast_compose::Uncomposable;
use fast_fault::{Code, Memory, Pos, PutFault, Refusal, Sink, Status};
use fast_session::Cause;
use program_check::Checked;
use std::alloc::Global;
use sttr_apply::Load;
use tree_values::{TwoOutputs, TypedTree};

/// Puts a line.
pub fn put_line<K: Sink>(sink: &mut K, line: &[u8]) -> Result<(), Status>
    ensures ok { OnOk result (Appends (K.written sink.old) (K.written sink.new) line.now) }
    ensures err { OnErr result (AppendsPrefix (K.written sink.old) (K.written sink.new) line.now) }
    ensures fault { IfErr result (λ status. IsFault status) }
    ensures faults { RoseExactlyWhere (result ≡ Err SinkFault) (K.faults sink.old) (K.faults sink.new) }
{
    match sink.put(line) {
        Ok(()) => Ok(()),
        Err(PutFault::Failed) => Err(Status::SinkFault),
        Err(PutFault::Memory) => Err(Status::Memory),
    }
}

/// The place behind the first line's end from there on, or the end of the text.
fn line_end(text: &[u8], from: usize) -> usize
    requires some { from < length text.now }
    ensures low { from < result }
    ensures high { result ≤ length text.now }
{
    let mut last = from;
    'bytes: while last + 1 < text.len() && text[last] != b'\n' {
        last += 1;
    }
    last + 1
}

/// Puts the lines of the text, one after the other.
pub fn put_lines<K: Sink>(sink: &mut K, text: &[u8]) -> Result<(), Status>
    ensures ok { OnOk result (Appends (K.written sink.old) (K.written sink.new) text.now) }
    ensures err { OnErr result (AppendsPrefix (K.written sink.old) (K.written sink.new) text.now) }
    ensures fault { IfErr result (λ status. IsFault status) }
    ensures faults { RoseExactlyWhere (result ≡ Err SinkFault) (K.faults sink.old) (K.faults sink.new) }
{
    let mut from = 0;
    'lines: while from < text.len() {
        let end = line_end(text, from);
        match put_line(sink, &text[from..end]) {
            Ok(()) => from = end,
            Err(status) => return Err(status),
        }
    }
    Ok(())
}

/// Puts a line and ends with the status.
pub fn put_last<K: Sink>(sink: &mut K, line: &[u8], status: Status) -> Status
    ensures ends { EndsWith (K.written sink.old) (K.written sink.new) line.now status result }
    ensures faults { status ≢ SinkFault → RoseExactlyWhere (result ≡ SinkFault) (K.faults sink.old) (K.faults sink.new) }
{
    match put_line(sink, line) {
        Ok(()) => status,
        Err(fault) => fault,
    }
}

/// The line of a refusal, up to the place.
fn refusal_head(alloc: Global, file: &str, refusal: Refusal) -> Result<String, Memory>
    ensures { IfOk result (λ text. string_bytes text ≡ refusal_head refusal.code file.now refusal.place) }
{
    let number = refusal.code.number();
    let name = refusal.code.name();
    let line = refusal.place.line;
    let column = refusal.place.column;
    Ok(format!(in alloc; "refused {number} {name} at {file}:{line}:{column}")?)
}

/// The line of a refusal that shows nothing behind the place.
fn refusal_text(alloc: Global, file: &str, refusal: Refusal) -> Result<String, Memory>
    ensures { IfOk result (λ text. string_bytes text ≡ refusal_line refusal.code file.now refusal.place) }
{
    let mut text = refusal_head(alloc, file, refusal)?;
    text.push('\n')?;
    Ok(text)
}

/// Puts the line of a refusal of the text.
pub fn refuse<K: Sink>(alloc: Global, sink: &mut K, file: &str, refusal: Refusal) -> Status
    ensures ends { EndsWith (K.written sink.old) (K.written sink.new) (refusal_line refusal.code file.now refusal.place) TextRefused result }
    ensures faults { RoseExactlyWhere (result ≡ SinkFault) (K.faults sink.old) (K.faults sink.new) }
{
    match refusal_text(alloc, file, refusal) {
        Ok(line) => put_last(sink, line.as_bytes(), Status::TextRefused),
        Err(Memory) => Status::Memory,
    }
}

/// The line of a refusal of the name in the command line.
fn name_text(alloc: Global, code: Code) -> Result<String, Memory>
    ensures { IfOk result (λ text. string_bytes text ≡ name_line code) }
{
    let (number, name) = (code.number(), code.name());
    Ok(format!(in alloc; "refused {number} {name} at word 3\n")?)
}

/// Puts the line of a refusal of the name in the command line.
pub fn refuse_name<K: Sink>(alloc: Global, sink: &mut K, code: Code) -> Status
    ensures ends { EndsWith (K.written sink.old) (K.written sink.new) (name_line code) TextRefused result }
    ensures faults { RoseExactlyWhere (result ≡ SinkFault) (K.faults sink.old) (K.faults sink.new) }
    ensures sure_text { result ≢ TextFault }
{
    match name_text(alloc, code) {
        Ok(line) => put_last(sink, line.as_bytes(), Status::TextRefused),
        Err(Memory) => Status::Memory,
    }
}

/// What the line of a refusal for a load shows behind the place.
fn load_shown(load: Load) -> &'static str
    ensures { result.now ≡ codes " " ++ load_shown (load_of load) }
{
    match load {
        Load::Outputs => " outputs",
        Load::Nodes => " nodes",
        Load::Depth => " depth",
    }
}

/// Appends the tree to the text of a refusal.
fn show(
    alloc: Global,
    text: &mut Vec<u8>,
    checked: &Checked,
    shown: &TypedTree,
) -> Result<(), Memory>
    requires typed { HasType (type_of_tree (items_of checked.now) shown.now) (meant shown.now.tree) }
    ensures text { OnOk result (text.new.items ≡ text.old.items ++ shown_tree (type_of_tree (items_of checked.now) shown.now) (meant shown.now.tree)) }
    ensures scalars { OnOk result (has_scalars (meant shown.now.tree) ≡ true) }
{
    append_tree(alloc, text, checked, &shown.of, &shown.tree)
}

/// What the line of a refusal shows of a tree without output.
fn shown_none(alloc: Global, checked: &Checked, input: &TypedTree) -> Result<Vec<u8>, Memory>
    requires typed { IsCauseTyped (items_of checked.now) (NoOutput input.now) }
    ensures text { IfOk result (λ text. text.items ≡ stop_shows (plain_cause (items_of checked.now) (NoOutput input.now))) }
    ensures scalars { OnOk result (CanBeShown (NoOutput input.now)) }
{
    let mut text = Vec::from_slice(alloc, b" 0")?;
    show(alloc, &mut text, checked, input)?;
    Ok(text)
}

/// What the line of a refusal shows of a tree with two outputs.
fn shown_two(alloc: Global, checked: &Checked, two: &TwoOutputs) -> Result<Vec<u8>, Memory>
    requires typed { IsCauseTyped (items_of checked.now) (SeveralOutputs two.now) }
    ensures text { IfOk result (λ text. text.items ≡ stop_shows (plain_cause (items_of checked.now) (SeveralOutputs two.now))) }
    ensures scalars { OnOk result (CanBeShown (SeveralOutputs two.now)) }
{
    let mut text = Vec::from_slice(alloc, b" 2")?;
    show(alloc, &mut text, checked, &two.input)?;
    append_tree(alloc, &mut text, checked, &two.into, &two.first)?;
    append_tree(alloc, &mut text, checked, &two.into, &two.second)?;
    Ok(text)
}

/// The number of the rule at a place, counted from 1.
fn rule_number(place: u32) -> u64
    ensures { result ≡ suc place }
{
    u64::from(place) + 1
}

/// The rules of two transformations that aren't composed, counted from 1.
fn rules_text(alloc: Global, shown: &Uncomposable) -> Result<String, Memory>
    ensures { IfOk result (λ text. string_bytes text ≡ rules_shown shown.now) }
{
    let name = shown.meeting.name.as_str();
    let first = rule_number(shown.meeting.first);
    let second = rule_number(shown.meeting.second);
    let copier = shown.copying.name.as_str();
    let rule = rule_number(shown.copying.rule);
    Ok(format!(in alloc; " {name} {first} {second} {copier} {rule}")?)
}

/// What the line of a refusal shows of two transformations that aren't composed.
fn shown_uncomposed(
    alloc: Global,
    checked: &Checked,
    shown: &Uncomposable,
) -> Result<Vec<u8>, Memory>
    requires typed { IsCauseTyped (items_of checked.now) (NotComposable shown.now) }
    ensures text { IfOk result (λ text. text.items ≡ stop_shows (plain_cause (items_of checked.now) (NotComposable shown.now))) }
    ensures scalars { OnOk result (CanBeShown (NotComposable shown.now)) }
{
    let mut text = Vec::new(alloc);
    append_tree(
        alloc,
        &mut text,
        checked,
        &shown.meeting.of,
        &shown.meeting.tree,
    )?;
    text.extend_from_slice(rules_text(alloc, shown)?.as_bytes())?;
    Ok(text)
}

/// What the line of a refusal of an item shows behind the place.
fn shown_for(alloc: Global, checked: &Checked, cause: &Cause) -> Result<Vec<u8>, Memory>
    requires typed { IsCauseTyped (items_of checked.now) cause.now }
    ensures text { IfOk result (λ text. text.items ≡ stop_shows (plain_cause (items_of checked.now) cause.now)) }
    ensures scalars { OnOk result (CanBeShown cause.now) }
{
    match cause {
        Cause::Classes(limit) => Ok(format!(in alloc; " {limit}")?.into_bytes()),
        Cause::Width(bits) => Ok(format!(in alloc; " {bits}")?.into_bytes()),
        Cause::FormRange(number) => Ok(format!(in alloc; " {number}")?.into_bytes()),
        Cause::LabelRange(number) => Ok(format!(in alloc; " {number}")?.into_bytes()),
        Cause::Outputs(load) => Ok(Vec::from_slice(alloc, load_shown(*load).as_bytes())?),
        Cause::NotComposable(shown) => shown_uncomposed(alloc, checked, shown),
        Cause::NoOutput(input) => shown_none(alloc, checked, input),
        Cause::SeveralOutputs(two) => shown_two(alloc, checked, two),
        Cause::EmptyLanguage | Cause::TreeSize => Ok(Vec::new(alloc)),
    }
}

/// The line of a refusal of an item, for the cause that it has.
fn refused_text(
    alloc: Global,
    checked: &Checked,
    file: &str,
    place: Pos,
    cause: &Cause,
) -> Result<Vec<u8>, Memory>
    requires typed { IsCauseTyped (items_of checked.now) cause.now }
    ensures text { IfOk result (λ text. text.items ≡ stop_line (plain_cause (items_of checked.now) cause.now) file.now place) }
    ensures scalars { OnOk result (CanBeShown cause.now) }
{
    let code = cause.code();
    let mut text = refusal_head(alloc, file, Refusal { code, place })?.into_bytes();
    text.extend_from_slice(&shown_for(alloc, checked, cause)?)?;
    text.push(b'\n')?;
    Ok(text)
}

/// Puts the line of a refusal of an item.
pub fn refuse_item<K: Sink>(
    alloc: Global,
    sink: &mut K,
    checked: &Checked,
    file: &str,
    place: Pos,
    cause: &Cause,
) -> Status
    requires typed { IsCauseTyped (items_of checked.now) cause.now }
    ensures ends { IsRefusal (CanBeShown cause.now) (K.written sink.old) (K.written sink.new) (stop_line (plain_cause (items_of checked.now) cause.now) file.now place) result }
    ensures faults { RoseExactlyWhere (result ≡ SinkFault) (K.faults sink.old) (K.faults sink.new) }
{
    match refused_text(alloc, checked, file, place, cause) {
        Ok(line) => put_last(sink, &line, Status::RunRefused),
        Err(Memory) => Status::Memory,
    }
}
