//! Texts that are taken, read and checked.

ghost use Rattle.std.specs.Prelude.{◌≡◌, ◌≢◌, ℕ, List, IfOk, IfErr, OnOk, Err, map};
ghost use Rattle.fast_fault.specs.Taken.{IsGiven};
ghost use Rattle.fast_fault.specs.Written.{RoseExactlyWhere};
ghost use Rattle.fast_tree.specs.Signatures.{plain_signature};
ghost use Rattle.fast_fault.specs.declared.status.Status.TheVariants.{SinkFault, TextFault};
ghost use Rattle.fast_syntax.specs.Plain.{plain_program};
ghost use Rattle.model_run.specs.Texts.{IsChecked, IsRefused, IsFileRefused};
ghost use Rattle.text_reader.specs.Answers.{IfRefused};
ghost use Rattle.fast_tool.specs.Taken.{IsProgramOf, AreTreesOf, TextAnswer, IsNotTaken, IsToldOf};
ghost use Rattle.tree_files.specs.Placed.{plain_placed, AreOfType};

use crate::refusals::refuse;
use fast_fault::{Code, Pos, Refusal, Sink, Status, TakeFault, TextSource};
use fast_tree::Signature;
use program_check::{CheckStop, Checked, check};
use std::alloc::Global;
use text_reader::{ReadStop, read};
use tree_files::{PlacedTree, read_typed};

/// The number of bytes that a text may have.
const MOST: u64 = 1_048_576;

/// The well-formed program that the bytes are.
pub fn read_checked(alloc: Global, bytes: &[u8]) -> Result<Checked, ReadStop>
    ensures program { IfOk result (λ checked. IsChecked bytes.now (plain_program checked.program)) }
    ensures refused { IfRefused result (λ refusal. IsRefused bytes.now refusal.code refusal.place) }
{
    let program = read(alloc, bytes)?;
    match check(alloc, program) {
        Ok(checked) => Ok(checked),
        Err(CheckStop::Refused(refusal)) => Err(ReadStop::Refused(refusal)),
        Err(CheckStop::Memory) => Err(ReadStop::Memory),
    }
}

/// Takes the text.
fn take_bytes<T: TextSource, K: Sink>(
    alloc: Global,
    file: &str,
    texts: &mut T,
    sink: &mut K,
) -> Result<Vec<u8>, Status>
    ensures given { IfOk result (λ bytes. IsGiven (T.held texts.old file.now) bytes.items) }
    ensures untouched { OnOk result (sink.new ≡ sink.old) }
    ensures refused { IfErr result (IsNotTaken file.now (T.held texts.old file.now) (K.written sink.old) (K.written sink.new)) }
    ensures same { (name : List ℕ) → T.held texts.new name ≡ T.held texts.old name }
    ensures faults { RoseExactlyWhere (result ≡ Err SinkFault) (K.faults sink.old) (K.faults sink.new) }
    ensures take_faults { RoseExactlyWhere (result ≡ Err TextFault) (T.faults texts.old) (T.faults texts.new) }
{
    match texts.take(alloc, file, MOST) {
        Ok(bytes) => Ok(bytes),
        Err(TakeFault::Longer) => {
            let refusal = Refusal {
                code: Code::TooLong,
                place: Pos { line: 1, column: 1 },
            };
            Err(refuse(alloc, sink, file, refusal))
        }
        Err(TakeFault::Failed) => Err(Status::TextFault),
        Err(TakeFault::Memory) => Err(Status::Memory),
    }
}

/// Tells why a text isn't read.
pub fn tell_unread<K: Sink>(alloc: Global, sink: &mut K, file: &str, stop: ReadStop) -> Status
    ensures told { IsToldOf file.now stop (K.written sink.old) (K.written sink.new) result }
    ensures faults { RoseExactlyWhere (result ≡ SinkFault) (K.faults sink.old) (K.faults sink.new) }
    ensures sure_text { result ≢ TextFault }
{
    match stop {
        ReadStop::Refused(refusal) => refuse(alloc, sink, file, refusal),
        ReadStop::Memory => Status::Memory,
    }
}

/// Takes the text, and reads and checks the program that it is.
pub fn take_checked<T: TextSource, K: Sink>(
    alloc: Global,
    file: &str,
    texts: &mut T,
    sink: &mut K,
) -> Result<Checked, Status>
    ensures program { IfOk result (λ checked. IsProgramOf (T.held texts.old file.now) (plain_program checked.program)) }
    ensures untouched { OnOk result (sink.new ≡ sink.old) }
    ensures report { IfErr result (λ status. TextAnswer IsRefused file.now (T.held texts.old file.now) (K.written sink.old) (K.written sink.new) status) }
    ensures same { (name : List ℕ) → T.held texts.new name ≡ T.held texts.old name }
    ensures faults { RoseExactlyWhere (result ≡ Err SinkFault) (K.faults sink.old) (K.faults sink.new) }
    ensures take_faults { RoseExactlyWhere (result ≡ Err TextFault) (T.faults texts.old) (T.faults texts.new) }
{
    let bytes = match take_bytes(alloc, file, texts, sink) {
        Ok(bytes) => bytes,
        Err(status) => return Err(status),
    };
    match read_checked(alloc, &bytes) {
        Ok(checked) => Ok(checked),
        Err(stop) => Err(tell_unread(alloc, sink, file, stop)),
    }
}

/// Takes the text, and reads the trees of the type that it is.
pub fn take_trees<T: TextSource, K: Sink>(
    alloc: Global,
    file: &str,
    signature: &Signature,
    texts: &mut T,
    sink: &mut K,
) -> Result<Vec<PlacedTree>, Status>
    ensures placed { IfOk result (λ placed. AreTreesOf (plain_signature signature.now) (T.held texts.old file.now) (map plain_placed placed.items)) }
    ensures typed { IfOk result (λ placed. AreOfType (plain_signature signature.now) (map plain_placed placed.items)) }
    ensures untouched { OnOk result (sink.new ≡ sink.old) }
    ensures report { IfErr result (λ status. TextAnswer (IsFileRefused (plain_signature signature.now)) file.now (T.held texts.old file.now) (K.written sink.old) (K.written sink.new) status) }
    ensures faults { RoseExactlyWhere (result ≡ Err SinkFault) (K.faults sink.old) (K.faults sink.new) }
    ensures take_faults { RoseExactlyWhere (result ≡ Err TextFault) (T.faults texts.old) (T.faults texts.new) }
{
    let bytes = match take_bytes(alloc, file, texts, sink) {
        Ok(bytes) => bytes,
        Err(status) => return Err(status),
    };
    match read_typed(alloc, &bytes, signature) {
        Ok(placed) => Ok(placed),
        Err(stop) => Err(tell_unread(alloc, sink, file, stop)),
    }
}
