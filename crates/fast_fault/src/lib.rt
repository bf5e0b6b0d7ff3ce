//! The outside of the tool: texts by name, where a report goes, the codes and places of refusals, and how a run ends.
//!
//! Its promise: a fault is answered exactly where the count of faults of that very object rose in the call, and what was
//! appended before a fault is a front of what was to be written.
#![tactic(auto)]

mod code;
mod files;
mod memory;
mod place;
mod range;
mod refusal;
mod sink;
mod status;
mod text;
mod texts;
mod writer;

pub use code::Code;
pub use files::FileTexts;
pub use memory::Memory;
pub use place::Pos;
pub use range::{LABEL_BITS, LabelInt};
pub use refusal::Refusal;
pub use sink::{CutAt, MemSink, PutFault, Sink, SureSink};
pub use status::Status;
pub use text::Text;
pub use texts::{Held, MemTexts, SureTexts, TakeFault, TextSource};
pub use writer::WriterSink;
