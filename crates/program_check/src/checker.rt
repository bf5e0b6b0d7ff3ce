//! What goes through a program: it keeps the first failing condition of those that it noted, in whatever order they were
//! found. The program itself is passed beside it, where a condition speaks of it.

ghost use Rattle.std.specs.Prelude.{◌≡◌, Some, IsOk, []};
ghost use Rattle.model_checks.specs.Failures.{failure, fails_if, goes_before};
ghost use Rattle.program_check.specs.Notes.{HasMemory, Notes};

use fast_fault::{Code, Memory, Pos, Refusal};
use std::alloc::Global;

/// The failing condition that goes before all others that were noted, where some were.
///
/// It keeps in mind that memory ran out, so that no method has to say so: the check goes on to its end, and its caller asks.
#[derive(Drop)]
pub(crate) struct Checker {
    pub(crate) known: Option<Refusal>,
    /// Whether memory ran out. From then on what is noted says nothing.
    pub(crate) ran_out: bool,
    pub(crate) alloc: Global,
}

impl Checker {
    /// The condition of this code fails at this place.
    pub(crate) fn note(&mut self, code: Code, place: Pos)
        ensures { Notes self.old self.new (failure code place) }
    {
        let new = Refusal { code, place };
        if let Some(known) = &self.known {
            if !goes_before(&new, known) {
                return;
            }
        }
        self.known = Some(new);
    }

    /// It fails where this is so.
    pub(crate) fn note_if(&mut self, fails: bool, code: Code, place: Pos)
        ensures { Notes self.old self.new (fails_if fails code place) }
    {
        if fails {
            self.note(code, place);
        }
    }

    /// It was done, or memory ran out, which is kept in mind.
    pub(crate) fn note_want(&mut self, done: Result<(), Memory>)
        ensures noted { Notes self.old self.new [] }
        ensures done { HasMemory self.new → IsOk done }
    {
        if done.is_err() {
            self.ran_out = true;
        }
    }
}

/// Whether a failing condition goes before another.
fn goes_before(new: &Refusal, known: &Refusal) -> bool
    ensures { result ≡ goes_before new.now known.now }
{
    let (here, there) = (new.place, known.place);
    if here.line != there.line {
        return here.line < there.line;
    }
    if here.column != there.column {
        return here.column < there.column;
    }
    new.code.number() < known.code.number()
}
