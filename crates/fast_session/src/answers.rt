//! What a step of a session answers.

ghost use Rattle.std.specs.Prelude.{◌≡◌};
ghost use Rattle.fast_session.specs.Answers.{code_of, ending_of, halt_at};

use fast_compose::Uncomposable;
use fast_fault::{Code, Memory, Pos, Refusal, Text};
use fast_tree::{Label, Tree};
use sttr_apply::Load;
use tree_values::{TwoOutputs, TypedTree};

/// The line of an item. The name of a type tells how its tree is printed.
#[derive(Drop)]
pub enum Line {
    /// A tree that has its name.
    Tree {
        name: Text,
        of: Text,
        tree: Tree<Label>,
    },
    /// How many states the least automaton of the language with this name has.
    Minimal {
        name: Text,
        count: u32,
    },
    /// Whether the assertion in this line of the text passes, and the tree that goes with the verdict.
    Verdict {
        line: u32,
        passes: bool,
        of: Text,
        shown: Option<Tree<Label>>,
    },
}

/// What a step gives.
#[derive(Drop)]
pub enum Step {
    /// The next item is done, and this is its line.
    Line(Line),
    /// The next item is done, and it has no line.
    Silent,
    /// No item is left.
    Done,
}

/// Why the work stops at an item.
#[derive(Drop)]
pub enum Cause {
    /// More trees than this limit are told apart.
    Classes(u32),
    /// A number has no place in so many bits.
    Width(u32),
    /// A form has this number, outside its range.
    FormRange(i128),
    /// An output has this number, outside the label range.
    LabelRange(i128),
    /// There are too many or too large outputs.
    Outputs(Load),
    /// Two transformations can't be composed.
    NotComposable(Uncomposable),
    /// A tree is wanted of a language that has none.
    EmptyLanguage,
    /// One output is wanted for a tree that has none.
    NoOutput(TypedTree),
    /// One output is wanted for a tree that has more.
    SeveralOutputs(TwoOutputs),
    /// Each tree that could be shown is too large, or a value is.
    TreeSize,
}

impl Cause {
    /// The code of the refusal for it.
    pub fn code(&self) -> Code
        ensures { result ≡ code_of self.now }
    {
        match self {
            Cause::Classes(_) => Code::Classes,
            Cause::Width(_) => Code::Width,
            Cause::FormRange(_) => Code::FormRange,
            Cause::LabelRange(_) => Code::LabelRange,
            Cause::Outputs(_) => Code::Outputs,
            Cause::NotComposable(_) => Code::NotComposable,
            Cause::EmptyLanguage => Code::EmptyLanguage,
            Cause::NoOutput(_) | Cause::SeveralOutputs(_) => Code::OutputCount,
            Cause::TreeSize => Code::TreeSize,
        }
    }
}

/// Why a session gives no step.
#[derive(Drop)]
pub enum Halt {
    /// The item at this place has the cause.
    Refused(Cause, Pos),
    /// An earlier call answered this refusal.
    Ended(Refusal),
    /// For want of memory, now or in an earlier call.
    Memory,
}

impl From<Memory> for Halt {
    ghost use Rattle.std.specs.Prelude.{◌≡◌};
    ghost use Rattle.fast_session.specs.declared.answers.Halt.TheVariants as halts;

    ghost from_gives = { λ _ e. e ≡ halts.Memory };

    fn from(_refused: Memory) -> Halt {
        Halt::Memory
    }
}

/// How a session ended.
#[derive(Clone, Copy)]
pub enum Ending {
    Refused(Refusal),
    Memory,
}

/// Why an item isn't done.
#[derive(Drop)]
pub enum Stopped {
    By(Cause),
    Memory,
}

/// The halt at the item at this place, which isn't done.
pub fn halt_at(place: Pos, stopped: Stopped) -> Halt
    ensures { result ≡ halt_at place stopped }
{
    match stopped {
        Stopped::By(cause) => Halt::Refused(cause, place),
        Stopped::Memory => Halt::Memory,
    }
}

/// How a session ends with the halt.
pub fn ending_of(halt: &Halt) -> Ending
    ensures { result ≡ ending_of halt.now }
{
    match halt {
        Halt::Refused(cause, place) => {
            let code = cause.code();
            let place = *place;
            Ending::Refused(Refusal { code, place })
        }
        Halt::Ended(refusal) => Ending::Refused(*refusal),
        Halt::Memory => Ending::Memory,
    }
}

impl From<Memory> for Stopped {
    ghost use Rattle.std.specs.Prelude.{◌≡◌};
    ghost use Rattle.fast_session.specs.declared.answers.Stopped.TheVariants as stopped;

    ghost from_gives = { λ _ e. e ≡ stopped.Memory };

    fn from(_refused: Memory) -> Stopped {
        Stopped::Memory
    }
}
