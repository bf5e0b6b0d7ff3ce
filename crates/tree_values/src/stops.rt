//! Why there is no value.

use fast_eval::{EvalStop, OutputStop};
use fast_fault::{Memory, Text};
use fast_tree::{Label, Tree};
use std::alloc::AllocFailed;
use sttr_apply::Load;

/// A tree of the type with this name.
#[derive(Drop)]
pub struct TypedTree {
    pub of: Text,
    pub tree: Tree<Label>,
}

/// A tree, the name of the type of its outputs, and its first two outputs.
#[derive(Drop)]
pub struct TwoOutputs {
    pub input: TypedTree,
    pub into: Text,
    pub first: Tree<Label>,
    pub second: Tree<Label>,
}

/// Why an expression has no value that can be shown.
#[derive(Drop)]
pub enum ValueStop {
    /// The evaluation of a language or a transformation stopped.
    Stopped(EvalStop),
    /// A language that is to have a tree has none.
    NoTree,
    /// There are values, but too large ones.
    TooLarge,
    /// An output has this number, outside the label range.
    LabelRange(i128),
    /// There are too many or too large outputs.
    Outputs(Load),
    /// The tree that a transformation is applied to has no output.
    NoOutput(TypedTree),
    /// It has more than one.
    SeveralOutputs(TwoOutputs),
}

impl From<Memory> for ValueStop {
    ghost use Rattle.std.specs.Prelude.{◌≡◌};
    ghost use Rattle.fast_eval.specs.declared.stops.EvalStop.TheVariants as evaluation;
    ghost use Rattle.tree_values.specs.declared.stops.ValueStop.TheVariants as stops;

    ghost from_gives = { λ _ e. e ≡ stops.Stopped evaluation.Memory };

    fn from(_want: Memory) -> ValueStop {
        ValueStop::Stopped(EvalStop::Memory)
    }
}

impl<T: Drop> From<AllocFailed<T>> for ValueStop {
    ghost use Rattle.std.specs.Prelude.{◌≡◌};
    ghost use Rattle.fast_eval.specs.declared.stops.EvalStop.TheVariants as evaluation;
    ghost use Rattle.tree_values.specs.declared.stops.ValueStop.TheVariants as stops;

    ghost from_gives = { λ _ e. e ≡ stops.Stopped evaluation.Memory };

    fn from(_refused: AllocFailed<T>) -> ValueStop {
        ValueStop::Stopped(EvalStop::Memory)
    }
}

impl From<EvalStop> for ValueStop {
    ghost use Rattle.std.specs.Prelude.{◌≡◌};
    ghost use Rattle.tree_values.specs.declared.stops.ValueStop.TheVariants as stops;

    ghost from_gives = { λ s e. e ≡ stops.Stopped s };

    fn from(stop: EvalStop) -> ValueStop {
        ValueStop::Stopped(stop)
    }
}

impl From<OutputStop> for ValueStop {
    ghost use Rattle.std.specs.Prelude.{◌≡◌};
    ghost use Rattle.tree_values.specs.Applied.{stop_of};

    ghost from_gives = { λ s e. e ≡ stop_of s };

    fn from(stop: OutputStop) -> ValueStop {
        match stop {
            OutputStop::Stopped(stop) => ValueStop::Stopped(stop),
            OutputStop::Range(number) => ValueStop::LabelRange(number),
            OutputStop::Load(load) => ValueStop::Outputs(load),
        }
    }
}
