//! Why expressions aren't evaluated.

use fast_fault::Memory;
use lin_solve::Chain;
use sta_classes::ClassStop;
use sttr_apply::{ApplyStop, Load};
use sttr_run::RunStop;

/// Why there is no automaton or transducer of an expression, or no answer to a statement.
#[derive(Drop)]
pub enum EvalStop {
    /// More trees are told apart than the limit.
    Classes,
    /// A chain of comparisons needs more bits.
    Wide(Chain),
    /// A form has this number, outside its range.
    Range(i128),
    Memory,
}

impl From<Memory> for EvalStop {
    ghost use Rattle.std.specs.Prelude.{◌≡◌};
    ghost use Rattle.fast_eval.specs.declared.stops.EvalStop.TheVariants as stops;

    ghost from_gives = { λ _ e. e ≡ stops.Memory };

    fn from(_want: Memory) -> EvalStop {
        EvalStop::Memory
    }
}

impl From<ClassStop<Chain>> for EvalStop {
    ghost use Rattle.std.specs.Prelude.{◌≡◌};
    ghost use Rattle.fast_eval.specs.Stops.{by_classes};

    ghost from_gives = { λ s e. e ≡ by_classes s };

    fn from(stop: ClassStop<Chain>) -> EvalStop {
        match stop {
            ClassStop::Classes => EvalStop::Classes,
            ClassStop::Wide(chain) => EvalStop::Wide(chain),
            ClassStop::Memory => EvalStop::Memory,
        }
    }
}

impl From<RunStop> for EvalStop {
    ghost use Rattle.std.specs.Prelude.{◌≡◌};
    ghost use Rattle.fast_eval.specs.Stops.{by_run};

    ghost from_gives = { λ s e. e ≡ by_run s };

    fn from(stop: RunStop) -> EvalStop {
        match stop {
            RunStop::Range(number) => EvalStop::Range(number),
            RunStop::Memory => EvalStop::Memory,
        }
    }
}

/// Why there is no list of outputs of a tree.
#[derive(Drop)]
pub enum OutputStop {
    /// There is no transducer of the transformation.
    Stopped(EvalStop),
    /// An output has this number, outside the label range.
    Range(i128),
    /// There are too many or too large outputs.
    Load(Load),
}

impl From<Memory> for OutputStop {
    ghost use Rattle.std.specs.Prelude.{◌≡◌};
    ghost use Rattle.fast_eval.specs.declared.stops.EvalStop.TheVariants as evaluation;
    ghost use Rattle.fast_eval.specs.declared.stops.OutputStop.TheVariants as stops;

    ghost from_gives = { λ _ e. e ≡ stops.Stopped evaluation.Memory };

    fn from(_want: Memory) -> OutputStop {
        OutputStop::Stopped(EvalStop::Memory)
    }
}

impl From<EvalStop> for OutputStop {
    ghost use Rattle.std.specs.Prelude.{◌≡◌};
    ghost use Rattle.fast_eval.specs.declared.stops.OutputStop.TheVariants as stops;

    ghost from_gives = { λ s e. e ≡ stops.Stopped s };

    fn from(stop: EvalStop) -> OutputStop {
        OutputStop::Stopped(stop)
    }
}

impl From<ApplyStop> for OutputStop {
    ghost use Rattle.std.specs.Prelude.{◌≡◌};
    ghost use Rattle.fast_eval.specs.Outputs.{by_outputs};

    ghost from_gives = { λ s e. e ≡ by_outputs s };

    fn from(stop: ApplyStop) -> OutputStop {
        match stop {
            ApplyStop::Range(number) => OutputStop::Range(number),
            ApplyStop::Load(load) => OutputStop::Load(load),
            ApplyStop::Memory => OutputStop::Stopped(EvalStop::Memory),
        }
    }
}
