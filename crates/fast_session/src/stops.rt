//! Why items aren't done, by what stops their parts.

ghost use Rattle.std.specs.Prelude.{◌≡◌};
ghost use Rattle.fast_session.specs.Answers.{stopped_by, stopped_composing, stopped_outputs, stopped_value};

use crate::answers::{Cause, Stopped};
use fast_compose::ComposeStop;
use fast_eval::{EvalStop, OutputStop};
use tree_values::ValueStop;

/// Where the evaluation of expressions stops.
pub fn stopped(limit: u32, stop: EvalStop) -> Stopped
    ensures { result ≡ stopped_by limit stop }
{
    match stop {
        EvalStop::Classes => Stopped::By(Cause::Classes(limit)),
        EvalStop::Wide(chain) => Stopped::By(Cause::Width(chain.width.bits())),
        EvalStop::Range(number) => Stopped::By(Cause::FormRange(number)),
        EvalStop::Memory => Stopped::Memory,
    }
}

/// Where it isn't known that compositions can be made.
pub fn uncomposed(limit: u32, stop: ComposeStop) -> Stopped
    ensures { result ≡ stopped_composing limit stop }
{
    match stop {
        ComposeStop::Classes => Stopped::By(Cause::Classes(limit)),
        ComposeStop::Wide(chain) => Stopped::By(Cause::Width(chain.width.bits())),
        ComposeStop::NotComposable(shown) => Stopped::By(Cause::NotComposable(shown)),
        ComposeStop::TooLarge => Stopped::By(Cause::TreeSize),
        ComposeStop::Memory => Stopped::Memory,
    }
}

/// Where there is no list of outputs.
pub fn unlisted(limit: u32, stop: OutputStop) -> Stopped
    ensures { result ≡ stopped_outputs limit stop }
{
    match stop {
        OutputStop::Stopped(stop) => stopped(limit, stop),
        OutputStop::Range(number) => Stopped::By(Cause::LabelRange(number)),
        OutputStop::Load(load) => Stopped::By(Cause::Outputs(load)),
    }
}

/// Where a tree expression has no value that can be shown.
pub fn unvalued(limit: u32, stop: ValueStop) -> Stopped
    ensures { result ≡ stopped_value limit stop }
{
    match stop {
        ValueStop::Stopped(stop) => stopped(limit, stop),
        ValueStop::NoTree => Stopped::By(Cause::EmptyLanguage),
        ValueStop::TooLarge => Stopped::By(Cause::TreeSize),
        ValueStop::LabelRange(number) => Stopped::By(Cause::LabelRange(number)),
        ValueStop::Outputs(load) => Stopped::By(Cause::Outputs(load)),
        ValueStop::NoOutput(input) => Stopped::By(Cause::NoOutput(input)),
        ValueStop::SeveralOutputs(two) => Stopped::By(Cause::SeveralOutputs(two)),
    }
}
