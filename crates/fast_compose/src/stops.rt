//! Why compositions can't be made.

use fast_fault::{Memory, Text};
use fast_tree::{Label, Tree};
use lin_solve::Chain;
use sta_classes::ClassStop;

/// Two rules of a transformation, by their places in its block, with different terms, and a tree of its input type to which both
/// apply.
#[derive(Drop)]
pub struct Meeting {
    pub name: Text,
    pub first: u32,
    pub second: u32,
    /// The name of the type.
    pub of: Text,
    pub tree: Tree<Label>,
}

/// A rule of a transformation, by its place in its block, that uses a child twice.
#[derive(Drop)]
pub struct Copying {
    pub name: Text,
    pub rule: u32,
}

/// Why two transformations aren't composed: rules of the first meet, and a rule of the second uses a child twice.
#[derive(Drop)]
pub struct Uncomposable {
    pub meeting: Meeting,
    pub copying: Copying,
}

/// Why it isn't known that the compositions can be made.
#[derive(Drop)]
pub enum ComposeStop {
    /// More trees are told apart than the limit.
    Classes,
    /// A chain of comparisons needs more bits.
    Wide(Chain),
    /// They can't.
    NotComposable(Uncomposable),
    /// Each tree at which rules meet is too large.
    TooLarge,
    Memory,
}

impl From<Memory> for ComposeStop {
    ghost use Rattle.std.specs.Prelude.{◌≡◌};
    ghost use Rattle.fast_compose.specs.declared.stops.ComposeStop.TheVariants as stops;

    ghost from_gives = { λ _ e. e ≡ stops.Memory };

    fn from(_want: Memory) -> ComposeStop {
        ComposeStop::Memory
    }
}

impl From<ClassStop<Chain>> for ComposeStop {
    ghost use Rattle.std.specs.Prelude.{◌≡◌};
    ghost use Rattle.fast_compose.specs.Composed.{by_classes};

    ghost from_gives = { λ s e. e ≡ by_classes s };

    fn from(stop: ClassStop<Chain>) -> ComposeStop {
        match stop {
            ClassStop::Classes => ComposeStop::Classes,
            ClassStop::Wide(chain) => ComposeStop::Wide(chain),
            ClassStop::Memory => ComposeStop::Memory,
        }
    }
}
