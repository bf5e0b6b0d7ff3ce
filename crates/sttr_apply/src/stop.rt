//! Why the outputs aren't given.

use crate::outs::Load;
use fast_fault::Memory;
use std::alloc::{AllocError, AllocFailed};

/// Why the outputs aren't given.
#[derive(Drop)]
pub enum ApplyStop {
    /// An output has a number that isn't kept.
    Range(i128),
    /// There is too much of this.
    Load(Load),
    /// Want of memory.
    Memory,
}

impl From<Memory> for ApplyStop {
    ghost use Rattle.std.specs.Prelude.{◌≡◌};
    ghost use Rattle.sttr_apply.specs.declared.stop.ApplyStop.TheVariants as stop;

    ghost from_gives = { λ _ e. e ≡ stop.Memory };

    fn from(_refused: Memory) -> ApplyStop {
        ApplyStop::Memory
    }
}

impl From<AllocError> for ApplyStop {
    ghost use Rattle.std.specs.Prelude.{◌≡◌};
    ghost use Rattle.sttr_apply.specs.declared.stop.ApplyStop.TheVariants as stop;

    ghost from_gives = { λ _ e. e ≡ stop.Memory };

    fn from(_refused: AllocError) -> ApplyStop {
        ApplyStop::Memory
    }
}

impl<T: Drop> From<AllocFailed<T>> for ApplyStop {
    ghost use Rattle.std.specs.Prelude.{◌≡◌};
    ghost use Rattle.sttr_apply.specs.declared.stop.ApplyStop.TheVariants as stop;

    ghost from_gives = { λ _ e. e ≡ stop.Memory };

    fn from(_refused: AllocFailed<T>) -> ApplyStop {
        ApplyStop::Memory
    }
}
