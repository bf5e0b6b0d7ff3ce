//! Why there is no table.

use fast_fault::Memory;
use std::alloc::{AllocError, AllocFailed};

/// Why there is no table.
#[derive(Drop)]
pub enum ClassStop<W> {
    /// Trees have more sets of states than are allowed.
    Classes,
    /// A conjunction of guards was too wide to decide.
    Wide(W),
    /// Want of memory.
    Memory,
}

impl<W> From<Memory> for ClassStop<W> {
    ghost use Rattle.std.specs.Prelude.{◌≡◌};
    ghost use Rattle.sta_classes.specs.declared.stop.ClassStop.TheVariants as stop;

    ghost from_gives = { λ _ e. e ≡ stop.Memory };

    fn from(_refused: Memory) -> ClassStop<W> {
        ClassStop::Memory
    }
}

impl<W> From<AllocError> for ClassStop<W> {
    ghost use Rattle.std.specs.Prelude.{◌≡◌};
    ghost use Rattle.sta_classes.specs.declared.stop.ClassStop.TheVariants as stop;

    ghost from_gives = { λ _ e. e ≡ stop.Memory };

    fn from(_refused: AllocError) -> ClassStop<W> {
        ClassStop::Memory
    }
}

impl<T: Drop, W> From<AllocFailed<T>> for ClassStop<W> {
    ghost use Rattle.std.specs.Prelude.{◌≡◌};
    ghost use Rattle.sta_classes.specs.declared.stop.ClassStop.TheVariants as stop;

    ghost from_gives = { λ _ e. e ≡ stop.Memory };

    fn from(_refused: AllocFailed<T>) -> ClassStop<W> {
        ClassStop::Memory
    }
}
