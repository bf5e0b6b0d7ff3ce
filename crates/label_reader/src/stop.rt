//! Why nothing was read: memory ran out, or a token is refused. Want of memory is never taken for a wrong token.

ghost use Rattle.std.specs.Prelude.{◌≡◌};

use fast_fault::Memory;
use std::alloc::{AllocError, AllocFailed};

/// Memory ran out, or the tokens that the reader has left are refused.
#[derive(Drop)]
pub enum Stop {
    Memory,
    Wrong,
}

/// Why the tokens as a whole weren't read: the first wrong one, by the number of the tokens before it, or want of memory.
#[derive(Drop)]
pub enum ReadTokensStop {
    Wrong(usize),
    Memory,
}

impl From<Memory> for Stop {
    ghost use Rattle.std.specs.Prelude.{◌≡◌};
    ghost use Rattle.label_reader.specs.declared.stop.Stop.TheVariants.{Memory};

    ghost from_gives = { λ _ e. e ≡ Memory };

    fn from(_: Memory) -> Self {
        Stop::Memory
    }
}

impl From<AllocError> for Stop {
    ghost use Rattle.std.specs.Prelude.{◌≡◌};
    ghost use Rattle.label_reader.specs.declared.stop.Stop.TheVariants.{Memory};

    ghost from_gives = { λ _ e. e ≡ Memory };

    fn from(_: AllocError) -> Self {
        Stop::Memory
    }
}

impl<T: Drop> From<AllocFailed<T>> for Stop {
    ghost use Rattle.std.specs.Prelude.{◌≡◌};
    ghost use Rattle.label_reader.specs.declared.stop.Stop.TheVariants.{Memory};

    ghost from_gives = { λ _ e. e ≡ Memory };

    fn from(_: AllocFailed<T>) -> Self {
        Stop::Memory
    }
}
