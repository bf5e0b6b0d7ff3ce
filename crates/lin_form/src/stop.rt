//! Why no form is given.

ghost use Rattle.std.specs.Prelude.{◌≡◌, MatchResult};
ghost use Rattle.model_tree.specs.Range.{IsLabelNumber};
ghost use Rattle.model_form.specs.Ranges.{IsCoefficient};
ghost use Rattle.lin_form.specs.Stops.{StopsAt};

use fast_fault::Memory as Want;
use std::alloc::{AllocError, AllocFailed};

/// A number of the form is outside its range, and that number; or want of memory.
#[derive(Clone, Copy, Debug, PartialEq, Eq)]
pub enum FormStop {
    Range(i128),
    Memory,
}

impl From<Want> for FormStop {
    ghost use Rattle.std.specs.Prelude.{◌≡◌};
    ghost use Rattle.lin_form.specs.declared.stop.FormStop.TheVariants.{Memory};

    ghost from_gives = { λ _ e. e ≡ Memory };

    fn from(_want: Want) -> FormStop {
        FormStop::Memory
    }
}

impl From<AllocError> for FormStop {
    ghost use Rattle.std.specs.Prelude.{◌≡◌};
    ghost use Rattle.lin_form.specs.declared.stop.FormStop.TheVariants.{Memory};

    ghost from_gives = { λ _ e. e ≡ Memory };

    fn from(_refused: AllocError) -> FormStop {
        FormStop::Memory
    }
}

impl<T: Drop> From<AllocFailed<T>> for FormStop {
    ghost use Rattle.std.specs.Prelude.{◌≡◌};
    ghost use Rattle.lin_form.specs.declared.stop.FormStop.TheVariants.{Memory};

    ghost from_gives = { λ _ e. e ≡ Memory };

    fn from(_refused: AllocFailed<T>) -> FormStop {
        FormStop::Memory
    }
}

/// The number as a coefficient.
pub(crate) fn coefficient(number: i128) -> Result<i64, FormStop>
    ensures { MatchResult result (λ c. (c ≡ number) × IsCoefficient number) (λ e. (e ≡ FormStop.Range number) × (IsCoefficient number → ⊥)) }
{
    if number > -0x8000_0000 && number < 0x8000_0000 {
        Ok(number as i64)
    } else {
        Err(FormStop::Range(number))
    }
}

/// The number as a constant.
pub(crate) fn constant(number: i128) -> Result<i128, FormStop>
    ensures { MatchResult result (λ c. (c ≡ number) × IsLabelNumber number) (λ e. (e ≡ FormStop.Range number) × (IsLabelNumber number → ⊥)) }
{
    if number >= i64::MIN as i128 && number <= i64::MAX as i128 {
        Ok(number)
    } else {
        Err(FormStop::Range(number))
    }
}
