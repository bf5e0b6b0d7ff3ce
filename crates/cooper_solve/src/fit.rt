//! That the numbers of systems fit 128 bits. Each is one of 128 bits; these walks say so of all at once, and change
//! nothing.

ghost use Rattle.std.specs.Prelude.{ℤ, FitsSigned};
ghost use Rattle.std.specs.Int.{w128};
ghost use Rattle.std.specs.List.{All};
ghost use Rattle.math_cooper.specs.Puts.{InCondition, InSystem, OfAffine, AllFit};

use crate::constraint::{Constraint, Relation};
use crate::put::Linear;

fn row_fits(row: &[i128])
    ensures { All (FitsSigned w128) row.now }
{
    for a in row {
        let _number = *a;
    }
}

fn condition_fits(constraint: &Constraint)
    ensures { AllFit (InCondition constraint.now) }
{
    row_fits(&constraint.coefficients);
    let _constant = constraint.constant;
    match constraint.relation {
        Relation::AtLeast => {}
        Relation::Divided(divisor) => {
            let _divisor = divisor;
        }
    }
}

/// Each number of the system fits.
pub(crate) fn system_fits(system: &[Constraint])
    ensures { AllFit (InSystem system.now) }
{
    for constraint in system {
        condition_fits(constraint);
    }
}

/// Each number of the form fits.
pub(crate) fn form_fits(form: &Linear)
    ensures { AllFit (OfAffine form.now) }
{
    row_fits(&form.coefficients);
    let _constant = form.constant;
}
