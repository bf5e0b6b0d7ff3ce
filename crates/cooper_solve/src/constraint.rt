//! Conditions on whole numbers, as rows of coefficients.

ghost use Rattle.std.specs.Prelude.{◌≡◌, ◌+◌, ◌<◌, pos, ℤ, IfOk, IsTrue, ◌↔◌, take, length};
ghost use Rattle.std.specs.List.{All};
ghost use Rattle.math_cooper.specs.System.{Condition, HasWidth, lead};
ghost use Rattle.math_cooper.specs.Puts.{cut, cut_one};
ghost use Rattle.cooper_solve.specs.Views.{OccursIf};

use std::alloc::{AllocError, AllocFailed, Global};
use std::marker::Model;

/// At least 0, or a multiple of a positive number.
#[derive(Clone, Copy, Debug, PartialEq, Eq)]
pub enum Relation {
    AtLeast,
    Divided(i128),
}

/// The sum of a constant and of coefficients times variables is at least 0, or is a multiple.
#[derive(Drop)]
pub struct Constraint {
    pub relation: Relation,
    pub constant: i128,
    pub coefficients: Vec<i128>,
}

impl Model for Constraint {
    ghost use Rattle.math_cooper.specs.System.{Condition};

    ghost Value = { Condition };

    ghost use Rattle.cooper_solve.specs.Kinds.{kind_of, IsPositiveRelation};

    ghost view = { λ c. record { kind = kind_of c.relation; constant = c.constant; coefficients = c.coefficients.items } };

    ghost invariant = { λ c. IsPositiveRelation c.relation };
}

/// Why a system isn't given: a number of it is outside 128 bits, or want of memory.
#[derive(Clone, Copy, Debug, PartialEq, Eq)]
pub enum Stop {
    TooWide,
    Memory,
}

/// From where the puts of a variable start: each lower bound, else each upper bound, else 0.
#[derive(Clone, Copy)]
pub(crate) enum Direction {
    Low,
    High,
    Free,
}

impl From<AllocError> for Stop {
    ghost use Rattle.std.specs.Prelude.{◌≡◌};
    ghost use Rattle.cooper_solve.specs.declared.constraint.Stop.TheVariants.{Memory};

    ghost from_gives = { λ _ e. e ≡ Memory };

    fn from(_refused: AllocError) -> Stop {
        Stop::Memory
    }
}

impl<T: Drop> From<AllocFailed<T>> for Stop {
    ghost use Rattle.std.specs.Prelude.{◌≡◌};
    ghost use Rattle.cooper_solve.specs.declared.constraint.Stop.TheVariants.{Memory};

    ghost from_gives = { λ _ e. e ≡ Memory };

    fn from(_refused: AllocFailed<T>) -> Stop {
        Stop::Memory
    }
}

impl Constraint {
    /// The coefficient of the last variable.
    pub(crate) fn lead(&self, last: usize) -> i128
        requires { HasWidth (last + 1) self.now }
        ensures { result ≡ lead last self.now }
    {
        self.coefficients[last]
    }

    /// The condition without the place of the last variable.
    pub(crate) fn cut(&self, alloc: Global, last: usize) -> Result<Constraint, AllocError>
        requires { HasWidth (last + 1) self.now }
        ensures { IfOk result (λ r. r ≡ cut_one last self.now) }
    {
        Ok(Constraint {
            relation: self.relation,
            constant: self.constant,
            coefficients: Vec::from_slice(alloc, &self.coefficients[..last])?,
        })
    }

    /// An equal condition.
    pub(crate) fn copy(&self, alloc: Global) -> Result<Constraint, AllocError>
        ensures { IfOk result (λ r. r ≡ self.now) }
    {
        Ok(Constraint {
            relation: self.relation,
            constant: self.constant,
            coefficients: Vec::from_slice(alloc, &self.coefficients)?,
        })
    }
}

/// Whether the last variable is in some condition.
pub(crate) fn occurs(system: &[Constraint], last: usize) -> bool
    requires { All (HasWidth (last + 1)) system.now }
    ensures { OccursIf last system.now result }
{
    for constraint in system {
        if constraint.lead(last) != 0 {
            return true;
        }
    }
    false
}

/// The system without the place of the last variable.
pub(crate) fn cut_each(
    alloc: Global,
    system: &[Constraint],
    last: usize,
) -> Result<Vec<Constraint>, AllocError>
    requires { All (HasWidth (last + 1)) system.now }
    ensures { IfOk result (λ r. r.items ≡ cut last system.now) }
{
    let mut out = Vec::new(alloc);
    for constraint in system {
        out.push(constraint.cut(alloc, last)?)?;
    }
    Ok(out)
}
