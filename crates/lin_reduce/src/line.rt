//! Lines: conditions on the variables, and the forms of eight.

ghost use Rattle.std.specs.Prelude.{◌≡◌, ◌+ℤ◌, ◌*ℤ◌, MatchResult};

use cooper_solve::{Constraint, Relation};
use fast_fault::Memory;
use std::alloc::{AllocError, AllocFailed, Global};
use wide_num::{add, mul};

/// What a line says of its value: that it is at least 0, a multiple (of 0: that it is 0), or nothing.
#[derive(Clone, Copy)]
pub(crate) enum Kind {
    AtLeast,
    Multiple(i128),
    Free,
}

/// A constant and coefficients, and what is said of their sum.
#[derive(Drop)]
pub(crate) struct Line {
    pub(crate) kind: Kind,
    pub(crate) constant: i128,
    pub(crate) coefficients: Vec<i128>,
}

/// Why no lines are given: a number is outside 128 bits, or want of memory.
#[derive(Clone, Copy)]
pub(crate) enum Stop {
    TooWide,
    Memory,
}

impl From<AllocError> for Stop {
    ghost use Rattle.std.specs.Prelude.{◌≡◌};
    ghost use Rattle.lin_reduce.specs.declared.line.Stop.TheVariants.{Memory};

    ghost from_gives = { λ _ e. e ≡ Memory };

    fn from(_refused: AllocError) -> Stop {
        Stop::Memory
    }
}

impl<T: Drop> From<AllocFailed<T>> for Stop {
    ghost use Rattle.std.specs.Prelude.{◌≡◌};
    ghost use Rattle.lin_reduce.specs.declared.line.Stop.TheVariants.{Memory};

    ghost from_gives = { λ _ e. e ≡ Memory };

    fn from(_refused: AllocFailed<T>) -> Stop {
        Stop::Memory
    }
}

impl Line {
    /// The coefficient of a variable.
    pub(crate) fn at(&self, variable: usize) -> i128 {
        self.coefficients.get(variable).copied().unwrap_or(0)
    }

    /// The same line, of which another thing is said.
    pub(crate) fn copy_as(&self, alloc: Global, kind: Kind) -> Result<Line, AllocError> {
        Ok(Line {
            kind,
            constant: self.constant,
            coefficients: Vec::from_slice(alloc, &self.coefficients)?,
        })
    }
}

fn line_of(alloc: Global, condition: &Constraint) -> Result<Line, AllocError> {
    let kind = match condition.relation {
        Relation::AtLeast => Kind::AtLeast,
        Relation::Divided(divisor) => Kind::Multiple(divisor),
    };
    Ok(Line {
        kind,
        constant: condition.constant,
        coefficients: Vec::from_slice(alloc, &condition.coefficients)?,
    })
}

// A variable, of which nothing is said.
fn variable(alloc: Global, own: usize, count: usize) -> Result<Line, AllocError> {
    let mut coefficients = Vec::new(alloc);
    for i in 0..count {
        coefficients.push(if i == own { 1 } else { 0 })?;
    }
    Ok(Line {
        kind: Kind::Free,
        constant: 0,
        coefficients,
    })
}

/// The first eight variables.
pub(crate) fn variables(alloc: Global, count: usize) -> Result<Vec<Line>, AllocError> {
    let mut lines = Vec::new(alloc);
    for own in 0..8 {
        lines.push(variable(alloc, own, count)?)?;
    }
    Ok(lines)
}

/// The same lines, of which nothing is said.
pub(crate) fn copy_lines(alloc: Global, lines: &[Line]) -> Result<Vec<Line>, AllocError> {
    let mut out = Vec::new(alloc);
    for line in lines {
        out.push(line.copy_as(alloc, Kind::Free)?)?;
    }
    Ok(out)
}

/// The eight lines, and then the conditions.
pub(crate) fn lines_of(
    alloc: Global,
    parts: &[Line],
    system: &[Constraint],
) -> Result<Vec<Line>, AllocError> {
    let mut lines = copy_lines(alloc, parts)?;
    for condition in system {
        lines.push(line_of(alloc, condition)?)?;
    }
    Ok(lines)
}

/// The sum of a number and a product.
pub(crate) fn plus_times(number: i128, a: i128, b: i128) -> Result<i128, Stop>
    ensures { MatchResult result (λ r. r ≡ number +ℤ (a *ℤ b)) (λ _. Unit {0}) }
{
    let Some(product) = mul(a, b) else {
        return Err(Stop::TooWide);
    };
    match add(number, product) {
        Some(sum) => Ok(sum),
        None => Err(Stop::TooWide),
    }
}

impl From<Memory> for Stop {
    ghost use Rattle.std.specs.Prelude.{◌≡◌};
    ghost use Rattle.lin_reduce.specs.declared.line.Stop.TheVariants.{Memory};

    ghost from_gives = { λ _ e. e ≡ Memory };

    fn from(_want: Memory) -> Stop {
        Stop::Memory
    }
}
