//! What the search finds.

ghost use Rattle.std.specs.Prelude.{◌≡◌, ◌++◌, ◌∷◌, [], ◌*ℤ◌, ◌<ℤ◌, ◌<◌, pos, IfOk, length};
ghost use Rattle.math_cooper.specs.System.{affine_value};
ghost use Rattle.cooper_solve.specs.Back.{IsBack};

use crate::put::Linear;
use exact_quotient::exact_quotient;
use fast_fault::{LabelInt, Memory};
use std::alloc::Global;

/// A put of a step: the variable, the number of the condition whose bound is taken, and the offset from it. Where no
/// bound is taken, that number is the count of conditions.
#[derive(Clone, Copy, Debug, PartialEq, Eq)]
pub struct Put {
    pub variable: u64,
    pub bound: u64,
    pub offset: i128,
}

/// The values of the first eight variables, and the puts that lead to them, the first put last.
#[derive(Drop)]
pub struct Solution {
    pub values: Vec<LabelInt>,
    pub puts: Vec<Put>,
}

/// A solution; puts to a solution in which one of the first eight values is outside 64 bits; puts to a number outside
/// 128 bits; or that there is no solution. The first put stands last.
#[derive(Drop)]
pub enum Found {
    Solved(Solution),
    Far(Vec<Put>),
    Wide(Vec<Put>),
    Unsat,
}

/// The puts, and this one before them.
pub(crate) fn with_put(puts: Vec<Put>, put: Put) -> Result<Vec<Put>, Memory>
    ensures { IfOk result (λ r. r.items ≡ puts.items ++ put ∷ []) }
{
    let mut all = puts;
    all.push(put)?;
    Ok(all)
}

pub(crate) fn only_put(alloc: Global, put: Put) -> Result<Vec<Put>, Memory>
    ensures { IfOk result (λ r. r.items ≡ put ∷ []) }
{
    with_put(Vec::new(alloc), put)
}

/// The solution with the value of the last variable, `scale` times which the form is. A value past the first eight is
/// not kept.
pub(crate) fn go_back(
    solution: Solution,
    put: Put,
    form: &Linear,
    scale: i128,
    last: usize,
) -> Result<Found, Memory>
    requires fits { length form.now.coefficients ≡ last }
    requires scale { pos 0 <ℤ scale }
    requires values { last < 8 → length solution.values.items ≡ last }
    ensures { IfOk result (IsBack solution put form.now scale last) }
{
    let Solution { values, puts } = solution;
    let all = with_put(puts, put)?;
    if last >= 8 {
        return Ok(Found::Solved(Solution { values, puts: all }));
    }
    let Some(value) = exact_quotient(form.constant, &form.coefficients, &values, scale) else {
        return Ok(Found::Far(all));
    };
    let mut more = values;
    more.push(value as LabelInt)?;
    Ok(Found::Solved(Solution {
        values: more,
        puts: all,
    }))
}
