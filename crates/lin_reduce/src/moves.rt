//! Changes of variables, each of which keeps whether there is a solution.

use crate::line::{Kind, Line, Stop, plus_times};
use std::alloc::Global;
use wide_num::mul;

/// One variable less so many times another stands for it.
#[derive(Clone, Copy)]
pub(crate) struct Shear {
    pub(crate) of: usize,
    pub(crate) by: usize,
    pub(crate) times: i128,
}

/// So many times a new variable, and a rest, is the variable.
#[derive(Clone, Copy)]
pub(crate) struct Scale {
    pub(crate) of: usize,
    pub(crate) times: i128,
    pub(crate) rest: i128,
}

impl Line {
    fn sheared(self, shear: Shear) -> Result<Line, Stop> {
        let mut coefficients = self.coefficients;
        if shear.by >= coefficients.len() || shear.of >= coefficients.len() {
            return Err(Stop::TooWide);
        }
        let sum = plus_times(coefficients[shear.by], shear.times, coefficients[shear.of])?;
        coefficients[shear.by] = sum;
        Ok(Line {
            kind: self.kind,
            constant: self.constant,
            coefficients,
        })
    }

    fn scaled(&self, alloc: Global, scale: Scale) -> Result<Line, Stop> {
        let mut coefficients = Vec::from_slice(alloc, &self.coefficients)?;
        if scale.of >= coefficients.len() {
            return Err(Stop::TooWide);
        }
        let own = coefficients[scale.of];
        let constant = plus_times(self.constant, scale.rest, own)?;
        let Some(product) = mul(scale.times, own) else {
            return Err(Stop::TooWide);
        };
        coefficients[scale.of] = product;
        Ok(Line {
            kind: self.kind,
            constant,
            coefficients,
        })
    }
}

/// The lines after the change of one variable by another.
pub(crate) fn shear_all(alloc: Global, lines: Vec<Line>, shear: Shear) -> Result<Vec<Line>, Stop> {
    let mut out = Vec::new(alloc);
    for line in lines {
        out.push(line.sheared(shear)?)?;
    }
    Ok(out)
}

/// The lines with a new variable for one.
pub(crate) fn scale_all(alloc: Global, lines: &[Line], scale: Scale) -> Result<Vec<Line>, Stop> {
    let mut out = Vec::new(alloc);
    for line in lines {
        out.push(line.scaled(alloc, scale)?)?;
    }
    Ok(out)
}

/// The lines, of which nothing is said any more of the one at a place.
pub(crate) fn release(alloc: Global, lines: &[Line], place: usize) -> Result<Vec<Line>, Stop> {
    let mut out = Vec::new(alloc);
    for i in 0..lines.len() {
        let kind = if i == place {
            Kind::Free
        } else {
            lines[i].kind
        };
        out.push(lines[i].copy_as(alloc, kind)?)?;
    }
    Ok(out)
}
