//! Two opposite inequalities with no whole numbers between them. That is looked for, and not shown: sums show it.

use cooper_solve::{Constraint, Relation};
use wide_num::{div_floor, gcd};

// The place of the first coefficient but 0.
fn first_place(row: &[i128]) -> Option<usize> {
    for (place, number) in row.iter().enumerate() {
        if *number != 0 {
            return Some(place);
        }
    }
    None
}

fn at(row: &[i128], place: usize) -> i128 {
    row.get(place).copied().unwrap_or(0)
}

// Whether the coefficients of the one are those of the other times a number below 0.
fn are_opposite(one: &[i128], other: &[i128]) -> bool {
    let Some(place) = first_place(one) else {
        return false;
    };
    let (own, opposite) = (at(one, place), at(other, place));
    if opposite == 0 || (own < 0) == (opposite < 0) {
        return false;
    }
    for k in 0..one.len() {
        let product = at(one, k).checked_mul(opposite);
        if product.is_none() || product != at(other, k).checked_mul(own) {
            return false;
        }
    }
    true
}

// The constant, where the inequality is divided by what divides its coefficients.
fn rounded(condition: &Constraint) -> Option<i128> {
    let mut common = 0;
    for number in &condition.coefficients {
        common = gcd(common, *number)?;
    }
    if common <= 0 {
        return None;
    }
    div_floor(condition.constant, common)
}

// Whether no whole numbers are between the two.
fn are_thin(one: &Constraint, other: &Constraint) -> bool {
    let (Relation::AtLeast, Relation::AtLeast) = (one.relation, other.relation) else {
        return false;
    };
    if !are_opposite(&one.coefficients, &other.coefficients) {
        return false;
    }
    let (Some(low), Some(high)) = (rounded(one), rounded(other)) else {
        return false;
    };
    low.saturating_add(high) < 0
}

/// Whether two of the conditions are opposite inequalities with no whole numbers between them.
pub(crate) fn some_thin(system: &[Constraint]) -> bool {
    for i in 0..system.len() {
        for j in 0..i {
            if are_thin(&system[i], &system[j]) {
                return true;
            }
        }
    }
    false
}
