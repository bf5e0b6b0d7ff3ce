//! Sums of inequalities, by which some systems are seen to have no solution.
//!
//! Fourier's elimination: each inequality with a positive coefficient of a variable is added to each with a negative one, so
//! that the variable is gone; where at last a negative constant would be at least 0, there is no solution. Since variables
//! are whole, each is divided by what divides its coefficients, and its constant rounded down. What grows too great is
//! left out.

ghost use Rattle.std.specs.Prelude.{◌≡◌, ◌≤ℤ◌, pos, ℕ, ℤ, List, IfOk, IfSome, IsTrue, MatchOption, MatchResult, length, map, ◌+ℤ◌, ◌*ℤ◌};
ghost use Rattle.std.specs.List.{All};
ghost use Rattle.math_cooper.specs.System.{Solves, Holds, add_times};
ghost use Rattle.cooper_solve.specs.Sums.{AreAtLeast, IsAtLeast};

use crate::constraint::{Constraint, Relation, Stop};
use crate::put::{Linear, plus};
use crate::scale::times;
use fast_fault::Memory;
use std::alloc::{AllocError, Global};
use wide_num::{add, div_floor, gcd, mul};

// How many sums there may be.
const MOST: usize = 120;

// The greatest common divisor, or 1 where it is too great.
fn common_divisor(row: &[i128]) -> i128 {
    let mut common = 0;
    for number in row {
        common = gcd(common, *number).unwrap_or(1);
        if common == 1 {
            return 1;
        }
    }
    common
}

// The numbers that are so many times less, if there are such.
fn divided_row(alloc: Global, row: &[i128], by: i128) -> Result<Option<Vec<i128>>, AllocError>
    ensures { IfOk result (λ found. IfSome found (λ v. map (λ a. by *ℤ a) v.items ≡ row.now)) }
{
    let mut out = Vec::new(alloc);
    for number in row {
        let quotient = number.checked_div(by).unwrap_or(0);
        let Some(product) = mul(by, quotient) else {
            return Ok(None);
        };
        if product != *number {
            return Ok(None);
        }
        out.push(quotient)?;
    }
    Ok(Some(out))
}

// The inequality over whole numbers that follows when all is divided by what divides the coefficients.
fn tightened(alloc: Global, form: Linear) -> Result<Linear, AllocError>
    ensures { IfOk result (λ r. (vs : List ℤ) → IsAtLeast vs form → IsAtLeast vs r) }
{
    let by = common_divisor(&form.coefficients);
    if by <= 1 {
        return Ok(form);
    }
    let Some(coefficients) = divided_row(alloc, &form.coefficients, by)? else {
        return Ok(form);
    };
    let Some(constant) = div_floor(form.constant, by) else {
        return Ok(form);
    };
    Ok(Linear {
        constant,
        coefficients,
    })
}

// The condition at the end, if it is an inequality.
fn push_inequality(
    alloc: Global,
    constraint: &Constraint,
    out: &mut Vec<Linear>,
) -> Result<(), AllocError>
    ensures { IfOk result (λ _. (vs : List ℤ) → Holds vs constraint.now → AreAtLeast vs out.old.items → AreAtLeast vs out.new.items) }
{
    match constraint.relation {
        Relation::AtLeast => {
            let coefficients = Vec::from_slice(alloc, &constraint.coefficients)?;
            let whole = Linear {
                constant: constraint.constant,
                coefficients,
            };
            out.push(tightened(alloc, whole)?)?;
            Ok(())
        }
        Relation::Divided(_) => Ok(()),
    }
}

// The inequalities.
fn inequalities(alloc: Global, system: &[Constraint]) -> Result<Vec<Linear>, AllocError>
    ensures { IfOk result (λ r. (vs : List ℤ) → Solves vs system.now → AreAtLeast vs r.items) }
{
    let mut out = Vec::new(alloc);
    for constraint in system {
        push_inequality(alloc, constraint, &mut out)?;
    }
    Ok(out)
}

fn mixed_constant(a: i128, x: i128, b: i128, y: i128) -> Option<i128>
    ensures { MatchOption result (Unit {0}) (λ r. r ≡ (a *ℤ x) +ℤ (b *ℤ y)) }
{
    let one = mul(a, x)?;
    let two = mul(b, y)?;
    add(one, two)
}

fn mixed_row(alloc: Global, a: i128, f: &[i128], b: i128, g: &[i128]) -> Result<Vec<i128>, Stop>
    requires { length f.now ≡ length g.now }
    ensures { MatchResult result (λ v. v.items ≡ add_times (pos 1) (map (λ x. a *ℤ x) f.now) (map (λ y. b *ℤ y) g.now)) (λ _. Unit {0}) }
{
    let first = times(alloc, a, f)?;
    let second = times(alloc, b, g)?;
    plus(alloc, false, &first, &second)
}

// So many times the one and so many times the other.
fn mixed(alloc: Global, a: i128, f: &Linear, b: i128, g: &Linear) -> Result<Linear, Stop>
    requires a { pos 0 ≤ℤ a }
    requires b { pos 0 ≤ℤ b }
    ensures { MatchResult result (λ r. (vs : List ℤ) → IsAtLeast vs f.now → IsAtLeast vs g.now → IsAtLeast vs r) (λ _. Unit {0}) }
{
    if f.coefficients.len() != g.coefficients.len() {
        return Err(Stop::TooWide);
    }
    let Some(constant) = mixed_constant(a, f.constant, b, g.constant) else {
        return Err(Stop::TooWide);
    };
    let coefficients = mixed_row(alloc, a, &f.coefficients, b, &g.coefficients)?;
    Ok(Linear {
        constant,
        coefficients,
    })
}

fn coefficient(form: &Linear, variable: usize) -> i128 {
    form.coefficients.get(variable).copied().unwrap_or(0)
}

// The sum of both without the variable, which has a positive coefficient in the first and a negative one in the second.
fn without(alloc: Global, f: &Linear, g: &Linear, variable: usize) -> Result<Linear, Stop>
    ensures { MatchResult result (λ r. (vs : List ℤ) → IsAtLeast vs f.now → IsAtLeast vs g.now → IsAtLeast vs r) (λ _. Unit {0}) }
{
    let (x, y) = (coefficient(f, variable), coefficient(g, variable));
    let Some(common) = gcd(x, y) else {
        return Err(Stop::TooWide);
    };
    if common <= 0 || x <= 0 || y >= 0 {
        return Err(Stop::TooWide);
    }
    let (Some(a), Some(b)) = (y.checked_div(common), x.checked_div(common)) else {
        return Err(Stop::TooWide);
    };
    let Some(turned) = a.checked_neg() else {
        return Err(Stop::TooWide);
    };
    if turned < 0 || b < 0 {
        return Err(Stop::TooWide);
    }
    mixed(alloc, turned, f, b, g)
}

// Their sum without the variable at the end, where its numbers are in range.
fn push_sum(
    alloc: Global,
    f: &Linear,
    g: &Linear,
    variable: usize,
    out: &mut Vec<Linear>,
) -> Result<(), Memory>
    ensures { IfOk result (λ _. (vs : List ℤ) → IsAtLeast vs f.now → IsAtLeast vs g.now → AreAtLeast vs out.old.items → AreAtLeast vs out.new.items) }
{
    match without(alloc, f, g, variable) {
        Ok(sum) => {
            out.push(tightened(alloc, sum)?)?;
            Ok(())
        }
        Err(Stop::TooWide) => Ok(()),
        Err(Stop::Memory) => Err(Memory),
    }
}

// The sums of one with all others that lack the variable then, at the end.
fn push_sums(
    alloc: Global,
    forms: &[Linear],
    form: &Linear,
    variable: usize,
    out: &mut Vec<Linear>,
) -> Result<(), Memory>
    ensures { IfOk result (λ _. (vs : List ℤ) → AreAtLeast vs forms.now → IsAtLeast vs form.now → AreAtLeast vs out.old.items → AreAtLeast vs out.new.items) }
{
    for other in forms {
        if out.len() >= MOST || coefficient(other, variable) >= 0 {
            continue;
        }
        push_sum(alloc, form, other, variable, out)?;
    }
    Ok(())
}

// The inequality at the end of those that lack the variable, or of those that have it.
fn part(
    form: Linear,
    variable: usize,
    others: &mut Vec<Linear>,
    own: &mut Vec<Linear>,
) -> Result<(), Memory>
    ensures { IfOk result (λ _. (vs : List ℤ) → IsAtLeast vs form → (AreAtLeast vs others.old.items → AreAtLeast vs others.new.items) × (AreAtLeast vs own.old.items → AreAtLeast vs own.new.items)) }
{
    if coefficient(&form, variable) == 0 {
        others.push(form)?;
    } else {
        own.push(form)?;
    }
    Ok(())
}

// The sums without the variable of these, which have it, at the end.
fn push_all_sums(
    alloc: Global,
    own: &[Linear],
    variable: usize,
    out: &mut Vec<Linear>,
) -> Result<(), Memory>
    ensures { IfOk result (λ _. (vs : List ℤ) → AreAtLeast vs own.now → AreAtLeast vs out.old.items → AreAtLeast vs out.new.items) }
{
    for form in own {
        if coefficient(form, variable) > 0 {
            push_sums(alloc, own, form, variable, out)?;
        }
    }
    Ok(())
}

// The inequalities that lack the variable, and the sums that do.
fn eliminated(alloc: Global, forms: Vec<Linear>, variable: usize) -> Result<Vec<Linear>, Memory>
    ensures { IfOk result (λ r. (vs : List ℤ) → AreAtLeast vs forms.items → AreAtLeast vs r.items) }
{
    let mut out = Vec::new(alloc);
    let mut own = Vec::new(alloc);
    for form in forms {
        part(form, variable, &mut out, &mut own)?;
    }
    push_all_sums(alloc, &own, variable, &mut out)?;
    Ok(out)
}

// Whether a negative constant would be at least 0.
fn is_false(form: &Linear) -> bool
    ensures { IsTrue result → (vs : List ℤ) → IsAtLeast vs form.now → ⊥ }
{
    for number in &form.coefficients {
        if *number != 0 {
            return false;
        }
    }
    form.constant < 0
}

fn any_false(forms: &[Linear]) -> bool
    ensures { IsTrue result → (vs : List ℤ) → AreAtLeast vs forms.now → ⊥ }
{
    for form in forms {
        if is_false(form) {
            return true;
        }
    }
    false
}

// How many sums a variable makes, and with which coefficients it stands in inequalities.
#[derive(Clone, Copy)]
struct Price {
    positive: usize,
    negative: usize,
    ones: usize,
    minus_ones: usize,
}

impl Price {
    fn of(forms: &[Linear], variable: usize) -> Price {
        let mut price = Price {
            positive: 0,
            negative: 0,
            ones: 0,
            minus_ones: 0,
        };
        for form in forms {
            let lead = coefficient(form, variable);
            if lead > 0 {
                price.positive = price.positive.saturating_add(1);
            }
            if lead < 0 {
                price.negative = price.negative.saturating_add(1);
            }
            if lead == 1 {
                price.ones = price.ones.saturating_add(1);
            }
            if lead == -1 {
                price.minus_ones = price.minus_ones.saturating_add(1);
            }
        }
        price
    }

    // Whether its sums say of whole numbers all that the inequalities say (0), or may do so where it has one value (1).
    fn loss(self) -> usize {
        if self.ones == self.positive || self.minus_ones == self.negative {
            return 0;
        }
        if self.ones > 0 && self.minus_ones > 0 {
            return 1;
        }
        2
    }

    fn sums(self) -> usize {
        self.positive.saturating_mul(self.negative)
    }

    // Whether it is the variable of some inequality, and better than the other.
    fn is_less(self, other: Option<Price>) -> bool {
        if self.positive == 0 && self.negative == 0 {
            return false;
        }
        match other {
            None => true,
            Some(other) => {
                self.loss() < other.loss()
                    || (self.loss() == other.loss() && self.sums() < other.sums())
            }
        }
    }
}

// The variable that makes the fewest sums, of those that lose nothing if there are such. One is kept.
fn cheapest(forms: &[Linear], count: usize, kept: Option<usize>) -> Option<usize> {
    let mut best = None;
    let mut least = None;
    for variable in 0..count {
        let price = Price::of(forms, variable);
        if kept != Some(variable) && price.is_less(least) {
            least = Some(price);
            best = Some(variable);
        }
    }
    best
}

/// Whether sums of inequalities show that no values meet the system: some that none do aren't found.
pub fn is_hopeless(alloc: Global, system: &[Constraint], count: usize) -> Result<bool, Memory>
    ensures { IfOk result (λ hopeless. IsTrue hopeless → (vs : List ℤ) → Solves vs system.now → ⊥) }
{
    let mut forms = inequalities(alloc, system)?;
    for _ in 0..count {
        if any_false(&forms) {
            return Ok(true);
        }
        match cheapest(&forms, count, None) {
            None => return Ok(false),
            Some(variable) => forms = eliminated(alloc, forms, variable)?,
        }
    }
    Ok(any_false(&forms))
}

/// From where and how far a variable may go, where sums of inequalities say so: it need not go so far.
#[derive(Clone, Copy)]
pub struct Reach {
    pub low: Option<i128>,
    pub high: Option<i128>,
}

impl Reach {
    // What is left by an inequality with no other variable.
    fn narrowed(self, form: &Linear, variable: usize) -> Reach {
        let lead = coefficient(form, variable);
        let quotient = match lead.checked_abs() {
            Some(size) if size > 0 => div_floor(form.constant, size),
            _ => None,
        };
        let Some(bound) = quotient else {
            return self;
        };
        if lead < 0 {
            return match self.high {
                Some(high) if high <= bound => self,
                _ => Reach {
                    low: self.low,
                    high: Some(bound),
                },
            };
        }
        match (self.low, bound.checked_neg()) {
            (_, None) => self,
            (Some(low), Some(least)) if low >= least => self,
            (_, least) => Reach {
                low: least,
                high: self.high,
            },
        }
    }
}

/// The reach of a variable.
pub fn reach_of(
    alloc: Global,
    system: &[Constraint],
    count: usize,
    variable: usize,
) -> Result<Reach, Memory> {
    let mut forms = inequalities(alloc, system)?;
    for _ in 0..count {
        match cheapest(&forms, count, Some(variable)) {
            None => break,
            Some(other) => forms = eliminated(alloc, forms, other)?,
        }
    }
    let mut reach = Reach {
        low: None,
        high: None,
    };
    for form in &forms {
        reach = reach.narrowed(form, variable);
    }
    Ok(reach)
}
