//! The form of a product by a number, and that of a remainder.

ghost use Rattle.std.specs.Prelude.{◌≡◌, ◌≢◌, ◌<◌, ◌≤◌, ℤ, pos, MatchResult, IfOk, OnOk, true};
ghost use Rattle.model_form.specs.Sums.{product_form, remainder_form, scaled_fields, scaled_remainders};
ghost use Rattle.model_tree.specs.Limits.{greatest_divisor};
ghost use Rattle.model_tree.specs.Range.{IsLabelNumber};
ghost use Rattle.model_form.specs.Ranges.{IsCoefficient, IsForm, IsOutside, IsOfFields, IsOfRemainders, AreFields, AreRemainders};
ghost use Rattle.lin_form.specs.Terms.{plain_fields, plain_remainders};
ghost use Rattle.lin_form.specs.Nest.{bare, is_bare};
ghost use Rattle.lin_form.specs.Stops.{StopsAt};

use crate::stop::{coefficient, constant};
use crate::{DEEPEST, Dividend, FieldTerm, Form, FormStop, RemTerm};
use fast_fault::Memory;
use std::alloc::Global;
use wide_num::rem;

impl Form {
    /// The form times a number.
    pub fn scaled(&self, alloc: Global, by: i128) -> Result<Form, FormStop>
        requires { IsLabelNumber by }
        ensures form { MatchResult result (λ form. form ≡ product_form by self.now) (λ stop. StopsAt (IsOutside (product_form by self.now)) stop) }
        ensures in_range { MatchResult result (λ form. (n : ℤ) → IsOutside form n → ⊥) (λ _. Unit {0}) }
    {
        if by == 0 {
            return Ok(Form::number(alloc, 0)?);
        }
        let constant = constant(by * self.constant)?;
        let fields = scaled_fields(alloc, by, &self.fields)?;
        let remainders = scaled_remainders(alloc, by, &self.remainders)?;
        Ok(Form {
            constant,
            fields,
            remainders,
            depth: self.depth,
        })
    }

    /// The form's remainder by a number.
    pub fn remainder(&self, alloc: Global, by: u32) -> Result<Form, FormStop>
        requires some { 0 < by }
        requires few { by ≤ greatest_divisor }
        ensures { MatchResult result (λ form. form ≡ remainder_form self.now by) (λ stop. stop ≡ FormStop.Memory) }
    {
        self.copy(alloc)?.into_remainder(alloc, by)
    }

    /// The form's remainder by a number, in constant time: a chain of remainders is built in linear time by it, however
    /// long it is. Other forms that would nest deeper than the deepest are told as want of memory.
    pub fn into_remainder(self, alloc: Global, by: u32) -> Result<Form, FormStop>
        requires some { 0 < by }
        requires few { by ≤ greatest_divisor }
        ensures { MatchResult result (λ form. form ≡ remainder_form self by) (λ stop. stop ≡ FormStop.Memory) }
    {
        if self.fields.is_empty() && self.remainders.is_empty() {
            return Ok(Form::number(alloc, rem(self.constant, by as i128))?);
        }
        if self.is_bare() {
            return Ok(self.divided(by)?);
        }
        let depth = self.depth + 1;
        if depth > DEEPEST {
            return Err(FormStop::Memory);
        }
        let mut remainders = Vec::new(alloc);
        remainders.push(RemTerm {
            coefficient: 1,
            inner: Dividend {
                base: self,
                divisors: Vec::new(alloc),
            },
            divisor: by,
        })?;
        Ok(Form {
            constant: 0,
            fields: Vec::new(alloc),
            remainders,
            depth,
        })
    }

    // Whether the form is a remainder, and nothing more.
    fn is_bare(&self) -> bool
        ensures { result ≡ is_bare self.now }
    {
        if self.constant != 0 {
            return false;
        }
        if !self.fields.is_empty() {
            return false;
        }
        if self.remainders.len() != 1 {
            return false;
        }
        self.remainders[0].coefficient == 1
    }

    // The remainder of a remainder: the first one's divisor goes to the others.
    fn divided(self, by: u32) -> Result<Form, Memory>
        requires bare { is_bare self ≡ true }
        requires some { 0 < by }
        requires few { by ≤ greatest_divisor }
        ensures { IfOk result (λ form. form ≡ remainder_form self by) }
    {
        let mut remainders = self.remainders;
        let term = &mut remainders[0];
        term.inner.push(term.divisor)?;
        term.divisor = by;
        Ok(Form {
            constant: self.constant,
            fields: self.fields,
            remainders,
            depth: self.depth,
        })
    }
}

impl Dividend {
    // The remainder of it by a number.
    fn push(&mut self, by: u32) -> Result<(), Memory>
        requires some { 0 < by }
        requires few { by ≤ greatest_divisor }
        ensures { OnOk result (self.new ≡ bare self.old by) }
    {
        self.divisors.push(by)?;
        Ok(())
    }
}

fn scaled_fields(alloc: Global, by: i128, terms: &[FieldTerm]) -> Result<Vec<FieldTerm>, FormStop>
    requires by { IsLabelNumber by }
    requires terms { AreFields 0 (plain_fields terms.now) }
    requires some { by ≢ pos 0 }
    ensures { MatchResult result (λ made. (plain_fields made.items ≡ scaled_fields by (plain_fields terms.now)) × AreFields 0 (plain_fields made.items)) (λ stop. StopsAt (λ n. IsOfFields n (scaled_fields by (plain_fields terms.now)) × (IsCoefficient n → ⊥)) stop) }
{
    let mut made = Vec::new(alloc);
    for term in terms {
        made.push(FieldTerm {
            field: term.field,
            coefficient: coefficient(by * term.coefficient as i128)?,
        })?;
    }
    Ok(made)
}

fn scaled_remainders(alloc: Global, by: i128, terms: &[RemTerm]) -> Result<Vec<RemTerm>, FormStop>
    requires by { IsLabelNumber by }
    requires terms { AreRemainders (plain_remainders terms.now) }
    requires some { by ≢ pos 0 }
    ensures { MatchResult result (λ made. (plain_remainders made.items ≡ scaled_remainders by (plain_remainders terms.now)) × AreRemainders (plain_remainders made.items)) (λ stop. StopsAt (λ n. IsOfRemainders n (scaled_remainders by (plain_remainders terms.now)) × (IsCoefficient n → ⊥)) stop) }
{
    let mut made = Vec::new(alloc);
    for term in terms {
        let coefficient = coefficient(by * term.coefficient as i128)?;
        made.push(RemTerm {
            coefficient,
            inner: term.inner.copy(alloc)?,
            divisor: term.divisor,
        })?;
    }
    Ok(made)
}
