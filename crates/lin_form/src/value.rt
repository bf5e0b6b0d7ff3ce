//! The value of a form, exact.

ghost use Rattle.std.specs.Prelude.{◌≡◌, ℕ, pos, ◌*ℤ◌, ◌<◌, ◌≤◌, ◌^◌, unsigned_abs, slice_index_or};
ghost use Rattle.model_tree.specs.Limits.{greatest_divisor};
ghost use Rattle.model_form.specs.Form.{value, terms_value, modulo};
ghost use Rattle.model_form.specs.Ranges.{AreFields, IsCoefficient};
ghost use Rattle.lin_form.specs.Terms.{plain_fields};

use crate::{Dividend, FieldTerm, Form};
use fast_fault::LabelInt;
use wide_num::rem;

impl Form {
    /// The value at these values of the fields, by the fields' numbers. A field past the list counts as 0.
    #[cycle(eval)]
    pub fn eval(&self, values: &[LabelInt]) -> i128
        ensures { result ≡ value self.now values.now }
    {
        let mut sum = self.constant + fields_value(&self.fields, values);
        for term in &self.remainders {
            let inner = term.inner.eval(values);
            sum += remainder_value(term.coefficient, inner, term.divisor);
        }
        sum
    }
}

impl Dividend {
    #[cycle(eval)]
    fn eval(&self, values: &[LabelInt]) -> i128
        ensures { result ≡ value self.now values.now }
    {
        let mut value = self.base.eval(values);
        for divisor in &self.divisors {
            value = rem(value, *divisor as i128);
        }
        value
    }
}

fn value_at(values: &[LabelInt], field: u32) -> LabelInt
    ensures { result ≡ slice_index_or values.now field (pos 0) }
{
    values.get(field as usize).copied().unwrap_or(0)
}

fn field_value(coefficient: i64, value: LabelInt) -> i128
    requires { IsCoefficient coefficient }
    ensures value { result ≡ coefficient *ℤ value }
    ensures small { unsigned_abs result ≤ 2 ^ 94 }
{
    coefficient as i128 * value as i128
}

fn remainder_value(coefficient: i64, inner: i128, divisor: u32) -> i128
    requires coefficient { IsCoefficient coefficient }
    requires some { 0 < divisor }
    requires few { divisor ≤ greatest_divisor }
    ensures value { result ≡ coefficient *ℤ modulo inner divisor }
    ensures small { unsigned_abs result ≤ 2 ^ 43 }
{
    coefficient as i128 * rem(inner, divisor as i128)
}

fn fields_value(terms: &[FieldTerm], values: &[LabelInt]) -> i128
    requires { AreFields 0 (plain_fields terms.now) }
    ensures value { result ≡ terms_value (plain_fields terms.now) values.now }
    ensures small { unsigned_abs result ≤ 2 ^ 97 }
{
    let mut sum = 0;
    for term in terms {
        sum += field_value(term.coefficient, value_at(values, term.field));
    }
    sum
}
