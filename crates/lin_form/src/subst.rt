//! Forms that are put for fields.

ghost use Rattle.std.specs.Prelude.{◌≡◌, ℤ, ◌≤◌, ◌^◌, MatchResult, OnOk, unsigned_abs};
ghost use Rattle.model_form.specs.Sums.{subst_form, put_fields};
ghost use Rattle.model_form.specs.Ranges.{IsOutsideAfter, AreFields};
ghost use Rattle.lin_form.specs.Within.{IsGathered};
ghost use Rattle.lin_form.specs.Terms.{plain_fields};
ghost use Rattle.lin_form.specs.Gathered.{plain_sum};
ghost use Rattle.lin_form.specs.Stops.{StopsAt};

use crate::sum::Sum;
use crate::{Dividend, FieldTerm, Form, FormStop};
use fast_fault::Memory;
use std::alloc::Global;

impl Form {
    /// The form with a form put for each field, by the fields' numbers: it is built anew from the inside out, so a
    /// number outside may be one of an inner form. A field past the list counts as 0.
    #[cycle(subst)]
    pub fn subst(&self, alloc: Global, forms: &[Form]) -> Result<Form, FormStop>
        ensures form { MatchResult result (λ form. form ≡ subst_form self.now forms.now) (λ stop. StopsAt (IsOutsideAfter self.now forms.now) stop) }
        ensures in_range { MatchResult result (λ _. (n : ℤ) → IsOutsideAfter self.now forms.now n → ⊥) (λ _. Unit {0}) }
    {
        let mut sum = Sum::of(alloc, self.constant);
        put_fields(alloc, &mut sum, &self.fields, forms)?;
        for term in &self.remainders {
            let inner = term.inner.subst(alloc, forms)?;
            sum.add_remainder(alloc, term.coefficient, inner, term.divisor)?;
        }
        sum.finish(alloc)
    }
}

impl Dividend {
    #[cycle(subst)]
    fn subst(&self, alloc: Global, forms: &[Form]) -> Result<Form, FormStop>
        ensures form { MatchResult result (λ form. form ≡ subst_form self.now forms.now) (λ stop. StopsAt (IsOutsideAfter self.now forms.now) stop) }
        ensures in_range { MatchResult result (λ _. (n : ℤ) → IsOutsideAfter self.now forms.now n → ⊥) (λ _. Unit {0}) }
    {
        let mut form = self.base.subst(alloc, forms)?;
        for divisor in &self.divisors {
            form = form.into_remainder(alloc, *divisor)?;
        }
        Ok(form)
    }
}

// Within the recursion over inner forms this would take of the stack at each level, so it stays a call.
#[inline(never)]
fn put_fields(
    alloc: Global,
    sum: &mut Sum,
    terms: &[FieldTerm],
    forms: &[Form],
) -> Result<(), Memory>
    requires terms { AreFields 0 (plain_fields terms.now) }
    requires gathered { IsGathered 0 (plain_sum sum.old) }
    requires constant { unsigned_abs sum.old.constant ≤ 2 ^ 63 }
    ensures sum { OnOk result (plain_sum sum.new ≡ put_fields (plain_fields terms.now) forms.now (plain_sum sum.old)) }
    ensures gathered { OnOk result (IsGathered 8 (plain_sum sum.new)) }
    ensures constant { OnOk result (unsigned_abs sum.new.constant ≤ 2 ^ 98) }
{
    for term in terms {
        let Some(form) = forms.get(term.field as usize) else {
            continue;
        };
        sum.add(alloc, term.coefficient as i128, form)?;
    }
    Ok(())
}
