//! Forms are equal where they have the same terms in any order and the same constant.

ghost use Rattle.std.specs.Prelude.{◌≡◌, ◌↔◌, IsTrue};
ghost use Rattle.model_form.specs.Form.{height};
ghost use Rattle.model_form.specs.Same.{same_form, ordered, members, IsIn};
ghost use Rattle.lin_form.specs.Terms.{plain_fields, plain_remainders, member};

use crate::{Dividend, FieldTerm, Form, RemTerm};
use std::hash::{Hash, Hasher};

impl PartialEq for Form {
    ghost use Rattle.model_form.specs.Same.{same_form};
    ghost use Rattle.std.specs.Cmp.{partial_equiv_from_equiv};
    ghost use Rattle.model_form.proofs.Equals.{same_laws};

    ghost eq = { same_form };

    ghost laws = { partial_equiv_from_equiv same_laws };

    fn eq(&self, other: &Form) -> bool {
        self.is_same(other)
    }
}

impl Eq for Form {
    ghost use Rattle.model_form.proofs.Equals.{same_laws};

    ghost laws = { same_laws };
}

// Equal forms have the same constant and as many terms.
impl Hash for Form {
    ghost use Rattle.lin_form.specs.Hashed.{hashed, same_hashed};

    ghost hash_input = { hashed };

    ghost respects_eq = { same_hashed };

    fn hash<H: Hasher>(&self, state: &mut H) {
        self.constant.hash(state);
        self.fields.len().hash(state);
        self.remainders.len().hash(state);
    }
}

impl Form {
    #[cycle(same)]
    pub(crate) fn is_same(&self, other: &Form) -> bool
        ensures { result ≡ same_form self.now other.now }
    {
        if self.constant != other.constant {
            return false;
        }
        if !same_fields(&self.fields, &other.fields) {
            return false;
        }
        let terms = self.remainders.as_slice();
        let others = other.remainders.as_slice();
        if terms.len() != others.len() {
            return false;
        }
        for term in terms {
            if !has(others, term) {
                return false;
            }
        }
        true
    }
}

impl Dividend {
    /// Whether they are equal.
    #[cycle(same)]
    pub fn is_same(&self, other: &Dividend) -> bool
        ensures { result ≡ same_form self.now other.now }
    {
        same_divisors(&self.divisors, &other.divisors) && self.base.is_same(&other.base)
    }
}

fn same_divisors(divisors: &[u32], others: &[u32]) -> bool
    ensures { IsTrue result ↔ (divisors.now ≡ others.now) }
{
    divisors == others
}

fn same_fields(terms: &[FieldTerm], others: &[FieldTerm]) -> bool
    ensures { IsTrue result ↔ (plain_fields terms.now ≡ plain_fields others.now) }
{
    terms == others
}

// Whether an equal term is among these.
#[cycle(same)]
fn has(terms: &[RemTerm], term: &RemTerm) -> bool
    ensures { IsTrue result ↔ IsIn (member term.now) (members (plain_remainders terms.now)) }
{
    for other in terms {
        if term.coefficient == other.coefficient
            && term.divisor == other.divisor
            && term.inner.is_same(&other.inner)
        {
            return true;
        }
    }
    false
}
