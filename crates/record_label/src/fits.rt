//! Whether forms speak of fields that there are.

ghost use Rattle.std.specs.Prelude.{◌↔◌, IsTrue};
ghost use Rattle.model_form.specs.Over.{AreBelow, IsOver};
ghost use Rattle.lin_form.specs.Terms.{plain_fields};
ghost use Rattle.lin_solve.specs.Wholes.{CompareFits};

use lin_form::{FieldTerm, Form, RemTerm};
use lin_solve::Compare;

/// Whether the terms are of the first so many fields.
fn are_below(terms: &[FieldTerm], fields: u32) -> bool
    ensures { IsTrue result ↔ AreBelow fields (plain_fields terms.now) }
{
    for term in terms {
        if term.field >= fields {
            return false;
        }
    }
    true
}

/// Whether the form is over the first so many fields.
#[cycle(over)]
fn is_over(form: &Form, fields: u32) -> bool
    ensures { IsTrue result ↔ IsOver fields form.now }
{
    if !are_below(form.fields(), fields) {
        return false;
    }
    for term in form.remainders() {
        if !is_over_within(term, fields) {
            return false;
        }
    }
    true
}

/// Whether what the remainder is taken of is.
#[cycle(over)]
fn is_over_within(term: &RemTerm, fields: u32) -> bool
    ensures { IsTrue result ↔ IsOver fields term.now.inner }
{
    is_over(term.innermost().0, fields)
}

/// Whether both sides of the comparison are.
pub fn compare_fits(compare: &Compare, fields: u32) -> bool
    ensures { IsTrue result ↔ CompareFits fields compare.now }
{
    is_over(&compare.left, fields) && is_over(&compare.right, fields)
}
