//! Forms that are put for the fields of literals.

ghost use Rattle.std.specs.Prelude.{◌≡◌, ◌<◌, ℤ, List, IfOk, MatchOption, length, slice_index_or, slice_set, pos};
ghost use Rattle.model_form.specs.Form.{value};
ghost use Rattle.model_form.specs.Meaning.{values_of, AreFormsLow};
ghost use Rattle.model_chain.specs.Literals.{compare_holds};
ghost use Rattle.lin_solve.specs.Plain.{plain_compare};
ghost use Rattle.lin_solve.specs.Branches.{ArePut, NeverPut};
ghost use Rattle.lin_solve.specs.Equations.{HoldAlso};

use crate::cases::{Case, is_lost};
use crate::compare::Compare;
use crate::repeats::copy_literal;
use fast_fault::Memory;
use label_core::Lit;
use lin_form::{Form, FormStop};
use std::alloc::Global;

fn form_at(alloc: Global, field: u32, own: u32, form: &Form) -> Result<Form, FormStop>
    requires field { field < 8 }
    requires own { own < 8 }
    ensures { IfOk result (λ f. (vs : List ℤ) → length vs ≡ 8 → value f vs ≡ slice_index_or (slice_set vs own (value form.now vs)) field (pos 0)) }
{
    if field == own {
        return Ok(form.copy(alloc)?);
    }
    Ok(Form::field(alloc, field)?)
}

/// Each field's own form, but for one field.
pub(crate) fn forms_with(alloc: Global, own: u32, form: &Form) -> Result<Vec<Form>, FormStop>
    requires { own < 8 }
    ensures forms { IfOk result (λ fs. (vs : List ℤ) → length vs ≡ 8 → values_of fs.items vs ≡ slice_set vs own (value form.now vs)) }
    ensures low { IfOk result (λ fs. AreFormsLow fs.items) }
{
    let mut forms = Vec::new(alloc);
    for field in 0..8 {
        let form = form_at(alloc, field, own, form)?;
        form.constant();
        forms.push(form)?;
    }
    Ok(forms)
}

fn simpler(alloc: Global, form: &Form) -> Result<Form, FormStop>
    ensures { IfOk result (λ f. (vs : List ℤ) → value f vs ≡ value form.now vs) }
{
    form.constant();
    form.simpler(alloc)
}

// The form where these are put for the fields, made simpler.
fn put(alloc: Global, form: &Form, forms: &[Form]) -> Result<Form, FormStop>
    requires { AreFormsLow forms.now }
    ensures { IfOk result (λ f. (vs : List ℤ) → value f vs ≡ value form.now (values_of forms.now vs)) }
{
    let put = form.subst(alloc, forms)?;
    simpler(alloc, &put)
}

/// The literal where these are put for the fields.
pub(crate) fn put_literal(
    alloc: Global,
    literal: &Lit<Compare>,
    forms: &[Form],
) -> Result<Lit<Compare>, FormStop>
    requires { AreFormsLow forms.now }
    ensures { IfOk result (λ l. (l.sign ≡ literal.now.sign) × ((vs : List ℤ) → compare_holds (plain_compare l.atom) vs ≡ compare_holds (plain_compare literal.now.atom) (values_of forms.now vs))) }
{
    let left = put(alloc, &literal.atom.left, forms)?;
    let right = put(alloc, &literal.atom.right, forms)?;
    Ok(Lit {
        atom: Compare {
            left,
            relation: literal.atom.relation,
            right,
        },
        sign: literal.sign,
    })
}

/// Each literal where these are put for the fields, unless one of them never holds then.
pub(crate) fn put_unless_lost(
    alloc: Global,
    literals: &[Lit<Compare>],
    forms: &[Form],
) -> Result<Option<Vec<Lit<Compare>>>, FormStop>
    requires { AreFormsLow forms.now }
    ensures { IfOk result (λ found. MatchOption found (NeverPut literals.now forms.now) (λ r. ArePut literals.now forms.now r.items)) }
{
    let all = Case::all();
    let mut out = Vec::new(alloc);
    for literal in literals {
        let own = put_literal(alloc, literal, forms)?;
        if is_lost(&own, &all) {
            return Ok(None);
        }
        out.push(own)?;
    }
    Ok(Some(out))
}

fn simpler_compare(alloc: Global, atom: &Compare) -> Result<Compare, FormStop>
    ensures { IfOk result (λ c. (vs : List ℤ) → compare_holds (plain_compare c) vs ≡ compare_holds (plain_compare atom.now) vs) }
{
    Ok(Compare {
        left: simpler(alloc, &atom.left)?,
        relation: atom.relation,
        right: simpler(alloc, &atom.right)?,
    })
}

// The literal made simpler; itself, where its numbers would be too great.
fn simpler_literal(alloc: Global, literal: &Lit<Compare>) -> Result<Lit<Compare>, Memory>
    ensures { IfOk result (λ l. (l.sign ≡ literal.now.sign) × ((vs : List ℤ) → compare_holds (plain_compare l.atom) vs ≡ compare_holds (plain_compare literal.now.atom) vs)) }
{
    match simpler_compare(alloc, &literal.atom) {
        Ok(atom) => Ok(Lit {
            atom,
            sign: literal.sign,
        }),
        Err(FormStop::Range(_)) => copy_literal(alloc, literal),
        Err(FormStop::Memory) => Err(Memory),
    }
}

/// Each literal made simpler.
pub(crate) fn simpler_each(
    alloc: Global,
    literals: &[Lit<Compare>],
) -> Result<Vec<Lit<Compare>>, Memory>
    ensures { IfOk result (λ r. HoldAlso literals.now r.items) }
{
    let mut out = Vec::new(alloc);
    for literal in literals {
        out.push(simpler_literal(alloc, literal)?)?;
    }
    Ok(out)
}
