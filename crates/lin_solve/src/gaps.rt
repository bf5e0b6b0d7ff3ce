//! Literals as facts on the values of forms, of which equal ones stand once: by them alone some literals can't hold together.

ghost use Rattle.std.specs.Prelude.{◌≡◌, ◌<◌, ℕ, ℤ, ◌-ℤ◌, IfOk, IfSome, MatchOption, IsTrue, List, length, slice_index_or, pos, true};
ghost use Rattle.model_form.specs.Form.{Form as PlainForm, constant_of, value};
ghost use Rattle.model_form.specs.Meaning.{values_of};
ghost use Rattle.model_form.specs.Same.{same_form};
ghost use Rattle.model_tree.specs.Range.{IsLabelNumber};
ghost use Rattle.model_chain.specs.Literals.{HoldsAll, compare_holds};
ghost use Rattle.lin_solve.specs.Plain.{plain_compare, plain_literals};
ghost use Rattle.lin_solve.specs.Said.{AreSo, IsParted};

use crate::compare::Compare;
use crate::said::{Fact, is_clash, said_at};
use fast_fault::Memory;
use label_core::Lit;
use lin_form::{Form, FormStop, Signed};
use std::alloc::Global;

// The left side less the right one is the form's value less the number, or else the number less the form's value.
#[derive(Drop)]
struct Gap {
    form: Form,
    minus: bool,
    number: i128,
}

/// The difference, where its numbers are in range.
pub(crate) fn less(alloc: Global, left: &Form, right: &Form) -> Result<Option<Form>, Memory>
    ensures { IfOk result (λ f. IfSome f (λ f. (us : List ℤ) → value f us ≡ value left.now us -ℤ value right.now us)) }
{
    left.constant();
    right.constant();
    let mut parts = Vec::new(alloc);
    parts.push(Signed {
        minus: false,
        form: left.copy(alloc)?,
    })?;
    parts.push(Signed {
        minus: true,
        form: right.copy(alloc)?,
    })?;
    match Form::of_sum(alloc, &parts) {
        Ok(form) => Ok(Some(form)),
        Err(FormStop::Memory) => Err(Memory),
        Err(FormStop::Range(_)) => Ok(None),
    }
}

/// Whether the form is a number.
pub(crate) fn is_number(form: &Form) -> bool
    ensures { IsTrue result → (us : List ℤ) → value form.now us ≡ constant_of form.now }
{
    form.fields().is_empty() && form.remainders().is_empty()
}

// Whether the first of its coefficients is negative.
fn is_negative(form: &Form) -> bool {
    match form.fields().first() {
        Some(term) => term.coefficient < 0,
        None => match form.remainders().first() {
            Some(term) => term.coefficient < 0,
            None => false,
        },
    }
}

// The difference of two sides, apart from its constant.
fn rooted(alloc: Global, whole: &Form, minus: bool) -> Result<Option<Gap>, Memory>
    ensures { IfOk result (λ g. IfSome g (λ g. (g.minus ≡ minus) × IsLabelNumber g.number × ((us : List ℤ) → value whole.now us ≡ value g.form us -ℤ g.number))) }
{
    let constant = whole.constant();
    if constant <= i64::MIN as i128 {
        return Ok(None);
    }
    let own = Form::number(alloc, constant)?;
    match less(alloc, whole, &own)? {
        Some(form) => Ok(Some(Gap {
            form,
            minus,
            number: -constant,
        })),
        None => Ok(None),
    }
}

// The gap between a form without a constant and a number, where the form begins with a coefficient above 0.
fn gap_to(alloc: Global, form: &Form, number: &Form, minus: bool) -> Result<Option<Gap>, Memory>
    ensures { IfOk result (λ g. IfSome g (λ g. (g.minus ≡ minus) × IsLabelNumber g.number × ((us : List ℤ) → (value form.now us ≡ value g.form us) × (value number.now us ≡ g.number)))) }
{
    if !is_number(number) || form.constant() != 0 || is_negative(form) {
        return Ok(None);
    }
    Ok(Some(Gap {
        form: form.copy(alloc)?,
        minus,
        number: number.constant(),
    }))
}

// The gap where one of the sides is a number and the other one has no constant, as in most comparisons.
fn plain_gap(alloc: Global, left: &Form, right: &Form) -> Result<Option<Gap>, Memory>
    ensures { IfOk result (λ g. IfSome g (λ g. IsLabelNumber g.number × ((us : List ℤ) → IsParted g.minus g.number (value g.form us) (value left.now us -ℤ value right.now us)))) }
{
    match gap_to(alloc, left, right, false)? {
        Some(gap) => Ok(Some(gap)),
        None => gap_to(alloc, right, left, true),
    }
}

// The gap between the sides of a comparison, whose form begins with a coefficient above 0.
fn whole_gap(alloc: Global, left: &Form, right: &Form) -> Result<Option<Gap>, Memory>
    ensures { IfOk result (λ g. IfSome g (λ g. IsLabelNumber g.number × ((us : List ℤ) → IsParted g.minus g.number (value g.form us) (value left.now us -ℤ value right.now us)))) }
{
    let Some(whole) = less(alloc, left, right)? else {
        return Ok(None);
    };
    if !is_negative(&whole) {
        return rooted(alloc, &whole, false);
    }
    let Some(turned) = less(alloc, right, left)? else {
        return Ok(None);
    };
    rooted(alloc, &turned, true)
}

fn gap_between(alloc: Global, left: &Form, right: &Form) -> Result<Option<Gap>, Memory>
    ensures { IfOk result (λ g. IfSome g (λ g. IsLabelNumber g.number × ((us : List ℤ) → IsParted g.minus g.number (value g.form us) (value left.now us -ℤ value right.now us)))) }
{
    match plain_gap(alloc, left, right)? {
        Some(gap) => Ok(Some(gap)),
        None => whole_gap(alloc, left, right),
    }
}

fn place_of(form: &Form, forms: &[Form]) -> Option<usize>
    ensures { MatchOption result (Unit {0}) (λ i. (i < length forms.now) × ((d : PlainForm) → same_form (slice_index_or forms.now i d) form.now ≡ true)) }
{
    for (i, known) in forms.iter().enumerate() {
        if *known == *form {
            return Some(i);
        }
    }
    None
}

// Forms, each once, and facts on their values.
#[derive(Drop)]
struct Facts {
    forms: Vec<Form>,
    facts: Vec<Fact>,
}

impl Facts {
    // The place of the form, which is added where it is not there.
    fn place(&mut self, form: Form) -> Result<usize, Memory>
        ensures { IfOk result (λ i. (us : List ℤ) → (slice_index_or (values_of self.new.forms.items us) i (pos 0) ≡ value form us) × (i < length self.new.forms.items) × (AreSo self.old.facts.items (values_of self.old.forms.items us) → AreSo self.new.facts.items (values_of self.new.forms.items us))) }
    {
        match place_of(&form, &self.forms) {
            Some(place) => Ok(place),
            None => {
                let place = self.forms.len();
                self.forms.push(form)?;
                Ok(place)
            }
        }
    }

    fn add(&mut self, alloc: Global, literal: &Lit<Compare>) -> Result<(), Memory>
        ensures { IfOk result (λ _. (us : List ℤ) → compare_holds (plain_compare literal.now.atom) us ≡ literal.now.sign → AreSo self.old.facts.items (values_of self.old.forms.items us) → AreSo self.new.facts.items (values_of self.new.forms.items us)) }
    {
        let Some(gap) = gap_between(alloc, &literal.atom.left, &literal.atom.right)? else {
            return Ok(());
        };
        let said = said_at(literal.atom.relation, literal.sign, gap.minus, gap.number);
        let place = self.place(gap.form)?;
        self.facts.push(Fact { place, said })?;
        Ok(())
    }
}

fn facts_of(alloc: Global, literals: &[Lit<Compare>]) -> Result<Facts, Memory>
    ensures { IfOk result (λ f. (us : List ℤ) → HoldsAll (plain_literals literals.now) us → AreSo f.facts.items (values_of f.forms.items us)) }
{
    let mut facts = Facts {
        forms: Vec::new(alloc),
        facts: Vec::new(alloc),
    };
    for literal in literals {
        facts.add(alloc, literal)?;
    }
    Ok(facts)
}

/// Whether what the literals say of the values of forms can't be, form by form: some that never hold together aren't found.
pub(crate) fn is_clear_clash(alloc: Global, literals: &[Lit<Compare>]) -> Result<bool, Memory>
    ensures { IfOk result (λ clash. IsTrue clash → (us : List ℤ) → HoldsAll (plain_literals literals.now) us → ⊥) }
{
    let facts = facts_of(alloc, literals)?;
    is_clash(alloc, &facts.facts, facts.forms.len())
}
