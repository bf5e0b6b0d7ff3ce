//! The form of a whole number.

ghost use Rattle.std.specs.Prelude.{◌≡◌, ◌<◌, ◌≤◌, pos, negsuc, cond, ◌∷◌, ◌++◌, [], MatchResult, length};
ghost use Rattle.model_tree.specs.Limits.{most_fields, greatest_divisor};
ghost use Rattle.model_tree.specs.Signature.{wholes};
ghost use Rattle.model_label.specs.Fields.{has_field, number_at};
ghost use Rattle.model_form.specs.Sums.{number_form, field_form, sum_form, product_form};
ghost use Rattle.model_form.specs.Ranges.{IsOutside};
ghost use Rattle.model_guard.specs.Forms.{is_constant, times, divisor_of, step, form_of, added, multiplied, steps, forms_in, forms_in_all, HasOutside};
ghost use Rattle.lin_form.specs.Gathered.{plain_parts};
ghost use Rattle.lin_form.specs.Stops.{StopsAt};
ghost use Rattle.fast_tree.specs.Signatures.{plain_signature};
ghost use Rattle.fast_syntax.specs.Plain.{plain_expr};
ghost use Rattle.fast_syntax.specs.Slices.{plain_sum_parts, plain_prod_parts};
ghost use Rattle.record_label.specs.Follows.{UnlessMemory, Follows};

use crate::lookups::{has_field, number_of};
use fast_fault::Text;
use fast_syntax::expressions::{Expr, Node, ProdPart, SumPart};
use fast_tree::{Signature, Sort};
use lin_form::{Form, FormStop, GREATEST_DIVISOR, MOST_PARTS, Signed};
use std::alloc::Global;

/// The form of a written number.
fn number(alloc: Global, value: i128) -> Result<Form, FormStop>
    ensures { MatchResult result (λ form. form ≡ number_form value) (λ stop. StopsAt (IsOutside (number_form value)) stop) }
{
    if value < i64::MIN as i128 || value > i64::MAX as i128 {
        return Err(FormStop::Range(value));
    }
    Ok(Form::number(alloc, value)?)
}

/// The form of the field with this name, or of 0 where it is no whole number.
fn field(alloc: Global, name: &Text, signature: &Signature) -> Result<Form, FormStop>
    requires { length signature.now.fields.items ≤ most_fields }
    ensures { UnlessMemory result (λ form. form ≡ cond (has_field (plain_signature signature.now).fields wholes name.now) (field_form (number_at (plain_signature signature.now).fields wholes name.now)) (number_form (pos 0))) }
{
    if !has_field(signature, Sort::Int, name) {
        return zero(alloc);
    }
    Ok(Form::field(alloc, number_of(signature, Sort::Int, name))?)
}

/// The form of 0.
fn zero(alloc: Global) -> Result<Form, FormStop>
    ensures { UnlessMemory result (λ form. form ≡ number_form (pos 0)) }
{
    Ok(Form::number(alloc, 0)?)
}

/// The form with its sign turned, unless there was a stop.
fn negated(alloc: Global, made: Result<Form, FormStop>) -> Result<Form, FormStop>
    ensures { Follows made (λ f form. form ≡ product_form (negsuc 0) f) (λ f. IsOutside (product_form (negsuc 0) f)) result }
{
    made?.scaled(alloc, -1)
}

/// Whether the form is a constant alone.
fn is_constant(form: &Form) -> bool
    ensures { result ≡ is_constant form.now }
{
    form.fields().is_empty() && form.remainders().is_empty()
}

/// The form of a product of two, of which one is a constant.
fn times(alloc: Global, left: &Form, right: &Form) -> Result<Form, FormStop>
    ensures { MatchResult result (λ form. form ≡ times left.now right.now) (λ stop. StopsAt (IsOutside (times left.now right.now)) stop) }
{
    if is_constant(right) {
        return left.scaled(alloc, right.constant());
    }
    right.scaled(alloc, left.constant())
}

/// The divisor that is written.
fn divisor_of(expr: &Expr) -> u32
    ensures value { result ≡ divisor_of (plain_expr expr.now) }
    ensures some { 0 < result }
    ensures few { result ≤ greatest_divisor }
{
    if let Node::Num(number) = &expr.node {
        if *number >= 1 && *number <= GREATEST_DIVISOR {
            return *number as u32;
        }
    }
    1
}

/// The form by one more part, whose own form is the second one, unless there was a stop.
fn step(
    alloc: Global,
    before: Form,
    part: &ProdPart,
    own: Result<Form, FormStop>,
) -> Result<Form, FormStop>
    ensures { Follows own (λ own form. form ≡ step before part.now.remainder (plain_expr part.now.part) own) (λ own. IsOutside (step before part.now.remainder (plain_expr part.now.part) own)) result }
{
    let own = own?;
    if part.remainder {
        return before.into_remainder(alloc, divisor_of(&part.part));
    }
    times(alloc, &before, &own)
}

/// The form of a sum, unless there was a stop. No text has more than so many parts.
fn sum(alloc: Global, parts: Result<Vec<Signed>, FormStop>) -> Result<Form, FormStop>
    ensures { Follows parts (λ parts form. form ≡ sum_form (plain_parts parts.items)) (λ parts. IsOutside (sum_form (plain_parts parts.items))) result }
{
    let parts = parts?;
    if parts.len() > MOST_PARTS {
        return Err(FormStop::Memory);
    }
    Form::of_sum(alloc, &parts)
}

/// Puts the form behind the parts of a sum, unless there was a stop.
fn add_part(
    parts: &mut Vec<Signed>,
    minus: bool,
    form: Result<Form, FormStop>,
) -> Result<(), FormStop>
    ensures { Follows form (λ form _. parts.new.items ≡ parts.old.items ++ record { minus = minus; form = form } ∷ []) (λ _ _. ⊥) result }
{
    let form = form?;
    Ok(parts.push(Signed { minus, form })?)
}

/// The form of a whole number. Anything else counts as 0.
#[cycle(forms)]
pub fn form_of(alloc: Global, expr: &Expr, signature: &Signature) -> Result<Form, FormStop>
    requires { length signature.now.fields.items ≤ most_fields }
    ensures { MatchResult result (λ form. form ≡ form_of (plain_signature signature.now).fields (plain_expr expr.now)) (λ stop. StopsAt (HasOutside (forms_in (plain_signature signature.now).fields (plain_expr expr.now))) stop) }
{
    match &expr.node {
        Node::Field(name) => field(alloc, name, signature),
        Node::Num(value) => number(alloc, *value),
        Node::Minus(part) => negated(alloc, form_of(alloc, part, signature)),
        Node::Sum(parts) => sum(alloc, added(alloc, parts, signature)),
        Node::Prod(parts) => multiplied(alloc, parts, signature),
        _ => zero(alloc),
    }
}

/// The forms of the parts of a sum.
#[cycle(forms)]
fn added(alloc: Global, parts: &[SumPart], signature: &Signature) -> Result<Vec<Signed>, FormStop>
    requires { length signature.now.fields.items ≤ most_fields }
    ensures { MatchResult result (λ made. plain_parts made.items ≡ added (plain_signature signature.now).fields (plain_sum_parts parts.now)) (λ stop. StopsAt (HasOutside (forms_in_all (plain_signature signature.now).fields (plain_sum_parts parts.now))) stop) }
{
    let mut made = Vec::new(alloc);
    for part in parts {
        let form = form_of(alloc, &part.part, signature);
        add_part(&mut made, part.minus, form)?;
    }
    Ok(made)
}

/// The form of a product, from the left.
#[cycle(forms)]
fn multiplied(alloc: Global, parts: &[ProdPart], signature: &Signature) -> Result<Form, FormStop>
    requires { length signature.now.fields.items ≤ most_fields }
    ensures { MatchResult result (λ form. form ≡ multiplied (plain_signature signature.now).fields (number_form (pos 1)) (plain_prod_parts parts.now)) (λ stop. StopsAt (HasOutside (forms_in_all (plain_signature signature.now).fields (plain_prod_parts parts.now) ++ steps (plain_signature signature.now).fields (number_form (pos 1)) (plain_prod_parts parts.now))) stop) }
{
    let mut form = Form::number(alloc, 1)?;
    for part in parts {
        let own = form_of(alloc, &part.part, signature);
        form = step(alloc, form, part, own)?;
    }
    Ok(form)
}
