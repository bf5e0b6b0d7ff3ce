//! The formula of a label expression.

ghost use Rattle.std.specs.Prelude.{◌≡◌, ◌≤◌, ◌∷◌, [], true, IfOk, MatchResult, Some, None, cond, length, map};
ghost use Rattle.model_tree.specs.Limits.{most_fields};
ghost use Rattle.model_tree.specs.Formula as plain;
ghost use Rattle.model_label.specs.Tests.{is_text};
ghost use Rattle.model_guard.specs.Forms.{form_of, forms_in, forms_in_all, HasOutside};
ghost use Rattle.model_guard.specs.Guards.{is_guard};
ghost use Rattle.lin_form.specs.Stops.{StopsAt};
ghost use Rattle.label_core.specs.Formula.{plain_formula};
ghost use Rattle.fast_tree.specs.Signatures.{plain_signature};
ghost use Rattle.fast_syntax.specs.Plain.{plain_expr};
ghost use Rattle.record_label.specs.Follows.{UnlessMemory, Follows, FollowsBoth};
ghost use Rattle.record_label.specs.Guards.{IsGuardOf, SaysAlone, joined_of, formula_in, pair_of, agreement_of, compared_by, compared_by_forms, comparison_of, is_numeric, side_of};
ghost use Rattle.record_label.specs.Parts.{AreWithin, unmarked};

use crate::forms::form_of;
use crate::lookups::{has_field, number_of};
use crate::made::added;
use crate::rows::RowAtom;
use fast_fault::Memory;
use fast_syntax::Rel;
use fast_syntax::expressions::{Expr, Node};
use fast_tree::{Signature, Sort};
use flat_label::{BoolAtom, TextAtom, TextSide};
use label_core::{Formula, PairAtom, both, conjunction, disjunction, negation};
use lin_form::{Form, FormStop};
use lin_solve::{Compare, Relation};
use std::alloc::Global;

/// The side that the expression is, if it is a text.
pub(crate) fn side(
    alloc: Global,
    expr: &Expr,
    signature: &Signature,
) -> Result<Option<TextSide>, Memory>
    requires { length signature.now.fields.items ≤ most_fields }
    ensures { IfOk result (λ found. found ≡ cond (is_text (plain_signature signature.now).fields (plain_expr expr.now)) (Some (side_of (plain_signature signature.now).fields (plain_expr expr.now))) None) }
{
    match &expr.node {
        Node::Str(text) => Ok(Some(TextSide::Constant(text.copy(alloc)?))),
        Node::Field(name) => {
            if !has_field(signature, Sort::Text, name) {
                return Ok(None);
            }
            Ok(Some(TextSide::Field(number_of(signature, Sort::Text, name))))
        }
        _ => Ok(None),
    }
}

/// The comparison of two texts, if the expressions are texts.
fn comparison(
    alloc: Global,
    left: &Expr,
    right: &Expr,
    signature: &Signature,
) -> Result<Option<TextAtom>, Memory>
    requires { length signature.now.fields.items ≤ most_fields }
    ensures { IfOk result (λ found. found ≡ comparison_of (plain_signature signature.now).fields (plain_expr left.now) (plain_expr right.now)) }
{
    match side(alloc, left, signature) {
        Ok(Some(left)) => match side(alloc, right, signature) {
            Ok(Some(right)) => Ok(Some(TextAtom { left, right })),
            Ok(None) => Ok(None),
            Err(want) => Err(want),
        }
        Ok(None) => Ok(None),
        Err(want) => Err(want),
    }
}

/// The formula's denial, unless there was a stop.
pub(crate) fn denied(
    alloc: Global,
    made: Result<Formula<RowAtom>, FormStop>,
) -> Result<Formula<RowAtom>, FormStop>
    ensures { Follows made (λ f denied. plain_formula denied ≡ plain.negation (plain_formula f)) (λ _ _. ⊥) result }
{
    Ok(negation(alloc, made?)?)
}

/// That both formulas hold, or, if not `every`, that one of them does.
fn joined_two(
    alloc: Global,
    every: bool,
    first: Result<Formula<RowAtom>, FormStop>,
    second: Result<Formula<RowAtom>, FormStop>,
) -> Result<Formula<RowAtom>, FormStop>
    ensures { FollowsBoth first second (λ f g made. plain_formula made ≡ joined_of every (plain_formula f ∷ plain_formula g ∷ [])) result }
{
    let (first, second) = both(first, second)?;
    Ok(joined(every, Vec::from_array(alloc, [first, second])?))
}

/// The same formula again.
pub(crate) fn copied(
    alloc: Global,
    formula: &Formula<RowAtom>,
) -> Result<Formula<RowAtom>, FormStop>
    ensures { UnlessMemory result (λ copy. plain_formula copy ≡ plain_formula formula.now) }
{
    Ok(formula.copy(alloc)?)
}

/// Neither holds.
fn neither(
    alloc: Global,
    first: &Formula<RowAtom>,
    second: &Formula<RowAtom>,
) -> Result<Formula<RowAtom>, FormStop>
    ensures { UnlessMemory result (λ made. plain_formula made ≡ plain.negation (plain.some_of (pair_of (plain_formula first.now) (plain_formula second.now)))) }
{
    let either = joined_two(alloc, false, copied(alloc, first), copied(alloc, second));
    denied(alloc, either)
}

/// Both hold, or neither does.
fn agreement(
    alloc: Global,
    first: Formula<RowAtom>,
    second: Formula<RowAtom>,
) -> Result<Formula<RowAtom>, FormStop>
    ensures { UnlessMemory result (λ made. plain_formula made ≡ agreement_of (plain_formula first) (plain_formula second)) }
{
    let neither = neither(alloc, &first, &second);
    let all = joined_two(alloc, true, Ok(first), Ok(second));
    joined_two(alloc, false, all, neither)
}

/// What the comparison asks for, where the formula says that the two sides are the same.
fn compared(
    alloc: Global,
    rel: Rel,
    formula: Formula<RowAtom>,
) -> Result<Formula<RowAtom>, FormStop>
    ensures { UnlessMemory result (λ made. plain_formula made ≡ compared_by rel (plain_formula formula)) }
{
    match rel {
        Rel::NotEqual => denied(alloc, Ok(formula)),
        _ => Ok(formula),
    }
}

/// Whether the expression is written as a whole number.
fn is_numeric(expr: &Expr, signature: &Signature) -> bool
    ensures { result ≡ is_numeric (plain_signature signature.now).fields (plain_expr expr.now) }
{
    match &expr.node {
        Node::Field(name) => has_field(signature, Sort::Int, name),
        Node::Num(_) | Node::Minus(_) | Node::Sum(_) | Node::Prod(_) => true,
        _ => false,
    }
}

/// What the comparison asks for of two forms.
fn compared_forms(
    alloc: Global,
    rel: Rel,
    first: Form,
    second: Form,
) -> Result<Formula<RowAtom>, FormStop>
    ensures { UnlessMemory result (λ made. plain_formula made ≡ compared_by_forms rel first second) }
{
    let (left, relation, right) = match rel {
        Rel::Less => (first, Relation::Less, second),
        Rel::AtMost => (first, Relation::AtMost, second),
        Rel::Greater => (second, Relation::Less, first),
        Rel::AtLeast => (second, Relation::AtMost, first),
        Rel::Equal | Rel::NotEqual => (first, Relation::Equal, second),
    };
    let compare = Compare {
        left,
        relation,
        right,
    };
    compared(alloc, rel, Formula::Atom(PairAtom::Left(compare)))
}

/// The formula of a comparison of whole numbers or of texts. That of tests takes their formulas.
fn compared_sides(
    alloc: Global,
    rel: Rel,
    left: &Expr,
    right: &Expr,
    signature: &Signature,
) -> Option<Result<Formula<RowAtom>, FormStop>>
    requires { length signature.now.fields.items ≤ most_fields }
    ensures { SaysAlone (plain_signature signature.now).fields rel (plain_expr left.now) (plain_expr right.now) result }
{
    if is_numeric(left, signature) {
        let first = form_of(alloc, left, signature);
        let second = form_of(alloc, right, signature);
        return match both(first, second) {
            Ok((first, second)) => Some(compared_forms(alloc, rel, first, second)),
            Err(stop) => Some(Err(stop)),
        };
    }
    match comparison(alloc, left, right, signature) {
        Ok(Some(atom)) => {
            let atom = PairAtom::Right(PairAtom::Right(atom));
            Some(compared(alloc, rel, Formula::Atom(atom)))
        }
        Ok(None) => None,
        Err(_want) => Some(Err(FormStop::Memory)),
    }
}

/// What the comparison asks for of two tests with these formulas.
fn compared_tests(
    alloc: Global,
    rel: Rel,
    first: Result<Formula<RowAtom>, FormStop>,
    second: Result<Formula<RowAtom>, FormStop>,
) -> Result<Formula<RowAtom>, FormStop>
    ensures { FollowsBoth first second (λ f g made. plain_formula made ≡ compared_by rel (agreement_of (plain_formula f) (plain_formula g))) result }
{
    let (first, second) = both(first, second)?;
    compared(alloc, rel, agreement(alloc, first, second)?)
}

/// The formula of the expression, which is its guard where the expression is one.
#[cycle(formulas)]
fn formula_of(
    alloc: Global,
    expr: &Expr,
    signature: &Signature,
) -> Result<Formula<RowAtom>, FormStop>
    requires { length signature.now.fields.items ≤ most_fields }
    ensures { MatchResult result (λ made. plain_formula made ≡ formula_in (plain_signature signature.now).fields (plain_expr expr.now)) (λ stop. StopsAt (HasOutside (forms_in (plain_signature signature.now).fields (plain_expr expr.now))) stop) }
{
    match &expr.node {
        Node::Field(name) => {
            let field = number_of(signature, Sort::Bool, name);
            let atom = PairAtom::Left(BoolAtom { field });
            Ok(Formula::Atom(PairAtom::Right(atom)))
        }
        Node::Truth(true) => Ok(Formula::Yes),
        Node::Not(part) => denied(alloc, formula_of(alloc, part, signature)),
        Node::And(parts) => formulas_of(alloc, parts, signature, true),
        Node::Or(parts) => formulas_of(alloc, parts, signature, false),
        Node::Compare(rel, left, right) => {
            match compared_sides(alloc, *rel, left, right, signature) {
                Some(made) => made,
                None => compared_tests(
                    alloc,
                    *rel,
                    formula_of(alloc, left, signature),
                    formula_of(alloc, right, signature),
                ),
            }
        }
        _ => Ok(Formula::No),
    }
}

/// That all of the expressions hold, or, if not `every`, that one of them does.
#[cycle(formulas)]
fn formulas_of(
    alloc: Global,
    parts: &[Expr],
    signature: &Signature,
    every: bool,
) -> Result<Formula<RowAtom>, FormStop>
    requires { length signature.now.fields.items ≤ most_fields }
    ensures { MatchResult result (λ made. plain_formula made ≡ joined_of every (map (formula_in (plain_signature signature.now).fields) (map plain_expr parts.now))) (λ stop. StopsAt (HasOutside (forms_in_all (plain_signature signature.now).fields (unmarked (map plain_expr parts.now)))) stop) }
{
    let mut formulas = Vec::new(alloc);
    for part in parts {
        added(&mut formulas, formula_of(alloc, part, signature))?;
    }
    Ok(joined(every, formulas))
}

/// Holds where each of the formulas does, or, if not `every`, where one of them does.
pub(crate) fn joined(every: bool, formulas: Vec<Formula<RowAtom>>) -> Formula<RowAtom>
    ensures { plain_formula result ≡ joined_of every (map plain_formula formulas.items) }
{
    if every {
        conjunction(formulas)
    } else {
        disjunction(formulas)
    }
}

/// The guard that an expression is.
pub fn guard_of(
    alloc: Global,
    expr: &Expr,
    signature: &Signature,
) -> Result<Formula<RowAtom>, Memory>
    requires few { length signature.now.fields.items ≤ most_fields }
    requires guard { is_guard (plain_signature signature.now).fields (plain_expr expr.now) ≡ true }
    requires within { AreWithin (forms_in (plain_signature signature.now).fields (plain_expr expr.now)) }
    ensures guard { IfOk result (λ guard. IsGuardOf (plain_signature signature.now).fields (plain_expr expr.now) (plain_formula guard)) }
    ensures formula { IfOk result (λ guard. plain_formula guard ≡ formula_in (plain_signature signature.now).fields (plain_expr expr.now)) }
{
    match formula_of(alloc, expr, signature) {
        Ok(guard) => Ok(guard),
        Err(FormStop::Memory) => Err(Memory),
        Err(FormStop::Range(_)) => unreachable!(),
    }
}
