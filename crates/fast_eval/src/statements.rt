//! Whether statements are true.

ghost use Rattle.std.specs.Prelude.{◌≡◌, ℕ, List, IfOk, IfErr, IfSome, true};
ghost use Rattle.fast_fault.specs.declared.place.Pos.{Pos};
ghost use Rattle.fast_syntax.specs.Plain.{plain_x};
ghost use Rattle.model_grammar.specs.Syntax as plain;
ghost use Rattle.model_names.specs.Kinds.{language, transformation};
ghost use Rattle.model_run.specs.Items.{judged_claim};
ghost use Rattle.fast_eval.specs.Forms.{AreNamed, IsMadeOn, IsMadeFrom};
ghost use Rattle.fast_eval.specs.Found.{IsFoundOf, wanted_claim};
ghost use Rattle.fast_eval.specs.Scopes.{items_in, type_in, IsScope};
ghost use Rattle.fast_eval.specs.Stops.{IsStopOf};

use crate::broken::broken;
use crate::evaluation::{Scope, lang_of, language, trans_of, transformation};
use crate::images::inputs;
use crate::stops::EvalStop;
use fast_syntax::items::X;
use fast_tree::Label;
use model_grammar::Op2;
use sta_ops::{Found, Wanted, compare, empty};
use std::alloc::Global;

/// What is found of the trees that are wanted of the languages, with nothing made for it; none where that doesn't tell, since
/// an automaton of both may need fewer classes than the two side by side.
fn side_by_side(alloc: Global, scope: &Scope, wanted: Wanted, x: &X, y: &X) -> Option<Found<Label>>
    requires scope { IsScope scope.now }
    requires first { IsMadeOn (items_in scope.now) (type_in scope.now) (plain_x x.now) }
    requires second { IsMadeOn (items_in scope.now) (type_in scope.now) (plain_x y.now) }
    requires first_named { AreNamed language scope.now.built.now (plain_x x.now) }
    requires second_named { AreNamed language scope.now.built.now (plain_x y.now) }
    ensures { IfSome result (λ f. (place : Pos) → IsFoundOf (items_in scope.now) (wanted_claim wanted place (plain_x x.now) (plain_x y.now)) f) }
{
    let Ok(a) = language(alloc, scope, x) else {
        return None;
    };
    let Ok(b) = language(alloc, scope, y) else {
        return None;
    };
    let a = lang_of(scope.built, &a);
    let b = lang_of(scope.built, &b);
    match compare(scope.theory, alloc, wanted, a, b, scope.limit) {
        Ok(found) => Some(found),
        Err(_) => None,
    }
}

/// What is found of the trees of an intersection or a difference; none where that doesn't tell, or for other expressions.
fn by_operands(alloc: Global, scope: &Scope, x: &X) -> Option<Found<Label>>
    requires scope { IsScope scope.now }
    requires made { IsMadeOn (items_in scope.now) (type_in scope.now) (plain_x x.now) }
    requires named { AreNamed language scope.now.built.now (plain_x x.now) }
    ensures { IfSome result (IsFoundOf (items_in scope.now) (plain.empty (plain_x x.now))) }
{
    match x {
        X::Two(Op2::Intersect, _, a, b) => side_by_side(alloc, scope, Wanted::Both, a, b),
        X::Two(Op2::Difference, _, a, b) => side_by_side(alloc, scope, Wanted::First, a, b),
        _ => None,
    }
}

/// Whether the language has no tree; else a tree that it has.
pub fn judge_empty(alloc: Global, scope: &Scope, x: &X) -> Result<Found<Label>, EvalStop>
    requires scope { IsScope scope.now }
    requires made { IsMadeOn (items_in scope.now) (type_in scope.now) (plain_x x.now) }
    requires named { AreNamed language scope.now.built.now (plain_x x.now) }
    ensures found { IfOk result (IsFoundOf (items_in scope.now) (plain.empty (plain_x x.now))) }
    ensures stop { IfErr result (IsStopOf (items_in scope.now) (judged_claim (items_in scope.now) (plain.empty (plain_x x.now))) scope.now.limit) }
{
    if let Some(found) = by_operands(alloc, scope, x) {
        return Ok(found);
    }
    let a = language(alloc, scope, x)?;
    Ok(empty(scope.theory, alloc, lang_of(scope.built, &a), scope.limit)?)
}

/// Whether the transformation gives nothing; else a tree that has an output.
pub fn judge_giving(alloc: Global, scope: &Scope, f: &X) -> Result<Found<Label>, EvalStop>
    requires scope { IsScope scope.now }
    requires made { (into : List ℕ) × IsMadeFrom (items_in scope.now) (type_in scope.now) into (plain_x f.now) }
    requires named { AreNamed transformation scope.now.built.now (plain_x f.now) }
    ensures found { IfOk result (IsFoundOf (items_in scope.now) (plain.empty (plain_x f.now))) }
    ensures stop { IfErr result (IsStopOf (items_in scope.now) (judged_claim (items_in scope.now) (plain.empty (plain_x f.now))) scope.now.limit) }
{
    let a = transformation(alloc, scope, f)?;
    let own = inputs(alloc, scope, trans_of(scope.built, &a))?;
    Ok(empty(scope.theory, alloc, &own, scope.limit)?)
}

/// Whether the two languages have the same trees; else a tree that is in exactly one of them.
pub fn judge_equal(alloc: Global, scope: &Scope, x: &X, y: &X) -> Result<Found<Label>, EvalStop>
    requires scope { IsScope scope.now }
    requires first { IsMadeOn (items_in scope.now) (type_in scope.now) (plain_x x.now) }
    requires second { IsMadeOn (items_in scope.now) (type_in scope.now) (plain_x y.now) }
    requires first_named { AreNamed language scope.now.built.now (plain_x x.now) }
    requires second_named { AreNamed language scope.now.built.now (plain_x y.now) }
    ensures found { IfOk result (IsFoundOf (items_in scope.now) (plain.equal (plain_x x.now) (plain_x y.now))) }
    ensures stop { IfErr result (IsStopOf (items_in scope.now) (judged_claim (items_in scope.now) (plain.equal (plain_x x.now) (plain_x y.now))) scope.now.limit) }
{
    let a = language(alloc, scope, x)?;
    let b = language(alloc, scope, y)?;
    let a = lang_of(scope.built, &a);
    let b = lang_of(scope.built, &b);
    Ok(compare(scope.theory, alloc, Wanted::One, a, b, scope.limit)?)
}

/// Whether each output of the transformation on a tree of the first language is in the second; else a tree of the first that
/// has another output.
pub fn judge_types(
    alloc: Global,
    scope: &Scope,
    x: &X,
    f: &X,
    y: &X,
) -> Result<Found<Label>, EvalStop>
    requires scope { IsScope scope.now }
    requires made { (into : List ℕ) × IsMadeOn (items_in scope.now) (type_in scope.now) (plain_x x.now) × IsMadeFrom (items_in scope.now) (type_in scope.now) into (plain_x f.now) × IsMadeOn (items_in scope.now) into (plain_x y.now) }
    requires first_named { AreNamed language scope.now.built.now (plain_x x.now) }
    requires named { AreNamed transformation scope.now.built.now (plain_x f.now) }
    requires second_named { AreNamed language scope.now.built.now (plain_x y.now) }
    ensures found { IfOk result (IsFoundOf (items_in scope.now) (plain.type_check (plain_x x.now) (plain_x f.now) (plain_x y.now))) }
    ensures stop { IfErr result (IsStopOf (items_in scope.now) (judged_claim (items_in scope.now) (plain.type_check (plain_x x.now) (plain_x f.now) (plain_x y.now))) scope.now.limit) }
{
    let own = broken(alloc, scope, x, f, y)?;
    Ok(empty(scope.theory, alloc, &own, scope.limit)?)
}
