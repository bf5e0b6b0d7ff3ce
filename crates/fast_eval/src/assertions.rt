//! What is found of statements.

ghost use Rattle.std.specs.Prelude.{◌≡◌, ◌≤◌, ℕ, List, IfOk, IfErr};
ghost use Rattle.model_tree.specs.Limits.{most_classes};
ghost use Rattle.fast_syntax.specs.Plain.{plain_x, plain_claim};
ghost use Rattle.model_grammar.specs.Syntax as plain;
ghost use Rattle.model_run.specs.Items.{judged_claim};
ghost use Rattle.fast_build.specs.Items.{items_of};
ghost use Rattle.fast_eval.specs.Forms.{AreKnown, IsTransKnown, IsMadeOn, IsMadeFrom, IsMadeAt, IsKnownAt, IsClaimOn, IsClaimKnown};
ghost use Rattle.fast_eval.specs.Found.{IsFoundOf};
ghost use Rattle.fast_eval.specs.Stops.{IsStopOf};
ghost use Rattle.fast_eval.specs.Table.{IsGrown, AreBuilt};

use crate::built::Built;
use crate::names::{Taken, build_names};
use crate::scopes::{output_of, scope_of};
use crate::statements::{judge_empty, judge_equal, judge_giving, judge_types};
use crate::stops::EvalStop;
use fast_syntax::items::{Claim, X};
use fast_tree::Label;
use program_check::Checked;
use sta_ops::Found;
use std::alloc::Global;

/// Whether the language of an expression has no tree; else a tree that it has.
fn find_in(
    alloc: Global,
    checked: &Checked,
    built: &mut Built,
    limit: u32,
    x: &X,
) -> Result<Found<Label>, EvalStop>
    requires built { AreBuilt (items_of checked.now) built.old }
    requires made { (type : List ℕ) × IsMadeOn (items_of checked.now) type (plain_x x.now) }
    requires known { AreKnown (items_of checked.now) built.old (plain_x x.now) }
    requires shallow { limit ≤ most_classes }
    ensures built { AreBuilt (items_of checked.now) built.new }
    ensures grown { IsGrown built.old built.new }
    ensures found { IfOk result (IsFoundOf (items_of checked.now) (plain.empty (plain_x x.now))) }
    ensures stop { IfErr result (IsStopOf (items_of checked.now) (judged_claim (items_of checked.now) (plain.empty (plain_x x.now))) limit) }
{
    build_names(alloc, checked, built, Taken::Language, x)?;
    let scope = scope_of(checked, built, limit, x);
    judge_empty(alloc, &scope, x)
}

/// Whether the transformation of an expression gives nothing; else a tree that has an output.
fn find_giving(
    alloc: Global,
    checked: &Checked,
    built: &mut Built,
    limit: u32,
    f: &X,
) -> Result<Found<Label>, EvalStop>
    requires built { AreBuilt (items_of checked.now) built.old }
    requires made { (from into : List ℕ) × IsMadeFrom (items_of checked.now) from into (plain_x f.now) }
    requires known { IsTransKnown (items_of checked.now) built.old (plain_x f.now) }
    requires shallow { limit ≤ most_classes }
    ensures built { AreBuilt (items_of checked.now) built.new }
    ensures grown { IsGrown built.old built.new }
    ensures found { IfOk result (IsFoundOf (items_of checked.now) (plain.empty (plain_x f.now))) }
    ensures stop { IfErr result (IsStopOf (items_of checked.now) (judged_claim (items_of checked.now) (plain.empty (plain_x f.now))) limit) }
{
    build_names(alloc, checked, built, Taken::Transformation, f)?;
    let scope = scope_of(checked, built, limit, f);
    judge_giving(alloc, &scope, f)
}

/// Whether the language has no tree, or the transformation gives nothing.
fn find_some(
    alloc: Global,
    checked: &Checked,
    built: &mut Built,
    limit: u32,
    x: &X,
) -> Result<Found<Label>, EvalStop>
    requires built { AreBuilt (items_of checked.now) built.old }
    requires made { (type : List ℕ) × IsMadeAt (items_of checked.now) type (plain_x x.now) }
    requires known { IsKnownAt (items_of checked.now) built.old (plain_x x.now) }
    requires shallow { limit ≤ most_classes }
    ensures built { AreBuilt (items_of checked.now) built.new }
    ensures grown { IsGrown built.old built.new }
    ensures found { IfOk result (IsFoundOf (items_of checked.now) (plain.empty (plain_x x.now))) }
    ensures stop { IfErr result (IsStopOf (items_of checked.now) (judged_claim (items_of checked.now) (plain.empty (plain_x x.now))) limit) }
{
    match output_of(checked, x) {
        None => find_in(alloc, checked, built, limit, x),
        Some(_) => find_giving(alloc, checked, built, limit, x),
    }
}

/// Whether the languages of two expressions have the same trees; else a tree that is in exactly one of them.
fn find_between(
    alloc: Global,
    checked: &Checked,
    built: &mut Built,
    limit: u32,
    x: &X,
    y: &X,
) -> Result<Found<Label>, EvalStop>
    requires built { AreBuilt (items_of checked.now) built.old }
    requires made { (type : List ℕ) × IsMadeOn (items_of checked.now) type (plain_x x.now) × IsMadeOn (items_of checked.now) type (plain_x y.now) }
    requires known { AreKnown (items_of checked.now) built.old (plain_x x.now) }
    requires also_known { AreKnown (items_of checked.now) built.old (plain_x y.now) }
    requires shallow { limit ≤ most_classes }
    ensures built { AreBuilt (items_of checked.now) built.new }
    ensures grown { IsGrown built.old built.new }
    ensures found { IfOk result (IsFoundOf (items_of checked.now) (plain.equal (plain_x x.now) (plain_x y.now))) }
    ensures stop { IfErr result (IsStopOf (items_of checked.now) (judged_claim (items_of checked.now) (plain.equal (plain_x x.now) (plain_x y.now))) limit) }
{
    build_names(alloc, checked, built, Taken::Language, x)?;
    build_names(alloc, checked, built, Taken::Language, y)?;
    let scope = scope_of(checked, built, limit, x);
    judge_equal(alloc, &scope, x, y)
}

/// A transformation, a language of inputs and one of outputs.
#[derive(Drop)]
struct TypeCheck<'c> {
    x: &'c X,
    f: &'c X,
    y: &'c X,
}

/// Whether each output of the transformation on a tree of the first language is in the second; else a tree of the first that
/// has another output.
fn find_broken(
    alloc: Global,
    checked: &Checked,
    built: &mut Built,
    limit: u32,
    check: &TypeCheck,
) -> Result<Found<Label>, EvalStop>
    requires built { AreBuilt (items_of checked.now) built.old }
    requires made { (type : List ℕ) × IsClaimOn (items_of checked.now) type (plain.type_check (plain_x check.now.x.now) (plain_x check.now.f.now) (plain_x check.now.y.now)) }
    requires known { IsClaimKnown (items_of checked.now) built.old (plain.type_check (plain_x check.now.x.now) (plain_x check.now.f.now) (plain_x check.now.y.now)) }
    requires shallow { limit ≤ most_classes }
    ensures built { AreBuilt (items_of checked.now) built.new }
    ensures grown { IsGrown built.old built.new }
    ensures found { IfOk result (IsFoundOf (items_of checked.now) (plain.type_check (plain_x check.now.x.now) (plain_x check.now.f.now) (plain_x check.now.y.now))) }
    ensures stop { IfErr result (IsStopOf (items_of checked.now) (judged_claim (items_of checked.now) (plain.type_check (plain_x check.now.x.now) (plain_x check.now.f.now) (plain_x check.now.y.now))) limit) }
{
    build_names(alloc, checked, built, Taken::Language, check.x)?;
    build_names(alloc, checked, built, Taken::Transformation, check.f)?;
    build_names(alloc, checked, built, Taken::Language, check.y)?;
    let scope = scope_of(checked, built, limit, check.x);
    judge_types(alloc, &scope, check.x, check.f, check.y)
}

/// What is found of a statement.
pub fn judge(
    alloc: Global,
    checked: &Checked,
    built: &mut Built,
    limit: u32,
    claim: &Claim,
) -> Result<Found<Label>, EvalStop>
    requires built { AreBuilt (items_of checked.now) built.old }
    requires made { (type : List ℕ) × IsClaimOn (items_of checked.now) type (plain_claim claim.now) }
    requires known { IsClaimKnown (items_of checked.now) built.old (plain_claim claim.now) }
    requires shallow { limit ≤ most_classes }
    ensures built { AreBuilt (items_of checked.now) built.new }
    ensures grown { IsGrown built.old built.new }
    ensures found { IfOk result (IsFoundOf (items_of checked.now) (plain_claim claim.now)) }
    ensures stop { IfErr result (IsStopOf (items_of checked.now) (judged_claim (items_of checked.now) (plain_claim claim.now)) limit) }
{
    match claim {
        Claim::Empty(x) => find_some(alloc, checked, built, limit, x),
        Claim::Equal(x, y) => find_between(alloc, checked, built, limit, x, y),
        Claim::TypeCheck(x, f, y) => find_broken(
            alloc,
            checked,
            built,
            limit,
            &TypeCheck { x, f, y },
        ),
        Claim::Member(..) => unreachable!(),
    }
}
