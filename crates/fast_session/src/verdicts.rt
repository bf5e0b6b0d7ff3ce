//! Verdicts on assertions.

ghost use Rattle.std.specs.Prelude.{◌≡◌, ℕ, List, true, false, IfOk, IfErr};
ghost use Rattle.fast_syntax.specs.Plain.{plain_x, plain_claim, plain_assert, plain_item};
ghost use Rattle.model_grammar.specs.Syntax as plain;
ghost use Rattle.model_run.specs.Items.{IsComposable};
ghost use Rattle.fast_eval.specs.Forms.{IsMadeAt};
ghost use Rattle.fast_session.specs.Answers.{line_outcome};
ghost use Rattle.fast_session.specs.Kept.{items_in, IsReady};
ghost use Rattle.fast_session.specs.Items.{is_member, spoken_of, verdict_outcome, IsBuiltMore, IsDone, IsStoppedAt, IsVerdictOn};

use crate::answers::{Cause, Line, Stopped};
use crate::items::{Around, Kept};
use crate::stops::{stopped, unvalued};
use fast_eval::{judge, type_of};
use fast_fault::Memory;
use fast_syntax::items::{AssertItem, Claim, Item, X};
use fast_tree::{Label, Tree};
use sta_ops::Found;
use std::alloc::Global;
use tree_values::{Given, member};

/// What a verdict says: whether the assertion passes, and the tree that goes with it.
#[derive(Drop)]
pub struct Verdict {
    pub passes: bool,
    pub shown: Option<Tree<Label>>,
}

/// The verdict on a statement of languages and transformations.
fn judged(
    alloc: Global,
    around: &Around,
    kept: &mut Kept,
    item: &Item,
    own: &AssertItem,
) -> Result<Verdict, Stopped>
    requires ready { IsReady around.now (plain_item item.now) kept.old }
    requires composable { IsComposable (items_in around.now) (plain_item item.now).body }
    requires is { (plain_item item.now).body ≡ plain.assertion (plain_assert own.now) }
    requires of { is_member (plain_claim own.now.claim) ≡ false }
    ensures more { IsBuiltMore (items_in around.now) kept.old kept.new }
    ensures verdict { IfOk result (IsVerdictOn (items_in around.now) item.now.place.line (plain_assert own.now) kept.old) }
    ensures stopped { IfErr result (IsStoppedAt (items_in around.now) around.now.limit (plain_item item.now) kept.old) }
{
    match judge(
        alloc,
        around.checked,
        &mut kept.built,
        around.limit,
        &own.claim,
    ) {
        Ok(Found::Absent) => Ok(Verdict {
            passes: own.wanted,
            shown: None,
        }),
        Ok(Found::Shown(tree)) => Ok(Verdict {
            passes: !own.wanted,
            shown: Some(tree),
        }),
        Ok(Found::TooBig) => Err(Stopped::By(Cause::TreeSize)),
        Err(stop) => Err(stopped(around.limit, stop)),
    }
}

/// The verdict on a statement that a tree is in a language.
fn looked_up(
    alloc: Global,
    around: &Around,
    kept: &mut Kept,
    item: &Item,
    own: &AssertItem,
) -> Result<Verdict, Stopped>
    requires ready { IsReady around.now (plain_item item.now) kept.old }
    requires composable { IsComposable (items_in around.now) (plain_item item.now).body }
    requires is { (plain_item item.now).body ≡ plain.assertion (plain_assert own.now) }
    requires of { is_member (plain_claim own.now.claim) ≡ true }
    ensures more { IsBuiltMore (items_in around.now) kept.old kept.new }
    ensures verdict { IfOk result (IsVerdictOn (items_in around.now) item.now.place.line (plain_assert own.now) kept.old) }
    ensures stopped { IfErr result (IsStoppedAt (items_in around.now) around.now.limit (plain_item item.now) kept.old) }
{
    let Claim::Member(x, y) = &own.claim else {
        unreachable!()
    };
    let given = Given {
        checked: around.checked,
        trees: &kept.trees,
        limit: around.limit,
    };
    match member(alloc, &given, &mut kept.built, x, y) {
        Ok(member) => Ok(Verdict {
            passes: member.inside == own.wanted,
            shown: Some(member.tree),
        }),
        Err(stop) => Err(unvalued(around.limit, stop)),
    }
}

fn is_member(claim: &Claim) -> bool
    ensures { result ≡ is_member (plain_claim claim.now) }
{
    match claim {
        Claim::Member(..) => true,
        Claim::Equal(..) | Claim::Empty(_) | Claim::TypeCheck(..) => false,
    }
}

/// The verdict on a statement.
fn decided(
    alloc: Global,
    around: &Around,
    kept: &mut Kept,
    item: &Item,
    own: &AssertItem,
) -> Result<Verdict, Stopped>
    requires ready { IsReady around.now (plain_item item.now) kept.old }
    requires composable { IsComposable (items_in around.now) (plain_item item.now).body }
    requires is { (plain_item item.now).body ≡ plain.assertion (plain_assert own.now) }
    ensures more { IsBuiltMore (items_in around.now) kept.old kept.new }
    ensures verdict { IfOk result (IsVerdictOn (items_in around.now) item.now.place.line (plain_assert own.now) kept.old) }
    ensures stopped { IfErr result (IsStoppedAt (items_in around.now) around.now.limit (plain_item item.now) kept.old) }
{
    if is_member(&own.claim) {
        looked_up(alloc, around, kept, item, own)
    } else {
        judged(alloc, around, kept, item, own)
    }
}

/// The expression with the type of whose trees a statement speaks.
fn spoken_of(claim: &Claim) -> &X
    ensures { plain_x result.now ≡ spoken_of (plain_claim claim.now) }
{
    match claim {
        Claim::Equal(x, _) | Claim::Empty(x) | Claim::TypeCheck(x, _, _) => x,
        Claim::Member(_, y) => y,
    }
}

/// The line of a verdict on an assertion in this line of the text.
fn line_of(
    alloc: Global,
    around: &Around,
    line: u32,
    own: &AssertItem,
    verdict: Verdict,
) -> Result<Line, Memory>
    requires made { (type : List ℕ) × IsMadeAt (items_in around.now) type (spoken_of (plain_claim own.now.claim)) }
    ensures { IfOk result (λ l. line_outcome (items_in around.now) l ≡ verdict_outcome (items_in around.now) line (plain_assert own.now) verdict) }
{
    let Some(of) = type_of(around.checked, spoken_of(&own.claim)) else {
        unreachable!()
    };
    Ok(Line::Verdict {
        line,
        passes: verdict.passes,
        of: of.copy(alloc)?,
        shown: verdict.shown,
    })
}

/// Gives the line of an assertion.
pub fn do_assertion(
    alloc: Global,
    around: &Around,
    kept: &mut Kept,
    item: &Item,
    own: &AssertItem,
) -> Result<Line, Stopped>
    requires ready { IsReady around.now (plain_item item.now) kept.old }
    requires composable { IsComposable (items_in around.now) (plain_item item.now).body }
    requires is { (plain_item item.now).body ≡ plain.assertion (plain_assert own.now) }
    ensures done { IfOk result (λ line. IsDone (items_in around.now) (plain_item item.now) kept.old kept.new (line_outcome (items_in around.now) line)) }
    ensures stopped { IfErr result (IsStoppedAt (items_in around.now) around.now.limit (plain_item item.now) kept.old) }
{
    let verdict = decided(alloc, around, kept, item, own)?;
    Ok(line_of(alloc, around, item.place.line, own, verdict)?)
}
