//! The compositions of an item.

ghost use Rattle.std.specs.Prelude.{◌≡◌, ◌≤◌, ◌⊎◌, OnOk, IfErr, All, Contains};
ghost use Rattle.model_tree.specs.Limits.{most_classes};
ghost use Rattle.model_grammar.specs.Syntax as plain;
ghost use Rattle.model_grammar.specs.declared.Op2.TheVariants.{Compose};
ghost use Rattle.fast_syntax.specs.Plain.{plain_item, plain_x, plain_claim};
ghost use Rattle.model_run.specs.Plain.{IsPlain, IsLinear};
ghost use Rattle.model_run.specs.Items.{IsComposable, AreComposable};
ghost use Rattle.fast_build.specs.Items.{items_of};
ghost use Rattle.fast_compose.specs.Composed.{stated, AreNamesDeclared, StopsPair, StopsIn};
ghost use Rattle.fast_compose.specs.Stops.{IsComposeCause};

use crate::copying::first_copying;
use crate::meetings::{Met, met_by_all};
use crate::sources::all_sources;
use crate::stops::{ComposeStop, Uncomposable};
use fast_syntax::items::{Body, Claim, Item, X};
use model_grammar::Op2;
use program_check::Checked;
use std::alloc::Global;

/// Whether two transformations can be composed. Where the second is linear, nothing is asked about the first.
fn pair(
    alloc: Global,
    checked: &Checked,
    limit: u32,
    first: &X,
    second: &X,
) -> Result<(), ComposeStop>
    requires shallow { limit ≤ most_classes }
    requires first_declared { AreNamesDeclared (items_of checked.now) (plain_x first.now) }
    requires second_declared { AreNamesDeclared (items_of checked.now) (plain_x second.now) }
    ensures composable { OnOk result (IsPlain (items_of checked.now) (plain_x first.now) ⊎ IsLinear (items_of checked.now) (plain_x second.now)) }
    ensures stop { IfErr result (StopsPair (items_of checked.now) limit (plain_x first.now) (plain_x second.now)) }
{
    let seconds = all_sources(alloc, checked, second)?;
    let copying = first_copying(alloc, checked, &seconds)?;
    let Some(placed) = copying else {
        return Ok(());
    };
    let firsts = all_sources(alloc, checked, first)?;
    let met = met_by_all(alloc, checked, limit, &firsts)?;
    match met {
        Met::Nowhere => Ok(()),
        Met::At(meeting) => Err(ComposeStop::NotComposable(Uncomposable {
            meeting,
            copying: placed.copying,
        })),
        Met::TooLarge => Err(ComposeStop::TooLarge),
    }
}

/// Whether the two parts can be composed, if that is the operation.
fn pair_under(
    alloc: Global,
    checked: &Checked,
    limit: u32,
    op: Op2,
    first: &X,
    second: &X,
) -> Result<(), ComposeStop>
    requires shallow { limit ≤ most_classes }
    requires first_declared { AreNamesDeclared (items_of checked.now) (plain_x first.now) }
    requires second_declared { AreNamesDeclared (items_of checked.now) (plain_x second.now) }
    ensures composable { OnOk result (op ≡ Compose → IsPlain (items_of checked.now) (plain_x first.now) ⊎ IsLinear (items_of checked.now) (plain_x second.now)) }
    ensures stop { IfErr result (λ s. (op ≡ Compose) × StopsPair (items_of checked.now) limit (plain_x first.now) (plain_x second.now) s) }
{
    match op {
        Op2::Compose => pair(alloc, checked, limit, first, second),
        _ => Ok(()),
    }
}

/// Whether each composition in the expression can be made.
// It isn't inlined into `composed_each`, each frame of which would then have a place for every result that this one holds.
#[cycle(composed)]
#[inline(never)]
fn composed(alloc: Global, checked: &Checked, limit: u32, e: &X) -> Result<(), ComposeStop>
    requires shallow { limit ≤ most_classes }
    requires declared { AreNamesDeclared (items_of checked.now) (plain_x e.now) }
    ensures composable { OnOk result (AreComposable (items_of checked.now) (plain_x e.now)) }
    ensures stop { IfErr result (StopsIn (items_of checked.now) limit (plain_x e.now)) }
{
    match e {
        X::Named(_) => Ok(()),
        X::One(_, _, inside) => composed(alloc, checked, limit, inside),
        X::Two(op, _, first, second) => {
            pair_under(alloc, checked, limit, *op, first, second)?;
            composed(alloc, checked, limit, first)?;
            composed(alloc, checked, limit, second)
        }
        X::Literal(_, _, xs) => composed_each(alloc, checked, limit, xs),
    }
}

/// Whether each composition in each of the expressions can be made.
// At a literal it calls itself, and not `composed`, so that a level of a tree takes one frame, with a place for one result: a
// result is large, and a tree may have 2,000 levels.
#[cycle(composed)]
fn composed_each(alloc: Global, checked: &Checked, limit: u32, xs: &[X]) -> Result<(), ComposeStop>
    requires shallow { limit ≤ most_classes }
    requires declared { All (λ x. AreNamesDeclared (items_of checked.now) (plain_x x)) xs.now }
    ensures composable { OnOk result (All (λ x. AreComposable (items_of checked.now) (plain_x x)) xs.now) }
    ensures stop { IfErr result (λ s. (x : X) × Contains xs.now x × StopsIn (items_of checked.now) limit (plain_x x) s) }
{
    'xs: for x in xs {
        let found = match x {
            X::Literal(_, _, inside) => composed_each(alloc, checked, limit, inside),
            _ => composed(alloc, checked, limit, x),
        };
        found?;
    }
    Ok(())
}

/// Whether each composition in the statement can be made.
fn composed_in(
    alloc: Global,
    checked: &Checked,
    limit: u32,
    claim: &Claim,
) -> Result<(), ComposeStop>
    requires shallow { limit ≤ most_classes }
    requires declared { (e : plain.X) → Contains (stated (plain_claim claim.now)) e → AreNamesDeclared (items_of checked.now) e }
    ensures composable { OnOk result ((e : plain.X) → Contains (stated (plain_claim claim.now)) e → AreComposable (items_of checked.now) e) }
    ensures stop { IfErr result (λ s. (e : plain.X) × Contains (stated (plain_claim claim.now)) e × StopsIn (items_of checked.now) limit e s) }
{
    match claim {
        Claim::Equal(x, y) => {
            composed(alloc, checked, limit, x)?;
            composed(alloc, checked, limit, y)
        }
        Claim::Member(x, y) => {
            composed(alloc, checked, limit, x)?;
            composed(alloc, checked, limit, y)
        }
        Claim::Empty(x) => composed(alloc, checked, limit, x),
        Claim::TypeCheck(x, f, y) => {
            composed(alloc, checked, limit, x)?;
            composed(alloc, checked, limit, f)?;
            composed(alloc, checked, limit, y)
        }
    }
}

/// Whether each composition in the item's expressions can be made. Of a composition whose second part is linear, nothing is asked
/// about the first; else no two rules of the first may meet, which a table of at most `limit` classes tells.
pub fn composable(
    alloc: Global,
    checked: &Checked,
    limit: u32,
    item: &Item,
) -> Result<(), ComposeStop>
    requires there { Contains (items_of checked.now) (plain_item item.now) }
    requires shallow { limit ≤ most_classes }
    ensures composable { OnOk result (IsComposable (items_of checked.now) (plain_item item.now).body) }
    ensures stop { IfErr result (IsComposeCause (items_of checked.now) limit (plain_item item.now).body) }
{
    match &item.body {
        Body::Tree(own) => composed(alloc, checked, limit, &own.value),
        Body::Def(own) => composed(alloc, checked, limit, &own.value),
        Body::Assert(own) => composed_in(alloc, checked, limit, &own.claim),
        Body::Sorts(_) | Body::Lang(_) | Body::Trans(_) => Ok(()),
    }
}
