//! Trees that languages have, and whether a tree is in one.

ghost use Rattle.std.specs.Prelude.{◌≡◌, ◌≤◌, ◌↔◌, ℕ, List, [], ◌∷◌, IfOk, IfErr, true};
ghost use Rattle.model_tree.specs.Limits.{most_classes};
ghost use Rattle.model_tree.specs.Tree.{relabel, EveryLabel};
ghost use Rattle.model_sta.specs.Automaton.{is_accepted};
ghost use Rattle.label_core.specs.Meaning.{KeepsValue};
ghost use Rattle.sta_core.specs.Sta.{automaton_of, AtomsFit};
ghost use Rattle.record_label.specs.Meaning.{row_meaning};
ghost use Rattle.record_label.specs.Rows.{RowFits, row_holds};
ghost use Rattle.model_tree.specs.Signature.{HasType};
ghost use Rattle.model_tree.specs.Kept.{is_kept};
ghost use Rattle.fast_tree.specs.Entries.{label_meaning};
ghost use Rattle.fast_syntax.specs.Plain.{plain_x};
ghost use Rattle.model_meaning.specs.Meaning.{IsInLanguage, input_type};
ghost use Rattle.model_names.specs.Kinds as kinds;
ghost use Rattle.fast_build.specs.Items.{items_of};
ghost use Rattle.fast_eval.specs.Forms.{AreKnown, AreNamed, IsMadeOn};
ghost use Rattle.fast_eval.specs.Scopes.{items_in, type_in, IsScope};
ghost use Rattle.fast_eval.specs.Stops.{IsStopOf, StopsExpression};
ghost use Rattle.fast_eval.specs.Table.{IsGrown, AreBuilt};
ghost use Rattle.fast_eval.specs.Witnesses.{IsWitnessOf};

use crate::built::Built;
use crate::evaluation::{Scope, lang_of, language};
use crate::names::{Taken, build_names};
use crate::scopes::scope_of;
use crate::stops::EvalStop;
use fast_fault::Memory;
use fast_syntax::items::X;
use fast_tree::{Label, Tree};
use program_check::Checked;
use record_label::{RowAtom, RowLabels};
use sta_core::Lang;
use sta_marks::mark_nodes;
use sta_ops::{Found, empty};
use std::alloc::Global;

/// A least tree of the language of an expression, each of whose names has a language.
fn least(alloc: Global, scope: &Scope, x: &X) -> Result<Found<Label>, EvalStop>
    requires scope { IsScope scope.now }
    requires made { IsMadeOn (items_in scope.now) (type_in scope.now) (plain_x x.now) }
    requires named { AreNamed kinds.language scope.now.built.now (plain_x x.now) }
    ensures found { IfOk result (IsWitnessOf (items_in scope.now) (plain_x x.now)) }
    ensures stop { IfErr result (IsStopOf (items_in scope.now) (plain_x x.now ∷ []) scope.now.limit) }
{
    let a = language(alloc, scope, x)?;
    Ok(empty(scope.theory, alloc, lang_of(scope.built, &a), scope.limit)?)
}

/// A least tree of the language of an expression; or that there is none, or only trees that are too large.
pub fn witness(
    alloc: Global,
    checked: &Checked,
    built: &mut Built,
    limit: u32,
    x: &X,
) -> Result<Found<Label>, EvalStop>
    requires built { AreBuilt (items_of checked.now) built.old }
    requires made { (type : List ℕ) × IsMadeOn (items_of checked.now) type (plain_x x.now) }
    requires known { AreKnown (items_of checked.now) built.old (plain_x x.now) }
    requires shallow { limit ≤ most_classes }
    ensures built { AreBuilt (items_of checked.now) built.new }
    ensures grown { IsGrown built.old built.new }
    ensures found { IfOk result (IsWitnessOf (items_of checked.now) (plain_x x.now)) }
    ensures stop { IfErr result (IsStopOf (items_of checked.now) (plain_x x.now ∷ []) limit) }
{
    build_names(alloc, checked, built, Taken::Language, x)?;
    let scope = scope_of(checked, built, limit, x);
    least(alloc, &scope, x)
}

/// Whether the language has the tree.
fn has_tree(
    alloc: Global,
    theory: &RowLabels,
    lang: &Lang<RowAtom>,
    tree: &Tree<Label>,
) -> Result<bool, Memory>
    requires fits { AtomsFit (RowFits theory.now) lang.now.sta }
    requires labels { EveryLabel (KeepsValue (row_meaning theory.now)) tree.now }
    ensures { IfOk result (λ inside. inside ≡ is_accepted (automaton_of row_holds lang.now.sta) (relabel label_meaning tree.now) lang.now.state) }
{
    let marks = mark_nodes(theory, alloc, &lang.sta, tree)?;
    Ok(marks.has(0, lang.state))
}

/// Whether a tree is in the language of an expression, each of whose names has a language.
fn is_inside(alloc: Global, scope: &Scope, y: &X, tree: &Tree<Label>) -> Result<bool, EvalStop>
    requires scope { IsScope scope.now }
    requires made { IsMadeOn (items_in scope.now) (type_in scope.now) (plain_x y.now) }
    requires named { AreNamed kinds.language scope.now.built.now (plain_x y.now) }
    requires typed { HasType (input_type (items_in scope.now) (plain_x y.now)) (relabel label_meaning tree.now) }
    requires kept { is_kept (relabel label_meaning tree.now) ≡ true }
    ensures inside { IfOk result (λ inside. (inside ≡ true) ↔ IsInLanguage (items_in scope.now) (plain_x y.now) (relabel label_meaning tree.now)) }
    ensures stop { IfErr result (StopsExpression (items_in scope.now) (plain_x y.now) scope.now.limit) }
{
    let a = language(alloc, scope, y)?;
    let lang = lang_of(scope.built, &a);
    Ok(has_tree(alloc, scope.theory, lang, tree)?)
}

/// Whether a tree is in the language of an expression.
pub fn belongs(
    alloc: Global,
    checked: &Checked,
    built: &mut Built,
    limit: u32,
    y: &X,
    tree: &Tree<Label>,
) -> Result<bool, EvalStop>
    requires built { AreBuilt (items_of checked.now) built.old }
    requires made { (type : List ℕ) × IsMadeOn (items_of checked.now) type (plain_x y.now) }
    requires known { AreKnown (items_of checked.now) built.old (plain_x y.now) }
    requires shallow { limit ≤ most_classes }
    requires typed { HasType (input_type (items_of checked.now) (plain_x y.now)) (relabel label_meaning tree.now) }
    requires kept { is_kept (relabel label_meaning tree.now) ≡ true }
    ensures built { AreBuilt (items_of checked.now) built.new }
    ensures grown { IsGrown built.old built.new }
    ensures inside { IfOk result (λ inside. (inside ≡ true) ↔ IsInLanguage (items_of checked.now) (plain_x y.now) (relabel label_meaning tree.now)) }
    ensures stop { IfErr result (StopsExpression (items_of checked.now) (plain_x y.now) limit) }
{
    build_names(alloc, checked, built, Taken::Language, y)?;
    let scope = scope_of(checked, built, limit, y);
    is_inside(alloc, &scope, y, tree)
}
