//! Definitions of languages and transformations.

ghost use Rattle.std.specs.Prelude.{◌≡◌, ◌≤◌, ℕ, List, Some, IfOk, IfErr, OnOk};
ghost use Rattle.model_tree.specs.Limits.{most_classes};
ghost use Rattle.model_grammar.specs.Syntax.{Item};
ghost use Rattle.fast_syntax.specs.Plain.{plain_x, plain_def};
ghost use Rattle.model_names.specs.Kinds as kinds;
ghost use Rattle.model_meaning.specs.Reached.{definition_of};
ghost use Rattle.fast_build.specs.Items.{items_of};
ghost use Rattle.fast_eval.specs.Counted.{IsCounted};
ghost use Rattle.fast_eval.specs.Forms.{AreKnown, AreNamed, IsMadeOn, IsMadeFrom, IsTransKnown};
ghost use Rattle.fast_eval.specs.Defined.{IsDefined, IsMadeInto, AreKnownInto};
ghost use Rattle.fast_eval.specs.Scopes.{count_of, IsOperandOf, IsOperandNamed, IsTransOperandOf, IsTransOperandNamed};
ghost use Rattle.fast_eval.specs.Stops.{StopsExpression};
ghost use Rattle.fast_eval.specs.Table.{HasBuilt, IsNamed, IsGrown, AreBuilt};

use crate::built::Built;
use crate::evaluation::{Operand, TransOperand, language, transformation};
use crate::names::{Taken, build_names};
use crate::scopes::scope_of;
use crate::stops::EvalStop;
use fast_fault::{Memory, Text};
use fast_syntax::items::{DefItem, X};
use program_check::Checked;
use std::alloc::Global;

/// The automaton of an expression, each of whose names has one.
fn value(
    alloc: Global,
    checked: &Checked,
    built: &Built,
    limit: u32,
    x: &X,
) -> Result<Operand, EvalStop>
    requires built { AreBuilt (items_of checked.now) built.now }
    requires made { (type : List ℕ) × IsMadeOn (items_of checked.now) type (plain_x x.now) }
    requires named { AreNamed kinds.language built.now (plain_x x.now) }
    requires shallow { limit ≤ most_classes }
    ensures built { IfOk result (λ o. (type : List ℕ) → IsMadeOn (items_of checked.now) type (plain_x x.now) → IsOperandOf (items_of checked.now) (plain_x x.now) type built.now o) }
    ensures counted { IfOk result (λ o. IsCounted (items_of checked.now) (plain_x x.now) (count_of o)) }
    ensures stop { IfErr result (StopsExpression (items_of checked.now) (plain_x x.now) limit) }
{
    let scope = scope_of(checked, built, limit, x);
    language(alloc, &scope, x)
}

/// Keeps the automaton for the name, unless it has one. Gives the count of a least one.
fn keep(
    alloc: Global,
    built: &mut Built,
    name: &Text,
    operand: Operand,
) -> Result<Option<u32>, Memory>
    ensures built { (items : List Item) → AreBuilt items built.old → IsOperandNamed items name.now built.old operand → AreBuilt items built.new }
    ensures grown { IsGrown built.old built.new }
    ensures named { OnOk result (IsNamed built.new name.now) }
    ensures count { IfOk result (λ count. count ≡ count_of operand) }
{
    match operand {
        Operand::Kept(place) => {
            built.name_language(alloc, name, place)?;
            Ok(None)
        }
        Operand::Made(lang) => {
            built.add_language(alloc, name, lang)?;
            Ok(None)
        }
        Operand::Least(minimal) => {
            let count = minimal.count;
            built.add_language(alloc, name, minimal.lang)?;
            Ok(Some(count))
        }
    }
}

/// The transducer of an expression, for each of whose names there is what it takes.
fn trans_value(
    alloc: Global,
    checked: &Checked,
    built: &Built,
    limit: u32,
    f: &X,
) -> Result<TransOperand, EvalStop>
    requires built { AreBuilt (items_of checked.now) built.now }
    requires made { (from into : List ℕ) × IsMadeFrom (items_of checked.now) from into (plain_x f.now) }
    requires named { AreNamed kinds.transformation built.now (plain_x f.now) }
    requires shallow { limit ≤ most_classes }
    ensures built { IfOk result (λ o. (from into : List ℕ) → IsMadeFrom (items_of checked.now) from into (plain_x f.now) → IsTransOperandOf (items_of checked.now) (plain_x f.now) from into built.now o) }
    ensures stop { IfErr result (StopsExpression (items_of checked.now) (plain_x f.now) limit) }
{
    let scope = scope_of(checked, built, limit, f);
    transformation(alloc, &scope, f)
}

/// Keeps the transducer for the name, unless it has one.
fn keep_trans(
    alloc: Global,
    built: &mut Built,
    name: &Text,
    operand: TransOperand,
) -> Result<(), Memory>
    ensures built { (items : List Item) → AreBuilt items built.old → IsTransOperandNamed items name.now built.old operand → AreBuilt items built.new }
    ensures grown { IsGrown built.old built.new }
    ensures named { OnOk result (HasBuilt kinds.transformation built.new name.now) }
{
    match operand {
        TransOperand::Kept(place) => built.name_transformation(alloc, name, place),
        TransOperand::Made(trans) => built.add_transformation(alloc, name, trans),
    }
}

/// Builds the transformation of a definition, and keeps it for its name.
fn define_transformation(
    alloc: Global,
    checked: &Checked,
    built: &mut Built,
    limit: u32,
    def: &DefItem,
) -> Result<(), EvalStop>
    requires built { AreBuilt (items_of checked.now) built.old }
    requires defined { definition_of (items_of checked.now) def.now.name.text ≡ Some (plain_x def.now.value) }
    requires made { (from into : List ℕ) × IsMadeFrom (items_of checked.now) from into (plain_x def.now.value) }
    requires known { IsTransKnown (items_of checked.now) built.old (plain_x def.now.value) }
    requires shallow { limit ≤ most_classes }
    ensures built { AreBuilt (items_of checked.now) built.new }
    ensures grown { IsGrown built.old built.new }
    ensures named { OnOk result (HasBuilt kinds.transformation built.new def.now.name.text) }
    ensures stop { IfErr result (StopsExpression (items_of checked.now) (plain_x def.now.value) limit) }
{
    build_names(alloc, checked, built, Taken::Transformation, &def.value)?;
    let operand = trans_value(alloc, checked, built, limit, &def.value)?;
    Ok(keep_trans(alloc, built, &def.name.text, operand)?)
}

/// Builds the language of a definition, and keeps it for its name. Gives the size of the least automaton, where the
/// definition asks for it.
fn define_language(
    alloc: Global,
    checked: &Checked,
    built: &mut Built,
    limit: u32,
    def: &DefItem,
) -> Result<Option<u32>, EvalStop>
    requires built { AreBuilt (items_of checked.now) built.old }
    requires defined { definition_of (items_of checked.now) def.now.name.text ≡ Some (plain_x def.now.value) }
    requires made { (type : List ℕ) × IsMadeOn (items_of checked.now) type (plain_x def.now.value) }
    requires known { AreKnown (items_of checked.now) built.old (plain_x def.now.value) }
    requires shallow { limit ≤ most_classes }
    ensures built { AreBuilt (items_of checked.now) built.new }
    ensures grown { IsGrown built.old built.new }
    ensures named { OnOk result (IsNamed built.new def.now.name.text) }
    ensures counted { IfOk result (IsCounted (items_of checked.now) (plain_x def.now.value)) }
    ensures stop { IfErr result (StopsExpression (items_of checked.now) (plain_x def.now.value) limit) }
{
    build_names(alloc, checked, built, Taken::Language, &def.value)?;
    let operand = value(alloc, checked, built, limit, &def.value)?;
    Ok(keep(alloc, built, &def.name.text, operand)?)
}

/// Builds the language or transformation of a definition, and keeps it for its name. Gives the size of the least automaton,
/// where the definition asks for it.
pub fn define(
    alloc: Global,
    checked: &Checked,
    built: &mut Built,
    limit: u32,
    def: &DefItem,
) -> Result<Option<u32>, EvalStop>
    requires built { AreBuilt (items_of checked.now) built.old }
    requires defined { definition_of (items_of checked.now) def.now.name.text ≡ Some (plain_x def.now.value) }
    requires made { IsMadeInto (items_of checked.now) (plain_def def.now).into (plain_x def.now.value) }
    requires known { AreKnownInto (items_of checked.now) built.old (plain_def def.now).into (plain_x def.now.value) }
    requires shallow { limit ≤ most_classes }
    ensures built { AreBuilt (items_of checked.now) built.new }
    ensures grown { IsGrown built.old built.new }
    ensures named { OnOk result (IsDefined built.new (plain_def def.now)) }
    ensures counted { IfOk result (IsCounted (items_of checked.now) (plain_x def.now.value)) }
    ensures stop { IfErr result (StopsExpression (items_of checked.now) (plain_x def.now.value) limit) }
{
    match &def.into {
        None => define_language(alloc, checked, built, limit, def),
        Some(_) => {
            define_transformation(alloc, checked, built, limit, def)?;
            Ok(None)
        }
    }
}
