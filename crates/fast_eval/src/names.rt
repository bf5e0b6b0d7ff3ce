//! Languages and transformations of names, each built once.

ghost use Rattle.std.specs.Prelude.{◌≡◌, OnOk};
ghost use Rattle.fast_syntax.specs.Plain.{plain_x};
ghost use Rattle.model_names.specs.Kinds as kinds;
ghost use Rattle.model_names.specs.Kinds.{taken_by_one, taken_first, taken_second};
ghost use Rattle.fast_build.specs.Items.{items_of};
ghost use Rattle.fast_eval.specs.Forms.{plain_taken, IsReadyName, AreReady, AreNamed};
ghost use Rattle.fast_eval.specs.Table.{HasBuilt, IsNamed, IsGrown, AreBuilt};

use crate::built::Built;
use fast_build::languages;
use fast_fault::{Memory, Text};
use fast_syntax::items::X;
use model_grammar::{Op1, Op2};
use program_check::Checked;
use std::alloc::Global;

/// Builds the language of a name by its rules, unless it has one.
fn build_name(
    alloc: Global,
    checked: &Checked,
    built: &mut Built,
    name: &Text,
) -> Result<(), Memory>
    requires known { IsReadyName kinds.language (items_of checked.now) built.old name.now }
    ensures built { AreBuilt (items_of checked.now) built.old → AreBuilt (items_of checked.now) built.new }
    ensures grown { IsGrown built.old built.new }
    ensures named { OnOk result (IsNamed built.new name.now) }
{
    if built.languages().place(name).is_some() {
        return Ok(());
    }
    let lang = languages(alloc, checked, name)?;
    built.add_language(alloc, name, lang)
}

/// Builds the transformation of a name by its rules, unless it has one.
fn build_transformation(
    alloc: Global,
    checked: &Checked,
    built: &mut Built,
    name: &Text,
) -> Result<(), Memory>
    requires known { IsReadyName kinds.transformation (items_of checked.now) built.old name.now }
    ensures built { AreBuilt (items_of checked.now) built.old → AreBuilt (items_of checked.now) built.new }
    ensures grown { IsGrown built.old built.new }
    ensures named { OnOk result (HasBuilt kinds.transformation built.new name.now) }
{
    if built.transformations().place(name).is_some() {
        return Ok(());
    }
    let trans = fast_build::transformation(alloc, checked, name)?;
    built.add_transformation(alloc, name, trans.trans)
}

/// What an operation takes.
#[derive(Clone, Copy)]
pub enum Taken {
    Language,
    Transformation,
    Tree,
}

fn taken_by_one(op: Op1) -> Taken
    ensures { plain_taken result ≡ taken_by_one op }
{
    match op {
        Op1::Complement | Op1::Minimize | Op1::GetWitness => Taken::Language,
        Op1::Domain => Taken::Transformation,
    }
}

fn taken_first(op: Op2) -> Taken
    ensures { plain_taken result ≡ taken_first op }
{
    match op {
        Op2::Intersect | Op2::Union | Op2::Difference => Taken::Language,
        Op2::PreImage | Op2::Compose | Op2::Restrict | Op2::RestrictOut | Op2::Apply => {
            Taken::Transformation
        }
    }
}

fn taken_second(op: Op2) -> Taken
    ensures { plain_taken result ≡ taken_second op }
{
    match op {
        Op2::Intersect
        | Op2::Union
        | Op2::Difference
        | Op2::PreImage
        | Op2::Restrict
        | Op2::RestrictOut => Taken::Language,
        Op2::Compose => Taken::Transformation,
        Op2::Apply => Taken::Tree,
    }
}

/// Builds what is taken of a name, unless it has it.
fn build_taken(
    alloc: Global,
    checked: &Checked,
    built: &mut Built,
    taken: Taken,
    name: &Text,
) -> Result<(), Memory>
    requires known { IsReadyName (plain_taken taken) (items_of checked.now) built.old name.now }
    ensures built { AreBuilt (items_of checked.now) built.old → AreBuilt (items_of checked.now) built.new }
    ensures grown { IsGrown built.old built.new }
    ensures named { OnOk result (HasBuilt (plain_taken taken) built.new name.now) }
{
    match taken {
        Taken::Language => build_name(alloc, checked, built, name),
        Taken::Transformation => build_transformation(alloc, checked, built, name),
        Taken::Tree => Ok(()),
    }
}

/// Builds what is taken of the names in an expression, of which itself this is taken.
pub fn build_names(
    alloc: Global,
    checked: &Checked,
    built: &mut Built,
    taken: Taken,
    x: &X,
) -> Result<(), Memory>
    requires known { AreReady (plain_taken taken) (items_of checked.now) built.old (plain_x x.now) }
    ensures built { AreBuilt (items_of checked.now) built.old → AreBuilt (items_of checked.now) built.new }
    ensures grown { IsGrown built.old built.new }
    ensures named { OnOk result (AreNamed (plain_taken taken) built.new (plain_x x.now)) }
{
    match x {
        X::Named(name) => build_taken(alloc, checked, built, taken, &name.text),
        X::One(op, _, inside) => build_names(alloc, checked, built, taken_by_one(*op), inside),
        X::Two(op, _, first, second) => {
            build_names(alloc, checked, built, taken_first(*op), first)?;
            build_names(alloc, checked, built, taken_second(*op), second)
        }
        X::Literal(..) => Ok(()),
    }
}
