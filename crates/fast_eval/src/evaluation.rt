//! The automata of expressions of languages, and the transducers of expressions of transformations.

ghost use Rattle.std.specs.Prelude.{◌≡◌, ◌⊎◌, ℕ, List, IfOk, IfErr, None, true};
ghost use Rattle.fast_syntax.specs.View.{plain_name};
ghost use Rattle.fast_syntax.specs.Plain.{plain_x};
ghost use Rattle.model_grammar.specs.Syntax as plain;
ghost use Rattle.model_grammar.specs.declared.Op1.TheVariants.{Domain};
ghost use Rattle.model_grammar.specs.declared.Op2.TheVariants.{PreImage, Compose, Restrict, RestrictOut};
ghost use Rattle.model_names.specs.Kinds.{language, transformation};
ghost use Rattle.model_run.specs.Parts.{IsOn, IsFrom};
ghost use Rattle.model_run.specs.Plain.{IsPlain, IsLinear};
ghost use Rattle.fast_eval.specs.Built.{IsBuiltOf};
ghost use Rattle.fast_eval.specs.Counted.{IsCounted};
ghost use Rattle.fast_eval.specs.Forms.{AreNamed, IsMadeOn, IsMadeFrom, joins_two, changes_one};
ghost use Rattle.fast_eval.specs.Scopes.{items_in, type_in, IsScope, lang_of, IsLow, count_of, IsOperandOf, trans_in, IsTransLow, IsTransOperandOf, IsTransOperandFrom};
ghost use Rattle.fast_eval.specs.Stops.{StopsExpression};
ghost use Rattle.fast_eval.specs.Table.{HasBuilt, IsNamed};

use crate::built::Built;
use crate::images::{composed, inputs, restricted, restricted_out, sources};
use crate::scopes::scope_of;
use crate::stops::EvalStop;
use fast_fault::Text;
use fast_syntax::Name;
use fast_syntax::items::X;
use model_grammar::{Op1, Op2};
use program_check::Checked;
use record_label::{RowAtom, RowLabels, RowMap};
use sta_core::Lang;
use sta_min::{Minimal, minimize};
use sta_ops::{complement, difference, intersect, union};
use std::alloc::Global;
use sttr_core::Trans;

/// Over what expressions are evaluated.
#[derive(Drop)]
pub struct Scope<'s> {
    pub checked: &'s Checked,
    /// What was built for names.
    pub built: &'s Built,
    /// The name of the type of the trees, or of the inputs.
    pub of: &'s Text,
    /// The labels of that type.
    pub theory: &'s RowLabels,
    /// How many trees may be told apart.
    pub limit: u32,
}

/// The automaton of an expression: the one at a place among those that were built for names, one that was made, or the least
/// one with its count.
#[derive(Drop)]
pub enum Operand {
    Kept(usize),
    Made(Lang<RowAtom>),
    Least(Minimal<RowAtom>),
}

/// The automaton itself.
pub fn lang_of<'l>(built: &'l Built, operand: &'l Operand) -> &'l Lang<RowAtom>
    requires { IsLow built.now operand.now }
    ensures { result.now ≡ lang_of built.now operand.now result.now }
{
    match operand {
        Operand::Kept(place) => built.languages().at(*place),
        Operand::Made(lang) => lang,
        Operand::Least(minimal) => &minimal.lang,
    }
}

/// The transducer of an expression: the one at a place among those that were built for names, or one that was made.
#[derive(Drop)]
pub enum TransOperand {
    Kept(usize),
    Made(Trans<RowAtom, RowMap>),
}

/// The transducer itself.
pub fn trans_of<'l>(built: &'l Built, operand: &'l TransOperand) -> &'l Trans<RowAtom, RowMap>
    requires { IsTransLow built.now operand.now }
    ensures { result.now ≡ trans_in built.now operand.now result.now }
{
    match operand {
        TransOperand::Kept(place) => built.transformations().at(*place),
        TransOperand::Made(trans) => trans,
    }
}

/// The place of the language of a name.
fn named(scope: &Scope, name: &Name) -> Operand
    requires scope { IsScope scope.now }
    requires on { IsOn (items_in scope.now) (plain.named (plain_name name.now)) (type_in scope.now) }
    requires named { IsNamed scope.now.built.now name.now.text }
    ensures operand { IsOperandOf (items_in scope.now) (plain.named (plain_name name.now)) (type_in scope.now) scope.now.built.now result }
    ensures uncounted { count_of result ≡ None }
{
    let Some(place) = scope.built.languages().place(&name.text) else {
        unreachable!()
    };
    Operand::Kept(place)
}

/// The place of the transformation of a name.
fn named_trans(scope: &Scope, name: &Name) -> TransOperand
    requires scope { IsScope scope.now }
    requires goes { (into : List ℕ) × IsFrom (items_in scope.now) (plain.named (plain_name name.now)) (type_in scope.now) into }
    requires named { HasBuilt transformation scope.now.built.now name.now.text }
    ensures { IsTransOperandFrom (items_in scope.now) (plain.named (plain_name name.now)) (type_in scope.now) scope.now.built.now result }
{
    let Some(place) = scope.built.transformations().place(&name.text) else {
        unreachable!()
    };
    TransOperand::Kept(place)
}

/// What an operation makes of two languages.
pub fn join(
    alloc: Global,
    scope: &Scope,
    op: Op2,
    a: &Lang<RowAtom>,
    b: &Lang<RowAtom>,
) -> Result<Lang<RowAtom>, EvalStop>
    requires scope { IsScope scope.now }
    requires op { joins_two op ≡ true }
    requires first { (x : plain.X) × IsBuiltOf (items_in scope.now) x (type_in scope.now) a.now }
    requires second { (y : plain.X) × IsBuiltOf (items_in scope.now) y (type_in scope.now) b.now }
    ensures built { IfOk result (λ c. (place : _) (x y : plain.X) → IsBuiltOf (items_in scope.now) x (type_in scope.now) a.now → IsBuiltOf (items_in scope.now) y (type_in scope.now) b.now → IsBuiltOf (items_in scope.now) (plain.two op place x y) (type_in scope.now) c) }
    ensures stop { IfErr result (λ s. (place : _) (x y : plain.X) → IsBuiltOf (items_in scope.now) x (type_in scope.now) a.now → IsBuiltOf (items_in scope.now) y (type_in scope.now) b.now → StopsExpression (items_in scope.now) (plain.two op place x y) scope.now.limit s) }
{
    match op {
        Op2::Union => Ok(union(scope.theory, alloc, a, b)?),
        Op2::Intersect => Ok(intersect(scope.theory, alloc, a, b)?),
        Op2::Difference => Ok(difference(scope.theory, alloc, a, b, scope.limit)?),
        _ => unreachable!(),
    }
}

/// What an operation makes of a language.
pub fn changed(
    alloc: Global,
    scope: &Scope,
    op: Op1,
    a: &Lang<RowAtom>,
) -> Result<Operand, EvalStop>
    requires scope { IsScope scope.now }
    requires op { changes_one op ≡ true }
    requires operand { (x : plain.X) × IsBuiltOf (items_in scope.now) x (type_in scope.now) a.now }
    ensures built { IfOk result (λ o. (place : _) (x : plain.X) → IsBuiltOf (items_in scope.now) x (type_in scope.now) a.now → IsOperandOf (items_in scope.now) (plain.one op place x) (type_in scope.now) scope.now.built.now o) }
    ensures counted { IfOk result (λ o. (place : _) (x : plain.X) → IsBuiltOf (items_in scope.now) x (type_in scope.now) a.now → IsCounted (items_in scope.now) (plain.one op place x) (count_of o)) }
    ensures stop { IfErr result (λ s. (place : _) (x : plain.X) → IsBuiltOf (items_in scope.now) x (type_in scope.now) a.now → StopsExpression (items_in scope.now) (plain.one op place x) scope.now.limit s) }
{
    match op {
        Op1::Complement => Ok(Operand::Made(complement(scope.theory, alloc, a, scope.limit)?)),
        Op1::Minimize => Ok(Operand::Least(minimize(scope.theory, alloc, a, scope.limit)?)),
        _ => unreachable!(),
    }
}

/// The automaton of an expression, for each of whose names there is what it takes.
#[cycle(expressions)]
pub fn language(alloc: Global, scope: &Scope, x: &X) -> Result<Operand, EvalStop>
    requires scope { IsScope scope.now }
    requires made { IsMadeOn (items_in scope.now) (type_in scope.now) (plain_x x.now) }
    requires named { AreNamed language scope.now.built.now (plain_x x.now) }
    ensures built { IfOk result (IsOperandOf (items_in scope.now) (plain_x x.now) (type_in scope.now) scope.now.built.now) }
    ensures counted { IfOk result (λ o. IsCounted (items_in scope.now) (plain_x x.now) (count_of o)) }
    ensures stop { IfErr result (StopsExpression (items_in scope.now) (plain_x x.now) scope.now.limit) }
{
    match x {
        X::Named(name) => Ok(named(scope, name)),
        X::One(Op1::Domain, _, f) => domain_of(alloc, scope, f),
        X::One(op, _, inside) => {
            let of = language(alloc, scope, inside)?;
            let lang = lang_of(scope.built, &of);
            changed(alloc, scope, *op, lang)
        }
        X::Two(Op2::PreImage, _, f, y) => preimage_of(alloc, scope, f, y),
        X::Two(op, _, first, second) => {
            let a = language(alloc, scope, first)?;
            let b = language(alloc, scope, second)?;
            let a = lang_of(scope.built, &a);
            let b = lang_of(scope.built, &b);
            Ok(Operand::Made(join(alloc, scope, *op, a, b)?))
        }
        X::Literal(..) => unreachable!(),
    }
}

/// The automaton of the inputs of an expression of a transformation that have an output.
#[cycle(expressions)]
fn domain_of(alloc: Global, scope: &Scope, f: &X) -> Result<Operand, EvalStop>
    requires scope { IsScope scope.now }
    requires made { (into : List ℕ) × IsMadeFrom (items_in scope.now) (type_in scope.now) into (plain_x f.now) }
    requires named { AreNamed transformation scope.now.built.now (plain_x f.now) }
    ensures built { IfOk result (λ o. (place : _) → IsOperandOf (items_in scope.now) (plain.one Domain place (plain_x f.now)) (type_in scope.now) scope.now.built.now o) }
    ensures uncounted { IfOk result (λ o. count_of o ≡ None) }
    ensures stop { IfErr result (λ s. (place : _) → StopsExpression (items_in scope.now) (plain.one Domain place (plain_x f.now)) scope.now.limit s) }
{
    let a = transformation(alloc, scope, f)?;
    let a = trans_of(scope.built, &a);
    Ok(Operand::Made(inputs(alloc, scope, a)?))
}

/// The automaton of those that have an output in the language of another expression.
#[cycle(expressions)]
fn preimage_of(alloc: Global, scope: &Scope, f: &X, y: &X) -> Result<Operand, EvalStop>
    requires scope { IsScope scope.now }
    requires made { (into : List ℕ) × IsMadeFrom (items_in scope.now) (type_in scope.now) into (plain_x f.now) × IsMadeOn (items_in scope.now) into (plain_x y.now) }
    requires first_named { AreNamed transformation scope.now.built.now (plain_x f.now) }
    requires second_named { AreNamed language scope.now.built.now (plain_x y.now) }
    ensures built { IfOk result (λ o. (place : _) → IsOperandOf (items_in scope.now) (plain.two PreImage place (plain_x f.now) (plain_x y.now)) (type_in scope.now) scope.now.built.now o) }
    ensures uncounted { IfOk result (λ o. count_of o ≡ None) }
    ensures stop { IfErr result (λ s. (place : _) → StopsExpression (items_in scope.now) (plain.two PreImage place (plain_x f.now) (plain_x y.now)) scope.now.limit s) }
{
    let other = scope_of(scope.checked, scope.built, scope.limit, y);
    let b = language(alloc, &other, y)?;
    let a = transformation(alloc, scope, f)?;
    let a = trans_of(scope.built, &a);
    let b = lang_of(scope.built, &b);
    Ok(Operand::Made(sources(alloc, scope, a, b)?))
}

/// The transducer of an expression, for each of whose names there is what it takes.
#[cycle(expressions)]
pub fn transformation(alloc: Global, scope: &Scope, f: &X) -> Result<TransOperand, EvalStop>
    requires scope { IsScope scope.now }
    requires made { (into : List ℕ) × IsMadeFrom (items_in scope.now) (type_in scope.now) into (plain_x f.now) }
    requires named { AreNamed transformation scope.now.built.now (plain_x f.now) }
    ensures built { IfOk result (IsTransOperandFrom (items_in scope.now) (plain_x f.now) (type_in scope.now) scope.now.built.now) }
    ensures stop { IfErr result (StopsExpression (items_in scope.now) (plain_x f.now) scope.now.limit) }
{
    match f {
        X::Named(name) => Ok(named_trans(scope, name)),
        X::Two(Op2::Restrict, _, inside, y) => restrict_of(alloc, scope, inside, y),
        X::Two(Op2::RestrictOut, _, inside, y) => restrict_out_of(alloc, scope, inside, y),
        X::Two(Op2::Compose, _, inside, other) => compose_of(alloc, scope, inside, other),
        X::One(..) | X::Two(..) | X::Literal(..) => unreachable!(),
    }
}

/// The transducer of a transformation on the inputs that are in a language.
#[cycle(expressions)]
fn restrict_of(alloc: Global, scope: &Scope, f: &X, y: &X) -> Result<TransOperand, EvalStop>
    requires scope { IsScope scope.now }
    requires made { (into : List ℕ) × IsMadeFrom (items_in scope.now) (type_in scope.now) into (plain_x f.now) × IsMadeOn (items_in scope.now) (type_in scope.now) (plain_x y.now) }
    requires first_named { AreNamed transformation scope.now.built.now (plain_x f.now) }
    requires second_named { AreNamed language scope.now.built.now (plain_x y.now) }
    ensures built { IfOk result (λ o. (place : _) → IsTransOperandFrom (items_in scope.now) (plain.two Restrict place (plain_x f.now) (plain_x y.now)) (type_in scope.now) scope.now.built.now o) }
    ensures stop { IfErr result (λ s. (place : _) → StopsExpression (items_in scope.now) (plain.two Restrict place (plain_x f.now) (plain_x y.now)) scope.now.limit s) }
{
    let b = language(alloc, scope, y)?;
    let a = transformation(alloc, scope, f)?;
    let a = trans_of(scope.built, &a);
    let b = lang_of(scope.built, &b);
    Ok(TransOperand::Made(restricted(alloc, scope, a, b)?))
}

/// The transducer of a transformation where its outputs are in a language.
#[cycle(expressions)]
fn restrict_out_of(alloc: Global, scope: &Scope, f: &X, y: &X) -> Result<TransOperand, EvalStop>
    requires scope { IsScope scope.now }
    requires made { (into : List ℕ) × IsMadeFrom (items_in scope.now) (type_in scope.now) into (plain_x f.now) × IsMadeOn (items_in scope.now) into (plain_x y.now) }
    requires first_named { AreNamed transformation scope.now.built.now (plain_x f.now) }
    requires second_named { AreNamed language scope.now.built.now (plain_x y.now) }
    ensures built { IfOk result (λ o. (place : _) → IsTransOperandFrom (items_in scope.now) (plain.two RestrictOut place (plain_x f.now) (plain_x y.now)) (type_in scope.now) scope.now.built.now o) }
    ensures stop { IfErr result (λ s. (place : _) → StopsExpression (items_in scope.now) (plain.two RestrictOut place (plain_x f.now) (plain_x y.now)) scope.now.limit s) }
{
    let other = scope_of(scope.checked, scope.built, scope.limit, y);
    let b = language(alloc, &other, y)?;
    let a = transformation(alloc, scope, f)?;
    let a = trans_of(scope.built, &a);
    let b = lang_of(scope.built, &b);
    Ok(TransOperand::Made(restricted_out(alloc, scope, a, b)?))
}

/// The transducer of a transformation after another.
#[cycle(expressions)]
fn compose_of(alloc: Global, scope: &Scope, f: &X, g: &X) -> Result<TransOperand, EvalStop>
    requires scope { IsScope scope.now }
    requires made { (into middle : List ℕ) × IsMadeFrom (items_in scope.now) (type_in scope.now) middle (plain_x f.now) × IsMadeFrom (items_in scope.now) middle into (plain_x g.now) × (IsPlain (items_in scope.now) (plain_x f.now) ⊎ IsLinear (items_in scope.now) (plain_x g.now)) }
    requires first_named { AreNamed transformation scope.now.built.now (plain_x f.now) }
    requires second_named { AreNamed transformation scope.now.built.now (plain_x g.now) }
    ensures built { IfOk result (λ o. (place : _) → IsTransOperandFrom (items_in scope.now) (plain.two Compose place (plain_x f.now) (plain_x g.now)) (type_in scope.now) scope.now.built.now o) }
    ensures stop { IfErr result (λ s. (place : _) → StopsExpression (items_in scope.now) (plain.two Compose place (plain_x f.now) (plain_x g.now)) scope.now.limit s) }
{
    let other = scope_of(scope.checked, scope.built, scope.limit, g);
    let b = transformation(alloc, &other, g)?;
    let a = transformation(alloc, scope, f)?;
    let a = trans_of(scope.built, &a);
    let b = trans_of(scope.built, &b);
    Ok(TransOperand::Made(composed(alloc, scope, a, b)?))
}
