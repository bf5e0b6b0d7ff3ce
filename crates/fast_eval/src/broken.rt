//! The inputs that break a type.

ghost use Rattle.std.specs.Prelude.{ℕ, List, IfOk, IfErr};
ghost use Rattle.fast_syntax.specs.Plain.{plain_x};
ghost use Rattle.model_names.specs.Kinds.{language, transformation};
ghost use Rattle.fast_eval.specs.Broken.{outside_x, escaping_x, broken_x};
ghost use Rattle.fast_eval.specs.Built.{IsBuiltOf};
ghost use Rattle.fast_eval.specs.Forms.{AreNamed, IsMadeOn, IsMadeFrom};
ghost use Rattle.fast_eval.specs.Scopes.{items_in, type_in, IsScope, IsOperandOf, IsDecided, AreDecided};
ghost use Rattle.fast_eval.specs.Stops.{StopsExpression};

use crate::evaluation::{
    Operand, Scope, changed, join, lang_of, language, trans_of, transformation,
};
use crate::images::sources;
use crate::scopes::scope_of;
use crate::stops::EvalStop;
use fast_syntax::items::X;
use model_grammar::{Op1, Op2};
use record_label::RowAtom;
use sta_core::Lang;
use std::alloc::Global;

/// The trees that aren't in a language.
fn outside(alloc: Global, scope: &Scope, y: &X) -> Result<Operand, EvalStop>
    requires scope { IsScope scope.now }
    requires made { IsMadeOn (items_in scope.now) (type_in scope.now) (plain_x y.now) }
    requires named { AreNamed language scope.now.built.now (plain_x y.now) }
    ensures built { IfOk result (IsOperandOf (items_in scope.now) (outside_x (plain_x y.now)) (type_in scope.now) scope.now.built.now) }
    ensures decided { IfOk result (λ _. IsDecided (items_in scope.now) (type_in scope.now) (plain_x y.now)) }
    ensures stop { IfErr result (StopsExpression (items_in scope.now) (outside_x (plain_x y.now)) scope.now.limit) }
{
    let own = language(alloc, scope, y)?;
    let lang = lang_of(scope.built, &own);
    changed(alloc, scope, Op1::Complement, lang)
}

/// The inputs of a transformation with an output that isn't in a language.
fn escaping(alloc: Global, scope: &Scope, f: &X, y: &X) -> Result<Lang<RowAtom>, EvalStop>
    requires scope { IsScope scope.now }
    requires made { (into : List ℕ) × IsMadeFrom (items_in scope.now) (type_in scope.now) into (plain_x f.now) × IsMadeOn (items_in scope.now) into (plain_x y.now) }
    requires named { AreNamed transformation scope.now.built.now (plain_x f.now) }
    requires second_named { AreNamed language scope.now.built.now (plain_x y.now) }
    ensures built { IfOk result (IsBuiltOf (items_in scope.now) (escaping_x (plain_x f.now) (plain_x y.now)) (type_in scope.now)) }
    ensures decided { IfOk result (λ _. AreDecided (items_in scope.now) (type_in scope.now) (plain_x f.now) (plain_x y.now)) }
    ensures stop { IfErr result (StopsExpression (items_in scope.now) (escaping_x (plain_x f.now) (plain_x y.now)) scope.now.limit) }
{
    let other = scope_of(scope.checked, scope.built, scope.limit, y);
    let b = outside(alloc, &other, y)?;
    let a = transformation(alloc, scope, f)?;
    let a = trans_of(scope.built, &a);
    let b = lang_of(scope.built, &b);
    sources(alloc, scope, a, b)
}

/// The trees of a language for which the transformation has an output that isn't in another.
pub fn broken(alloc: Global, scope: &Scope, x: &X, f: &X, y: &X) -> Result<Lang<RowAtom>, EvalStop>
    requires scope { IsScope scope.now }
    requires made { (into : List ℕ) × IsMadeOn (items_in scope.now) (type_in scope.now) (plain_x x.now) × IsMadeFrom (items_in scope.now) (type_in scope.now) into (plain_x f.now) × IsMadeOn (items_in scope.now) into (plain_x y.now) }
    requires first_named { AreNamed language scope.now.built.now (plain_x x.now) }
    requires named { AreNamed transformation scope.now.built.now (plain_x f.now) }
    requires second_named { AreNamed language scope.now.built.now (plain_x y.now) }
    ensures built { IfOk result (IsBuiltOf (items_in scope.now) (broken_x (plain_x x.now) (plain_x f.now) (plain_x y.now)) (type_in scope.now)) }
    ensures decided { IfOk result (λ _. AreDecided (items_in scope.now) (type_in scope.now) (plain_x f.now) (plain_x y.now)) }
    ensures stop { IfErr result (StopsExpression (items_in scope.now) (broken_x (plain_x x.now) (plain_x f.now) (plain_x y.now)) scope.now.limit) }
{
    let a = language(alloc, scope, x)?;
    let b = escaping(alloc, scope, f, y)?;
    let a = lang_of(scope.built, &a);
    join(alloc, scope, Op2::Intersect, a, &b)
}
