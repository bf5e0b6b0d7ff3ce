//! What is made of a transformation, of a transformation and a language, and of two transformations.

ghost use Rattle.std.specs.Prelude.{◌≡◌, ℕ, List, IfOk, IfErr};
ghost use Rattle.model_grammar.specs.Syntax as plain;
ghost use Rattle.model_grammar.specs.declared.Op1.TheVariants.{Domain};
ghost use Rattle.model_grammar.specs.declared.Op2.TheVariants.{PreImage, Compose, Restrict, RestrictOut};
ghost use Rattle.fast_eval.specs.Built.{IsBuiltOf, IsTransBuiltOf};
ghost use Rattle.fast_eval.specs.Scopes.{items_in, type_in, IsScope, LooksAt, RunsAfter};
ghost use Rattle.fast_eval.specs.Stops.{StopsExpression};

use crate::evaluation::Scope;
use crate::stops::EvalStop;
use fast_fault::Memory;
use record_label::{RowAtom, RowMap};
use sta_core::Lang;
use std::alloc::Global;
use sttr_compose::compose;
use sttr_core::Trans;
use sttr_preimage::{domain, preimage, restrict, restrict_out};

/// The inputs of a transformation that have an output.
pub fn inputs(
    alloc: Global,
    scope: &Scope,
    a: &Trans<RowAtom, RowMap>,
) -> Result<Lang<RowAtom>, Memory>
    requires scope { IsScope scope.now }
    requires operand { (f : plain.X) × (into : List ℕ) × IsTransBuiltOf (items_in scope.now) f (type_in scope.now) into a.now }
    ensures { IfOk result (λ c. (place : _) (f : plain.X) (into : List ℕ) → IsTransBuiltOf (items_in scope.now) f (type_in scope.now) into a.now → IsBuiltOf (items_in scope.now) (plain.one Domain place f) (type_in scope.now) c) }
{
    domain(scope.theory, alloc, a)
}

/// The inputs of a transformation that have an output in a language.
pub fn sources(
    alloc: Global,
    scope: &Scope,
    a: &Trans<RowAtom, RowMap>,
    b: &Lang<RowAtom>,
) -> Result<Lang<RowAtom>, EvalStop>
    requires scope { IsScope scope.now }
    requires operands { (f y : plain.X) × (into : List ℕ) × LooksAt (items_in scope.now) f y (type_in scope.now) into a.now b.now }
    ensures built { IfOk result (λ c. (place : _) (f y : plain.X) (into : List ℕ) → LooksAt (items_in scope.now) f y (type_in scope.now) into a.now b.now → IsBuiltOf (items_in scope.now) (plain.two PreImage place f y) (type_in scope.now) c) }
    ensures stop { IfErr result (λ s. (place : _) (f y : plain.X) (into : List ℕ) → LooksAt (items_in scope.now) f y (type_in scope.now) into a.now b.now → StopsExpression (items_in scope.now) (plain.two PreImage place f y) scope.now.limit s) }
{
    Ok(preimage(scope.theory, alloc, a, b)?)
}

/// The transformation on the inputs that are in a language.
pub fn restricted(
    alloc: Global,
    scope: &Scope,
    a: &Trans<RowAtom, RowMap>,
    b: &Lang<RowAtom>,
) -> Result<Trans<RowAtom, RowMap>, Memory>
    requires scope { IsScope scope.now }
    requires first { (f : plain.X) × (into : List ℕ) × IsTransBuiltOf (items_in scope.now) f (type_in scope.now) into a.now }
    requires second { (y : plain.X) × IsBuiltOf (items_in scope.now) y (type_in scope.now) b.now }
    ensures { IfOk result (λ c. (place : _) (f y : plain.X) (into : List ℕ) → IsTransBuiltOf (items_in scope.now) f (type_in scope.now) into a.now → IsBuiltOf (items_in scope.now) y (type_in scope.now) b.now → IsTransBuiltOf (items_in scope.now) (plain.two Restrict place f y) (type_in scope.now) into c) }
{
    restrict(scope.theory, alloc, a, b)
}

/// The transformation where its outputs are in a language.
pub fn restricted_out(
    alloc: Global,
    scope: &Scope,
    a: &Trans<RowAtom, RowMap>,
    b: &Lang<RowAtom>,
) -> Result<Trans<RowAtom, RowMap>, EvalStop>
    requires scope { IsScope scope.now }
    requires operands { (f y : plain.X) × (into : List ℕ) × LooksAt (items_in scope.now) f y (type_in scope.now) into a.now b.now }
    ensures built { IfOk result (λ c. (place : _) (f y : plain.X) (into : List ℕ) → LooksAt (items_in scope.now) f y (type_in scope.now) into a.now b.now → IsTransBuiltOf (items_in scope.now) (plain.two RestrictOut place f y) (type_in scope.now) into c) }
    ensures stop { IfErr result (λ s. (place : _) (f y : plain.X) (into : List ℕ) → LooksAt (items_in scope.now) f y (type_in scope.now) into a.now b.now → StopsExpression (items_in scope.now) (plain.two RestrictOut place f y) scope.now.limit s) }
{
    Ok(restrict_out(scope.theory, alloc, a, b)?)
}

/// The second transformation after the first.
pub fn composed(
    alloc: Global,
    scope: &Scope,
    a: &Trans<RowAtom, RowMap>,
    b: &Trans<RowAtom, RowMap>,
) -> Result<Trans<RowAtom, RowMap>, EvalStop>
    requires scope { IsScope scope.now }
    requires operands { (f g : plain.X) × (into last : List ℕ) × RunsAfter (items_in scope.now) f g (type_in scope.now) into last a.now b.now }
    ensures built { IfOk result (λ c. (place : _) (f g : plain.X) (into last : List ℕ) → RunsAfter (items_in scope.now) f g (type_in scope.now) into last a.now b.now → IsTransBuiltOf (items_in scope.now) (plain.two Compose place f g) (type_in scope.now) last c) }
    ensures stop { IfErr result (λ s. (place : _) (f g : plain.X) (into last : List ℕ) → RunsAfter (items_in scope.now) f g (type_in scope.now) into last a.now b.now → StopsExpression (items_in scope.now) (plain.two Compose place f g) scope.now.limit s) }
{
    Ok(compose(scope.theory, alloc, a, b)?)
}
