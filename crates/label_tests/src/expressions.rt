//! Guards and maps that are read from label expressions.

ghost use Rattle.std.specs.Prelude.{◌≡◌, ◌≤◌, [], ◌∷◌, true, IfOk, length};
ghost use Rattle.model_tree.specs.Signature.{wholes, truths, texts};
ghost use Rattle.model_tree.specs.Signature as model;
ghost use Rattle.model_label.specs.Fields.{has_field};
ghost use Rattle.model_guard.specs.Forms.{forms_in};
ghost use Rattle.model_guard.specs.Guards.{is_guard};
ghost use Rattle.fast_tree.specs.Signatures.{plain_signature, plain_sort};
ghost use Rattle.fast_syntax.specs.Plain.{plain_expr};
ghost use Rattle.record_label.specs.Maps.{is_of_sort};

use crate::samples::{exchange, less, signature};
use fast_fault::{Pos, Text};
use fast_syntax::Rel;
use fast_syntax::expressions::{Expr, Node};
use fast_tree::{Signature, Sort};
use label_core::Formula;
use lin_form::FormStop;
use record_label::{RowMap, form_of, guard_of, map_of};
use std::alloc::Global;
use std::test::Fail;

/// Whether the name is that of a field of this sort.
fn has_field(signature: &Signature, sort: Sort, name: &Text) -> bool
    ensures { result ≡ has_field (plain_signature signature.now).fields (plain_sort sort) name.now }
{
    for field in &signature.fields {
        if field.name == *name {
            return field.sort == sort;
        }
    }
    false
}

/// The field with this name, if it is of this sort.
fn named(alloc: Global, name: &str, sort: Sort, signature: &Signature) -> Result<Expr, FormStop>
    ensures sorted { IfOk result (λ made. is_of_sort (plain_signature signature.now).fields (plain_sort sort) (plain_expr made) ≡ true) }
    ensures plain { IfOk result (λ made. forms_in (plain_signature signature.now).fields (plain_expr made) ≡ []) }
{
    let name = Text::of(alloc, name)?;
    if !has_field(signature, sort, &name) {
        return Err(FormStop::Memory);
    }
    Ok(Expr {
        place: Pos { line: 1, column: 1 },
        node: Node::Field(name),
    })
}

/// A comparison of two whole numbers.
fn related(
    alloc: Global,
    rel: Rel,
    left: &str,
    right: &str,
    signature: &Signature,
) -> Result<Expr, FormStop>
    ensures guard { IfOk result (λ made. is_guard (plain_signature signature.now).fields (plain_expr made) ≡ true) }
    ensures plain { IfOk result (λ made. forms_in (plain_signature signature.now).fields (plain_expr made) ≡ []) }
{
    let left = named(alloc, left, Sort::Int, signature)?;
    let right = named(alloc, right, Sort::Int, signature)?;
    Ok(Expr {
        place: left.place,
        node: Node::Compare(rel, Box::new(alloc, left)?, Box::new(alloc, right)?),
    })
}

/// The map to y > x, or to x < y, and y, t and x.
#[tactic(auto, using(crate::proofs::NoForms::on_no_forms))]
fn written(alloc: Global, greater: bool, signature: &Signature) -> Result<RowMap, FormStop>
    requires few { length signature.now.fields.items ≤ 8 }
    requires sorts { model.sorts_of (plain_signature signature.now) ≡ truths ∷ wholes ∷ texts ∷ wholes ∷ [] }
{
    let (rel, left, right) = if greater {
        (Rel::Greater, "y", "x")
    } else {
        (Rel::Less, "x", "y")
    };
    let mut labels = Vec::new(alloc);
    labels.push(related(alloc, rel, left, right, signature)?)?;
    labels.push(named(alloc, "y", Sort::Int, signature)?)?;
    labels.push(named(alloc, "t", Sort::Text, signature)?)?;
    labels.push(named(alloc, "x", Sort::Int, signature)?)?;
    Ok(map_of(alloc, &labels, signature, signature)?)
}

/// Whether the guard x > y is y < x.
#[tactic(auto, using(crate::proofs::NoForms::on_no_forms))]
fn reads_guard(alloc: Global, signature: &Signature) -> Result<bool, FormStop>
    requires { length signature.now.fields.items ≤ 8 }
{
    let written = related(alloc, Rel::Greater, "x", "y", signature)?;
    let guard = guard_of(alloc, &written, signature)?;
    Ok(guard == Formula::Atom(less(alloc, 1, 0)?))
}

/// The number outside its range of the form of a written number, if it is outside.
fn outside(alloc: Global, value: i128, signature: &Signature) -> Result<Option<i128>, FormStop>
    requires { length signature.now.fields.items ≤ 8 }
{
    let written = Expr {
        place: Pos { line: 1, column: 1 },
        node: Node::Num(value),
    };
    match form_of(alloc, &written, signature) {
        Ok(_form) => Ok(None),
        Err(FormStop::Range(number)) => Ok(Some(number)),
        Err(FormStop::Memory) => Err(FormStop::Memory),
    }
}

#[test]
fn reads_numbers_in_their_range(rt: HostRuntime) -> Result<(), Fail> {
    let alloc = rt.alloc();
    let signature = signature(alloc)?;
    for (value, want) in [
        (-9223372036854775808, None),
        (-9223372036854775809, Some(-9223372036854775809)),
    ] {
        assert!(rt; outside(alloc, value, &signature)? == want, "{value}");
    }
    Ok(())
}

#[test]
fn reads_guards_and_maps(rt: HostRuntime) -> Result<(), Fail> {
    let alloc = rt.alloc();
    let signature = signature(alloc)?;
    assert!(rt; reads_guard(alloc, &signature)?);
    let map = written(alloc, true, &signature)?;
    let other = written(alloc, false, &signature)?;
    assert!(rt; map.entries == exchange(alloc, 1, 0)?.entries);
    assert!(rt; other.entries == map.entries);
    assert!(rt; other != map, "what is written differs");
    assert!(rt; map.copy(alloc)? == map);
    Ok(())
}
