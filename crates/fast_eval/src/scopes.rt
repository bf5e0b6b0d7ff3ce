//! Scopes of expressions.

ghost use Rattle.std.specs.Prelude.{◌≡◌, ◌≤◌, ℕ, List, Some, None};
ghost use Rattle.std.specs.Option.{option_map};
ghost use Rattle.model_tree.specs.Limits.{most_classes};
ghost use Rattle.fast_syntax.specs.Plain.{plain_x};
ghost use Rattle.program_check.specs.Tells.{kind_view};
ghost use Rattle.fast_build.specs.Items.{items_of};
ghost use Rattle.fast_eval.specs.Forms.{inputs_in, outputs_in, IsMadeOn, IsMadeFrom, IsMadeAt};
ghost use Rattle.fast_eval.specs.Scopes.{IsScope, IsScopeOf, AreEnds};
ghost use Rattle.fast_eval.specs.Table.{AreBuilt};

use crate::built::Built;
use crate::evaluation::Scope;
use fast_fault::Text;
use fast_syntax::items::X;
use model_grammar::Op2;
use program_check::{Checked, Kind3};

/// The name of the type of a language, or of the inputs of a transformation.
fn inputs_in(kind: Option<Kind3<'_>>) -> Option<&Text>
    ensures { option_map (λ t. t.now) result ≡ inputs_in (option_map kind_view kind.entry) }
{
    match kind {
        Some(Kind3::Language(of) | Kind3::Transformation(of, _)) => Some(of),
        Some(Kind3::Tree(_)) | None => None,
    }
}

/// The name of the type of the outputs of a transformation.
fn outputs_in(kind: Option<Kind3<'_>>) -> Option<&Text>
    ensures { option_map (λ t. t.now) result ≡ outputs_in (option_map kind_view kind.entry) }
{
    match kind {
        Some(Kind3::Transformation(_, into)) => Some(into),
        Some(Kind3::Language(_) | Kind3::Tree(_)) | None => None,
    }
}

/// The name of the type of an expression's trees, or of its inputs.
pub fn type_of<'c>(checked: &'c Checked, x: &X) -> Option<&'c Text>
    ensures { (type : List ℕ) → IsMadeAt (items_of checked.now) type (plain_x x.now) → option_map (λ t. t.now) result ≡ Some type }
{
    match x {
        X::Named(name) => inputs_in(checked.kind(&name.text)),
        X::One(_, _, inside) => type_of(checked, inside),
        X::Two(_, _, first, _) => type_of(checked, first),
        X::Literal(..) => None,
    }
}

/// The name of the type of the outputs of an expression; none of a language.
pub fn output_of<'c>(checked: &'c Checked, x: &X) -> Option<&'c Text>
    ensures outputs { (from into : List ℕ) → IsMadeFrom (items_of checked.now) from into (plain_x x.now) → option_map (λ t. t.now) result ≡ Some into }
    ensures none { (type : List ℕ) → IsMadeOn (items_of checked.now) type (plain_x x.now) → result ≡ None }
{
    match x {
        X::Named(name) => outputs_in(checked.kind(&name.text)),
        X::Two(Op2::Restrict | Op2::RestrictOut, _, f, _) => output_of(checked, f),
        X::Two(Op2::Compose, _, _, g) => output_of(checked, g),
        X::One(..) | X::Two(..) | X::Literal(..) => None,
    }
}

/// The names of the types of a transformation: of its inputs, and of its outputs.
#[derive(Clone, Copy)]
pub struct Ends<'c> {
    pub from: &'c Text,
    pub into: &'c Text,
}

/// The names of the types of an expression of a transformation.
pub fn ends_of<'c>(checked: &'c Checked, f: &X) -> Ends<'c>
    requires made { (from into : List ℕ) × IsMadeFrom (items_of checked.now) from into (plain_x f.now) }
    ensures { (from into : List ℕ) → IsMadeFrom (items_of checked.now) from into (plain_x f.now) → AreEnds from into result }
{
    let Some(from) = type_of(checked, f) else {
        unreachable!()
    };
    let Some(into) = output_of(checked, f) else {
        unreachable!()
    };
    Ends { from, into }
}

/// The scope of an expression.
pub fn scope_of<'s>(checked: &'s Checked, built: &'s Built, limit: u32, x: &X) -> Scope<'s>
    requires built { AreBuilt (items_of checked.now) built.now }
    requires shallow { limit ≤ most_classes }
    requires made { (type : List ℕ) × IsMadeAt (items_of checked.now) type (plain_x x.now) }
    ensures scope { IsScope result }
    ensures of { IsScopeOf checked.now built.now limit (plain_x x.now) result }
{
    let Some(of) = type_of(checked, x) else {
        unreachable!()
    };
    let Some(theory) = built.labels(of) else {
        unreachable!()
    };
    Scope {
        checked,
        built,
        of,
        theory,
        limit,
    }
}
