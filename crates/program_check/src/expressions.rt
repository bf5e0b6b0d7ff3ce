//! What may fail in an expression of a language, a transformation or a tree, and what one stands for.

ghost use Rattle.std.specs.Prelude.{◌≡◌, ℕ, ◌<◌, ◌≤◌, ◌+◌, List, Option, map};
ghost use Rattle.std.specs.Option.{option_map};
ghost use Rattle.model_tree.specs.Limits.{most_around};
ghost use Rattle.model_grammar.specs.Syntax as plain;
ghost use Rattle.model_names.specs.Kinds.{taken_first, taken_second, defined_kind};
ghost use Rattle.fast_syntax.specs.View.{plain_name};
ghost use Rattle.fast_syntax.specs.Plain.{plain_expr, plain_x, plain_into};
ghost use Rattle.fast_syntax.specs.Slices.{plain_children};
ghost use Rattle.model_checks.specs.Expressions.{place_of_x, is_other_kind, nesting_failures, name_failures, x_failures, xs_failures};
ghost use Rattle.program_check.specs.Notes.{Notes};
ghost use Rattle.program_check.specs.Numbered.{type_there};
ghost use Rattle.program_check.specs.Typed.{IsType, apart};
ghost use Rattle.program_check.specs.Contexts.{items_of, before_of};
ghost use Rattle.program_check.specs.Standings.{plain_kind, IsStanding, only_as, number_expected, as_failures, second_wanted, be_failures, kind_taken, standing_of_one, standing_of_two, literal_failures};

use crate::checker::Checker;
use crate::context::Context;
use crate::labels::Scope;
use crate::limits::MOST_AROUND;
use crate::waiting::Waiting;
use fast_fault::{Code, Pos};
use fast_syntax::Name;
use fast_syntax::expressions::Expr;
use fast_syntax::items::X;
use model_grammar::{Op1, Op2};

/// What an expression stands for.
#[derive(Clone, Copy, PartialEq, Eq)]
pub(crate) enum Kind {
    Language,
    Transformation,
    Tree,
}

/// What an expression stands for, and the numbers of its types.
#[derive(Clone, Copy)]
pub(crate) struct Standing {
    pub(crate) kind: Option<Kind>,
    /// The type of the trees of a language, of the inputs of a transformation, or of a tree.
    pub(crate) input: Option<usize>,
    /// The type of the outputs of a transformation.
    pub(crate) output: Option<usize>,
}

fn taken_by_one(op: Op1) -> Kind
    ensures { result ≡ kind_taken op }
{
    match op {
        Op1::Complement | Op1::Minimize | Op1::GetWitness => Kind::Language,
        Op1::Domain => Kind::Transformation,
    }
}

fn taken_first(op: Op2) -> Kind
    ensures { plain_kind result ≡ taken_first op }
{
    match op {
        Op2::Intersect | Op2::Union | Op2::Difference => Kind::Language,
        Op2::PreImage | Op2::Compose | Op2::Restrict | Op2::RestrictOut | Op2::Apply => {
            Kind::Transformation
        }
    }
}

fn taken_second(op: Op2) -> Kind
    ensures { plain_kind result ≡ taken_second op }
{
    match op {
        Op2::Intersect
        | Op2::Union
        | Op2::Difference
        | Op2::PreImage
        | Op2::Restrict
        | Op2::RestrictOut => Kind::Language,
        Op2::Compose => Kind::Transformation,
        Op2::Apply => Kind::Tree,
    }
}

pub(crate) fn place_of(x: &X) -> Pos
    ensures { result ≡ place_of_x (plain_x x.now) }
{
    match x {
        X::Named(name) => name.place,
        X::One(_, place, _) => *place,
        X::Two(_, place, _, _) => *place,
        X::Literal(name, _, _) => name.place,
    }
}

/// Whether it is known to be of another kind.
pub(crate) fn is_other_kind(kind: Kind, known: Option<Kind>) -> bool
    ensures { result ≡ is_other_kind (plain_kind kind) (option_map plain_kind known) }
{
    match known {
        Some(found) => found != kind,
        None => false,
    }
}

/// The type, where something is of this kind.
pub(crate) fn only_as(kind: Kind, known: Option<Kind>, of: Option<usize>) -> Option<usize>
    ensures { result ≡ only_as kind known of }
{
    match known {
        Some(found) if found == kind => of,
        _ => None,
    }
}

/// A type is expected of a tree alone.
fn expected_as(kind: Kind, of: Option<usize>) -> Option<usize>
    ensures { result ≡ number_expected kind of }
{
    match kind {
        Kind::Language | Kind::Transformation => None,
        Kind::Tree => of,
    }
}

/// Whether types of these numbers are known and differ.
pub(crate) fn differ(left: Option<usize>, right: Option<usize>) -> bool
    ensures { result ≡ apart left right }
{
    match left {
        Some(left) => match right {
            Some(right) => left != right,
            None => false,
        },
        None => false,
    }
}

/// The type that the second operand is to have.
fn wanted_second(op: Op2, first: Standing) -> Option<usize>
    ensures { result ≡ second_wanted op first }
{
    let kind = taken_first(op);
    match op {
        Op2::Intersect | Op2::Union | Op2::Difference | Op2::Restrict | Op2::Apply => {
            only_as(kind, first.kind, first.input)
        }
        Op2::PreImage | Op2::Compose | Op2::RestrictOut => {
            only_as(kind, first.kind, first.output)
        }
    }
}

fn of_one(op: Op1, operand: Standing) -> Standing
    ensures { result ≡ standing_of_one op operand }
{
    let input = only_as(taken_by_one(op), operand.kind, operand.input);
    match op {
        Op1::Complement | Op1::Minimize | Op1::Domain => Standing {
            kind: Some(Kind::Language),
            input,
            output: None,
        },
        Op1::GetWitness => Standing {
            kind: Some(Kind::Tree),
            input,
            output: None,
        },
    }
}

fn of_two(op: Op2, first: Standing, second: Standing) -> Standing
    ensures { result ≡ standing_of_two op first second }
{
    let input = only_as(taken_first(op), first.kind, first.input);
    let output = only_as(Kind::Transformation, first.kind, first.output);
    match op {
        Op2::Intersect | Op2::Union | Op2::Difference | Op2::PreImage => Standing {
            kind: Some(Kind::Language),
            input,
            output: None,
        },
        Op2::Compose => Standing {
            kind: Some(Kind::Transformation),
            input,
            output: only_as(Kind::Transformation, second.kind, second.output),
        },
        Op2::Restrict | Op2::RestrictOut => Standing {
            kind: Some(Kind::Transformation),
            input,
            output,
        },
        Op2::Apply => Standing {
            kind: Some(Kind::Tree),
            input: output,
            output: None,
        },
    }
}

pub(crate) fn defined_kind(into: &Option<Name>) -> Kind
    ensures { plain_kind result ≡ defined_kind (plain_into into.now) }
{
    match into {
        Some(_) => Kind::Transformation,
        None => Kind::Language,
    }
}

impl Checker {
    /// The expression at this place, which stands for this, is of this kind and this type.
    fn check_be(&mut self, of: Option<usize>, kind: Kind, place: Pos, standing: Standing)
        ensures { Notes self.old self.new (be_failures of kind place standing) }
    {
        self.note_if(is_other_kind(kind, standing.kind), Code::WrongKind, place);
        let found = only_as(kind, standing.kind, standing.input);
        self.note_if(differ(of, found), Code::WrongType, place);
    }

    /// An operation isn't inside too many others. How many are around its operands comes back: one more, unless there are too
    /// many already.
    fn check_nested(&mut self, around: usize, place: Pos) -> usize
        ensures noted { Notes self.old self.new (nesting_failures around place) }
        ensures few { around < most_around → result ≡ around + 1 }
        ensures many { most_around ≤ around → result ≡ around }
    {
        if around < MOST_AROUND {
            return around + 1;
        }
        self.note(Code::TooMany, place);
        around
    }

    /// A name. That of a definition or a tree is known from the next item on.
    fn check_word(&mut self, context: &Context, name: &Name) -> Standing
        ensures noted { Notes self.old self.new (name_failures (items_of context.now) (before_of context.now) (plain_name name.now)) }
        ensures standing { IsStanding (items_of context.now) (plain.named (plain_name name.now)) result }
    {
        let Some((standing, has_rules)) = context.find(&name.text) else {
            self.note(Code::UnknownName, name.place);
            return Standing {
                kind: None,
                input: None,
                output: None,
            };
        };
        let known = has_rules | context.has_item_before(&name.text);
        self.note_if(!known, Code::UsedTooEarly, name.place);
        standing
    }

    /// The constructor of a literal of this type, and its labels, which have no names of fields.
    fn check_literal(
        &mut self,
        context: &Context,
        expected: Option<usize>,
        name: &Name,
        labels: &[Expr],
        count: usize,
    )
        ensures { Notes self.old self.new (literal_failures (type_there (items_of context.now) expected) (plain_name name.now) (map plain_expr labels.now) count) }
    {
        self.check_constructor(context, expected, name, count);
        let scope = Scope { fields: Some(&[]) };
        self.check_own_labels(&scope, context.type_at(expected), name, labels)
    }

    /// Notes what fails in an expression inside so many operations, and tells what it stands for. A literal has the type
    /// that is expected of it.
    #[cycle(check_x)]
    pub(crate) fn check_x(
        &mut self,
        context: &Context,
        around: usize,
        expected: Option<usize>,
        x: &X,
    ) -> Standing
        ensures noted { (type : Option (List ℕ)) → IsType (items_of context.now) expected type → Notes self.old self.new (x_failures (items_of context.now) (before_of context.now) around type (plain_x x.now)) }
        ensures standing { IsStanding (items_of context.now) (plain_x x.now) result }
    {
        match x {
            X::Named(name) => self.check_word(context, name),
            X::One(op, place, inside) => {
                let deep = self.check_nested(around, *place);
                let kind = taken_by_one(*op);
                let operand = self.check_as(context, deep, None, kind, inside);
                of_one(*op, operand)
            }
            X::Two(op, place, first, second) => {
                let deep = self.check_nested(around, *place);
                let kind = taken_first(*op);
                let left = self.check_as(context, deep, None, kind, first);
                let wanted = wanted_second(*op, left);
                let kind = taken_second(*op);
                let right = self.check_as(context, deep, wanted, kind, second);
                of_two(*op, left, right)
            }
            X::Literal(name, labels, children) => {
                self.check_literal(context, expected, name, labels, children.len());
                self.check_children(context, around, expected, children);
                Standing {
                    kind: Some(Kind::Tree),
                    input: None,
                    output: None,
                }
            }
        }
    }

    /// An expression, inside so many operations, that is to be of this kind and this type.
    #[cycle(check_x)]
    pub(crate) fn check_as(
        &mut self,
        context: &Context,
        around: usize,
        of: Option<usize>,
        kind: Kind,
        x: &X,
    ) -> Standing
        ensures noted { (type : Option (List ℕ)) → IsType (items_of context.now) of type → Notes self.old self.new (as_failures (items_of context.now) (before_of context.now) around type (plain_kind kind) (plain_x x.now)) }
        ensures standing { IsStanding (items_of context.now) (plain_x x.now) result }
    {
        let expected = expected_as(kind, of);
        let standing = self.check_x(context, around, expected, x);
        self.check_be(of, kind, place_of(x), standing);
        standing
    }

    /// The children of a literal of this type. Where one is a literal, its own children wait.
    #[cycle(check_x)]
    fn check_children(
        &mut self,
        context: &Context,
        around: usize,
        expected: Option<usize>,
        children: &[X],
    )
        ensures { (type : Option (List ℕ)) → IsType (items_of context.now) expected type → Notes self.old self.new (xs_failures (items_of context.now) (before_of context.now) around type (plain_children children.now)) }
    {
        let mut waiting = Waiting::new(self.alloc, children);
        'children: while let Some(child) = waiting.next() {
            if let X::Literal(name, labels, inside) = child {
                self.check_literal(context, expected, name, labels, inside.len());
                let added = waiting.add(inside);
                self.note_want(added);
            } else {
                self.check_as(context, around, expected, Kind::Tree, child);
            }
        }
    }
}
