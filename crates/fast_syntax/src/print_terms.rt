//! Names, labels, expressions of languages, transformations and trees, and output terms as text.

ghost use Rattle.std.specs.Prelude.{◌≡◌, ◌∷◌, [], ◌++◌, map, IfOk};
ghost use Rattle.model_program.specs.declared.Word.TheVariants as word;
ghost use Rattle.model_grammar.specs.Operators.{op1_word, op2_word};
ghost use Rattle.model_grammar.specs.Printed.{name, blank, token, labels_of, expression, term, terms, output, outputs};
ghost use Rattle.fast_syntax.specs.Adds.{Adds};
ghost use Rattle.fast_syntax.specs.View.{plain_name};
ghost use Rattle.fast_syntax.specs.Plain.{plain_expr, plain_x, plain_out};
ghost use Rattle.fast_syntax.specs.Slices.{plain_children, plain_outputs};

use crate::Name;
use crate::expressions::Expr;
use crate::items::{Out, X};
use crate::page::Page;
use crate::print_expressions::append_expression;
use crate::print_lists::{Printed, append_with_commas};
use fast_fault::Memory;
use model_grammar::{Op1, Op2};
use model_program::Word;
use std::alloc::Global;

impl Printed for Name {
    ghost use Rattle.model_grammar.specs.Printed.{name};
    ghost use Rattle.fast_syntax.specs.View.{plain_name};

    ghost pieces = { λ n. name (plain_name n) };

    fn append(&self, _alloc: Global, page: &mut Page) -> Result<(), Memory> {
        page.text(&self.text)
    }
}

impl Printed for Expr {
    ghost use Rattle.model_grammar.specs.Printed.{expression};
    ghost use Rattle.fast_syntax.specs.Plain.{plain_expr};

    ghost pieces = { λ e. expression (plain_expr e) };

    fn append(&self, alloc: Global, page: &mut Page) -> Result<(), Memory> {
        append_expression(alloc, page, self)
    }
}

fn op1_word(op: Op1) -> Word
    ensures { result ≡ op1_word op }
{
    match op {
        Op1::Complement => Word::Complement,
        Op1::Minimize => Word::Minimize,
        Op1::Domain => Word::Domain,
        Op1::GetWitness => Word::GetWitness,
    }
}

fn op2_word(op: Op2) -> Word
    ensures { result ≡ op2_word op }
{
    match op {
        Op2::Intersect => Word::Intersect,
        Op2::Union => Word::Union,
        Op2::Difference => Word::Difference,
        Op2::PreImage => Word::PreImage,
        Op2::Compose => Word::Compose,
        Op2::Restrict => Word::Restrict,
        Op2::RestrictOut => Word::RestrictOut,
        Op2::Apply => Word::Apply,
    }
}

fn append_labels(alloc: Global, page: &mut Page, labels: &[Expr]) -> Result<(), Memory>
    ensures { IfOk result (λ _. Adds page.old page.new (labels_of (map plain_expr labels.now))) }
{
    page.word(Word::SquareOpen)?;
    append_with_commas(alloc, page, labels)?;
    page.word(Word::SquareClose)
}

/// `(`, a constructor and its labels.
fn append_constructor(
    alloc: Global,
    page: &mut Page,
    ctor: &Name,
    labels: &[Expr],
) -> Result<(), Memory>
    ensures { IfOk result (λ _. Adds page.old page.new (token word.RoundOpen ∷ (name (plain_name ctor.now) ++ blank ∷ labels_of (map plain_expr labels.now)))) }
{
    page.word(Word::RoundOpen)?;
    page.text(&ctor.text)?;
    page.blank()?;
    append_labels(alloc, page, labels)
}

#[cycle(print_term)]
pub(crate) fn append_term(alloc: Global, page: &mut Page, x: &X) -> Result<(), Memory>
    ensures { IfOk result (λ _. Adds page.old page.new (term (plain_x x.now))) }
{
    match x {
        X::Named(name) => page.text(&name.text),
        X::One(op, _, inside) => {
            page.word(Word::RoundOpen)?;
            page.word(op1_word(*op))?;
            page.blank()?;
            append_term(alloc, page, inside)?;
            page.word(Word::RoundClose)
        }
        X::Two(op, _, first, second) => {
            page.word(Word::RoundOpen)?;
            page.word(op2_word(*op))?;
            page.blank()?;
            append_term(alloc, page, first)?;
            page.blank()?;
            append_term(alloc, page, second)?;
            page.word(Word::RoundClose)
        }
        X::Literal(ctor, labels, children) => {
            append_constructor(alloc, page, ctor, labels)?;
            append_children(alloc, page, children)?;
            page.word(Word::RoundClose)
        }
    }
}

#[cycle(print_term)]
fn append_children(alloc: Global, page: &mut Page, children: &[X]) -> Result<(), Memory>
    ensures { IfOk result (λ _. Adds page.old page.new (terms (plain_children children.now))) }
{
    for child in children {
        page.blank()?;
        append_term(alloc, page, child)?;
    }
    Ok(())
}

#[cycle(print_output)]
pub(crate) fn append_output(alloc: Global, page: &mut Page, out: &Out) -> Result<(), Memory>
    ensures { IfOk result (λ _. Adds page.old page.new (output (plain_out out.now))) }
{
    match out {
        Out::Child(name) => page.text(&name.text),
        Out::Call(name, child) => {
            page.word(Word::RoundOpen)?;
            page.text(&name.text)?;
            page.blank()?;
            page.text(&child.text)?;
            page.word(Word::RoundClose)
        }
        Out::Node(ctor, labels, children) => {
            append_constructor(alloc, page, ctor, labels)?;
            append_outputs(alloc, page, children)?;
            page.word(Word::RoundClose)
        }
    }
}

#[cycle(print_output)]
fn append_outputs(alloc: Global, page: &mut Page, outs: &[Out]) -> Result<(), Memory>
    ensures { IfOk result (λ _. Adds page.old page.new (outputs (plain_outputs outs.now))) }
{
    for out in outs {
        page.blank()?;
        append_output(alloc, page, out)?;
    }
    Ok(())
}
