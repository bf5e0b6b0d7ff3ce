//! Rules, and the parts of types, as text.

ghost use Rattle.std.specs.Prelude.{◌≡◌, ◌∷◌, [], ◌++◌, Option, map, IfOk};
ghost use Rattle.model_program.specs.declared.Word.TheVariants as word;
ghost use Rattle.model_grammar.specs.Printed.{name, blank, token, bracketed, with_commas, demand, guarded, demands, rule, out_rule, field_of, ctor_of};
ghost use Rattle.fast_syntax.specs.Adds.{Adds};
ghost use Rattle.fast_syntax.specs.View.{plain_name, plain_demand, plain_field, plain_ctor};
ghost use Rattle.fast_syntax.specs.Plain.{plain_guard, plain_rule, plain_out_rule};

use crate::expressions::Expr;
use crate::items::{OutRule, Rule};
use crate::page::Page;
use crate::print_expressions::append_expression;
use crate::print_lists::{Printed, append_behind_blanks, append_with_commas};
use crate::print_terms::append_output;
use crate::{CtorItem, Demand, FieldItem, Name};
use fast_fault::Memory;
use model_program::Word;
use std::alloc::Global;

impl Printed for Demand {
    ghost use Rattle.model_grammar.specs.Printed.{demand};
    ghost use Rattle.fast_syntax.specs.View.{plain_demand};

    ghost pieces = { λ d. demand (plain_demand d) };

    fn append(&self, _alloc: Global, page: &mut Page) -> Result<(), Memory> {
        page.word(Word::RoundOpen)?;
        page.text(&self.language.text)?;
        page.blank()?;
        page.text(&self.child.text)?;
        page.word(Word::RoundClose)
    }
}

impl Printed for FieldItem {
    ghost use Rattle.model_grammar.specs.Printed.{field_of};
    ghost use Rattle.fast_syntax.specs.View.{plain_field};

    ghost pieces = { λ f. field_of (plain_field f) };

    fn append(&self, _alloc: Global, page: &mut Page) -> Result<(), Memory> {
        append_typed(page, &self.name, &self.sort)
    }
}

impl Printed for CtorItem {
    ghost use Rattle.model_grammar.specs.Printed.{ctor_of};
    ghost use Rattle.fast_syntax.specs.View.{plain_ctor};

    ghost pieces = { λ c. ctor_of (plain_ctor c) };

    fn append(&self, alloc: Global, page: &mut Page) -> Result<(), Memory> {
        page.text(&self.name.text)?;
        page.word(Word::RoundOpen)?;
        page.number(alloc, self.rank)?;
        page.word(Word::RoundClose)
    }
}

impl Printed for Rule {
    ghost use Rattle.model_grammar.specs.Printed.{rule};
    ghost use Rattle.fast_syntax.specs.Plain.{plain_rule};

    ghost pieces = { λ r. rule (plain_rule r) };

    fn append(&self, alloc: Global, page: &mut Page) -> Result<(), Memory> {
        append_rule(alloc, page, self)
    }
}

impl Printed for OutRule {
    ghost use Rattle.model_grammar.specs.Printed.{out_rule};
    ghost use Rattle.fast_syntax.specs.Plain.{plain_out_rule};

    ghost pieces = { λ r. out_rule (plain_out_rule r) };

    fn append(&self, alloc: Global, page: &mut Page) -> Result<(), Memory> {
        append_rule(alloc, page, &self.rule)?;
        page.blank()?;
        page.word(Word::To)?;
        page.blank()?;
        append_output(alloc, page, &self.out)
    }
}

/// A name, a colon and the name of its type.
pub(crate) fn append_typed(page: &mut Page, subject: &Name, of: &Name) -> Result<(), Memory>
    ensures { IfOk result (λ _. Adds page.old page.new (name (plain_name subject.now) ++ blank ∷ token word.Colon ∷ blank ∷ name (plain_name of.now))) }
{
    page.text(&subject.text)?;
    page.blank()?;
    page.word(Word::Colon)?;
    page.blank()?;
    page.text(&of.text)
}

fn append_guard(alloc: Global, page: &mut Page, guard: &Option<Expr>) -> Result<(), Memory>
    ensures { IfOk result (λ _. Adds page.old page.new (guarded (plain_guard guard.now))) }
{
    let Some(guard) = guard else {
        return Ok(());
    };
    page.blank()?;
    page.word(Word::Where)?;
    page.blank()?;
    append_expression(alloc, page, guard)
}

fn append_given(alloc: Global, page: &mut Page, given: &[Demand]) -> Result<(), Memory>
    ensures { IfOk result (λ _. Adds page.old page.new (demands (map plain_demand given.now))) }
{
    if given.is_empty() {
        return Ok(());
    }
    page.blank()?;
    page.word(Word::Given)?;
    append_behind_blanks(alloc, page, given)
}

fn append_rule(alloc: Global, page: &mut Page, item: &Rule) -> Result<(), Memory>
    ensures { IfOk result (λ _. Adds page.old page.new (rule (plain_rule item.now))) }
{
    page.text(&item.ctor.text)?;
    page.word(Word::RoundOpen)?;
    append_with_commas(alloc, page, &item.vars)?;
    page.word(Word::RoundClose)?;
    append_guard(alloc, page, &item.guard)?;
    append_given(alloc, page, &item.given)
}
