//! Lists as text, with commas, bars or blanks between their items.

ghost use Rattle.std.specs.Prelude.{◌≡◌, ◌∷◌, ◌++◌, List, IfOk};
ghost use Rattle.model_program.specs.Cuts.{Piece};
ghost use Rattle.model_grammar.specs.Printed.{with_commas, behind_commas, behind_blanks, behind_bars, with_bars, rules_of};
ghost use Rattle.fast_syntax.specs.Adds.{Adds};

use crate::page::Page;
use fast_fault::Memory;
use model_program::Word;
use std::alloc::Global;

/// What is printed as some pieces.
pub(crate) trait Printed {
    ghost use Rattle.std.specs.Prelude.{List};
    ghost use Rattle.model_program.specs.Cuts.{Piece};

    ghost pieces: { Self → List Piece };

    fn append(&self, alloc: Global, page: &mut Page) -> Result<(), Memory>
        ensures { IfOk result (λ _. Adds page.old page.new (pieces self.now)) };
}

/// Items with commas between them.
pub(crate) fn append_with_commas<T: Printed>(
    alloc: Global,
    page: &mut Page,
    items: &[T],
) -> Result<(), Memory>
    ensures { IfOk result (λ _. Adds page.old page.new (with_commas T.pieces items.now)) }
{
    let Some((first, later)) = items.split_first() else {
        return Ok(());
    };
    first.append(alloc, page)?;
    for item in later {
        page.word(Word::Comma)?;
        page.blank()?;
        item.append(alloc, page)?;
    }
    Ok(())
}

/// Items, each behind a blank.
pub(crate) fn append_behind_blanks<T: Printed>(
    alloc: Global,
    page: &mut Page,
    items: &[T],
) -> Result<(), Memory>
    ensures { IfOk result (λ _. Adds page.old page.new (behind_blanks T.pieces items.now)) }
{
    for item in items {
        page.blank()?;
        item.append(alloc, page)?;
    }
    Ok(())
}

/// Items, each behind a bar.
fn append_behind_bars<T: Printed>(alloc: Global, page: &mut Page, items: &[T]) -> Result<(), Memory>
    ensures { IfOk result (λ _. Adds page.old page.new (behind_bars T.pieces items.now)) }
{
    for item in items {
        page.blank()?;
        page.word(Word::Bar)?;
        page.blank()?;
        item.append(alloc, page)?;
    }
    Ok(())
}

/// Items with bars between them.
fn append_with_bars<T: Printed>(alloc: Global, page: &mut Page, items: &[T]) -> Result<(), Memory>
    ensures { IfOk result (λ _. Adds page.old page.new (with_bars T.pieces items.now)) }
{
    let Some((first, later)) = items.split_first() else {
        return Ok(());
    };
    first.append(alloc, page)?;
    append_behind_bars(alloc, page, later)
}

/// Rules in braces, with bars between them.
pub(crate) fn append_rules<T: Printed>(
    alloc: Global,
    page: &mut Page,
    rules: &[T],
) -> Result<(), Memory>
    ensures { IfOk result (λ _. Adds page.old page.new (rules_of T.pieces rules.now)) }
{
    page.word(Word::CurlyOpen)?;
    page.blank()?;
    append_with_bars(alloc, page, rules)?;
    page.blank()?;
    page.word(Word::CurlyClose)
}
