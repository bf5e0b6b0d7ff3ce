//! Programs as text, one item a line.

ghost use Rattle.std.specs.Prelude.{◌≡◌, ◌∷◌, [], ◌++◌, ℕ, List, map, IfOk, encode_utf8_all};
ghost use Rattle.model_program.specs.Grammar.{assert_word};
ghost use Rattle.model_grammar.specs.Printed.{blank, token, term, in_braces, with_commas, ctor_of, type_item, tree_item, lang_item, trans_item, into_of, def_item, claim, item, lines, printed_program};
ghost use Rattle.model_grammar.specs.Grammar.{IsProgram};
ghost use Rattle.model_grammar.specs.Texts.{IsText};
ghost use Rattle.model_grammar.specs.ReadsBack.{SpellsAgain};
ghost use Rattle.fast_syntax.specs.Adds.{Adds};
ghost use Rattle.fast_syntax.specs.View.{plain_type, plain_ctor};
ghost use Rattle.fast_syntax.specs.Plain.{plain_x, plain_tree, plain_lang, plain_trans, plain_into, plain_def, plain_claim, plain_item, plain_program};

use crate::items::{Body, Claim, DefItem, Item, LangItem, Program, TransItem, TreeItem, X};
use crate::page::Page;
use crate::print_lists::{append_rules, append_with_commas};
use crate::print_rules::append_typed;
use crate::print_terms::append_term;
use crate::{CtorItem, Name, TypeItem};
use fast_fault::Memory;
use model_program::Word;
use std::alloc::Global;

/// The canonical text of a program, one item a line.
pub fn print(alloc: Global, program: &Program) -> Result<Vec<u8>, Memory>
    ensures text { IfOk result (λ text. text.items ≡ encode_utf8_all (printed_program (plain_program program.now))) }

    // Where some text reads as the program, what is printed spells its items again.
    ensures reads_back { IfOk result (λ text. (bytes : List ℕ) → IsText IsProgram bytes (plain_program program.now) → SpellsAgain text.items (plain_program program.now)) }
{
    let mut page = Page::new(alloc);
    append_items(alloc, &mut page, &program.items)?;
    Ok(page.into_bytes())
}

fn append_items(alloc: Global, page: &mut Page, items: &[Item]) -> Result<(), Memory>
    ensures { IfOk result (λ _. Adds page.old page.new (lines (map plain_item items.now))) }
{
    for item in items {
        append_item(alloc, page, item)?;
        page.line_end()?;
    }
    Ok(())
}

fn append_item(alloc: Global, page: &mut Page, it: &Item) -> Result<(), Memory>
    ensures { IfOk result (λ _. Adds page.old page.new (item (plain_item it.now))) }
{
    match &it.body {
        Body::Sorts(sorts) => {
            append_keyword(page, Word::TypeWord)?;
            append_type(alloc, page, sorts)
        }
        Body::Tree(tree) => {
            append_keyword(page, Word::Tree)?;
            append_tree(alloc, page, tree)
        }
        Body::Lang(lang) => {
            append_keyword(page, Word::Lang)?;
            append_lang(alloc, page, lang)
        }
        Body::Trans(trans) => {
            append_keyword(page, Word::Trans)?;
            append_trans(alloc, page, trans)
        }
        Body::Def(def) => {
            append_keyword(page, Word::Def)?;
            append_def(alloc, page, def)
        }
        Body::Assert(assertion) => {
            append_keyword(page, assert_word(assertion.wanted))?;
            append_claim(alloc, page, &assertion.claim)
        }
    }
}

fn assert_word(wanted: bool) -> Word
    ensures { result ≡ assert_word wanted }
{
    if wanted {
        Word::AssertTrue
    } else {
        Word::AssertFalse
    }
}

/// A keyword or a sign, and a blank.
fn append_keyword(page: &mut Page, word: Word) -> Result<(), Memory>
    ensures { IfOk result (λ _. Adds page.old page.new (token word ∷ blank ∷ [])) }
{
    page.word(word)?;
    page.blank()
}

/// A sign between blanks.
fn append_between(page: &mut Page, sign: Word) -> Result<(), Memory>
    ensures { IfOk result (λ _. Adds page.old page.new (blank ∷ token sign ∷ blank ∷ [])) }
{
    page.blank()?;
    page.word(sign)?;
    page.blank()
}

fn append_type(alloc: Global, page: &mut Page, t: &TypeItem) -> Result<(), Memory>
    ensures { IfOk result (λ _. Adds page.old page.new (type_item (plain_type t.now))) }
{
    page.text(&t.name.text)?;
    page.blank()?;
    page.word(Word::SquareOpen)?;
    append_with_commas(alloc, page, &t.fields)?;
    page.word(Word::SquareClose)?;
    page.blank()?;
    append_ctors(alloc, page, &t.ctors)
}

fn append_ctors(alloc: Global, page: &mut Page, ctors: &[CtorItem]) -> Result<(), Memory>
    ensures { IfOk result (λ _. Adds page.old page.new (in_braces (with_commas ctor_of (map plain_ctor ctors.now)))) }
{
    append_keyword(page, Word::CurlyOpen)?;
    append_with_commas(alloc, page, ctors)?;
    page.blank()?;
    page.word(Word::CurlyClose)
}

fn append_tree(alloc: Global, page: &mut Page, t: &TreeItem) -> Result<(), Memory>
    ensures { IfOk result (λ _. Adds page.old page.new (tree_item (plain_tree t.now))) }
{
    append_typed(page, &t.name, &t.of)?;
    append_between(page, Word::Assign)?;
    append_term(alloc, page, &t.value)
}

fn append_lang(alloc: Global, page: &mut Page, l: &LangItem) -> Result<(), Memory>
    ensures { IfOk result (λ _. Adds page.old page.new (lang_item (plain_lang l.now))) }
{
    append_typed(page, &l.name, &l.of)?;
    page.blank()?;
    append_rules(alloc, page, &l.rules)
}

fn append_trans(alloc: Global, page: &mut Page, t: &TransItem) -> Result<(), Memory>
    ensures { IfOk result (λ _. Adds page.old page.new (trans_item (plain_trans t.now))) }
{
    append_typed(page, &t.name, &t.from)?;
    append_between(page, Word::Arrow)?;
    page.text(&t.into.text)?;
    page.blank()?;
    append_rules(alloc, page, &t.rules)
}

fn append_into(page: &mut Page, into: &Option<Name>) -> Result<(), Memory>
    ensures { IfOk result (λ _. Adds page.old page.new (into_of (plain_into into.now))) }
{
    let Some(into) = into else {
        return Ok(());
    };
    append_between(page, Word::Arrow)?;
    page.text(&into.text)
}

fn append_def(alloc: Global, page: &mut Page, d: &DefItem) -> Result<(), Memory>
    ensures { IfOk result (λ _. Adds page.old page.new (def_item (plain_def d.now))) }
{
    append_typed(page, &d.name, &d.from)?;
    append_into(page, &d.into)?;
    append_between(page, Word::Assign)?;
    append_term(alloc, page, &d.value)
}

/// Two expressions with a sign between them.
fn append_pair(
    alloc: Global,
    page: &mut Page,
    left: &X,
    sign: Word,
    right: &X,
) -> Result<(), Memory>
    ensures { IfOk result (λ _. Adds page.old page.new (term (plain_x left.now) ++ blank ∷ token sign ∷ blank ∷ term (plain_x right.now))) }
{
    append_term(alloc, page, left)?;
    append_between(page, sign)?;
    append_term(alloc, page, right)
}

fn append_claim(alloc: Global, page: &mut Page, statement: &Claim) -> Result<(), Memory>
    ensures { IfOk result (λ _. Adds page.old page.new (claim (plain_claim statement.now))) }
{
    match statement {
        Claim::Equal(left, right) => append_pair(alloc, page, left, Word::Same, right),
        Claim::Member(left, right) => append_pair(alloc, page, left, Word::In, right),
        Claim::Empty(x) => {
            page.word(Word::RoundOpen)?;
            append_keyword(page, Word::IsEmpty)?;
            append_term(alloc, page, x)?;
            page.word(Word::RoundClose)
        }
        Claim::TypeCheck(from, by, to) => {
            page.word(Word::RoundOpen)?;
            append_keyword(page, Word::TypeCheck)?;
            append_term(alloc, page, from)?;
            page.blank()?;
            append_term(alloc, page, by)?;
            page.blank()?;
            append_term(alloc, page, to)?;
            page.word(Word::RoundClose)
        }
    }
}
