//! Items, and whole programs: all tokens are read, or the first wrong one is told.

ghost use Rattle.std.specs.Prelude.{◌≡◌, [], List, IfOk};
ghost use Rattle.read_forms.specs.Reads.{closed, anything};
ghost use Rattle.model_program.specs.declared.Word.TheVariants as word;
ghost use Rattle.model_grammar.specs.Grammar.{IsItem, IsProgram};
ghost use Rattle.model_grammar.specs.Wrong.{IsFirstWrong};
ghost use Rattle.model_grammar.specs.Syntax as plain;
ghost use Rattle.fast_syntax.specs.View.{plain_name};
ghost use Rattle.fast_syntax.specs.Plain.{plain_x, plain_item, plain_program};
ghost use Rattle.label_reader.specs.Results.{lexemes, left, Reads, IfWrong};
ghost use Rattle.program_reader.specs.Items.{IsTyped, IsAssigned, IsAsserted, IsBehind};

use crate::assertions::read_a;
use crate::names::read_name_behind;
use crate::rules::{OutRules, Rules};
use crate::terms::read_x;
use crate::types::read_type;
use fast_lex::{Token, Word};
use fast_syntax::items::{
    AssertItem, Body, DefItem, Item, LangItem, Program, TransItem, TreeItem, X,
};
use fast_syntax::{Name, Pos};
use label_reader::{Between, ReadTokensStop, Reader, Stop, kept, read_some};
use std::alloc::Global;

/// A name, and the name of its type.
fn read_typed(reader: &mut Reader) -> Result<(Name, Name), Stop>
    ensures { Reads IsTyped closed (left reader.old) (left reader.new) (λ x. (plain_name x.0, plain_name x.1)) result }
{
    let name = reader.name()?;
    kept(name, read_name_behind(reader, Word::Colon))
}

/// The value of a name.
fn read_assigned(reader: &mut Reader) -> Result<X, Stop>
    ensures { Reads IsAssigned closed (left reader.old) (left reader.new) plain_x result }
{
    reader.sign(Word::Assign)?;
    read_x(reader)
}

/// A tree, behind its first word, which stands at the place.
fn read_tree_item(reader: &mut Reader, place: Pos) -> Result<Item, Stop>
    ensures { Reads (IsBehind word.Tree place) closed (left reader.old) (left reader.new) plain_item result }
{
    let names = read_typed(reader)?;
    let ((name, of), value) = kept(names, read_assigned(reader))?;
    let body = Body::Tree(TreeItem { name, of, value });
    Ok(Item { place, body })
}

/// A language, likewise.
fn read_lang_item(reader: &mut Reader, place: Pos) -> Result<Item, Stop>
    ensures { Reads (IsBehind word.Lang place) closed (left reader.old) (left reader.new) plain_item result }
{
    let names = read_typed(reader)?;
    let rules = read_some::<Rules>(reader, Word::CurlyOpen, Between::Bar, Word::CurlyClose);
    let ((name, of), rules) = kept(names, rules)?;
    let body = Body::Lang(LangItem { name, of, rules });
    Ok(Item { place, body })
}

/// A transformation, likewise.
fn read_trans_item(reader: &mut Reader, place: Pos) -> Result<Item, Stop>
    ensures { Reads (IsBehind word.Trans place) closed (left reader.old) (left reader.new) plain_item result }
{
    let names = read_typed(reader)?;
    let head = kept(names, read_name_behind(reader, Word::Arrow))?;
    let rules = read_some::<OutRules>(reader, Word::CurlyOpen, Between::Bar, Word::CurlyClose);
    let (((name, from), into), rules) = kept(head, rules)?;
    let body = Body::Trans(TransItem {
        name,
        from,
        into,
        rules,
    });
    Ok(Item { place, body })
}

/// A definition, likewise. It has an output type, or none.
fn read_def_item(reader: &mut Reader, place: Pos) -> Result<Item, Stop>
    ensures { Reads (IsBehind word.Def place) closed (left reader.old) (left reader.new) plain_item result }
{
    let names = read_typed(reader)?;
    let head = if reader.is_next(Word::Arrow) {
        let (names, into) = kept(names, read_name_behind(reader, Word::Arrow))?;
        (names, Some(into))
    } else {
        (names, None)
    };
    let (((name, from), into), value) = kept(head, read_assigned(reader))?;
    let body = Body::Def(DefItem {
        name,
        from,
        into,
        value,
    });
    Ok(Item { place, body })
}

/// An assertion, likewise, and whether it is to hold.
fn read_assertion(reader: &mut Reader, place: Pos, wanted: bool) -> Result<Item, Stop>
    ensures { Reads (IsAsserted wanted place) closed (left reader.old) (left reader.new) plain_item result }
{
    let claim = read_a(reader)?;
    let body = Body::Assert(AssertItem { wanted, claim });
    Ok(Item { place, body })
}

fn read_item(reader: &mut Reader) -> Result<Item, Stop>
    ensures { Reads IsItem closed (left reader.old) (left reader.new) plain_item result }
{
    let Some(first) = reader.peek() else {
        return Err(Stop::Wrong);
    };
    let before = *reader;
    reader.advance();
    match first.word {
        Word::TypeWord => {
            let item = read_type(reader)?;
            let place = first.place;
            let body = Body::Sorts(item);
            Ok(Item { place, body })
        }
        Word::Tree => read_tree_item(reader, first.place),
        Word::Lang => read_lang_item(reader, first.place),
        Word::Trans => read_trans_item(reader, first.place),
        Word::Def => read_def_item(reader, first.place),
        Word::AssertTrue => read_assertion(reader, first.place, true),
        Word::AssertFalse => read_assertion(reader, first.place, false),
        _ => {
            *reader = before;
            Err(Stop::Wrong)
        }
    }
}

/// Puts the items up to the end of the tokens into a program without items.
fn read_program(reader: &mut Reader, program: &mut Program) -> Result<(), Stop>
    requires { plain_program program.old ≡ [] }
    ensures read { Reads IsProgram anything (left reader.old) (left reader.new) (λ _. plain_program program.new) result }
    ensures whole { IfOk result (λ _. left reader.new ≡ []) }
{
    'items: while reader.count_left() > 0 {
        let item = read_item(reader)?;
        program.add(item)?;
    }
    Ok(())
}

/// The program that the tokens spell.
pub fn read_items<'t>(alloc: Global, tokens: &'t [Token<'t>]) -> Result<Program, ReadTokensStop>
    // What is read is spelled so.
    ensures found { IfOk result (λ program. IsProgram (plain_program program) (lexemes tokens.now)) }
    // The tokens spell no other program.
    ensures only { IfOk result (λ program. (other : List plain.Item) → IsProgram other (lexemes tokens.now) → other ≡ plain_program program) }
    // Where they spell none, the first wrong token is told.
    ensures refused { IfWrong result (IsFirstWrong IsProgram (lexemes tokens.now)) }
{
    let mut reader = Reader::new(alloc, tokens);
    let mut program = Program::new(alloc);
    let Err(stop) = read_program(&mut reader, &mut program) else {
        return Ok(program);
    };
    program.let_go();
    match stop {
        Stop::Memory => Err(ReadTokensStop::Memory),
        Stop::Wrong => Err(ReadTokensStop::Wrong(tokens.len() - reader.count_left())),
    }
}
