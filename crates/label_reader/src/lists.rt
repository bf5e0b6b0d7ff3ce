//! Lists of items, up to the sign that closes them.

ghost use Rattle.std.specs.Prelude.{map};
ghost use Rattle.model_program.specs.Joined.{◌⌢◌};
ghost use Rattle.model_program.specs.Grammar.{sign};
ghost use Rattle.read_forms.specs.Reads.{closed};
ghost use Rattle.label_reader.specs.Results.{left, Reads};
ghost use Rattle.label_reader.specs.Lists.{Skips, AnyTo, SomeTo, IsItem};

use crate::Stop;
use crate::keep::pushed;
use crate::reader::Reader;
use fast_lex::Word;

/// What stands between two items of a list.
#[derive(Clone, Copy)]
pub enum Between {
    Nothing,
    /// A comma, which may be left out.
    Comma,
    /// A comma, which may be left out where the next item doesn't begin with `-`: a `-` would go on the label before.
    LabelComma,
    Bar,
}

/// What the items of a list are, and how one of them is read.
pub trait Items {
    ghost use Rattle.std.specs.Prelude.{List};
    ghost use Rattle.model_program.specs.declared.Word.{Word};
    ghost use Rattle.model_program.specs.Lexeme.{Lexeme};

    type Item: Drop;

    // What the grammar has for an item.
    ghost Plain: { Type 0 };

    ghost plain: { Self.Item → Plain };

    // Which tokens spell it.
    ghost spelled: { Plain → List Lexeme → Type 0 };

    // The words by which it goes on.
    ghost goes_on: { Word → Type 0 };

    fn read_item(reader: &mut Reader) -> Result<Self::Item, Stop>
        ensures { Reads spelled goes_on (left reader.old) (left reader.new) plain result };
}

/// What stands between two items is read.
#[tactic(auto, using(crate::proofs::Exits::next_taken))]
fn skip_between(reader: &mut Reader, between: Between) -> Result<(), Stop>
    ensures { Skips between (left reader.old) (left reader.new) result }
{
    let word = match between {
        Between::Nothing => return Ok(()),
        Between::Comma | Between::LabelComma => Word::Comma,
        Between::Bar => Word::Bar,
    };
    if reader.is_next(word) {
        reader.advance();
        return Ok(());
    }
    match between {
        Between::Bar => Err(Stop::Wrong),
        Between::LabelComma if reader.is_next(Word::Minus) => Err(Stop::Wrong),
        _ => Ok(()),
    }
}

/// One item or more, up to the closing sign.
fn read_some_to<L: Items>(
    reader: &mut Reader,
    between: Between,
    close: Word,
) -> Result<Vec<L::Item>, Stop>
    requires { IsItem between close L.spelled L.goes_on }
    ensures { Reads (SomeTo between L.spelled close) closed (left reader.old) (left reader.new) (λ x. map L.plain x.items) result }
{
    let mut all = pushed(Vec::new(reader.alloc), L::read_item(reader))?;
    'items: loop {
        if reader.is_next(close) {
            reader.advance();
            return Ok(all);
        }
        skip_between(reader, between)?;
        all = pushed(all, L::read_item(reader))?;
    }
}

/// Items, or none, up to the closing sign.
pub fn read_to<L: Items>(
    reader: &mut Reader,
    between: Between,
    close: Word,
) -> Result<Vec<L::Item>, Stop>
    requires { IsItem between close L.spelled L.goes_on }
    ensures { Reads (AnyTo between L.spelled close) closed (left reader.old) (left reader.new) (λ x. map L.plain x.items) result }
{
    if reader.is_next(close) {
        reader.advance();
        return Ok(Vec::new(reader.alloc));
    }
    read_some_to::<L>(reader, between, close)
}

/// Items, or none, from the opening sign to the closing one.
pub fn read_any<L: Items>(
    reader: &mut Reader,
    opening: Word,
    between: Between,
    close: Word,
) -> Result<Vec<L::Item>, Stop>
    requires { IsItem between close L.spelled L.goes_on }
    ensures { Reads (λ xs. sign opening ⌢ AnyTo between L.spelled close xs) closed (left reader.old) (left reader.new) (λ x. map L.plain x.items) result }
{
    reader.sign(opening)?;
    read_to::<L>(reader, between, close)
}

/// One item or more, from the opening sign to the closing one.
pub fn read_some<L: Items>(
    reader: &mut Reader,
    opening: Word,
    between: Between,
    close: Word,
) -> Result<Vec<L::Item>, Stop>
    requires { IsItem between close L.spelled L.goes_on }
    ensures { Reads (λ xs. sign opening ⌢ SomeTo between L.spelled close xs) closed (left reader.old) (left reader.new) (λ x. map L.plain x.items) result }
{
    reader.sign(opening)?;
    read_some_to::<L>(reader, between, close)
}
