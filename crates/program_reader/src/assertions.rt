//! Assertions, whose parentheses may be left out: which of the readings applies is seen from the next tokens alone.

ghost use Rattle.model_program.specs.declared.Word.TheVariants as word;
ghost use Rattle.model_program.specs.Joined.{IsNext};
ghost use Rattle.read_forms.specs.Reads.{closed};
ghost use Rattle.read_forms.specs.Fronts.{Made};
ghost use Rattle.model_grammar.specs.Grammar.{IsA};
ghost use Rattle.fast_syntax.specs.Plain.{plain_x, plain_claim};
ghost use Rattle.label_reader.specs.Results.{left, Reads};
ghost use Rattle.program_reader.specs.Assertions.{IsRight, IsBInside, IsAInside, related};

use crate::labels::read_labels;
use crate::terms::{Children, read_x, read_x_inside};
use fast_lex::Word;
use fast_syntax::items::{Claim, X};
use label_reader::{Between, Reader, Stop, kept, kept_if, read_to, to_close};

/// The comparison with a left side that has been read.
fn read_compared(reader: &mut Reader, side: X) -> Result<Claim, Stop>
    ensures { Reads (Made (related (plain_x side)) IsRight) closed (left reader.old) (left reader.new) plain_claim result }
{
    let equal = reader.is_next(Word::Same);
    let sign = if equal {
        Word::Same
    } else if reader.is_next(Word::In) {
        Word::In
    } else {
        Word::Element
    };
    let left = kept_if(side, reader.sign(sign))?;
    let (left, right) = kept(left, read_x(reader))?;
    if equal {
        Ok(Claim::Equal(left, right))
    } else {
        Ok(Claim::Member(left, right))
    }
}

/// What stands behind the first parenthesis of an assertion that has none of its own around it.
fn read_b_inside(reader: &mut Reader) -> Result<Claim, Stop>
    ensures { Reads IsBInside closed (left reader.old) (left reader.new) plain_claim result }
{
    if reader.is_next(Word::IsEmpty) {
        reader.advance();
        let x = read_x(reader)?;
        return kept_if(Claim::Empty(x), reader.sign(Word::RoundClose));
    }
    if reader.is_next(Word::TypeCheck) {
        reader.advance();
        let x = read_x(reader)?;
        let two = kept(x, read_x(reader))?;
        let ((x, y), z) = kept(two, read_x(reader))?;
        return kept_if(Claim::TypeCheck(x, y, z), reader.sign(Word::RoundClose));
    }
    let left = read_x_inside(reader)?;
    read_compared(reader, left)
}

/// Behind a parenthesis and a name either a tree goes on, or a comparison in parentheses.
fn read_named(reader: &mut Reader) -> Result<Claim, Stop>
    requires { IsNext word.Id (left reader.old) }
    ensures { Reads IsAInside closed (left reader.old) (left reader.new) plain_claim result }
{
    let name = reader.name()?;
    if reader.is_next(Word::SquareOpen) {
        let head = kept(name, read_labels(reader))?;
        let children = read_to::<Children>(reader, Between::Nothing, Word::RoundClose);
        let ((name, labels), children) = kept(head, children)?;
        return read_compared(reader, X::Literal(name, labels, children));
    }
    to_close(read_compared(reader, X::Named(name)), reader)
}

pub(crate) fn read_a(reader: &mut Reader) -> Result<Claim, Stop>
    ensures { Reads IsA closed (left reader.old) (left reader.new) plain_claim result }
{
    if !reader.is_next(Word::RoundOpen) {
        let left = read_x(reader)?;
        return read_compared(reader, left);
    }
    reader.advance();
    if reader.is_next(Word::RoundOpen) {
        reader.advance();
        return to_close(read_b_inside(reader), reader);
    }
    if reader.is_next(Word::Id) {
        return read_named(reader);
    }
    read_b_inside(reader)
}
