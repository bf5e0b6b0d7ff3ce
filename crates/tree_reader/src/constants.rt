//! Labels, each with the place and the value that its tokens spell. A `-` before a number belongs to it.

ghost use Rattle.std.specs.Prelude.{map};
ghost use Rattle.read_forms.specs.Reads.{closed};
ghost use Rattle.model_grammar.specs.TreeFiles.{AreConstants};
ghost use Rattle.label_reader.specs.Results.{left, Reads};
ghost use Rattle.tree_reader.specs.Plain.{plain_constant};

use crate::{Constant, Value};
use fast_lex::Word;
use label_reader::{Between, Items, Reader, Stop, read_any, read_numeral, read_string};

/// The labels of a tree: numbers, which `-` may stand before, texts and truth values.
struct Constants;

impl Items for Constants {
    ghost use Rattle.model_grammar.specs.Syntax as plain;
    ghost use Rattle.model_grammar.specs.TreeFiles.{IsConstant};
    ghost use Rattle.read_forms.specs.Reads.{closed};
    ghost use Rattle.tree_reader.specs.Plain.{plain_constant};

    type Item = Constant;

    ghost Plain = { plain.Expr };

    ghost plain = { plain_constant };

    ghost spelled = { IsConstant };

    ghost goes_on = { closed };

    fn read_item(reader: &mut Reader) -> Result<Constant, Stop> {
        let Some(token) = reader.peek() else {
            return Err(Stop::Wrong);
        };
        let place = token.place;
        match token.word {
            Word::True => {
                reader.advance();
                let value = Value::Truth(true);
                Ok(Constant { place, value })
            }
            Word::False => {
                reader.advance();
                let value = Value::Truth(false);
                Ok(Constant { place, value })
            }
            Word::Quoted => {
                let value = Value::Text(read_string(reader)?);
                Ok(Constant { place, value })
            }
            Word::Minus => {
                reader.advance();
                let value = Value::Number(-read_numeral(reader)?);
                Ok(Constant { place, value })
            }
            _ => {
                let value = Value::Number(read_numeral(reader)?);
                Ok(Constant { place, value })
            }
        }
    }
}

pub(crate) fn read_constants(reader: &mut Reader) -> Result<Vec<Constant>, Stop>
    ensures { Reads AreConstants closed (left reader.old) (left reader.new) (λ x. map plain_constant x.items) result }
{
    read_any::<Constants>(
        reader,
        Word::SquareOpen,
        Between::LabelComma,
        Word::SquareClose,
    )
}
