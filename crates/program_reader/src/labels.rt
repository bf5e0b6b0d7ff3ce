//! The labels of a node. Commas between them may be left out where the next label doesn't begin with `-`.

ghost use Rattle.std.specs.Prelude.{map};
ghost use Rattle.read_forms.specs.Reads.{closed};
ghost use Rattle.model_grammar.specs.Terms.{AreLabels};
ghost use Rattle.fast_syntax.specs.Plain.{plain_expr};
ghost use Rattle.label_reader.specs.Results.{left, Reads};

use fast_lex::Word;
use fast_syntax::expressions::Expr;
use label_reader::{Between, Items, Reader, Stop, read_any, read_level};
use model_grammar::Level;

/// A label is an expression.
struct Labels;

impl Items for Labels {
    ghost use Rattle.model_grammar.specs.Syntax as plain;
    ghost use Rattle.model_grammar.specs.declared.Level.TheVariants.{E};
    ghost use Rattle.model_grammar.specs.Expressions.{IsE};
    ghost use Rattle.label_reader.specs.Levels.{GoesOn};
    ghost use Rattle.fast_syntax.specs.Plain.{plain_expr};

    type Item = Expr;

    ghost Plain = { plain.Expr };

    ghost plain = { plain_expr };

    ghost spelled = { IsE };

    ghost goes_on = { GoesOn E };

    fn read_item(reader: &mut Reader) -> Result<Expr, Stop> {
        read_level(reader, Level::E)
    }
}

pub(crate) fn read_labels(reader: &mut Reader) -> Result<Vec<Expr>, Stop>
    ensures { Reads AreLabels closed (left reader.old) (left reader.new) (λ x. map plain_expr x.items) result }
{
    read_any::<Labels>(
        reader,
        Word::SquareOpen,
        Between::LabelComma,
        Word::SquareClose,
    )
}
