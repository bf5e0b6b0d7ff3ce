//! Output terms: behind the first name in parentheses, another name makes a call, and labels make a new node.

ghost use Rattle.std.specs.Prelude.{map};
ghost use Rattle.read_forms.specs.Reads.{closed};
ghost use Rattle.model_grammar.specs.Terms.{IsOut};
ghost use Rattle.fast_syntax.specs.Plain.{plain_out};
ghost use Rattle.label_reader.specs.Results.{left, Reads};
ghost use Rattle.program_reader.specs.Nodes.{AreOutsToClose};

use crate::labels::read_labels;
use crate::names::{read_name_behind, read_name_to};
use fast_lex::Word;
use fast_syntax::items::Out;
use label_reader::{Reader, Stop, kept, pushed};

/// A child, a transformation of a child, or a new node.
#[cycle(output)]
pub(crate) fn read_out(reader: &mut Reader) -> Result<Out, Stop>
    ensures { Reads IsOut closed (left reader.old) (left reader.new) plain_out result }
{
    if reader.is_next(Word::Id) {
        let name = reader.name()?;
        return Ok(Out::Child(name));
    }
    let name = read_name_behind(reader, Word::RoundOpen)?;
    if reader.is_next(Word::Id) {
        let (name, child) = kept(name, read_name_to(reader, Word::RoundClose))?;
        return Ok(Out::Call(name, child));
    }
    let head = kept(name, read_labels(reader))?;
    let ((name, labels), children) = kept(head, read_outs(reader))?;
    Ok(Out::Node(name, labels, children))
}

/// The children of a new node, and the closing parenthesis.
#[cycle(output)]
fn read_outs(reader: &mut Reader) -> Result<Vec<Out>, Stop>
    ensures { Reads AreOutsToClose closed (left reader.old) (left reader.new) (λ x. map plain_out x.items) result }
{
    let mut all = Vec::new(reader.alloc);
    'items: while !reader.is_next(Word::RoundClose) {
        all = pushed(all, read_out(reader))?;
    }
    reader.advance();
    Ok(all)
}
