//! Names with a sign beside them.

ghost use Rattle.read_forms.specs.Reads.{closed};
ghost use Rattle.fast_syntax.specs.View.{plain_name};
ghost use Rattle.label_reader.specs.Results.{left, Reads};
ghost use Rattle.program_reader.specs.Names.{IsNameBehind, IsNameTo};

use fast_lex::Word;
use fast_syntax::Name;
use label_reader::{Reader, Stop, kept_if};

/// A name behind a sign.
pub(crate) fn read_name_behind(reader: &mut Reader, sign: Word) -> Result<Name, Stop>
    ensures { Reads (IsNameBehind sign) closed (left reader.old) (left reader.new) plain_name result }
{
    reader.sign(sign)?;
    reader.name()
}

/// A name, and the sign behind it.
pub(crate) fn read_name_to(reader: &mut Reader, sign: Word) -> Result<Name, Stop>
    ensures { Reads (IsNameTo sign) closed (left reader.old) (left reader.new) plain_name result }
{
    let name = reader.name()?;
    kept_if(name, reader.sign(sign))
}
