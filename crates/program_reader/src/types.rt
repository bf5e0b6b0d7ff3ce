//! Types of trees. A sort has its name with a capital, however it is written.

ghost use Rattle.std.specs.Prelude.{◌≡◌};
ghost use Rattle.std.specs.Str.{chars};
ghost use Rattle.read_forms.specs.Reads.{closed};
ghost use Rattle.model_program.specs.Grammar.{IsTypeItem, sort_text};
ghost use Rattle.label_reader.specs.Results.{left, Reads};
ghost use Rattle.fast_syntax.specs.View.{plain_type};

use crate::names::read_name_to;
use fast_lex::Word;
use fast_syntax::{CtorItem, FieldItem, Name, Text, TypeItem};
use label_reader::{
    Between, Items, Reader, Stop, kept, read_any, read_numeral, read_some, to_close,
};

/// The sort's name, with a capital.
fn sort_name<'t>(text: &'t str) -> &'t str
    ensures { chars result.now ≡ sort_text (chars text.now) }
{
    match text {
        "int" => "Int",
        "bool" => "Bool",
        "string" => "String",
        _ => text,
    }
}

/// The fields of the labels of a type.
struct Fields;

impl Items for Fields {
    ghost use Rattle.model_program.specs.Syntax as plain;
    ghost use Rattle.model_program.specs.Grammar.{IsField};
    ghost use Rattle.read_forms.specs.Reads.{closed};
    ghost use Rattle.fast_syntax.specs.View.{plain_field};

    type Item = FieldItem;

    ghost Plain = { plain.FieldItem };

    ghost plain = { plain_field };

    ghost spelled = { IsField };

    ghost goes_on = { closed };

    fn read_item(reader: &mut Reader) -> Result<FieldItem, Stop> {
        let name = read_name_to(reader, Word::Colon)?;
        let Some(id) = reader.peek_if(Word::Id) else {
            return Err(Stop::Wrong);
        };
        reader.advance();
        let (name, text) = kept(name, Text::of(reader.alloc, sort_name(id.text)))?;
        let place = id.place;
        let sort = Name { text, place };
        Ok(FieldItem { name, sort })
    }
}

/// The constructors of a type.
struct Ctors;

impl Items for Ctors {
    ghost use Rattle.model_program.specs.Syntax as plain;
    ghost use Rattle.model_program.specs.Grammar.{IsCtor};
    ghost use Rattle.read_forms.specs.Reads.{closed};
    ghost use Rattle.fast_syntax.specs.View.{plain_ctor};

    type Item = CtorItem;

    ghost Plain = { plain.CtorItem };

    ghost plain = { plain_ctor };

    ghost spelled = { IsCtor };

    ghost goes_on = { closed };

    fn read_item(reader: &mut Reader) -> Result<CtorItem, Stop> {
        let name = read_name_to(reader, Word::RoundOpen)?;
        let (name, rank) = kept(name, to_close(read_numeral(reader), reader))?;
        Ok(CtorItem { name, rank })
    }
}

pub(crate) fn read_type(reader: &mut Reader) -> Result<TypeItem, Stop>
    ensures { Reads IsTypeItem closed (left reader.old) (left reader.new) plain_type result }
{
    let name = reader.name()?;
    let fields = if reader.is_next(Word::SquareOpen) {
        read_any::<Fields>(reader, Word::SquareOpen, Between::Comma, Word::SquareClose)
    } else {
        Ok(Vec::new(reader.alloc))
    };
    let head = kept(name, fields)?;
    let ctors = read_some::<Ctors>(reader, Word::CurlyOpen, Between::Comma, Word::CurlyClose);
    let ((name, fields), ctors) = kept(head, ctors)?;
    Ok(TypeItem {
        name,
        fields,
        ctors,
    })
}
