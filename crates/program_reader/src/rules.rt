//! Rules: each part that may be left out is read wherever it stands.

ghost use Rattle.std.specs.Prelude.{map};
ghost use Rattle.read_forms.specs.Reads.{closed};
ghost use Rattle.model_program.specs.Grammar.{IsDemand, IsGiven};
ghost use Rattle.fast_syntax.specs.View.{plain_demand};
ghost use Rattle.label_reader.specs.Results.{left, Reads};
ghost use Rattle.program_reader.specs.Goings.{given_words};

use crate::names::{read_name_behind, read_name_to};
use crate::outputs::read_out;
use fast_lex::Word;
use fast_syntax::items::{OutRule, Rule};
use fast_syntax::{Demand, Name};
use label_reader::{Between, Items, Reader, Stop, kept, kept_if, pushed, read_any, read_level};
use model_grammar::Level;

fn read_demand(reader: &mut Reader) -> Result<Demand, Stop>
    ensures { Reads IsDemand closed (left reader.old) (left reader.new) plain_demand result }
{
    let language = read_name_behind(reader, Word::RoundOpen)?;
    let (language, child) = kept(language, read_name_to(reader, Word::RoundClose))?;
    Ok(Demand { language, child })
}

/// The variables of a rule.
struct Variables;

impl Items for Variables {
    ghost use Rattle.model_program.specs.Syntax as plain;
    ghost use Rattle.model_program.specs.Grammar.{IsName};
    ghost use Rattle.read_forms.specs.Reads.{closed};
    ghost use Rattle.fast_syntax.specs.View.{plain_name};

    type Item = Name;

    ghost Plain = { plain.Name };

    ghost plain = { plain_name };

    ghost spelled = { IsName };

    ghost goes_on = { closed };

    fn read_item(reader: &mut Reader) -> Result<Name, Stop> {
        reader.name()
    }
}

fn read_given(reader: &mut Reader) -> Result<Vec<Demand>, Stop>
    ensures { Reads IsGiven given_words (left reader.old) (left reader.new) (λ x. map plain_demand x.items) result }
{
    let mut all = Vec::new(reader.alloc);
    if !reader.is_next(Word::Given) {
        return Ok(all);
    }
    reader.advance();
    'items: loop {
        all = pushed(all, read_demand(reader))?;
        if !reader.is_next(Word::RoundOpen) {
            return Ok(all);
        }
    }
}

/// The rules of a language.
pub(crate) struct Rules;

impl Items for Rules {
    ghost use Rattle.model_grammar.specs.Syntax as plain;
    ghost use Rattle.model_grammar.specs.Grammar.{IsRule};
    ghost use Rattle.program_reader.specs.Goings.{rule_words};
    ghost use Rattle.fast_syntax.specs.Plain.{plain_rule};

    type Item = Rule;

    ghost Plain = { plain.Rule };

    ghost plain = { plain_rule };

    ghost spelled = { IsRule };

    ghost goes_on = { rule_words };

    fn read_item(reader: &mut Reader) -> Result<Rule, Stop> {
        let ctor = reader.name()?;
        let vars = read_any::<Variables>(reader, Word::RoundOpen, Between::Comma, Word::RoundClose);
        let head = kept(ctor, vars)?;
        let guarded = if reader.is_next(Word::Where) {
            reader.advance();
            let (head, guard) = kept(head, read_level(reader, Level::E))?;
            (head, Some(guard))
        } else {
            (head, None)
        };
        let (((ctor, vars), guard), given) = kept(guarded, read_given(reader))?;
        Ok(Rule {
            ctor,
            vars,
            guard,
            given,
        })
    }
}

/// The rules of a transformation.
pub(crate) struct OutRules;

impl Items for OutRules {
    ghost use Rattle.model_grammar.specs.Syntax as plain;
    ghost use Rattle.model_grammar.specs.Grammar.{IsOutRule};
    ghost use Rattle.read_forms.specs.Reads.{closed};
    ghost use Rattle.fast_syntax.specs.Plain.{plain_out_rule};

    type Item = OutRule;

    ghost Plain = { plain.OutRule };

    ghost plain = { plain_out_rule };

    ghost spelled = { IsOutRule };

    ghost goes_on = { closed };

    fn read_item(reader: &mut Reader) -> Result<OutRule, Stop> {
        let rule = Rules::read_item(reader)?;
        let rule = kept_if(rule, reader.sign(Word::To))?;
        let (rule, out) = kept(rule, read_out(reader))?;
        Ok(OutRule { rule, out })
    }
}
