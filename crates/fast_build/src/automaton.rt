//! The automaton of a language.

ghost use Rattle.std.specs.Prelude.{◌≡◌, ◌≤◌, ℕ, IfOk, List, Some, map, length, true, is_some, All, Contains};
ghost use Rattle.std.specs.List.{list_all};
ghost use Rattle.model_tree.specs.Limits.{most_fields};
ghost use Rattle.fast_tree.specs.Signatures.{plain_signature};
ghost use Rattle.fast_syntax.specs.Plain.{plain_lang};
ghost use Rattle.model_program.specs.Syntax.{Name};
ghost use Rattle.model_grammar.specs.Syntax.{named};
ghost use Rattle.model_names.specs.Kinds.{type_of};
ghost use Rattle.model_meaning.specs.Types.{input_of};
ghost use Rattle.sta_core.specs.Machine.{plain_rule as machine_rule};
ghost use Rattle.fast_build.specs.Items.{items_of, find_lang};
ghost use Rattle.fast_build.specs.Stands.{GuardStands};
ghost use Rattle.fast_build.specs.Numbers.{number_in, has_ctor};
ghost use Rattle.fast_build.specs.Reached.{demanded_in};
ghost use Rattle.fast_build.specs.Rules.{AreStatesFor};
ghost use Rattle.fast_build.specs.Automaton.{IsAutomatonOf};
ghost use Rattle.fast_build.specs.Carried.{IsBuiltFor};

use crate::named::lang;
use crate::reached::{Reached, reach};
use crate::rules::rules_for;
use fast_fault::{Memory, Text};
use fast_tree::{CtorOf, Signature};
use program_check::Checked;
use record_label::RowAtom;
use sta_core::{Lang, Sta, StaRule};
use std::alloc::Global;

/// How many children each of the constructors has.
pub fn ranks_of(alloc: Global, constructors: &[CtorOf]) -> Result<Vec<u32>, Memory>
    ensures { IfOk result (λ ranks. ranks.items ≡ map (λ c. c.rank) constructors.now) }
{
    let mut ranks = Vec::new(alloc);
    'ctors: for ctor in constructors {
        ranks.push(ctor.rank)?;
    }
    Ok(ranks)
}

/// The rules of each state, for the languages that are reached.
pub fn states_for(
    alloc: Global,
    signature: &Signature,
    reached: &Reached,
) -> Result<Vec<Vec<StaRule<RowAtom>>>, Memory>
    requires few { length signature.now.fields.items ≤ most_fields }
    requires ctors { All (λ l. list_all (has_ctor (plain_signature signature.now)) (plain_lang l.now).rules ≡ true) reached.now.langs.items }
    requires guarded { All (λ l. All (λ r. GuardStands (plain_signature signature.now).fields r.guard) (plain_lang l.now).rules) reached.now.langs.items }
    requires named { All (λ l. All (Contains reached.now.names.keys) (demanded_in (plain_lang l.now).rules)) reached.now.langs.items }
    ensures { IfOk result (λ states. AreStatesFor (plain_signature signature.now) (number_in reached.now.names.keys) (map (λ those. map machine_rule those.items) states.items) (map (λ l. (plain_lang l.now).rules) reached.now.langs.items)) }
{
    let mut states = Vec::new(alloc);
    'langs: for lang in &reached.langs {
        states.push(rules_for(alloc, signature, &reached.names, &lang.rules)?)?;
    }
    Ok(states)
}

/// The automaton of the language of this name, whose trees have this type.
fn automaton(
    alloc: Global,
    checked: &Checked,
    signature: &Signature,
    name: &Text,
) -> Result<Sta<RowAtom>, Memory>
    requires there { is_some (find_lang (items_of checked.now) name.now) ≡ true }
    requires typed { input_of (items_of checked.now) name.now ≡ plain_signature signature.now }
    ensures { IfOk result (IsAutomatonOf (items_of checked.now) name.now) }
{
    let reached = reach(alloc, checked, name)?;
    let ranks = ranks_of(alloc, &signature.constructors)?;
    let states = states_for(alloc, signature, &reached)?;
    Ok(Sta::new(ranks, states))
}

/// The automaton of the language of this name, with a state for each language that it reaches.
pub fn languages(alloc: Global, checked: &Checked, name: &Text) -> Result<Lang<RowAtom>, Memory>
    requires there { is_some (find_lang (items_of checked.now) name.now) ≡ true }
    ensures start { IfOk result (λ l. l.state ≡ 0) }
    ensures automaton { IfOk result (λ l. IsAutomatonOf (items_of checked.now) name.now l.sta) }
    ensures carried { IfOk result (λ l. (n : Name) (type : List ℕ) → n.text ≡ name.now → type_of (items_of checked.now) (named n) ≡ Some type → IsBuiltFor (items_of checked.now) n type l.sta l.state) }
{
    let Some(own) = lang(checked, name) else {
        unreachable!()
    };
    let Some(signature) = checked.signature(&own.of.text) else {
        unreachable!()
    };
    let sta = automaton(alloc, checked, signature, name)?;
    Ok(Lang { sta, state: 0 })
}
