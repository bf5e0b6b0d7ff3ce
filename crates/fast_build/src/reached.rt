//! The languages that a language reaches.

ghost use Rattle.std.specs.Prelude.{◌≡◌, [], ◌∷◌, IfOk, OnOk, map, true, is_some};
ghost use Rattle.fast_syntax.specs.View.{plain_demand};
ghost use Rattle.fast_syntax.specs.Plain.{plain_rule};
ghost use Rattle.fast_build.specs.Items.{items_of, find_lang};
ghost use Rattle.fast_build.specs.Reached.{demanded_by, demanded_in, IsGrown, IsReached};

use crate::named::lang;
use fast_fault::{Memory, Text};
use fast_syntax::Demand;
use fast_syntax::items::{LangItem, Rule};
use indexmap::IndexSet;
use program_check::Checked;
use std::alloc::Global;

/// The languages that a language reaches, in the order in which they are met, itself first: their names, and at the same
/// places their declarations.
#[derive(Drop)]
pub struct Reached<'p> {
    pub names: IndexSet<Text>,
    pub langs: Vec<&'p LangItem>,
}

/// Adds the name, unless it is there.
pub fn add_name(alloc: Global, name: &Text, names: &mut IndexSet<Text>) -> Result<(), Memory>
    ensures { OnOk result (IsGrown names.old.keys names.new.keys (name.now ∷ [])) }
{
    if !names.contains(name) {
        names.insert(name.copy(alloc)?)?;
    }
    Ok(())
}

/// Adds the languages that are demanded.
pub fn add_demanded(
    alloc: Global,
    given: &[Demand],
    names: &mut IndexSet<Text>,
) -> Result<(), Memory>
    ensures { OnOk result (IsGrown names.old.keys names.new.keys (demanded_by (map plain_demand given.now))) }
{
    'given: for demand in given {
        add_name(alloc, &demand.language.text, names)?;
    }
    Ok(())
}

/// Adds the languages that the rules demand.
pub fn add_languages(
    alloc: Global,
    rules: &[Rule],
    names: &mut IndexSet<Text>,
) -> Result<(), Memory>
    ensures { OnOk result (IsGrown names.old.keys names.new.keys (demanded_in (map plain_rule rules.now))) }
{
    'rules: for rule in rules {
        add_demanded(alloc, &rule.given, names)?;
    }
    Ok(())
}

/// The languages that the language of this name reaches.
pub fn reach<'p>(alloc: Global, checked: &'p Checked, name: &Text) -> Result<Reached<'p>, Memory>
    requires there { is_some (find_lang (items_of checked.now) name.now) ≡ true }
    ensures { IfOk result (λ reached. IsReached (items_of checked.now) name.now reached) }
{
    let mut names = IndexSet::new(alloc);
    add_name(alloc, name, &mut names)?;
    let mut langs = Vec::new(alloc);
    'reach: while langs.len() < names.len() {
        let Some(lang) = lang(checked, &names.as_slice()[langs.len()]) else {
            unreachable!()
        };
        add_languages(alloc, &lang.rules, &mut names)?;
        langs.push(lang)?;
    }
    Ok(Reached { names, langs })
}
