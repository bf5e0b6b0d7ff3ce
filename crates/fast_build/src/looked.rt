//! The languages that the rules of transformations demand, and all that these reach.

ghost use Rattle.std.specs.Prelude.{◌≡◌, IfOk, OnOk, map, true, is_some, All};
ghost use Rattle.fast_syntax.specs.Plain.{plain_out_rule, plain_trans};
ghost use Rattle.fast_build.specs.Items.{items_of, find_lang};
ghost use Rattle.fast_build.specs.Reached.{IsGrown};
ghost use Rattle.fast_build.specs.Called.{looked_in, AreLooked, IsGathered};

use crate::named::lang;
use crate::reached::{Reached, add_demanded, add_languages};
use fast_fault::{Memory, Text};
use fast_syntax::items::{OutRule, TransItem};
use indexmap::IndexSet;
use program_check::Checked;
use std::alloc::Global;

/// Adds the languages that the rules demand.
fn add_looked(alloc: Global, rules: &[OutRule], names: &mut IndexSet<Text>) -> Result<(), Memory>
    ensures { OnOk result (IsGrown names.old.keys names.new.keys (looked_in (map plain_out_rule rules.now))) }
{
    'rules: for rule in rules {
        add_demanded(alloc, &rule.rule.given, names)?;
    }
    Ok(())
}

/// The languages that the rules of the transformations demand.
pub fn looked(alloc: Global, transformations: &[&TransItem]) -> Result<IndexSet<Text>, Memory>
    ensures { IfOk result (λ names. AreLooked (map (λ t. plain_trans t.now) transformations.now) names.keys) }
{
    let mut names = IndexSet::new(alloc);
    'looks: for transformation in transformations {
        add_looked(alloc, &transformation.rules, &mut names)?;
    }
    Ok(names)
}

/// The languages of these names and all that they reach.
pub fn gather<'p>(
    alloc: Global,
    checked: &'p Checked,
    mut names: IndexSet<Text>,
) -> Result<Reached<'p>, Memory>
    requires known { All (λ n. is_some (find_lang (items_of checked.now) n) ≡ true) names.keys }
    ensures { IfOk result (λ reached. IsGathered (items_of checked.now) names.keys reached) }
{
    let mut langs = Vec::new(alloc);
    'gather: while langs.len() < names.len() {
        let Some(lang) = lang(checked, &names.as_slice()[langs.len()]) else {
            unreachable!()
        };
        add_languages(alloc, &lang.rules, &mut names)?;
        langs.push(lang)?;
    }
    Ok(Reached { names, langs })
}
