//! The languages and transformations of a checked program, by their names.

ghost use Rattle.std.specs.Prelude.{◌≡◌, Some, None, MatchOption};
ghost use Rattle.fast_syntax.specs.Plain.{plain_lang, plain_trans};
ghost use Rattle.fast_build.specs.Items.{items_of, find_lang};
ghost use Rattle.fast_build.specs.Transformations.{find_trans};

use fast_fault::Text;
use fast_syntax::items::{Body, LangItem, TransItem};
use program_check::Checked;

/// The language of this name.
pub fn lang<'c>(checked: &'c Checked, name: &Text) -> Option<&'c LangItem>
    ensures { MatchOption result (find_lang (items_of checked.now) name.now ≡ None) (λ l. find_lang (items_of checked.now) name.now ≡ Some (plain_lang l.now)) }
{
    let Some(item) = checked.item(name) else {
        return None;
    };
    match &item.body {
        Body::Lang(lang) => Some(lang),
        _ => None,
    }
}

/// The transformation of this name.
pub fn trans<'c>(checked: &'c Checked, name: &Text) -> Option<&'c TransItem>
    ensures { MatchOption result (find_trans (items_of checked.now) name.now ≡ None) (λ t. find_trans (items_of checked.now) name.now ≡ Some (plain_trans t.now)) }
{
    let Some(item) = checked.item(name) else {
        return None;
    };
    match &item.body {
        Body::Trans(own) => Some(own),
        _ => None,
    }
}
