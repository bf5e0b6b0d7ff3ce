//! Texts that differ from given ones.

ghost use Rattle.std.specs.Prelude.{◌≡◌, ◌<◌, length, string_bytes, IfOk, OnOk, Contains};
ghost use Rattle.std.specs.Str.{chars};
ghost use Rattle.flat_label.specs.Fresh.{AreFresh};

use fast_fault::{Memory, Text};
use indexmap::IndexSet;
use std::alloc::Global;

/// The next row of the letter a that isn't among the texts.
fn next_text(alloc: Global, given: &IndexSet<Text>, row: &mut String) -> Result<Text, Memory>
    ensures new { IfOk result (λ text. ¬ (Contains given.now.keys text)) }
    ensures text { IfOk result (λ text. text ≡ chars (string_bytes row.new)) }
    ensures longer { OnOk result (length (string_bytes row.old) < length (string_bytes row.new)) }
{
    row.push('a')?;
    let mut text = Text::of(alloc, row)?;
    'longer: while given.contains(&text) {
        row.push('a')?;
        text = Text::of(alloc, row)?;
    }
    Ok(text)
}

/// So many texts, of which no two are the same and none is among the given ones.
pub fn fresh_texts(alloc: Global, count: usize, given: &IndexSet<Text>) -> Result<Vec<Text>, Memory>
    ensures { IfOk result (λ texts. AreFresh count given.now.keys texts.items) }
{
    let mut row = String::new(alloc);
    let mut texts = Vec::new(alloc);
    'more: for _ in 0..count {
        texts.push(next_text(alloc, given, &mut row)?)?;
    }
    Ok(texts)
}
