//! Fields of a label by their numbers within their sort.

ghost use Rattle.std.specs.Prelude.{◌≡◌, ◌<◌, ℕ, pos, length, map, false, slice_index_or, slice_get};
ghost use Rattle.std.specs.Option.{option_map};
ghost use Rattle.model_tree.specs.Limits.{most_fields};
ghost use Rattle.fast_tree.specs.Entries.{field_of};
ghost use Rattle.flat_label.specs.Texts.{SideFits, side_text, texts_label};
ghost use Rattle.model_guard.specs.Forms.{wholes_in};
ghost use Rattle.record_label.specs.Rows.{truths_in, texts_in};

use fast_fault::{LabelInt, Text};
use fast_tree::Value;
use flat_label::TextSide;

/// The first eight whole numbers. Where there are fewer the rest are 0.
pub fn wholes(values: &[Value]) -> [LabelInt; 8]
    ensures { (k : ℕ) → k < most_fields → slice_index_or result k (pos 0) ≡ slice_index_or (wholes_in (map field_of values.now)) k (pos 0) }
{
    let mut wholes = [0; 8];
    let mut count = 0;
    for value in values {
        if let Value::Int(whole) = value {
            if count < 8 {
                wholes[count] = *whole;
                count += 1;
            }
        }
    }
    wholes
}

/// The truth value with this number.
pub fn truth_at(values: &[Value], number: u32) -> bool
    ensures { result ≡ slice_index_or (truths_in (map field_of values.now)) number false }
{
    let mut before = number;
    for value in values {
        if let Value::Bool(truth) = value {
            if before == 0 {
                return *truth;
            }
            before -= 1;
        }
    }
    false
}

/// The text with this number.
fn text_at(values: &[Value], number: u32) -> Option<&Text>
    ensures { option_map (λ text. text.now) result ≡ slice_get (texts_in (map field_of values.now)) number }
{
    let mut before = number;
    for value in values {
        if let Value::Text(text) = value {
            if before == 0 {
                return Some(text);
            }
            before -= 1;
        }
    }
    None
}

/// The text of a side.
pub fn side_text<'v>(side: &'v TextSide, values: &'v [Value]) -> Option<&'v Text>
    requires { SideFits (length (texts_in (map field_of values.now))) side.now }
    ensures { option_map (λ text. text.now) result ≡ Some (side_text side.now (texts_label (texts_in (map field_of values.now)))) }
{
    match side {
        TextSide::Field(number) => text_at(values, *number),
        TextSide::Constant(text) => Some(text),
    }
}
