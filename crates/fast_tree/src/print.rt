//! The printed text of trees.

ghost use Rattle.std.specs.Prelude.{◌≡◌, ◌++◌, ◌<◌, IfOk, encode_utf8_all, true};
ghost use Rattle.std.specs.Fmt.{signed_decimal};
ghost use Rattle.std.specs.Str.{all_scalars};
ghost use Rattle.model_tree.specs.Tree.{relabel, relabel_all, trees_of};
ghost use Rattle.model_tree.specs.Scalars.{has_scalars, have_scalars, is_of_scalars, label_has_scalars};
ghost use Rattle.model_tree.specs.Signature.{HasType, EachHasType, names_of};
ghost use Rattle.model_tree.specs.Printed.{printed_tree, printed_children, printed_label, printed_field, printed_text, escaped, numbered};
ghost use Rattle.fast_tree.specs.Entries.{field_of, label_meaning};
ghost use Rattle.fast_tree.specs.Signatures.{plain_signature};

use crate::{Label, Signature, Tree, Value};
use fast_fault::{LabelInt, Memory, Text};
use std::alloc::Global;

/// The text of a tree, as reports show it.
pub fn print_tree(
    alloc: Global,
    tree: &Tree<Label>,
    signature: &Signature,
) -> Result<Vec<u8>, Memory>
    requires { HasType (plain_signature signature.now) (relabel label_meaning tree.now) }
    ensures text { IfOk result (λ text. text.items ≡ encode_utf8_all (printed_tree (names_of (plain_signature signature.now)) (relabel label_meaning tree.now))) }
    ensures scalars { IfOk result (λ _. has_scalars (relabel label_meaning tree.now) ≡ true) }
{
    let mut text = Vec::new(alloc);
    append_tree(alloc, &mut text, tree, signature)?;
    Ok(text)
}

#[cycle(print)]
fn append_tree(
    alloc: Global,
    out: &mut Vec<u8>,
    tree: &Tree<Label>,
    signature: &Signature,
) -> Result<(), Memory>
    requires { HasType (plain_signature signature.now) (relabel label_meaning tree.now) }
    ensures text { IfOk result (λ _. out.new.items ≡ out.old.items ++ encode_utf8_all (printed_tree (names_of (plain_signature signature.now)) (relabel label_meaning tree.now))) }
    ensures scalars { IfOk result (λ _. has_scalars (relabel label_meaning tree.now) ≡ true) }
{
    out.push(b'(')?;
    let constructor = &signature.constructors[tree.constructor() as usize];
    out.extend_from_slice(constructor.name.as_str().as_bytes())?;
    out.extend_from_slice(b" [")?;
    append_label(alloc, out, tree.label())?;
    out.push(b']')?;
    append_children(alloc, out, tree.children(), signature)?;
    out.push(b')')?;
    Ok(())
}

#[cycle(print)]
fn append_children(
    alloc: Global,
    out: &mut Vec<u8>,
    children: &[Tree<Label>],
    signature: &Signature,
) -> Result<(), Memory>
    requires { EachHasType (plain_signature signature.now) (relabel_all label_meaning (trees_of children.now)) }
    ensures text { IfOk result (λ _. out.new.items ≡ out.old.items ++ encode_utf8_all (printed_children (names_of (plain_signature signature.now)) (relabel_all label_meaning (trees_of children.now)))) }
    ensures scalars { IfOk result (λ _. have_scalars (relabel_all label_meaning (trees_of children.now)) ≡ true) }
{
    for child in children {
        out.push(b' ')?;
        append_tree(alloc, out, child, signature)?;
    }
    Ok(())
}

fn append_label(alloc: Global, out: &mut Vec<u8>, label: &Label) -> Result<(), Memory>
    ensures text { IfOk result (λ _. out.new.items ≡ out.old.items ++ encode_utf8_all (printed_label (label_meaning label.now))) }
    ensures scalars { IfOk result (λ _. label_has_scalars (label_meaning label.now) ≡ true) }
{
    if let Some((first, later)) = label.values().split_first() {
        append_value(alloc, out, first)?;
        for value in later {
            out.extend_from_slice(b", ")?;
            append_value(alloc, out, value)?;
        }
    }
    Ok(())
}

fn append_value(alloc: Global, out: &mut Vec<u8>, value: &Value) -> Result<(), Memory>
    ensures text { IfOk result (λ _. out.new.items ≡ out.old.items ++ encode_utf8_all (printed_field (field_of value.now))) }
    ensures scalars { IfOk result (λ _. is_of_scalars (field_of value.now) ≡ true) }
{
    match value {
        Value::Int(number) => append_number(alloc, out, *number)?,
        Value::Bool(true) => out.extend_from_slice(b"true")?,
        Value::Bool(false) => out.extend_from_slice(b"false")?,
        Value::Text(text) => append_text(alloc, out, text)?,
    }
    Ok(())
}

#[tactic(auto, using(crate::proofs::Printing::on_characters))]
fn append_number(alloc: Global, out: &mut Vec<u8>, number: LabelInt) -> Result<(), Memory>
    ensures { IfOk result (λ _. out.new.items ≡ out.old.items ++ encode_utf8_all (signed_decimal number)) }
{
    let digits = format!(in alloc; "{number}")?;
    out.extend_from_slice(digits.as_bytes())?;
    Ok(())
}

fn append_text(alloc: Global, out: &mut Vec<u8>, text: &Text) -> Result<(), Memory>
    ensures text { IfOk result (λ _. out.new.items ≡ out.old.items ++ encode_utf8_all (printed_text text.now)) }
    ensures scalars { IfOk result (λ _. all_scalars text.now ≡ true) }
{
    out.push(b'"')?;
    for character in text.as_str().chars() {
        append_character(alloc, out, character)?;
    }
    out.push(b'"')?;
    Ok(())
}

fn append_character(alloc: Global, out: &mut Vec<u8>, character: char) -> Result<(), Memory>
    ensures { IfOk result (λ _. out.new.items ≡ out.old.items ++ encode_utf8_all (escaped character)) }
{
    match character {
        '"' => out.extend_from_slice(b"\\\"")?,
        '\\' => out.extend_from_slice(b"\\\\")?,
        '\n' => out.extend_from_slice(b"\\n")?,
        '\t' => out.extend_from_slice(b"\\t")?,
        '\0'..='\u{1f}' | '\u{7f}' => append_by_number(alloc, out, character)?,
        _ => {
            let mut buffer = [0; 4];
            out.extend_from_slice(character.encode_utf8(&mut buffer).as_bytes())?;
        }
    }
    Ok(())
}

#[tactic(auto, using(crate::proofs::Printing::on_characters))]
fn append_by_number(alloc: Global, out: &mut Vec<u8>, character: char) -> Result<(), Memory>
    requires { character < 128 }
    ensures { IfOk result (λ _. out.new.items ≡ out.old.items ++ encode_utf8_all (numbered character)) }
{
    let number = format!(in alloc; "\\u{{{:x}}}", character as u32)?;
    out.extend_from_slice(number.as_bytes())?;
    Ok(())
}
