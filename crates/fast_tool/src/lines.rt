//! The lines of items.

ghost use Rattle.std.specs.Prelude.{◌≡◌, ◌++◌, List, ℕ, Some, IfOk, OnOk, string_bytes, codes, decimal, true};
ghost use Rattle.model_tree.specs.Tree.{relabel};
ghost use Rattle.model_tree.specs.Scalars.{has_scalars};
ghost use Rattle.model_tree.specs.Signature.{HasType};
ghost use Rattle.model_meaning.specs.Meaning.{signature_named};
ghost use Rattle.fast_tree.specs.Entries.{label_meaning};
ghost use Rattle.model_run.specs.Outcomes.{verdict, tree_line, minimal_line, shown_tree, line_of};
ghost use Rattle.fast_build.specs.Items.{items_of};
ghost use Rattle.fast_session.specs.Answers.{verdict_on, line_outcome};
ghost use Rattle.fast_session.specs.Items.{HaveScalars, IsTyped};

use fast_fault::{Memory, Text};
use fast_session::Line;
use fast_tree::{Label, Tree, print_tree};
use program_check::Checked;
use std::alloc::Global;

/// The words of a verdict, up to where its tree may stand.
fn head(alloc: Global, line: u32, passes: bool) -> Result<String, Memory>
    ensures { IfOk result (λ text. string_bytes text ≡ codes "assert " ++ (decimal line ++ verdict passes)) }
{
    if passes {
        Ok(format!(in alloc; "assert {line} pass")?)
    } else {
        Ok(format!(in alloc; "assert {line} fail")?)
    }
}

/// Appends a space and the text of a tree of the type with this name.
pub fn append_tree(
    alloc: Global,
    text: &mut Vec<u8>,
    checked: &Checked,
    of: &Text,
    tree: &Tree<Label>,
) -> Result<(), Memory>
    requires typed { HasType (signature_named (items_of checked.now) (Some of.now)) (relabel label_meaning tree.now) }
    ensures text { OnOk result (text.new.items ≡ text.old.items ++ shown_tree (signature_named (items_of checked.now) (Some of.now)) (relabel label_meaning tree.now)) }
    ensures scalars { OnOk result (has_scalars (relabel label_meaning tree.now) ≡ true) }
{
    let Some(signature) = checked.signature(of) else {
        unreachable!()
    };
    text.push(b' ')?;
    text.extend_from_slice(&print_tree(alloc, tree, signature)?)?;
    Ok(())
}

/// The line of a tree that has its name.
fn tree_text(
    alloc: Global,
    checked: &Checked,
    name: &Text,
    of: &Text,
    tree: &Tree<Label>,
) -> Result<Vec<u8>, Memory>
    requires typed { HasType (signature_named (items_of checked.now) (Some of.now)) (relabel label_meaning tree.now) }
    ensures text { IfOk result (λ text. text.items ≡ line_of (tree_line name.now (signature_named (items_of checked.now) (Some of.now)) (relabel label_meaning tree.now))) }
    ensures scalars { OnOk result (has_scalars (relabel label_meaning tree.now) ≡ true) }
{
    let mut text = Vec::from_slice(alloc, b"tree ")?;
    text.extend_from_slice(name.as_str().as_bytes())?;
    append_tree(alloc, &mut text, checked, of, tree)?;
    text.push(b'\n')?;
    Ok(text)
}

/// The line of a verdict, with the tree of the type with this name that goes with it.
fn verdict_text(
    alloc: Global,
    checked: &Checked,
    line: u32,
    passes: bool,
    of: &Text,
    shown: &Option<Tree<Label>>,
) -> Result<Vec<u8>, Memory>
    requires typed { IsTyped (verdict_on line passes (signature_named (items_of checked.now) (Some of.now)) shown.now) }
    ensures text { IfOk result (λ text. text.items ≡ line_of (verdict_on line passes (signature_named (items_of checked.now) (Some of.now)) shown.now)) }
    ensures scalars { OnOk result (HaveScalars (verdict_on line passes (signature_named (items_of checked.now) (Some of.now)) shown.now)) }
{
    let mut text = head(alloc, line, passes)?.into_bytes();
    if let Some(tree) = shown {
        append_tree(alloc, &mut text, checked, of, tree)?;
    }
    text.push(b'\n')?;
    Ok(text)
}

/// The line of the size of a least automaton.
fn minimal_text(alloc: Global, name: &Text, count: u32) -> Result<Vec<u8>, Memory>
    ensures text { IfOk result (λ text. text.items ≡ line_of (minimal_line name.now count)) }
{
    let mut text = Vec::from_slice(alloc, b"minimal ")?;
    text.extend_from_slice(name.as_str().as_bytes())?;
    text.extend_from_slice(format!(in alloc; " {count}\n")?.as_bytes())?;
    Ok(text)
}

/// The text of a line.
pub fn line_text(alloc: Global, checked: &Checked, line: &Line) -> Result<Vec<u8>, Memory>
    requires typed { IsTyped (line_outcome (items_of checked.now) line.now) }
    ensures text { IfOk result (λ text. text.items ≡ line_of (line_outcome (items_of checked.now) line.now)) }
    ensures scalars { OnOk result (HaveScalars (line_outcome (items_of checked.now) line.now)) }
{
    match line {
        Line::Tree { name, of, tree } => tree_text(alloc, checked, name, of, tree),
        Line::Minimal { name, count } => minimal_text(alloc, name, *count),
        Line::Verdict {
            line,
            passes,
            of,
            shown,
        } => verdict_text(alloc, checked, *line, *passes, of, shown),
    }
}
