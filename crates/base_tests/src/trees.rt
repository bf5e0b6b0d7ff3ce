//! Trees: what they are printed as, copies, and the order of labels.

ghost use Rattle.std.specs.Prelude.{◌≡◌, IfOk, [], ◌∷◌, map};
ghost use Rattle.model_tree.specs.Tree.{relabel};
ghost use Rattle.model_tree.specs.Signature.{HasType, ranks_of, sorts_of};
ghost use Rattle.fast_tree.specs.Entries.{label_meaning};
ghost use Rattle.fast_tree.specs.Signatures.{plain_field, plain_signature};

use fast_fault::{Memory, Text};
use fast_tree::{CtorOf, FieldOf, Label, Signature, Sort, Tree, Value, print_tree};
use std::alloc::Global;
use std::cmp::Ordering;
use std::test::Fail;

fn constructor(alloc: Global, name: &str, rank: u32) -> Result<CtorOf, Memory>
    ensures { IfOk result (λ c. c.rank ≡ rank) }
{
    let name = Text::of(alloc, name)?;
    Ok(CtorOf { name, rank })
}

fn field(alloc: Global, name: &str, sort: Sort) -> Result<FieldOf, Memory>
    ensures { IfOk result (λ f. f.sort ≡ sort) }
{
    let name = Text::of(alloc, name)?;
    Ok(FieldOf { name, sort })
}

/// A type with these fields, whose constructors `l`, `s` and `n` have the ranks 0, 1 and 2.
fn signature(alloc: Global, fields: Vec<FieldOf>) -> Result<Signature, Memory>
    ensures ranks { IfOk result (λ s. ranks_of (plain_signature s) ≡ 0 ∷ 1 ∷ 2 ∷ []) }
    ensures sorts { IfOk result (λ s. sorts_of (plain_signature s) ≡ map (λ f. f.sort) (map plain_field fields.items)) }
{
    let name = Text::of(alloc, "T")?;
    let mut constructors = Vec::new(alloc);
    constructors.push(constructor(alloc, "l", 0)?)?;
    constructors.push(constructor(alloc, "s", 1)?)?;
    constructors.push(constructor(alloc, "n", 2)?)?;
    Ok(Signature {
        name,
        fields,
        constructors,
    })
}

/// A tree of `s` and `l`, with so many levels and one more.
fn tower(alloc: Global, signature: &Signature, levels: u64) -> Result<Tree<Label>, Memory>
    requires ranks { ranks_of (plain_signature signature.now) ≡ 0 ∷ 1 ∷ 2 ∷ [] }
    requires sorts { sorts_of (plain_signature signature.now) ≡ [] }
    ensures { IfOk result (λ tree. HasType (plain_signature signature.now) (relabel label_meaning tree)) }
{
    let _ = &signature.name;
    let mut tree = Tree::new(0, Label::new(Vec::new(alloc)), Vec::new(alloc));
    'levels: for _ in 0..levels {
        let mut children = Vec::new(alloc);
        children.push(tree)?;
        tree = Tree::new(1, Label::new(Vec::new(alloc)), children);
    }
    Ok(tree)
}

#[test]
fn prints_a_deep_tree(rt: HostRuntime) -> Result<(), Fail> {
    let signature = signature(rt.alloc(), Vec::new(rt.alloc()))?;
    let tree = tower(rt.alloc(), &signature, 1999)?;
    let text = print_tree(rt.alloc(), &tree, &signature)?;
    assert!(rt; tree.depth_up_to(2000) == Some(2000));
    assert!(rt; text.starts_with(b"(s [] (s [] "));
    assert!(rt; text.len() == 1999 * 7 + 6);
    Ok(())
}

#[test]
fn prints_children(rt: HostRuntime) -> Result<(), Fail> {
    let signature = signature(rt.alloc(), Vec::new(rt.alloc()))?;
    let mut children = Vec::new(rt.alloc());
    children.push(tower(rt.alloc(), &signature, 0)?)?;
    children.push(tower(rt.alloc(), &signature, 1)?)?;
    let tree = Tree::new(2, Label::new(Vec::new(rt.alloc())), children);
    let text = print_tree(rt.alloc(), &tree, &signature)?;
    assert!(rt; text.as_slice() == b"(n [] (l []) (s [] (l [])))".as_slice());
    Ok(())
}

#[test]
fn prints_a_truth_value(rt: HostRuntime) -> Result<(), Fail> {
    let mut fields = Vec::new(rt.alloc());
    fields.push(field(rt.alloc(), "flag", Sort::Bool)?)?;
    let signature = signature(rt.alloc(), fields)?;
    let mut values = Vec::new(rt.alloc());
    values.push(Value::Bool(false))?;
    let tree = Tree::new(0, Label::new(values), Vec::new(rt.alloc()));
    let text = print_tree(rt.alloc(), &tree, &signature)?;
    assert!(rt; text.as_slice() == b"(l [false])".as_slice());
    Ok(())
}

#[test]
fn prints_values(rt: HostRuntime) -> Result<(), Fail> {
    let mut fields = Vec::new(rt.alloc());
    fields.push(field(rt.alloc(), "number", Sort::Int)?)?;
    fields.push(field(rt.alloc(), "word", Sort::Text)?)?;
    let signature = signature(rt.alloc(), fields)?;
    for (number, word, want) in [
        (0, "", "(l [0, \"\"])"),
        (
            i64::MIN,
            "a\u{e9}",
            "(l [-9223372036854775808, \"a\u{e9}\"])",
        ),
        (7, "\"\\\n\t", "(l [7, \"\\\"\\\\\\n\\t\"])"),
        (
            -7,
            "\u{0}\u{1f}\u{7f}",
            "(l [-7, \"\\u{0}\\u{1f}\\u{7f}\"])",
        ),
    ] {
        let mut values = Vec::new(rt.alloc());
        values.push(Value::Int(number))?;
        values.push(Value::Text(Text::of(rt.alloc(), word)?))?;
        let tree = Tree::new(0, Label::new(values), Vec::new(rt.alloc()));
        let text = print_tree(rt.alloc(), &tree, &signature)?;
        assert!(rt; text.as_slice() == want.as_bytes());
    }
    Ok(())
}

/// A label with a number, a truth value and a text.
fn label(alloc: Global, number: i64, truth: bool, word: &str) -> Result<Label, Memory> {
    let mut values = Vec::new(alloc);
    values.push(Value::Int(number))?;
    values.push(Value::Bool(truth))?;
    values.push(Value::Text(Text::of(alloc, word)?))?;
    Ok(Label::new(values))
}

#[test]
fn copies_trees(rt: HostRuntime) -> Result<(), Fail> {
    let mut children = Vec::new(rt.alloc());
    children.push(Tree::new(0, label(rt.alloc(), 1, true, "a")?, Vec::new(rt.alloc())))?;
    let tree = Tree::new(1, label(rt.alloc(), -1, false, "b")?, children);
    let copy = tree.copy(rt.alloc())?;
    assert!(rt; copy.compare(&tree) == Ordering::Equal);
    assert!(rt; matches!(copy.label().values().first(), Some(Value::Int(-1))));
    assert!(rt; copy.nodes_up_to(2) == Some(2));
    assert!(rt; copy.nodes_up_to(1) == None);
    Ok(())
}

#[test]
fn orders_labels(rt: HostRuntime) -> Result<(), Fail> {
    let least = label(rt.alloc(), 0, false, "a")?;
    for (number, truth, word) in [
        (0, false, "ab"),
        (0, false, "b"),
        (0, true, ""),
        (1, false, ""),
    ] {
        let other = label(rt.alloc(), number, truth, word)?;
        assert!(rt; least < other);
    }
    let mut values = Vec::new(rt.alloc());
    values.push(Value::Int(0))?;
    let front = Label::new(values);
    assert!(rt; front < least);
    assert!(rt; Value::Int(1) < Value::Bool(false));
    assert!(rt; Value::Bool(true) < Value::Text(Text::of(rt.alloc(), "")?));
    Ok(())
}
