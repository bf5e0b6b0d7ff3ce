//! What fails in the trees of a file.

ghost use Rattle.std.specs.Prelude.{◌≡◌, map, length};
ghost use Rattle.fast_syntax.specs.View.{plain_name};
ghost use Rattle.model_grammar.specs.TreeFiles.{trees_of};
ghost use Rattle.model_checks.specs.Failures.{first_among};
ghost use Rattle.model_run.specs.Texts.{tree_failures, trees_failures};
ghost use Rattle.tree_reader.specs.Plain.{plain_tree};
ghost use Rattle.tree_files.specs.Types.{plain_type, IsNumbered};
ghost use Rattle.tree_files.specs.Heads.{name_failures, count_failures};

use crate::first::first_with;
use crate::labels::first_of_labels;
use crate::types::TreeType;
use fast_fault::{Code, Refusal};
use fast_syntax::Name;
use tree_reader::FileTree;

/// The first failing condition, once the constructor's name is looked at, over so many children.
fn first_of_name(
    known: Option<Refusal>,
    of: &TreeType,
    name: &Name,
    children: usize,
) -> Option<Refusal>
    requires { IsNumbered of.now }
    ensures { result ≡ first_among known (name_failures (plain_type of.now) (plain_name name.now) children) }
{
    match of.number(&name.text) {
        Some(number) => {
            let fits = of.rank(number) as usize == children;
            first_with(known, !fits, Code::WrongRank, name.place)
        }
        None => first_with(known, true, Code::UnknownName, name.place),
    }
}

/// The first failing condition, once the number of labels is looked at.
fn first_of_count(
    known: Option<Refusal>,
    of: &TreeType,
    name: &Name,
    labels: usize,
) -> Option<Refusal>
    ensures { result ≡ first_among known (count_failures (plain_type of.now) (plain_name name.now) labels) }
{
    let fits = of.signature.fields.len() == labels;
    first_with(known, !fits, Code::WrongRank, name.place)
}

/// The first failing condition, once a tree is looked at.
#[cycle(trees)]
fn first_of_tree(known: Option<Refusal>, of: &TreeType, tree: &FileTree) -> Option<Refusal>
    requires { IsNumbered of.now }
    ensures { result ≡ first_among known (tree_failures (plain_type of.now) (plain_tree tree.now)) }
{
    let named = first_of_name(known, of, &tree.name, tree.children.len());
    let counted = first_of_count(named, of, &tree.name, tree.labels.len());
    let labelled = first_of_labels(counted, &of.signature.fields, &tree.labels);
    first_of_trees(labelled, of, &tree.children)
}

/// The first failing condition, once all these trees are looked at.
#[cycle(trees)]
pub(crate) fn first_of_trees(
    known: Option<Refusal>,
    of: &TreeType,
    trees: &[FileTree],
) -> Option<Refusal>
    requires { IsNumbered of.now }
    ensures { result ≡ first_among known (trees_failures (plain_type of.now) (trees_of (map plain_tree trees.now))) }
{
    let mut first = known;
    'trees: for tree in trees {
        first = first_of_tree(first, of, tree);
    }
    first
}
