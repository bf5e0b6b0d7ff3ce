//! Trees, and whole files of them.
//!
//! Nothing here calls itself: the stack that is needed doesn't grow with a tree.

ghost use Rattle.std.specs.Prelude.{◌≡◌, ◌<◌, map, [], List, length, IfOk};
ghost use Rattle.read_forms.specs.Reads.{closed, anything};
ghost use Rattle.model_grammar.specs.TreeFiles.{IsTree, IsTreeFile};
ghost use Rattle.model_grammar.specs.TreeFiles as plain;
ghost use Rattle.model_grammar.specs.Wrong.{IsFirstWrong};
ghost use Rattle.label_reader.specs.Results.{lexemes, left, Reads, IfWrong};
ghost use Rattle.tree_reader.specs.Plain.{plain_tree};
ghost use Rattle.tree_reader.specs.Growing.{node_of, Opens};

use crate::constants::read_constants;
use crate::{Constant, FileTree};
use fast_fault::Pos;
use fast_lex::{Token, Word};
use fast_syntax::Name;
use label_reader::{ReadTokensStop, Reader, Stop, kept};
use std::alloc::Global;

/// A tree whose closing parenthesis hasn't been read, with the children that have been.
#[derive(Drop)]
struct OpenTree {
    place: Pos,
    name: Name,
    labels: Vec<Constant>,
    children: Vec<FileTree>,
}

/// What stands before the children of a tree.
fn open_tree(reader: &mut Reader) -> Result<OpenTree, Stop>
    ensures opens { Opens (left reader.old) (left reader.new) result }
    ensures shorter { IfOk result (λ _. length (left reader.new) < length (left reader.old)) }
{
    let Some(left) = reader.peek_if(Word::RoundOpen) else {
        return Err(Stop::Wrong);
    };
    reader.advance();
    let name = reader.name()?;
    let (name, labels) = kept(name, read_constants(reader))?;
    let (place, children) = (left.place, Vec::new(reader.alloc));
    Ok(OpenTree {
        place,
        name,
        labels,
        children,
    })
}

fn close_tree(begun: OpenTree) -> FileTree
    ensures { plain_tree result ≡ node_of begun (map plain_tree begun.children.items) }
{
    let OpenTree {
        place,
        name,
        labels,
        children,
    } = begun;
    FileTree {
        place,
        name,
        labels,
        children,
    }
}

/// The open nodes around the one that is read stand in a list, so a deep tree takes no stack.
fn read_tree(reader: &mut Reader) -> Result<FileTree, Stop>
    ensures { Reads IsTree closed (left reader.old) (left reader.new) plain_tree result }
{
    let mut here = open_tree(reader)?;
    let mut around = Vec::new(reader.alloc);
    'nodes: loop {
        if !reader.is_next(Word::RoundClose) {
            around.push(here)?;
            here = open_tree(reader)?;
            continue;
        }
        reader.advance();
        let tree = close_tree(here);
        let Some(outer) = around.pop() else {
            return Ok(tree);
        };
        here = outer;
        here.children.push(tree)?;
    }
}

/// Trees up to the end of the tokens.
fn read_file(reader: &mut Reader) -> Result<Vec<FileTree>, Stop>
    ensures read { Reads IsTreeFile anything (left reader.old) (left reader.new) (λ v. map plain_tree v.items) result }
    ensures whole { IfOk result (λ _. left reader.new ≡ []) }
{
    let mut all = Vec::new(reader.alloc);
    'items: while reader.count_left() > 0 {
        let (so_far, next) = kept(all, read_tree(reader))?;
        all = so_far;
        all.push(next)?;
    }
    Ok(all)
}

/// The trees that the tokens spell.
pub fn read_trees<'t>(
    alloc: Global,
    tokens: &'t [Token<'t>],
) -> Result<Vec<FileTree>, ReadTokensStop>
    // What is read is spelled so.
    ensures found { IfOk result (λ trees. IsTreeFile (map plain_tree trees.items) (lexemes tokens.now)) }
    // The tokens spell no other trees.
    ensures only { IfOk result (λ trees. (other : List plain.FileTree) → IsTreeFile other (lexemes tokens.now) → other ≡ map plain_tree trees.items) }
    // Where they spell none, the first wrong token is told.
    ensures refused { IfWrong result (IsFirstWrong IsTreeFile (lexemes tokens.now)) }
{
    let mut reader = Reader::new(alloc, tokens);
    match read_file(&mut reader) {
        Ok(trees) => Ok(trees),
        Err(Stop::Memory) => Err(ReadTokensStop::Memory),
        Err(Stop::Wrong) => Err(ReadTokensStop::Wrong(tokens.len() - reader.count_left())),
    }
}
