//! How deep parentheses are nested, counted on tokens alone.

ghost use Rattle.std.specs.Prelude.{◌≡◌, ◌+◌, ◌<◌, ◌≤◌, ◌^◌, ◌∷◌, [], List, map, IfOk};
ghost use Rattle.model_tree.specs.Limits.{most_open, most_open_in_labels};
ghost use Rattle.model_program.specs.declared.Word.TheVariants.{RoundOpen};
ghost use Rattle.model_grammar.specs.Nesting.{Mark, round, square, part, item, close_round, close_square, marked, limit, passes, nested_at};
ghost use Rattle.fast_lex.specs.Tokens.{lexeme};
ghost use Rattle.text_reader.specs.Counts.{Counts};

use fast_fault::{Memory, Pos};
use fast_lex::{Token, Word};
use std::alloc::Global;

/// How many parentheses may be nested in labels, guards and output terms.
const INNER: usize = 64;

/// How many may be nested elsewhere.
const OUTER: usize = 2000;

/// From these counts the level of the next `(` is known in one step, whatever was opened before.
#[derive(Drop)]
pub(crate) struct Levels {
    /// The limit outside of each open `[`.
    limit: usize,
    /// How many `(` are open since the last `where`, `to` or item.
    rounds: usize,
    /// How many of these stand before the last open `[`.
    floor: usize,
    /// The floors outside of the open `[`, which sink with the later ones.
    hidden: Vec<usize>,
}

fn outside(alloc: Global, limit: usize) -> Levels
    ensures items { limit ≡ most_open → (marks : List Mark) → Counts result (item ∷ marks) }
    ensures parts { limit ≡ most_open_in_labels → (marks : List Mark) → Counts result (part ∷ marks) }
    ensures starts { limit ≡ most_open → Counts result [] }
    ensures none { result.rounds ≡ 0 }
{
    Levels {
        limit,
        rounds: 0,
        floor: 0,
        hidden: Vec::new(alloc),
    }
}

/// The limit where the next token stands.
fn limit_here(levels: &Levels) -> usize
    ensures { (marks : List Mark) → Counts levels.now marks → result ≡ limit marks }
{
    if levels.hidden.is_empty() {
        levels.limit
    } else {
        INNER
    }
}

/// Whether one more `(` passes its limit.
fn is_full(levels: &Levels) -> bool
    ensures { (marks : List Mark) → Counts levels.now marks → result ≡ passes RoundOpen marks }
{
    levels.rounds.saturating_sub(levels.floor) >= limit_here(levels)
}

/// Whether the token passes its limit.
fn passes(levels: &Levels, word: Word) -> bool
    ensures { (marks : List Mark) → Counts levels.now marks → result ≡ passes word marks }
{
    match word {
        Word::RoundOpen => is_full(levels),
        _ => false,
    }
}

fn open_round(levels: Levels) -> Levels
    requires { levels.rounds < 2 ^ 63 }
    ensures counts { (marks : List Mark) → Counts levels marks → Counts result (round ∷ marks) }
    ensures bound { result.rounds ≤ levels.rounds + 1 }
{
    let mut all = levels;
    all.rounds += 1;
    all
}

fn close_round(levels: Levels) -> Levels
    ensures counts { (marks : List Mark) → Counts levels marks → Counts result (close_round marks) }
    ensures bound { result.rounds ≤ levels.rounds }
{
    let mut all = levels;
    all.rounds = all.rounds.saturating_sub(1);
    all.floor = all.floor.min(all.rounds);
    all
}

fn open_square(levels: Levels) -> Result<Levels, Memory>
    ensures counts { IfOk result (λ all. (marks : List Mark) → Counts levels marks → Counts all (square ∷ marks)) }
    ensures bound { IfOk result (λ all. all.rounds ≤ levels.rounds) }
{
    let mut all = levels;
    let floor = all.floor;
    all.hidden.push(floor)?;
    all.floor = all.rounds;
    Ok(all)
}

fn close_square(levels: Levels) -> Levels
    ensures counts { (marks : List Mark) → Counts levels marks → Counts result (close_square marks) }
    ensures bound { result.rounds ≤ levels.rounds }
{
    let mut all = levels;
    if let Some(below) = all.hidden.pop() {
        all.floor = all.floor.min(below);
    }
    all
}

/// The counts behind a token.
fn behind(alloc: Global, levels: Levels, word: Word) -> Result<Levels, Memory>
    requires { levels.rounds < 2 ^ 63 }
    ensures counts { IfOk result (λ all. (marks : List Mark) → Counts levels marks → Counts all (marked word marks)) }
    ensures bound { IfOk result (λ all. all.rounds ≤ levels.rounds + 1) }
{
    match word {
        Word::RoundOpen => Ok(open_round(levels)),
        Word::RoundClose => Ok(close_round(levels)),
        Word::SquareOpen => open_square(levels),
        Word::SquareClose => Ok(close_square(levels)),
        Word::Where | Word::To => Ok(outside(alloc, INNER)),
        Word::TypeWord
        | Word::Tree
        | Word::Lang
        | Word::Trans
        | Word::Def
        | Word::AssertTrue
        | Word::AssertFalse => Ok(outside(alloc, OUTER)),
        _ => Ok(levels),
    }
}

/// The place of the first `(` that passes its limit.
pub fn nested(alloc: Global, tokens: &[Token]) -> Result<Option<Pos>, Memory>
    ensures { IfOk result (λ place. place ≡ nested_at (map lexeme tokens.now)) }
{
    let mut levels = outside(alloc, OUTER);
    for token in tokens {
        if passes(&levels, token.word) {
            return Ok(Some(token.place));
        }
        levels = behind(alloc, levels, token.word)?;
    }
    Ok(None)
}
