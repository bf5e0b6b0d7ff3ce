//! The tokens of a text, and how many of them are read: each call takes the token that it asks for, or refuses the one that
//! comes next.

ghost use Rattle.std.specs.Prelude.{◌≡◌, ◌∷◌, [], true, false, length, MatchOption};
ghost use Rattle.model_program.specs.Joined.{IsNext, IsOther};
ghost use Rattle.read_forms.specs.Reads.{closed};
ghost use Rattle.model_program.specs.Grammar.{IsSign, IsName};
ghost use Rattle.fast_lex.specs.Tokens.{lexeme};
ghost use Rattle.label_reader.specs.Results.{lexemes, left, behind, Reads};
ghost use Rattle.fast_syntax.specs.View.{plain_name};

use crate::Stop;
use fast_lex::{Token, Word};
use fast_syntax::{Name, Text};
use std::alloc::Global;

/// Tokens, and how many of them are read.
#[derive(Clone, Copy)]
pub struct Reader<'t> {
    pub(crate) tokens: &'t [Token<'t>],
    pub(crate) place: usize,
    pub alloc: Global,
}

pub fn is_same(a: Word, b: Word) -> bool
    ensures yes { result ≡ true → a ≡ b }
    ensures no { result ≡ false → a ≡ b → ⊥ }
{
    a == b
}

impl<'t> Reader<'t> {
    pub fn new(alloc: Global, tokens: &'t [Token<'t>]) -> Reader<'t>
        ensures { left result ≡ lexemes tokens.now }
    {
        Reader {
            tokens,
            place: 0,
            alloc,
        }
    }

    /// How many tokens are left.
    pub fn count_left(&self) -> usize
        ensures { result ≡ length (left self.now) }
    {
        self.tokens.len().saturating_sub(self.place)
    }

    /// The next token.
    pub fn peek(&self) -> Option<Token<'t>>
        ensures { MatchOption result (left self.now ≡ []) (λ t. left self.now ≡ lexeme t ∷ behind self.now) }
    {
        if self.place < self.tokens.len() {
            Some(self.tokens[self.place])
        } else {
            None
        }
    }

    /// The next token is read, where there is one.
    pub fn advance(&mut self)
        ensures { left self.new ≡ behind self.old }
    {
        if self.place < self.tokens.len() {
            self.place += 1;
        }
    }

    /// Whether the next token is the word.
    pub fn is_next(&self, word: Word) -> bool
        ensures yes { result ≡ true → IsNext word (left self.now) }
        ensures no { result ≡ false → IsOther word (left self.now) }
    {
        match self.peek() {
            Some(token) => is_same(token.word, word),
            None => false,
        }
    }

    /// The next token, where it is the word.
    pub fn peek_if(&self, word: Word) -> Option<Token<'t>>
        ensures { MatchOption result (IsOther word (left self.now)) (λ t. (left self.now ≡ lexeme t ∷ behind self.now) × (t.word ≡ word)) }
    {
        match self.peek() {
            Some(token) => {
                if is_same(token.word, word) {
                    Some(token)
                } else {
                    None
                }
            }
            None => None,
        }
    }

    pub fn sign(&mut self, word: Word) -> Result<(), Stop>
        ensures { Reads (IsSign word) closed (left self.old) (left self.new) (λ _. tt) result }
    {
        if !self.is_next(word) {
            return Err(Stop::Wrong);
        }
        self.advance();
        Ok(())
    }

    pub fn name(&mut self) -> Result<Name, Stop>
        ensures { Reads IsName closed (left self.old) (left self.new) plain_name result }
    {
        let Some(id) = self.peek_if(Word::Id) else {
            return Err(Stop::Wrong);
        };
        self.advance();
        let text = Text::of(self.alloc, id.text)?;
        let place = id.place;
        Ok(Name { text, place })
    }
}
