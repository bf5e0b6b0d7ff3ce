//! The children of literals that are still to be checked. They stand in a list, so deep literals take no stack.

ghost use Rattle.std.specs.Prelude.{◌≡◌, ◌++◌, ◌∷◌, [], MatchOption, MatchResult};
ghost use Rattle.program_check.specs.Waiting.{those_of};

use fast_fault::Memory;
use fast_syntax::items::X;
use std::alloc::Global;

/// A row of children, and rows behind it, of which the last goes first.
#[derive(Drop)]
pub(crate) struct Waiting<'x> {
    row: &'x [X],
    rows: Vec<&'x [X]>,
}

impl<'x> Waiting<'x> {
    pub(crate) fn new(alloc: Global, children: &'x [X]) -> Waiting<'x>
        ensures { those_of result ≡ children.now }
    {
        Waiting {
            row: children,
            rows: Vec::new(alloc),
        }
    }

    /// These children go before the others.
    pub(crate) fn add(&mut self, children: &'x [X]) -> Result<(), Memory>
        ensures { MatchResult result (λ _. those_of self.new ≡ children.now ++ those_of self.old) (λ _. those_of self.new ≡ those_of self.old) }
    {
        self.rows.push(self.row)?;
        self.row = children;
        Ok(())
    }

    /// Takes the next child.
    pub(crate) fn next(&mut self) -> Option<&'x X>
        ensures { MatchOption result (those_of self.old ≡ []) (λ x. those_of self.old ≡ x.now ∷ those_of self.new) }
    {
        'rows: loop {
            if let Some((first, rest)) = self.row.split_first() {
                self.row = rest;
                return Some(first);
            }
            let Some(row) = self.rows.pop() else {
                return None;
            };
            self.row = row;
        }
    }
}
