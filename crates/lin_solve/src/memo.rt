//! What was found of earlier literals: values at which some held, and literals that hold nowhere. Splits of overlapping
//! lists of formulas ask for the same conjunctions, and for longer ones, many times.
//!
//! No clause knows what a cell holds, and nothing rests on it but what its types say: values are tried before they are an
//! answer, and literals that were refuted carry that they hold nowhere.

ghost use Rattle.std.specs.Prelude.{◌≡◌, IfOk, IfSome, IsTrue, length};
ghost use Rattle.label_core.specs.Atoms.{has_equal};
ghost use Rattle.model_chain.specs.Literals.{HoldsAll};
ghost use Rattle.lin_solve.specs.Kept.{is_same};
ghost use Rattle.lin_solve.specs.Plain.{plain_literals};
ghost use Rattle.lin_solve.specs.Sought.{NeverHoldAll, TellsSought};

use crate::columns::Lists;
use crate::compare::{Compare, Relation};
use crate::found::Sought;
use crate::guess::all_hold;
use crate::repeats::{copy_literal, is_same};
use fast_fault::{LabelInt, Memory};
use label_core::Lit;
use std::alloc::Global;
use std::cell::RefCell;

// How many lists of literals are kept.
const MOST_REFUTED: usize = 4096;

// How many are kept before fewer literals are sought that are refuted: that takes longer than it saves where few questions
// are asked.
const FEW_REFUTED: usize = 128;

// Where forms are looked at to tell literals apart: equal ones have equal values there, and others hardly ever.
const POINT: [LabelInt; 8] = [
    7919,
    104_729,
    -1_299_709,
    15_485_863,
    -611_953,
    2_750_159,
    -32_452_843,
    86_028_121,
];

// The lower half of the number without its sign.
fn low_bits(number: i128) -> u64 {
    (number.unsigned_abs() % 0x1_0000_0000_0000_0000) as u64
}

// A number that equal literals share.
fn mark(literal: &Lit<Compare>) -> u64 {
    let relation = match literal.atom.relation {
        Relation::Less => 2,
        Relation::AtMost => 4,
        Relation::Equal => 6,
    };
    let left = low_bits(literal.atom.left.eval(&POINT));
    let right = low_bits(literal.atom.right.eval(&POINT));
    let both = left.wrapping_mul(0x9e37_79b9_7f4a_7c15) ^ right.rotate_left(29);
    both.wrapping_add(relation + literal.sign as u64)
        .wrapping_mul(0xd6e8_feb8_6659_fd93)
}

// Literals with their marks, and a set of 64 into which each mark falls.
#[derive(Drop)]
struct Marked<'l> {
    literals: &'l [Lit<Compare>],
    marks: Vec<u64>,
    all: u64,
}

fn with_marks(alloc: Global, literals: &[Lit<Compare>]) -> Result<Marked<'_>, Memory>
    ensures { IfOk result (λ own. own.literals.now ≡ literals.now) }
{
    let mut marks = Vec::new(alloc);
    let mut all = 0;
    for literal in literals {
        let own = mark(literal);
        all |= 1u64.wrapping_shl((own >> 58) as u32);
        marks.push(own)?;
    }
    Ok(Marked {
        literals,
        marks,
        all,
    })
}

impl Marked<'_> {
    // Whether the literal, which has this mark, is one of them.
    fn has(&self, literal: &Lit<Compare>, mark: u64) -> bool
        ensures { IsTrue result → IsTrue (has_equal (is_same ⟦<Compare as PartialEq>⟧.eq) self.now.literals.now literal.now) }
    {
        for i in 0..self.literals.len() {
            if self.marks.get(i).copied() == Some(mark) && is_same(literal, &self.literals[i]) {
                return true;
            }
        }
        false
    }
}

// Literals that hold nowhere.
#[derive(Drop)]
struct Refuted {
    literals: Vec<Lit<Compare>>,
    marks: Vec<u64>,
    all: u64,
    ghost never: { NeverHoldAll (plain_literals literals.items) },
}

/// Equal literals.
pub(crate) fn copies(alloc: Global, literals: &[Lit<Compare>]) -> Result<Vec<Lit<Compare>>, Memory>
    ensures { IfOk result (λ made. made.items ≡ literals.now) }
{
    let mut made = Vec::new(alloc);
    for literal in literals {
        made.push(copy_literal(alloc, literal)?)?;
    }
    Ok(made)
}

impl Refuted {
    fn new(alloc: Global, literals: &[Lit<Compare>]) -> Result<Refuted, Memory>
        requires { NeverHoldAll (plain_literals literals.now) }
    {
        let Marked { marks, all, .. } = with_marks(alloc, literals)?;
        Ok(Refuted {
            literals: copies(alloc, literals)?,
            marks,
            all,
        })
    }

    // Whether each of them is one of these.
    fn is_among(&self, others: &Marked<'_>) -> bool
        ensures { IsTrue result → NeverHoldAll (plain_literals others.now.literals.now) }
    {
        if self.all & !others.all != 0 {
            return false;
        }
        for i in 0..self.literals.len() {
            let mark = self.marks.get(i).copied().unwrap_or(0);
            if !others.has(&self.literals[i], mark) {
                return false;
            }
        }
        true
    }
}

// What is kept.
#[derive(Drop)]
struct Known {
    lists: Lists,
    refuted: Vec<Refuted>,
}

impl Known {
    // Values at which the literals hold.
    fn values_for(
        &mut self,
        alloc: Global,
        marked: &Marked<'_>,
    ) -> Result<Option<Vec<LabelInt>>, Memory>
        ensures { IfOk result (λ found. IfSome found (λ vs. (length vs.items ≡ 8) × HoldsAll (plain_literals marked.now.literals.now) vs.items)) }
    {
        let Some(values) = self.lists.for_all(marked.literals, &marked.marks) else {
            return Ok(None);
        };
        if !all_hold(marked.literals, &values) {
            return Ok(None);
        }
        Ok(Some(Vec::from_slice(alloc, &values)?))
    }

    // Whether some that hold nowhere are among the literals.
    fn refutes(&self, marked: &Marked<'_>) -> bool
        ensures { IsTrue result → NeverHoldAll (plain_literals marked.now.literals.now) }
    {
        for refuted in &self.refuted {
            if refuted.is_among(marked) {
                return true;
            }
        }
        false
    }

    fn told(&mut self, alloc: Global, literals: &[Lit<Compare>]) -> Result<Sought, Memory>
        ensures { IfOk result (TellsSought (plain_literals literals.now)) }
    {
        let marked = with_marks(alloc, literals)?;
        if let Some(values) = self.values_for(alloc, &marked)? {
            return Ok(Sought::Values(values));
        }
        if self.refutes(&marked) {
            return Ok(Sought::Never);
        }
        Ok(Sought::Open)
    }

    fn breaking(&mut self, alloc: Global, literals: &[Lit<Compare>]) -> Result<Vec<usize>, Memory> {
        if self.refuted.len() < FEW_REFUTED {
            return Ok(Vec::new(alloc));
        }
        let marked = with_marks(alloc, literals)?;
        self.lists.breaking(alloc, literals, &marked.marks)
    }

    fn keep_refuted(&mut self, alloc: Global, literals: &[Lit<Compare>]) -> Result<(), Memory>
        requires { NeverHoldAll (plain_literals literals.now) }
    {
        if self.refuted.len() < MOST_REFUTED {
            self.refuted.push(Refuted::new(alloc, literals)?)?;
        }
        Ok(())
    }
}

/// What was found of literals so far, for answers to later ones. It keeps 1,024 lists of values and 4,096 of literals.
#[derive(Drop)]
pub struct Memo {
    known: RefCell<Known>,
}

impl Memo {
    /// Nothing is known.
    pub fn new(alloc: Global) -> Memo {
        Memo {
            known: RefCell::new(Known {
                lists: Lists::new(alloc),
                refuted: Vec::new(alloc),
            }),
        }
    }

    /// What follows for the literals from what is kept.
    pub(crate) fn told(&self, alloc: Global, literals: &[Lit<Compare>]) -> Result<Sought, Memory>
        ensures { IfOk result (TellsSought (plain_literals literals.now)) }
    {
        match self.known.try_borrow_mut() {
            Ok(mut known) => known.told(alloc, literals),
            Err(_) => Ok(Sought::Open),
        }
    }

    /// Of the values that are kept those at which the most literals hold; else all are 0.
    pub(crate) fn nearest(
        &self,
        alloc: Global,
        literals: &[Lit<Compare>],
    ) -> Result<[LabelInt; 8], Memory> {
        let marked = with_marks(alloc, literals)?;
        let found = match self.known.try_borrow_mut() {
            Ok(mut known) => known.lists.nearest(literals, &marked.marks),
            Err(_) => None,
        };
        Ok(found.unwrap_or([0; 8]))
    }

    /// Places of literals: at each list of values that is kept one of these doesn't hold. None, while few are refuted.
    pub(crate) fn breaking(
        &self,
        alloc: Global,
        literals: &[Lit<Compare>],
    ) -> Result<Vec<usize>, Memory> {
        match self.known.try_borrow_mut() {
            Ok(mut known) => known.breaking(alloc, literals),
            Err(_) => Ok(Vec::new(alloc)),
        }
    }

    /// Keeps values that were found.
    pub(crate) fn keep_values(&self, alloc: Global, values: &[LabelInt]) -> Result<(), Memory> {
        let mut own = [0; 8];
        for i in 0..8 {
            own[i] = values.get(i).copied().unwrap_or(0);
        }
        match self.known.try_borrow_mut() {
            Ok(mut known) => known.lists.keep(alloc, own),
            Err(_) => Ok(()),
        }
    }

    /// Keeps that the literals hold nowhere.
    pub(crate) fn keep_refuted(
        &self,
        alloc: Global,
        literals: &[Lit<Compare>],
    ) -> Result<(), Memory>
        requires { NeverHoldAll (plain_literals literals.now) }
    {
        match self.known.try_borrow_mut() {
            Ok(mut known) => known.keep_refuted(alloc, literals),
            Err(_) => Ok(()),
        }
    }
}
