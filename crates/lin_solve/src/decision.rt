//! The decision.

ghost use Rattle.std.specs.Prelude.{◌≡◌, ◌<◌, ◌^◌, ◌++◌, [], IfOk, IfSome, Bool, false, vec_items, length};
ghost use Rattle.model_chain.specs.Literals.{AreLiteralsOver, HoldsAll, count_sides};
ghost use Rattle.model_chain.specs.Chains.{first_system, count_variables};
ghost use Rattle.cooper_solve.specs.Told.{IsFarOff, puts_of};
ghost use Rattle.lin_solve.specs.Plain.{plain_literals, AreTheirs};
ghost use Rattle.lin_solve.specs.Shown.{Answers};
ghost use Rattle.lin_solve.specs.Kept.{AreKept};
ghost use Rattle.lin_solve.specs.Sought.{TellsSought};

use crate::apart::seek_apart;
use crate::branches::{MANY_BRANCHES, seek_branches};
use crate::cases::seek_cases;
use crate::chain::{Chain, Width, chain_of};
use crate::compare::Compare;
use crate::cores::core_of;
use crate::found::Sought;
use crate::gaps::is_clear_clash;
use crate::guess::guess;
use crate::memo::Memo;
use crate::mend::mend;
use crate::near::{moved_fields, seek_near};
use crate::numbering::{Remainder, remainders_of};
use crate::over::are_over;
use crate::repeats::{are_different, once, sided_stand_last};
use crate::system::{needs_side, step_on};
use crate::tried::{Stuck, Tried, try_sides};
use fast_fault::{LabelInt, Memory};
use label_core::{Lit, Verdict};
use std::alloc::Global;

// How many literals are negated equalities.
fn count_needed(literals: &[Lit<Compare>]) -> usize
    ensures { result ≡ count_sides (plain_literals literals.now) }
{
    let mut count = 0;
    for literal in literals {
        count = step_on(count, needs_side(literal));
    }
    count
}

// Where a chain of the literals is far.
fn decide_bounded(
    alloc: Global,
    literals: &[Lit<Compare>],
    known: &[Remainder],
    count: usize,
    far: &Stuck,
) -> Result<Verdict<Vec<LabelInt>, Chain>, Memory>
    requires known { AreTheirs literals.now known.now }
    requires over { AreLiteralsOver 8 (plain_literals literals.now) }
    requires count { count ≡ count_sides (plain_literals literals.now) }
    requires sides { length far.now.sides.items ≡ count }
    requires far { IsFarOff (count_variables (plain_literals literals.now)) (first_system (plain_literals literals.now) false far.now.sides.items) (puts_of far.now.puts.items) }
    ensures { IfOk result (Answers (λ ls. ls ≡ literals.now) vec_items literals.now) }
{
    let none = Vec::new(alloc);
    match try_sides(alloc, literals, known, true, &none, count)? {
        Tried::Solved(values) => Ok(Verdict::Sat(values)),
        Tried::Wide(wide) => Ok(Verdict::Wide(chain_of(
            alloc,
            literals,
            Width::BoundedNumber,
            &wide,
        )?)),
        Tried::Unsat => Ok(Verdict::Wide(chain_of(alloc, literals, Width::Solution, far)?)),
        // A bounded system has no such solution.
        Tried::Far(_far) => unreachable!(),
    }
}

// Decides them all, in the order in which they are given.
fn decide_all(
    alloc: Global,
    literals: &[Lit<Compare>],
) -> Result<Verdict<Vec<LabelInt>, Chain>, Memory>
    ensures { IfOk result (Answers (λ ls. ls ≡ literals.now) vec_items literals.now) }
{
    are_over(literals);
    let known = remainders_of(alloc, literals)?;
    let count = count_needed(literals);
    let none = Vec::new(alloc);
    match try_sides(alloc, literals, &known, false, &none, count)? {
        Tried::Solved(values) => Ok(Verdict::Sat(values)),
        Tried::Wide(wide) => Ok(Verdict::Wide(chain_of(alloc, literals, Width::Number, &wide)?)),
        Tried::Unsat => Ok(Verdict::Unsat),
        Tried::Far(far) => decide_bounded(alloc, literals, &known, count, &far),
    }
}

// What is tried before Cooper's method: values near 0, and more branches.
fn seek_at_last(alloc: Global, literals: &[Lit<Compare>]) -> Result<Sought, Memory>
    ensures { IfOk result (TellsSought (plain_literals literals.now)) }
{
    match seek_near(alloc, literals)? {
        Some(values) => Ok(Sought::Values(values)),
        None => seek_branches(alloc, literals, MANY_BRANCHES),
    }
}

// Values at which the literals hold, if some that are kept lead to them. With one field alone cases tell sooner.
fn mend_kept(
    alloc: Global,
    memo: &Memo,
    literals: &[Lit<Compare>],
) -> Result<Option<Vec<LabelInt>>, Memory>
    ensures { IfOk result (λ found. IfSome found (λ values. (length values.items ≡ 8) × HoldsAll (plain_literals literals.now) values.items)) }
{
    let fields = moved_fields(literals, None);
    if fields & fields.wrapping_sub(1) == 0 {
        return Ok(None);
    }
    mend(alloc, literals, memo.nearest(alloc, literals)?)
}

// Decides them by all that takes more than a look at them.
fn decide_deeply(
    alloc: Global,
    memo: &Memo,
    literals: &[Lit<Compare>],
) -> Result<Verdict<Vec<LabelInt>, Chain>, Memory>
    ensures { IfOk result (Answers (AreKept ⟦<Compare as PartialEq>⟧.eq literals.now) vec_items literals.now) }
{
    if let Some(values) = guess(alloc, literals, literals.len().saturating_add(8))? {
        return Ok(Verdict::Sat(values));
    }
    if let Some(values) = mend_kept(alloc, memo, literals)? {
        return Ok(Verdict::Sat(values));
    }
    match seek_cases(alloc, literals)? {
        Sought::Values(values) => return Ok(Verdict::Sat(values)),
        Sought::Never => return Ok(Verdict::Unsat),
        Sought::Open => {}
    }
    if let Some(values) = mend(alloc, literals, [0; 8])? {
        return Ok(Verdict::Sat(values));
    }
    match seek_apart(alloc, literals)? {
        Sought::Values(values) => return Ok(Verdict::Sat(values)),
        Sought::Never => return Ok(Verdict::Unsat),
        Sought::Open => {}
    }
    match seek_at_last(alloc, literals)? {
        Sought::Values(values) => return Ok(Verdict::Sat(values)),
        Sought::Never => return Ok(Verdict::Unsat),
        Sought::Open => {}
    }
    if are_different(literals) && sided_stand_last(literals) {
        return decide_all(alloc, literals);
    }
    let kept = once(alloc, literals)?;
    decide_all(alloc, &kept)
}

// The same, and keeps what is found.
fn decide_and_keep(
    alloc: Global,
    memo: &Memo,
    literals: &[Lit<Compare>],
) -> Result<Verdict<Vec<LabelInt>, Chain>, Memory>
    ensures { IfOk result (Answers (AreKept ⟦<Compare as PartialEq>⟧.eq literals.now) vec_items literals.now) }
{
    match decide_deeply(alloc, memo, literals)? {
        Verdict::Sat(values) => {
            memo.keep_values(alloc, &values)?;
            Ok(Verdict::Sat(values))
        }
        Verdict::Unsat => {
            let core = core_of(alloc, memo, literals)?;
            memo.keep_refuted(alloc, &core)?;
            Ok(Verdict::Unsat)
        }
        Verdict::Wide(chain) => Ok(Verdict::Wide(chain)),
    }
}

/// Decides whether the literals hold at some values of the eight fields. Values that are found by trying are an answer, and so
/// is what follows from what the memo keeps, and that what they say of one form can't be; else Cooper's method tells. Its
/// chain has each of them once, negated equalities last: so sides are tried where all else is known.
pub fn decide(
    alloc: Global,
    memo: &Memo,
    literals: &[Lit<Compare>],
) -> Result<Verdict<Vec<LabelInt>, Chain>, Memory>
    ensures { IfOk result (Answers (AreKept ⟦<Compare as PartialEq>⟧.eq literals.now) vec_items literals.now) }
{
    if let Some(values) = guess(alloc, literals, 3)? {
        return Ok(Verdict::Sat(values));
    }
    match memo.told(alloc, literals)? {
        Sought::Values(values) => return Ok(Verdict::Sat(values)),
        Sought::Never => return Ok(Verdict::Unsat),
        Sought::Open => {}
    }
    if is_clear_clash(alloc, literals)? {
        return Ok(Verdict::Unsat);
    }
    decide_and_keep(alloc, memo, literals)
}
