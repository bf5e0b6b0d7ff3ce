//! The rows of signs that labels have.

ghost use Rattle.std.specs.Prelude.{◌≡◌, ◌<◌, ◌≤◌, ◌-◌, ◌+◌, ◌++◌, [], ◌∷◌, true, false, All, IsTrue, length, take, IfOk, OnOk, IfErr, MatchOption, MatchResult, Bool, cond, Ok};
ghost use Rattle.model_tree.specs.Label.{Label};
ghost use Rattle.label_core.specs.Meaning.{KeepsValue};
ghost use Rattle.label_core.specs.Verdict.{DecidesAll};
ghost use Rattle.label_split.specs.Known.{IsWithin};
ghost use Rattle.label_split.specs.Numbers.{number_holds};
ghost use Rattle.label_split.specs.Signs.{FormulasFit, signs_at};
ghost use Rattle.label_split.specs.Split.{SplitsInto, IsRow, Stops, StopsFor, HasMoreRows};
ghost use Rattle.label_split.specs.Noted.{rows_of, IsSample, AreStarted, IsFoundBy, IsStopOf, IsPassedOn, AreAdded};

use crate::numbers::number_all;
use crate::search::{Asked, holds_of, note, search};
use fast_fault::Memory;
use label_core::{Formula, Theory, Verdict, both};
use std::alloc::Global;

/// The sign of each formula, and a value of a label that gives them these signs.
#[derive(Drop)]
pub struct SignRow<V> {
    pub signs: Vec<bool>,
    pub value: V,
}

/// Why there is no list of rows.
#[derive(Drop)]
pub enum SplitStop<W> {
    TooMany,
    Wide(W),
    Memory,
}

impl<W> From<Memory> for SplitStop<W> {
    ghost use Rattle.std.specs.Prelude.{◌≡◌};
    ghost use Rattle.label_split.specs.declared.rows.SplitStop.TheVariants as stop;

    ghost from_gives = { λ _ e. e ≡ stop.Memory };

    fn from(_refused: Memory) -> SplitStop<W> {
        SplitStop::Memory
    }
}

/// The elements, and one more.
fn with_last<E: Copy + Drop>(alloc: Global, elements: &[E], last: E) -> Result<Vec<E>, Memory>
    ensures { IfOk result (λ made. made.items ≡ elements.now ++ last ∷ []) }
{
    let mut made = Vec::from_slice(alloc, elements)?;
    made.push(last)?;
    Ok(made)
}

/// A row, with the numbers of formulas that tell it from others.
#[derive(Drop)]
struct Noted<V> {
    row: SignRow<V>,
    active: Vec<usize>,
}

/// What is known of the last formula by itself with one of its signs: that no label has it, a row that some label has, or
/// nothing.
#[derive(Drop)]
enum Sample<V> {
    Nowhere,
    At(Noted<V>),
    Unknown,
}

/// The formulas, and samples for both signs of the last one.
#[derive(Drop)]
struct Sampled<'q, V> {
    formulas: &'q [Formula<usize>],
    on: Sample<V>,
    off: Sample<V>,
}

impl<V> Sampled<'_, V> {
    /// The sample for the sign.
    fn of(&self, sign: bool) -> &Sample<V>
        ensures { result.now ≡ cond sign self.now.on self.now.off }
    {
        if sign { &self.on } else { &self.off }
    }
}

/// A row with what was made for it, unless memory ran out.
fn with_notes<V: Drop, E: Drop>(
    signs: Result<Vec<bool>, Memory>,
    value: Result<V, Memory>,
    active: Result<Vec<usize>, E>,
) -> Result<Noted<V>, Memory>
    ensures { IfOk result (λ made. (signs ≡ Ok made.row.signs) × (value ≡ Ok made.row.value)) }
{
    match (signs, value, active) {
        (Ok(signs), Ok(value), Ok(active)) => {
            let row = SignRow { signs, value };
            Ok(Noted { row, active })
        }
        _ => Err(Memory),
    }
}

/// The rows of no formulas: one with the verdict's value, if there is a label.
fn started<V: Drop, W: Drop>(
    alloc: Global,
    verdict: Result<Verdict<V, W>, Memory>,
) -> Result<Vec<Noted<V>>, SplitStop<W>>
    ensures { MatchResult result (λ rows. AreStarted verdict (rows_of rows.items)) (IsStopOf verdict) }
{
    match verdict {
        Ok(Verdict::Sat(value)) => {
            let row = SignRow {
                signs: Vec::new(alloc),
                value,
            };
            let active = Vec::new(alloc);
            let mut rows = Vec::new(alloc);
            add_found(&mut rows, Some(Noted { row, active }))?;
            Ok(rows)
        }
        Ok(Verdict::Unsat) => Ok(Vec::new(alloc)),
        Ok(Verdict::Wide(chain)) => Err(SplitStop::Wide(chain)),
        Err(_want) => Err(SplitStop::Memory),
    }
}

/// The verdict on whether there is a label.
fn decide_any<T: Theory>(theory: &T, alloc: Global) -> Result<Verdict<T::Value, T::Chain>, Memory>
    ensures { IfOk result (DecidesAll (T.meaning theory.now) []) }
{
    let literals = Vec::new(alloc);
    theory.decide(alloc, &literals)
}

/// The signs of the formulas at the value's label.
fn signs_of<T: Theory>(
    theory: &T,
    alloc: Global,
    atoms: &[T::Atom],
    formulas: &[Formula<usize>],
    value: &T::Value,
) -> Result<Vec<bool>, Memory>
    requires within { All (IsWithin (length atoms.now)) formulas.now }
    requires fit { All (T.atom_fits theory.now) atoms.now }
    requires kept { KeepsValue (T.meaning theory.now) value.now }
    ensures { IfOk result (λ signs. signs.items ≡ signs_at (number_holds T.atom_holds atoms.now) formulas.now (T.label_of value.now)) }
{
    let mut signs = Vec::new(alloc);
    for formula in formulas {
        signs.push(holds_of(theory, atoms, formula, value))?;
    }
    Ok(signs)
}

/// A sample for the sign of the last formula.
fn find_sample<T: Theory>(
    theory: &T,
    alloc: Global,
    atoms: &[T::Atom],
    formulas: &[Formula<usize>],
    sign: bool,
) -> Result<Sample<T::Value>, Memory>
    requires within { All (IsWithin (length atoms.now)) formulas.now }
    requires fit { All (T.atom_fits theory.now) atoms.now }
    requires some { 0 < length formulas.now }
    ensures { IfOk result (IsSample (T.meaning theory.now) (signs_at (number_holds T.atom_holds atoms.now) formulas.now) sign) }
{
    let last = formulas.len() - 1;
    let signs = [sign];
    let asked = Asked {
        formulas: &formulas[last..],
        signs: &signs,
    };
    let mut active = vec![in alloc; 0; 1]?;
    match search(theory, alloc, atoms, &asked, &mut active) {
        Ok(Verdict::Unsat) => Ok(Sample::Nowhere),
        Ok(Verdict::Wide(_)) => Ok(Sample::Unknown),
        Ok(Verdict::Sat(value)) => {
            let signs = signs_of(theory, alloc, atoms, formulas, &value);
            let active = vec![in alloc; last; 1];
            Ok(Sample::At(with_notes(signs, Ok(value), active)?))
        }
        Err(want) => Err(want),
    }
}

/// Whether the signs are the same.
fn are_same(signs: &[bool], others: &[bool]) -> bool
    ensures { IsTrue result → signs.now ≡ others.now }
{
    if signs.len() != others.len() {
        return false;
    }
    for i in 0..signs.len() {
        if signs[i] != others[i] {
            return false;
        }
    }
    true
}

/// Adds the numbers, but for that of the last formula.
fn learn(active: &mut Vec<usize>, tried: &[usize], last: usize) -> Result<(), Memory> {
    for number in tried {
        if *number != last {
            note(active, *number)?;
        }
    }
    Ok(())
}

/// What a verdict on these signs says: the row with them and the value, if there is one. The formulas that tell the row from
/// its neighbours come to the active ones: those that were tried where there is no row, and else the last.
fn found_row<V: Drop, W: Drop>(
    verdict: Result<Verdict<V, W>, Memory>,
    signs: Vec<bool>,
    tried: Vec<usize>,
    active: &mut Vec<usize>,
    last: usize,
) -> Result<Option<Noted<V>>, SplitStop<W>>
    ensures { MatchResult result (IsFoundBy verdict signs.items) (IsStopOf verdict) }
{
    match verdict? {
        Verdict::Wide(chain) => Err(SplitStop::Wide(chain)),
        Verdict::Unsat => {
            learn(active, &tried, last)?;
            Ok(None)
        }
        Verdict::Sat(value) => {
            note(active, last)?;
            Ok(Some(Noted {
                row: SignRow { signs, value },
                active: tried,
            }))
        }
    }
}

/// The row that has one sign more than this one, if some label has it. A search for it begins with the active formulas;
/// those that tell the row from its neighbours come to them.
fn longer_row<T: Theory>(
    theory: &T,
    alloc: Global,
    atoms: &[T::Atom],
    last: &Sampled<T::Value>,
    row: &mut Noted<T::Value>,
    sign: bool,
) -> Result<Option<Noted<T::Value>>, SplitStop<T::Chain>>
    requires within { All (IsWithin (length atoms.now)) last.now.formulas.now }
    requires fit { All (T.atom_fits theory.now) atoms.now }
    requires lengths { length row.old.row.signs.items + 1 ≡ length last.now.formulas.now }
    requires samples { (s : Bool) → IsSample (T.meaning theory.now) (signs_at (number_holds T.atom_holds atoms.now) last.now.formulas.now) s (cond s last.now.on last.now.off) }
    ensures found { MatchResult result (λ found. MatchOption found ((l : Label) → (T.meaning theory.now).has l → ¬ ((signs_at (number_holds T.atom_holds atoms.now) last.now.formulas.now) l ≡ row.old.row.signs.items ++ sign ∷ [])) (λ noted. IsRow (T.meaning theory.now) (signs_at (number_holds T.atom_holds atoms.now) last.now.formulas.now) noted.row × (noted.row.signs.items ≡ row.old.row.signs.items ++ sign ∷ []))) (Stops (T.meaning theory.now) ⊥ (signs_at (number_holds T.atom_holds atoms.now) last.now.formulas.now) atoms.now) }
    ensures kept { row.new.row ≡ row.old.row }
{
    let signs = with_last(alloc, &row.row.signs, sign)?;
    match last.of(sign) {
        Sample::Nowhere => Ok(None),
        Sample::At(found) if are_same(&found.row.signs, &signs) => {
            let value = theory.copy_value(alloc, &found.row.value);
            let active = Vec::from_slice(alloc, &found.active);
            Ok(Some(with_notes(Ok(signs), value, active)?))
        }
        _ => {
            let number = last.formulas.len() - 1;
            let mut tried = with_last(alloc, &row.active, number)?;
            let asked = Asked {
                formulas: last.formulas,
                signs: &signs,
            };
            let verdict = search(theory, alloc, atoms, &asked, &mut tried);
            found_row(verdict, signs, tried, &mut row.active, number)
        }
    }
}

/// The row with one more sign, and the fewest numbers that tell it from others: its own, or those of the sample, if that
/// has its signs.
fn lengthen<V: Drop>(row: &mut Noted<V>, sign: bool, sample: &Sample<V>) -> Result<(), Memory>
    ensures { OnOk result ((row.new.row.value ≡ row.old.row.value) × (row.new.row.signs.items ≡ row.old.row.signs.items ++ sign ∷ [])) }
{
    row.row.signs.push(sign)?;
    if let Sample::At(found) = sample {
        if found.active.len() < row.active.len() && are_same(&found.row.signs, &row.row.signs) {
            row.active = found.active.clone()?;
        }
    }
    Ok(())
}

/// Adds the row, if there is one.
fn add_found<V: Drop>(rows: &mut Vec<Noted<V>>, found: Option<Noted<V>>) -> Result<(), Memory>
    ensures { OnOk result (MatchOption found (rows.new.items ≡ rows.old.items) (λ noted. rows.new.items ≡ rows.old.items ++ noted ∷ [])) }
{
    if let Some(noted) = found {
        rows.push(noted)?;
    }
    Ok(())
}

/// Adds the other row, if there is one, and the row with one more sign.
fn add_rows<V: Drop, W: Drop>(
    rows: &mut Vec<Noted<V>>,
    other: Result<Option<Noted<V>>, SplitStop<W>>,
    sample: &Sample<V>,
    mut row: Noted<V>,
    sign: bool,
) -> Result<(), SplitStop<W>>
    ensures { MatchResult result (λ _. MatchResult other (λ found. AreAdded row.row sign found rows.old.items rows.new.items) (λ _. ⊥)) (IsPassedOn other) }
{
    match (other, lengthen(&mut row, sign, sample)) {
        (Ok(other), Ok(())) => {
            both(add_found(rows, other), add_found(rows, Some(row)))?;
            Ok(())
        }
        (Err(stop), _) => Err(stop),
        (Ok(_), Err(_want)) => Err(SplitStop::Memory),
    }
}

/// The rows of the formulas, from those of all but the last.
fn refine<T: Theory>(
    theory: &T,
    alloc: Global,
    atoms: &[T::Atom],
    formulas: &[Formula<usize>],
    mut rows: Vec<Noted<T::Value>>,
) -> Result<Vec<Noted<T::Value>>, SplitStop<T::Chain>>
    requires within { All (IsWithin (length atoms.now)) formulas.now }
    requires fit { All (T.atom_fits theory.now) atoms.now }
    requires some { 0 < length formulas.now }
    requires rows { SplitsInto (T.meaning theory.now) (signs_at (number_holds T.atom_holds atoms.now) (take (length formulas.now - 1) formulas.now)) (rows_of rows.items) }
    ensures { MatchResult result (λ refined. SplitsInto (T.meaning theory.now) (signs_at (number_holds T.atom_holds atoms.now) formulas.now) (rows_of refined.items)) (Stops (T.meaning theory.now) ⊥ (signs_at (number_holds T.atom_holds atoms.now) formulas.now) atoms.now) }
{
    let number = formulas.len() - 1;
    let (on, off) = both(
        find_sample(theory, alloc, atoms, formulas, true),
        find_sample(theory, alloc, atoms, formulas, false),
    )?;
    let last = Sampled { formulas, on, off };
    let mut refined = Vec::new(alloc);
    'rest: while let Some(mut row) = rows.pop() {
        let holds = holds_of(theory, atoms, &formulas[number], &row.row.value);
        let other = longer_row(theory, alloc, atoms, &last, &mut row, !holds);
        add_rows(&mut refined, other, last.of(holds), row, holds)?;
    }
    Ok(refined)
}

/// The rows, without the numbers.
fn without_notes<V: Drop>(alloc: Global, noted: Vec<Noted<V>>) -> Result<Vec<SignRow<V>>, Memory>
    ensures { IfOk result (λ rows. rows.items ≡ rows_of noted.items) }
{
    let mut rows = Vec::new(alloc);
    for one in noted {
        rows.push(one.row)?;
    }
    Ok(rows)
}

/// The rows of formulas over the numbers of the atoms.
fn split_numbered<T: Theory>(
    theory: &T,
    alloc: Global,
    atoms: &[T::Atom],
    formulas: &[Formula<usize>],
    most: u32,
) -> Result<Vec<SignRow<T::Value>>, SplitStop<T::Chain>>
    requires within { All (IsWithin (length atoms.now)) formulas.now }
    requires fit { All (T.atom_fits theory.now) atoms.now }
    ensures rows { IfOk result (λ rows. SplitsInto (T.meaning theory.now) (signs_at (number_holds T.atom_holds atoms.now) formulas.now) rows.items) }
    ensures few { IfOk result (λ rows. length rows.items ≤ most) }
    ensures stop { IfErr result (Stops (T.meaning theory.now) (HasMoreRows (T.meaning theory.now) (signs_at (number_holds T.atom_holds atoms.now) formulas.now) most) (signs_at (number_holds T.atom_holds atoms.now) formulas.now) atoms.now) }
{
    let mut rows = started(alloc, decide_any(theory, alloc))?;
    for i in 0..formulas.len() {
        if rows.len() > most as usize {
            return Err(SplitStop::TooMany);
        }
        rows = refine(theory, alloc, atoms, &formulas[..i + 1], rows)?;
    }
    if rows.len() <= most as usize {
        return Ok(without_notes(alloc, rows)?);
    }
    Err(SplitStop::TooMany)
}

/// Exactly the rows of signs that labels have, each once, each with a value that has these signs; no list where there are
/// more than `most`.
pub fn split<T: Theory>(
    theory: &T,
    alloc: Global,
    formulas: &[Formula<T::Atom>],
    most: u32,
) -> Result<Vec<SignRow<T::Value>>, SplitStop<T::Chain>>
    requires fit { FormulasFit (T.atom_fits theory.now) formulas.now }
    ensures rows { IfOk result (λ rows. SplitsInto (T.meaning theory.now) (signs_at T.atom_holds formulas.now) rows.items) }
    ensures few { IfOk result (λ rows. length rows.items ≤ most) }
    ensures stop { IfErr result (StopsFor (T.meaning theory.now) (HasMoreRows (T.meaning theory.now) (signs_at T.atom_holds formulas.now) most) formulas.now) }
{
    let numbered = number_all(alloc, formulas)?;
    split_numbered(
        theory,
        alloc,
        numbered.atoms.as_slice(),
        &numbered.formulas,
        most,
    )
}
