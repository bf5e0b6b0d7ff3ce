//! A search for a label at which formulas have given signs. It keeps apart what is known of the atoms in each branch, and
//! asks the theory only for what is known there. A label that it shows is looked at: the next atom is one of a formula
//! that has another sign.

ghost use Rattle.std.specs.Prelude.{◌≡◌, ◌<◌, Bool, false, List, None, Some, length, IfOk, OnOk, IfSome, IfNone, MatchResult, All};
ghost use Rattle.model_tree.specs.Formula.{formula_holds};
ghost use Rattle.label_core.specs.Formula.{joined};
ghost use Rattle.label_core.specs.Meaning.{KeepsValue};
ghost use Rattle.label_split.specs.Known.{Forces, Follows, known_at, truth_at, holds_at, settled};
ghost use Rattle.label_split.specs.Numbers.{truths_at, AreAsked, HaveSigns, IsUnsettled, IsWrong};
ghost use Rattle.label_split.specs.Search.{branch_lists, with_both_signs, DecidesKnown, DecidesSigns, IsFollowed, IsLooked, IsNearer, IsNext, MayFollow};

use crate::force::force;
use crate::known::{Known, open_atom, settled};
use fast_fault::Memory;
use label_core::{Duplicate, Formula, Lit, Theory, Verdict};
use std::alloc::Global;

/// Formulas over numbers of atoms, and the sign that each is to have.
#[derive(Clone, Copy)]
pub struct Asked<'q> {
    pub formulas: &'q [Formula<usize>],
    pub signs: &'q [bool],
}

/// What is found in a branch: the answer; or that the formula of this number says more of an atom; or that an atom of the
/// formula is to be looked at with both signs, this one first.
#[derive(Drop)]
pub enum Look<V, W> {
    Found(V),
    Closed,
    TooWide(W),
    Again(usize, usize),
    Turn(usize, usize, bool),
}

/// Whether the formula holds of the value's label.
#[cycle(holds)]
pub fn holds_of<T: Theory>(
    theory: &T,
    atoms: &[T::Atom],
    formula: &Formula<usize>,
    value: &T::Value,
) -> bool
    requires fit { All (T.atom_fits theory.now) atoms.now }
    requires kept { KeepsValue (T.meaning theory.now) value.now }
    ensures { result ≡ holds_at (truths_at T.atom_holds atoms.now (T.label_of value.now)) formula.now }
{
    match formula {
        Formula::Yes => true,
        Formula::No => false,
        Formula::Atom(atom) => *atom < atoms.len() && theory.holds(&atoms[*atom], value),
        Formula::Not(inner) => !holds_of(theory, atoms, inner, value),
        Formula::And(parts) => each_holds(theory, atoms, parts, true, value),
        Formula::Or(parts) => each_holds(theory, atoms, parts, false, value),
    }
}

/// Whether all of the formulas hold of the value's label, or, if not `every`, one of them.
#[cycle(holds)]
fn each_holds<T: Theory>(
    theory: &T,
    atoms: &[T::Atom],
    parts: &[Formula<usize>],
    every: bool,
    value: &T::Value,
) -> bool
    requires fit { All (T.atom_fits theory.now) atoms.now }
    requires kept { KeepsValue (T.meaning theory.now) value.now }
    ensures { result ≡ formula_holds (truth_at (truths_at T.atom_holds atoms.now (T.label_of value.now))) (joined every parts.now) }
{
    for part in parts {
        if holds_of(theory, atoms, part, value) != every {
            return !every;
        }
    }
    every
}

/// Puts down what the formula says of atoms, if it has its sign; whether it may have it.
fn take_sign(asked: &Asked, number: usize, known: &mut Known) -> bool
    requires asked { AreAsked (length known.old.signs.items) asked.now.formulas.now asked.now.signs.now }
    ensures forces { Forces (HaveSigns asked.now.formulas.now asked.now.signs.now) known.old.signs.items known.new.signs.items }
    ensures may { result ≡ false → (truths : List Bool) → Follows known.new.signs.items truths → ¬ HaveSigns asked.now.formulas.now asked.now.signs.now truths }
{
    if number >= asked.formulas.len() {
        return true;
    }
    match settled(&asked.formulas[number], known) {
        Some(holds) => holds == asked.signs[number],
        None => {
            force(&asked.formulas[number], asked.signs[number], known);
            true
        }
    }
}

/// The same of each of these formulas.
fn take_signs(asked: &Asked, numbers: &[usize], known: &mut Known) -> bool
    requires asked { AreAsked (length known.old.signs.items) asked.now.formulas.now asked.now.signs.now }
    ensures forces { Forces (HaveSigns asked.now.formulas.now asked.now.signs.now) known.old.signs.items known.new.signs.items }
    ensures may { result ≡ false → (truths : List Bool) → Follows known.new.signs.items truths → ¬ HaveSigns asked.now.formulas.now asked.now.signs.now truths }
{
    for number in numbers {
        if !take_sign(asked, *number, known) {
            return false;
        }
    }
    true
}

/// The last formula that has another sign at the value's label: those that came last are the likeliest.
fn wrong<T: Theory>(theory: &T, atoms: &[T::Atom], asked: &Asked, value: &T::Value) -> Option<usize>
    requires asked { AreAsked (length atoms.now) asked.now.formulas.now asked.now.signs.now }
    requires fit { All (T.atom_fits theory.now) atoms.now }
    requires kept { KeepsValue (T.meaning theory.now) value.now }
    ensures right { IfNone result (HaveSigns asked.now.formulas.now asked.now.signs.now (truths_at T.atom_holds atoms.now (T.label_of value.now))) }
    ensures wrong { IfSome result (IsWrong asked.now.formulas.now asked.now.signs.now (truths_at T.atom_holds atoms.now (T.label_of value.now))) }
{
    for i in (0..asked.formulas.len()).rev() {
        if holds_of(theory, atoms, &asked.formulas[i], value) != asked.signs[i] {
            return Some(i);
        }
    }
    None
}

/// The first formula that isn't settled to have its sign.
fn unsettled(asked: &Asked, known: &Known) -> Option<usize>
    requires asked { AreAsked (length known.now.signs.items) asked.now.formulas.now asked.now.signs.now }
    ensures settled { IfNone result ((truths : List Bool) → Follows known.now.signs.items truths → HaveSigns asked.now.formulas.now asked.now.signs.now truths) }
    ensures open { IfSome result (IsUnsettled asked.now.formulas.now asked.now.signs.now known.now.signs.items) }
{
    for i in 0..asked.formulas.len() {
        match settled(&asked.formulas[i], known) {
            Some(holds) if holds == asked.signs[i] => {}
            _ => return Some(i),
        }
    }
    None
}

/// An atom of the formula that wasn't known. Puts down what the formula says of atoms.
fn open_after(asked: &Asked, number: usize, known: &mut Known) -> Option<usize>
    requires asked { AreAsked (length known.old.signs.items) asked.now.formulas.now asked.now.signs.now }
    requires unsettled { IsUnsettled asked.now.formulas.now asked.now.signs.now known.old.signs.items number }
    ensures forces { Forces (HaveSigns asked.now.formulas.now asked.now.signs.now) known.old.signs.items known.new.signs.items }
    ensures none { IfNone result ((truths : List Bool) → Follows known.new.signs.items truths → ¬ HaveSigns asked.now.formulas.now asked.now.signs.now truths) }
    ensures some { IfSome result (λ atom. (atom < length known.new.signs.items) × (known_at known.old.signs.items atom ≡ None)) }
{
    match open_atom(&asked.formulas[number], known) {
        None => None,
        Some(atom) => {
            force(&asked.formulas[number], asked.signs[number], known);
            Some(atom)
        }
    }
}

/// What is to be done with an atom of the formula that wasn't known.
fn go_on<V, W>(number: usize, atom: usize, sign: bool, known: &Known) -> Look<V, W>
    requires { atom < length known.now.signs.items }
    ensures { IsNext number atom sign known.now.signs.items result }
{
    match known.of(atom) {
        Some(_) => Look::Again(number, atom),
        None => Look::Turn(number, atom, sign),
    }
}

/// The verdict on whether a label has what is known.
fn decide_known<T: Theory>(
    theory: &T,
    alloc: Global,
    atoms: &[T::Atom],
    known: &Known,
) -> Result<Verdict<T::Value, T::Chain>, Memory>
    requires many { length known.now.signs.items ≡ length atoms.now }
    requires fit { All (T.atom_fits theory.now) atoms.now }
    ensures { IfOk result (DecidesKnown (T.meaning theory.now) atoms.now known.now.signs.items) }
{
    let mut literals = Vec::new(alloc);
    for i in 0..atoms.len() {
        if let Some(sign) = known.of(i) {
            let atom = atoms[i].duplicate(alloc)?;
            literals.push(Lit { atom, sign })?;
        }
    }
    theory.decide(alloc, &literals)
}

/// What is found in a branch. A formula that has another sign at the value's label says more of atoms, or one that isn't
/// settled where what is known is too wide to decide.
fn look_at<T: Theory>(
    theory: &T,
    alloc: Global,
    atoms: &[T::Atom],
    asked: &Asked,
    active: &[usize],
    known: &mut Known,
) -> Result<Look<T::Value, T::Chain>, Memory>
    requires asked { AreAsked (length known.old.signs.items) asked.now.formulas.now asked.now.signs.now }
    requires many { length known.old.signs.items ≡ length atoms.now }
    requires fit { All (T.atom_fits theory.now) atoms.now }
    ensures { IfOk result (IsLooked (T.meaning theory.now) atoms.now (HaveSigns asked.now.formulas.now asked.now.signs.now) known.old.signs.items known.new.signs.items) }
{
    if !take_signs(asked, active, known) {
        return Ok(Look::Closed);
    }
    match decide_known(theory, alloc, atoms, known)? {
        Verdict::Unsat => Ok(Look::Closed),
        Verdict::Sat(value) => match wrong(theory, atoms, asked, &value) {
            None => Ok(Look::Found(value)),
            Some(number) => match open_after(asked, number, known) {
                None => Ok(Look::Closed),
                Some(atom) => {
                    let sign = !theory.holds(&atoms[atom], &value);
                    Ok(go_on(number, atom, sign, known))
                }
            }
        }
        Verdict::Wide(chain) => match unsettled(asked, known) {
            None => Ok(Look::TooWide(chain)),
            Some(number) => match open_after(asked, number, known) {
                None => Ok(Look::Closed),
                Some(atom) => Ok(go_on(number, atom, true, known)),
            }
        }
    }
}

/// Adds a branch for each sign of the atom. That of the given sign is looked at first.
fn add_branches(
    alloc: Global,
    known: &Known,
    atom: usize,
    sign: bool,
    branches: &mut Vec<Known>,
) -> Result<(), Memory>
    requires { atom < length known.now.signs.items }
    ensures { OnOk result (branch_lists branches.new.items ≡ with_both_signs (branch_lists branches.old.items) known.now.signs.items atom sign) }
{
    branches.push(known.with(alloc, atom, !sign)?)?;
    branches.push(known.with(alloc, atom, sign)?)?;
    Ok(())
}

/// Adds the number, unless it is there.
pub fn note(active: &mut Vec<usize>, number: usize) -> Result<(), Memory> {
    if !active.contains(&number) {
        active.push(number)?;
    }
    Ok(())
}

/// Does what is found in a branch: looks at it again, or at both signs of an atom, once the branches before it are done. The
/// formula that is to be looked at comes to the active ones. The verdict is that on the branch, but for what it leaves.
fn follow<V: Drop, W: Drop>(
    alloc: Global,
    look: Result<Look<V, W>, Memory>,
    known: Known,
    active: &mut Vec<usize>,
    branches: &mut Vec<Known>,
) -> Result<Verdict<V, W>, Memory>
    requires { IfOk look (MayFollow known.signs.items) }
    ensures { IfOk result (λ verdict. MatchResult look (λ found. IsFollowed known.signs.items (branch_lists branches.old.items) (branch_lists branches.new.items) found verdict) (λ _. ⊥)) }
{
    match look? {
        Look::Found(value) => Ok(Verdict::Sat(value)),
        Look::Closed => Ok(Verdict::Unsat),
        Look::TooWide(chain) => Ok(Verdict::Wide(chain)),
        Look::Again(number, _atom) => {
            branches.push(known)?;
            note(active, number)?;
            Ok(Verdict::Unsat)
        }
        Look::Turn(number, atom, sign) => {
            add_branches(alloc, &known, atom, sign, branches)?;
            note(active, number)?;
            Ok(Verdict::Unsat)
        }
    }
}

/// Of two chains, where there are two, one that isn't far, if there is one.
fn nearer<T: Theory>(theory: &T, first: Option<T::Chain>, second: T::Chain) -> T::Chain
    requires { IfSome first (T.meaning theory.now).passes }
    ensures { IsNearer (T.meaning theory.now).is_far first second result }
{
    match first {
        None => second,
        Some(chain) => { if theory.far(&chain) { second } else { chain } }
    }
}

/// Decides whether some label gives the formulas these signs. Begins with what the active formulas say of atoms, and adds
/// to them those whose signs had to be looked at.
pub fn search<T: Theory>(
    theory: &T,
    alloc: Global,
    atoms: &[T::Atom],
    asked: &Asked,
    active: &mut Vec<usize>,
) -> Result<Verdict<T::Value, T::Chain>, Memory>
    requires asked { AreAsked (length atoms.now) asked.now.formulas.now asked.now.signs.now }
    requires fit { All (T.atom_fits theory.now) atoms.now }
    ensures { IfOk result (DecidesSigns (T.meaning theory.now) atoms.now asked.now.formulas.now asked.now.signs.now) }
{
    let mut branches = Known::nothing(alloc, atoms.len())?;
    let mut wide = None;
    'branches: while let Some(mut known) = branches.pop() {
        let look = look_at(theory, alloc, atoms, asked, active, &mut known);
        match follow(alloc, look, known, active, &mut branches)? {
            Verdict::Unsat => {}
            Verdict::Sat(value) => return Ok(Verdict::Sat(value)),
            Verdict::Wide(chain) => wide = Some(nearer(theory, wide, chain)),
        }
    }
    match wide {
        None => Ok(Verdict::Unsat),
        Some(chain) => Ok(Verdict::Wide(chain)),
    }
}
