//! What is known of a formula, where truth values of some atoms are. Atoms are numbers.

ghost use Rattle.std.specs.Prelude.{◌≡◌, [], ◌∷◌, ◌<◌, ℕ, false, None, Some, IfNone, IfOk, IfSome, IsSome, length, replicate, slice_set};
ghost use Rattle.std.specs.List.{All};
ghost use Rattle.label_core.specs.Formula.{joined};
ghost use Rattle.label_split.specs.Known.{IsWithin, Forces, known_at, truth_at, formula_known, settled};
ghost use Rattle.label_split.specs.Search.{branch_lists};

use fast_fault::Memory;
use label_core::Formula;
use std::alloc::Global;

/// The truth values of atoms that are known, by the atoms' numbers.
#[derive(Drop)]
pub struct Known {
    signs: Vec<Option<bool>>,
}

impl Known {
    /// Nothing of so many atoms, alone in a list.
    pub fn nothing(alloc: Global, atoms: usize) -> Result<Vec<Known>, Memory>
        ensures { IfOk result (λ all. branch_lists all.items ≡ replicate atoms None ∷ []) }
    {
        let signs = vec![in alloc; None; atoms]?;
        let mut all = Vec::new(alloc);
        all.push(Known { signs })?;
        Ok(all)
    }

    /// What is known of the atom.
    pub fn of(&self, atom: usize) -> Option<bool>
        ensures { result ≡ known_at self.now.signs.items atom }
    {
        if atom < self.signs.len() {
            self.signs[atom]
        } else {
            None
        }
    }

    /// Puts down that the atom has this truth value, unless something is known of it.
    pub fn put(&mut self, atom: usize, sign: bool)
        ensures { Forces (λ truths. truth_at truths atom ≡ sign) self.old.signs.items self.new.signs.items }
    {
        if atom < self.signs.len() && self.signs[atom].is_none() {
            self.signs[atom] = Some(sign);
        }
    }

    /// The same, with one more atom.
    pub fn with(&self, alloc: Global, atom: usize, sign: bool) -> Result<Known, Memory>
        requires { atom < length self.now.signs.items }
        ensures { IfOk result (λ made. made.signs.items ≡ slice_set self.now.signs.items atom (Some sign)) }
    {
        let mut signs = Vec::from_slice(alloc, &self.signs)?;
        signs[atom] = Some(sign);
        Ok(Known { signs })
    }
}

/// The truth value of the formula, where those that are known settle it.
#[cycle(settled)]
pub fn settled(formula: &Formula<usize>, known: &Known) -> Option<bool>
    ensures { result ≡ settled known.now.signs.items formula.now }
{
    match formula {
        Formula::Yes => Some(true),
        Formula::No => Some(false),
        Formula::Atom(atom) => known.of(*atom),
        Formula::Not(inner) => match settled(inner, known) {
            Some(holds) => Some(!holds),
            None => None,
        },
        Formula::And(parts) => settled_each(parts, true, known),
        Formula::Or(parts) => settled_each(parts, false, known),
    }
}

/// The same of whether all of the formulas hold, or, if not `every`, one of them.
#[cycle(settled)]
fn settled_each(parts: &[Formula<usize>], every: bool, known: &Known) -> Option<bool>
    ensures { result ≡ formula_known (known_at known.now.signs.items) (joined every parts.now) }
{
    let mut open = false;
    for part in parts {
        match settled(part, known) {
            None => open = true,
            Some(holds) => {
                if holds != every {
                    return Some(!every);
                }
            }
        }
    }
    if open { None } else { Some(every) }
}

/// An atom of the formula that isn't known, unless the formula is settled.
#[cycle(open)]
pub fn open_atom(formula: &Formula<usize>, known: &Known) -> Option<usize>
    ensures none { IfNone result (IsSome (settled known.now.signs.items formula.now)) }
    ensures some { IfSome result (λ i. (known_at known.now.signs.items i ≡ None) × ((n : ℕ) → IsWithin n formula.now → i < n)) }
{
    match formula {
        Formula::Yes => None,
        Formula::No => None,
        Formula::Atom(atom) => match known.of(*atom) {
            Some(_) => None,
            None => Some(*atom),
        },
        Formula::Not(inner) => open_atom(inner, known),
        Formula::And(parts) => open_among(parts, known),
        Formula::Or(parts) => open_among(parts, known),
    }
}

/// The same of the first of these formulas that isn't settled.
#[cycle(open)]
fn open_among(formulas: &[Formula<usize>], known: &Known) -> Option<usize>
    ensures none { IfNone result (All (λ f. IsSome (settled known.now.signs.items f)) formulas.now) }
    ensures some { IfSome result (λ i. (known_at known.now.signs.items i ≡ None) × ((n : ℕ) → All (IsWithin n) formulas.now → i < n)) }
{
    for formula in formulas {
        if is_open(formula, known) {
            if let Some(atom) = open_atom(formula, known) {
                return Some(atom);
            }
        }
    }
    None
}

/// Whether the formula isn't settled.
fn is_open(formula: &Formula<usize>, known: &Known) -> bool
    ensures { result ≡ false → IsSome (settled known.now.signs.items formula.now) }
{
    match settled(formula, known) {
        Some(_) => false,
        None => true,
    }
}
