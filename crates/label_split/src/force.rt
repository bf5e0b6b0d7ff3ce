//! What follows for atoms where formulas have given truth values.

ghost use Rattle.std.specs.Prelude.{◌≡◌, ◌↔◌, Some, IsTrue, IfSome};
ghost use Rattle.label_split.specs.Known.{IsOnly, Forces, holds_at, joined, settled};

use crate::known::{Known, settled};
use label_core::Formula;

/// Whether the formula is known to have the truth value.
fn is_settled(formula: &Formula<usize>, value: bool, known: &Known) -> bool
    ensures { IsTrue result ↔ (settled known.now.signs.items formula.now ≡ Some value) }
{
    match settled(formula, known) {
        Some(holds) => holds == value,
        None => false,
    }
}

/// The number of the only part that isn't known to have the truth value.
fn only_open(parts: &[Formula<usize>], value: bool, known: &Known) -> Option<usize>
    ensures { IfSome result (IsOnly known.now.signs.items value parts.now) }
{
    let mut open = None;
    for i in 0..parts.len() {
        if !is_settled(&parts[i], value, known) {
            if open.is_some() {
                return None;
            }
            open = Some(i);
        }
    }
    open
}

/// Puts down what is known of atoms, if the formula has this truth value.
#[cycle(force)]
pub fn force(formula: &Formula<usize>, holds: bool, known: &mut Known)
    ensures { Forces (λ truths. holds_at truths formula.now ≡ holds) known.old.signs.items known.new.signs.items }
{
    match formula {
        Formula::Yes => {}
        Formula::No => {}
        Formula::Atom(atom) => known.put(*atom, holds),
        Formula::Not(inner) => force(inner, !holds, known),
        Formula::And(parts) => force_parts(parts, true, holds, known),
        Formula::Or(parts) => force_parts(parts, false, holds, known),
    }
}

/// The same of parts that all have a truth value, or of which one has the other.
#[cycle(force)]
fn force_parts(parts: &[Formula<usize>], value: bool, holds: bool, known: &mut Known)
    ensures { Forces (λ truths. joined value truths parts.now ≡ holds) known.old.signs.items known.new.signs.items }
{
    if holds == value {
        'each: for part in parts {
            force(part, value, known);
        }
    } else if let Some(number) = only_open(parts, value, known) {
        force(&parts[number], !value, known);
    }
}
