//! Terms that call states by the numbers of their names.

ghost use Rattle.std.specs.Prelude.{IfOk};
ghost use Rattle.sttr_core.specs.Terms.{plain_term};
ghost use Rattle.sttr_run.specs.Plain.{plain_way_term};
ghost use Rattle.sttr_preimage.specs.Called.{called_in, CallsOnly, IsRenamed, IsOwnTerm, IsTermCopy};

use crate::called::{Called, called_by, number_called};
use fast_fault::Memory;
use indexmap::IndexSet;
use label_core::Labels;
use std::alloc::Global;
use sttr_core::Term;
use sttr_run::WayTerm;

/// The term, with states in the place of the triples that it calls.
pub fn renamed<T: Labels>(
    theory: &T,
    alloc: Global,
    term: &WayTerm<T::Map>,
    called: &mut IndexSet<Called>,
) -> Result<Term<T::Map>, Memory>
    ensures { IfOk result (λ made. CallsOnly (plain_way_term term.now) → IsRenamed T.make (T.meaning theory.now).has T.Map.eq (called_in called.old.keys) (called_in called.new.keys) (plain_way_term term.now) (plain_term made)) }
{
    match term {
        WayTerm::Call(triple, child) => match called_by(alloc, triple)? {
            None => Ok(Term::Same(*child)),
            Some(one) => Ok(Term::Call(number_called(called, one)?, *child)),
        },
        WayTerm::Node(constructor, map, parts) => {
            let mut made = Vec::new(alloc);
            'parts: for part in parts {
                made.push(renamed(theory, alloc, part, called)?)?;
            }
            let map = theory.copy_map(alloc, map)?;
            Ok(Term::Node(*constructor, map, made))
        }
    }
}

/// The second's term over children as they are, with states in the place of what it calls.
pub fn over_children<T: Labels>(
    theory: &T,
    alloc: Global,
    term: &Term<T::Map>,
    called: &mut IndexSet<Called>,
) -> Result<Term<T::Map>, Memory>
    ensures { IfOk result (λ made. IsOwnTerm T.make (T.meaning theory.now).has T.Map.eq (called_in called.old.keys) (called_in called.new.keys) (plain_term term.now) (plain_term made)) }
{
    match term {
        Term::Same(child) => Ok(Term::Same(*child)),
        Term::Call(state, child) => Ok(Term::Call(
            number_called(called, Called::Own(*state))?,
            *child,
        )),
        Term::Node(constructor, map, parts) => {
            let mut made = Vec::new(alloc);
            'parts: for part in parts {
                made.push(over_children(theory, alloc, part, called)?)?;
            }
            let map = theory.copy_map(alloc, map)?;
            Ok(Term::Node(*constructor, map, made))
        }
    }
}

/// A copy of the term, with equal maps.
pub fn copied<T: Labels>(
    theory: &T,
    alloc: Global,
    term: &Term<T::Map>,
) -> Result<Term<T::Map>, Memory>
    ensures { IfOk result (λ copy. IsTermCopy T.make (T.meaning theory.now).has T.Map.eq (plain_term term.now) (plain_term copy)) }
{
    match term {
        Term::Same(child) => Ok(Term::Same(*child)),
        Term::Call(state, child) => Ok(Term::Call(*state, *child)),
        Term::Node(constructor, map, parts) => {
            let mut made = Vec::new(alloc);
            'parts: for part in parts {
                made.push(copied(theory, alloc, part)?)?;
            }
            let map = theory.copy_map(alloc, map)?;
            Ok(Term::Node(*constructor, map, made))
        }
    }
}
