//! Automata written down as tables of rules.

use fast_fault::Memory;
use flat_label::BoolAtom;
use label_core::Formula;
use sta_core::StaRule;
use std::alloc::Global;

/// The labels that a rule is for: all, none, or those with a field that is true.
#[derive(Clone, Copy)]
pub(crate) enum Guard {
    Each,
    Never,
    Where(u32),
}

/// A rule of a state: the state, the constructor, the labels, and what is demanded of each child.
pub(crate) type Line<'a, 'b> = (u64, u32, Guard, &'a [&'b [u64]]);

/// The guard as a formula.
fn formula(guard: Guard) -> Formula<BoolAtom> {
    match guard {
        Guard::Each => Formula::Yes,
        Guard::Never => Formula::No,
        Guard::Where(field) => Formula::Atom(BoolAtom { field }),
    }
}

/// The demands in lists of their own.
fn lists(alloc: Global, demands: &[&[u64]]) -> Result<Vec<Vec<u64>>, Memory> {
    let mut lists = Vec::new(alloc);
    for states in demands {
        lists.push(Vec::from_slice(alloc, states)?)?;
    }
    Ok(lists)
}

/// Puts a rule behind those of its state. States between it and those that have rules get none.
pub(crate) fn add_rule(
    alloc: Global,
    line: Line<'_, '_>,
    rules: &mut Vec<Vec<StaRule<BoolAtom>>>,
) -> Result<(), Memory> {
    let (state, constructor, guard, demands) = line;
    for _ in rules.len() as u64..=state {
        rules.push(Vec::new(alloc))?;
    }
    if let Some(those) = rules.get_mut(state as usize) {
        those.push(StaRule {
            constructor,
            guard: formula(guard),
            demands: lists(alloc, demands)?,
        })?;
    }
    Ok(())
}
