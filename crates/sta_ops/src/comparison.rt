//! Whether trees that are wanted of two languages exist, and a least one, with no language made for it.

ghost use Rattle.std.specs.Prelude.{◌≡◌, ◌<◌, length, IfOk, IfErr};
ghost use Rattle.sta_core.specs.Fits.{RulesFit};
ghost use Rattle.sta_core.specs.Sta.{AtomsFit};
ghost use Rattle.sta_classes.specs.Rules.{plain_rules};
ghost use Rattle.sta_ops.specs.Empty.{IsCompared, StopsEither};
ghost use Rattle.sta_ops.specs.Rules.{beside};

use crate::copies::beside;
use crate::emptiness::{Asked, Found, Wanted, least_tree};
use fast_fault::Memory;
use label_core::{Duplicate, Theory};
use sta_classes::{ClassStop, classes};
use sta_core::{Lang, Sta, StaRule};
use std::alloc::Global;

/// Both automata as one: the states of the second one are behind those of the first one.
fn side_by_side<A: Duplicate + Drop>(
    alloc: Global,
    ranks: &[u32],
    first: &[Vec<StaRule<A>>],
    second: &[Vec<StaRule<A>>],
) -> Result<Sta<A>, Memory>
    requires first { RulesFit ranks.now first.now }
    requires second { RulesFit ranks.now second.now }
    ensures ranks { IfOk result (λ both. both.ranks ≡ ranks.now) }
    ensures rules { IfOk result (λ both. both.rules ≡ beside (plain_rules first.now) (plain_rules second.now)) }
{
    let rules = beside(alloc, first, second)?;
    let ranks = Vec::from_slice(alloc, ranks)?;
    Ok(Sta::new(ranks, rules))
}

/// A least tree that is wanted of the two languages, if there is one. It has a depth of at most `most`.
pub fn compare<T: Theory>(
    theory: &T,
    alloc: Global,
    wanted: Wanted,
    a: &Lang<T::Atom>,
    b: &Lang<T::Atom>,
    most: u32,
) -> Result<Found<T::Value>, ClassStop<T::Chain>>
    requires ranks { b.now.sta.ranks ≡ a.now.sta.ranks }
    requires first { a.now.state < length a.now.sta.rules }
    requires second { b.now.state < length b.now.sta.rules }
    requires first_fit { AtomsFit (T.atom_fits theory.now) a.now.sta }
    requires second_fit { AtomsFit (T.atom_fits theory.now) b.now.sta }
    ensures found { IfOk result (IsCompared (T.meaning theory.now) wanted a.now b.now most) }
    ensures stop { IfErr result (StopsEither (T.meaning theory.now) a.now b.now most) }
{
    let first = a.sta.rules();
    let second = b.sta.rules();
    let both = side_by_side(alloc, a.sta.ranks(), first, second)?;
    let table = classes(theory, alloc, &both, most)?;
    // so many states are out of reach of any memory
    let Some(other) = (first.len() as u64).checked_add(b.state) else {
        return Err(ClassStop::Memory);
    };
    let asked = Asked::Two(wanted, a.state, other);
    let found = least_tree(theory, alloc, &table, asked, most)?;
    Ok(found)
}
