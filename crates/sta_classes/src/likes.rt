//! Rules with one guard. Labels that tell guards apart are found once for each set of guards, whichever rules have them.

ghost use Rattle.std.specs.Prelude.{◌≡◌, ◌<◌, length, IfOk};
ghost use Rattle.sta_classes.specs.Applying.{IsLike, AreLike};

use crate::rules::Owned;
use fast_fault::Memory;
use indexmap::IndexMap;
use label_core::{Formula, added};
use std::alloc::Global;
use std::hash::{FoldHasher, Hash, Hasher};

/// Feeds what the same formulas have in common. Nothing is promised of it: guards are compared before one stands for another.
#[cycle(feed)]
fn feed<A: Hash, H: Hasher>(formula: &Formula<A>, state: &mut H) {
    match formula {
        Formula::Yes => state.write_u8(0),
        Formula::No => state.write_u8(1),
        Formula::Atom(atom) => atom.hash(state),
        Formula::Not(inner) => {
            state.write_u8(2);
            feed(inner, state);
        }
        Formula::And(parts) => {
            state.write_u8(3);
            feed_each(parts, state);
        }
        Formula::Or(parts) => {
            state.write_u8(4);
            feed_each(parts, state);
        }
    }
}

/// The same of each of the formulas.
#[cycle(feed)]
fn feed_each<A: Hash, H: Hasher>(formulas: &[Formula<A>], state: &mut H) {
    for formula in formulas {
        feed(formula, state);
    }
}

/// The number of a rule with the same guard: of the first one of its print, or the rule's own.
fn like_at<A: Eq + Hash>(
    list: &[Owned<A>],
    number: usize,
    firsts: &mut IndexMap<u64, usize>,
) -> Result<usize, Memory>
    requires { number < length list.now }
    ensures { IfOk result (IsLike A.eq list.now number) }
{
    let rule = list[number].rule;
    let mut state = FoldHasher::default();
    feed(&rule.guard, &mut state);
    let print = state.finish();
    let Some(first) = firsts.get(&print) else {
        firsts.insert(print, number)?;
        return Ok(number);
    };
    let like = *first;
    if like >= list.len() {
        return Ok(number);
    }
    let other = list[like].rule;
    if other.guard == rule.guard {
        Ok(like)
    } else {
        Ok(number)
    }
}

/// For each rule the number of one with the same guard. All rules with one guard have the same one, but for those whose
/// guard has the print of another.
pub fn likes_of<A: Eq + Hash>(alloc: Global, list: &[Owned<A>]) -> Result<Vec<usize>, Memory>
    ensures { IfOk result (λ likes. AreLike A.eq list.now likes.items) }
{
    let mut firsts = IndexMap::new(alloc);
    let mut likes = Vec::new(alloc);
    for number in 0..list.len() {
        added(&mut likes, like_at(list, number, &mut firsts))?;
    }
    Ok(likes)
}
