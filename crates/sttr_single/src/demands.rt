//! What two rules demand together of each child.

ghost use Rattle.std.specs.Prelude.{ℕ, ◌≡◌, ◌<◌, ◌++◌, [], true, false, length, map, get_or, All, IfOk, MatchOption};
ghost use Rattle.sta_core.specs.Machine.{plain_rule};
ghost use Rattle.sttr_single.specs.Joints.{AreJoined, AreJoinedFor, AreNowhere, HasHigh};

use fast_fault::Memory;
use sta_core::{Sta, StaRule};
use std::alloc::Global;

/// What is demanded of a child.
fn states_at(demands: &[Vec<u64>], child: usize) -> &[u64]
    ensures { result.now ≡ get_or (map (λ d. d.items) demands.now) child [] }
{
    if child >= demands.len() {
        return &[];
    }
    &demands[child]
}

/// The states of both lists.
fn both_states(alloc: Global, first: &[u64], second: &[u64]) -> Result<Vec<u64>, Memory>
    ensures { IfOk result (λ states. states.items ≡ first.now ++ second.now) }
{
    let mut states = Vec::from_slice(alloc, first)?;
    states.extend_from_slice(second)?;
    Ok(states)
}

/// What both rules demand of each of so many children.
fn joined<A>(
    alloc: Global,
    rank: u32,
    first: &StaRule<A>,
    second: &StaRule<A>,
) -> Result<Vec<Vec<u64>>, Memory>
    ensures { IfOk result (λ made. AreJoined (plain_rule first.now) (plain_rule second.now) rank (map (λ d. d.items) made.items)) }
{
    let mut made = Vec::new(alloc);
    'children: for child in 0..rank {
        let one = states_at(&first.demands, child as usize);
        let other = states_at(&second.demands, child as usize);
        made.push(both_states(alloc, one, other)?)?;
    }
    Ok(made)
}

/// Whether each of the states has a number below this one.
fn is_low(states: &[u64], bound: u64) -> bool
    ensures low { result ≡ true → All (λ x. x < bound) states.now }
    ensures high { result ≡ false → HasHigh bound states.now }
{
    'states: for state in states {
        if *state >= bound {
            return false;
        }
    }
    true
}

/// Whether each state that is demanded does.
fn are_low(demands: &[Vec<u64>], bound: u64) -> bool
    ensures low { result ≡ true → All (λ d. All (λ x. x < bound) d.items) demands.now }
    ensures high { result ≡ false → (j : ℕ) × (j < length demands.now) × HasHigh bound (get_or (map (λ d. d.items) demands.now) j []) }
{
    'demands: for states in demands {
        if !is_low(states, bound) {
            return false;
        }
    }
    true
}

/// What both rules demand of each child of a node with this constructor; or that there is no such node, or no such state.
pub fn joined_for<A>(
    alloc: Global,
    looks: &Sta<A>,
    first: &StaRule<A>,
    second: &StaRule<A>,
) -> Result<Option<Vec<Vec<u64>>>, Memory>
    ensures { IfOk result (λ made. MatchOption made (AreNowhere (plain_rule first.now) (plain_rule second.now) looks.now) (λ v. AreJoinedFor (plain_rule first.now) (plain_rule second.now) looks.now (map (λ d. d.items) v.items))) }
{
    let ranks = looks.ranks();
    let constructor = first.constructor as usize;
    if constructor >= ranks.len() {
        return Ok(None);
    }
    let made = joined(alloc, ranks[constructor], first, second)?;
    if !are_low(&made, looks.states()) {
        return Ok(None);
    }
    Ok(Some(made))
}
