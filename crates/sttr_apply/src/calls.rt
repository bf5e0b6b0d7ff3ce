//! What is asked of a child, and what is found of it.

ghost use Rattle.std.specs.Prelude.{◌≡◌, ◌+◌, ◌<◌, ℕ, map, All, Contains, IfOk, OnOk, IfSome, IfNone};
ghost use Rattle.apply_laws.specs.Lists.{sum_of};
ghost use Rattle.sttr_core.specs.Terms.{plain_term};
ghost use Rattle.sttr_apply.specs.Calls.{one, calls, calls_of, calls_each, used, asks_in, uses_in, IsFirst, IsNowhere, IsSameListing, IsTaken, AreStillFound};

use crate::copies::copy_listing;
use crate::outs::Listing;
use fast_fault::Memory;
use label_core::Theory;
use std::alloc::Global;
use sttr_core::Term;

/// A state that is called, and how often.
#[derive(Drop)]
pub struct Ask {
    pub state: u64,
    pub uses: u64,
}

/// What is found of a state that is called, for so many uses more.
#[derive(Drop)]
pub struct Entry<'t, V> {
    pub state: u64,
    pub uses: u64,
    pub listing: Listing<'t, V>,
}

/// Where the state is asked.
fn place_of_ask(asks: &[Ask], state: u64) -> Option<usize>
    ensures some { IfSome result (λ i. IsFirst state i (asks_in asks.now)) }
    ensures none { IfNone result (IsNowhere state (asks_in asks.now)) }
{
    let mut i = 0;
    'asks: for ask in asks {
        if ask.state == state {
            return Some(i);
        }
        i += 1;
    }
    None
}

/// Asks the state once more.
fn add_ask(asks: &mut Vec<Ask>, state: u64) -> Result<(), Memory>
    ensures used { OnOk result ((q : ℕ) → used (asks_in asks.new.items) q ≡ used (asks_in asks.old.items) q + one state q) }
    ensures some { OnOk result (All (λ a. 0 < a.uses) asks.old.items → All (λ a. 0 < a.uses) asks.new.items) }
{
    match place_of_ask(asks, state) {
        Some(place) => {
            let ask = &mut asks[place];
            match ask.uses.checked_add(1) {
                Some(uses) => ask.uses = uses,
                None => return Err(Memory),
            }
        }
        None => asks.push(Ask { state, uses: 1 })?,
    }
    Ok(())
}

/// Asks each state as often as the term calls it on the child.
fn add_calls<M>(term: &Term<M>, child: u32, asks: &mut Vec<Ask>) -> Result<(), Memory>
    ensures used { OnOk result ((q : ℕ) → used (asks_in asks.new.items) q ≡ used (asks_in asks.old.items) q + calls q child (plain_term term.now)) }
    ensures some { OnOk result (All (λ a. 0 < a.uses) asks.old.items → All (λ a. 0 < a.uses) asks.new.items) }
{
    match term {
        Term::Same(_) => {}
        Term::Call(state, on) => {
            if *on == child {
                add_ask(asks, *state)?;
            }
        }
        Term::Node(_, _, parts) => {
            'parts: for part in parts {
                add_calls(part, child, asks)?;
            }
        }
    }
    Ok(())
}

/// The same for each of the terms.
fn add_calls_of<M>(terms: &[&Term<M>], child: u32, asks: &mut Vec<Ask>) -> Result<(), Memory>
    ensures used { OnOk result ((q : ℕ) → used (asks_in asks.new.items) q ≡ used (asks_in asks.old.items) q + calls_of q child (map (λ t. plain_term t.now) terms.now)) }
    ensures some { OnOk result (All (λ a. 0 < a.uses) asks.old.items → All (λ a. 0 < a.uses) asks.new.items) }
{
    'terms: for term in terms {
        add_calls(*term, child, asks)?;
    }
    Ok(())
}

/// The states that terms call on the child, each as often as they do.
pub fn asks_on<M>(alloc: Global, terms: &[Vec<&Term<M>>], child: u32) -> Result<Vec<Ask>, Memory>
    ensures used { IfOk result (λ asks. (q : ℕ) → used (asks_in asks.items) q ≡ calls_each q child (map (λ those. map (λ t. plain_term t.now) those.items) terms.now)) }
    ensures some { IfOk result (λ asks. All (λ a. 0 < a.uses) asks.items) }
{
    let mut asks = Vec::new(alloc);
    'terms: for those in terms {
        add_calls_of(those, child, &mut asks)?;
    }
    Ok(asks)
}

/// Where there is an entry of the state.
fn place_of_entry<'t, V>(entries: &[Entry<'t, V>], state: u64) -> Option<usize>
    ensures some { IfSome result (λ i. IsFirst state i (uses_in entries.now)) }
    ensures none { IfNone result (IsNowhere state (uses_in entries.now)) }
{
    let mut i = 0;
    'entries: for entry in entries {
        if entry.state == state {
            return Some(i);
        }
        i += 1;
    }
    None
}

/// What is found, for one use: the list itself, if no other use comes.
fn take_from<'t, T: Theory>(
    theory: &T,
    alloc: Global,
    entry: &mut Entry<'t, T::Value>,
) -> Result<Listing<'t, T::Value>, Memory>
    requires { 0 < entry.old.uses }
    ensures same { IfOk result (IsSameListing T.label_of entry.old.listing) }
    ensures state { OnOk result (entry.new.state ≡ entry.old.state) }
    ensures uses { OnOk result (entry.new.uses + 1 ≡ entry.old.uses) }
    ensures still { OnOk result (0 < entry.new.uses → entry.new.listing ≡ entry.old.listing) }
{
    if entry.uses > 1 {
        entry.uses -= 1;
        let copy = copy_listing(theory, alloc, &entry.listing)?;
        return Ok(copy);
    }
    entry.uses = 0;
    let none = Listing {
        outs: Vec::new(alloc),
        far: None,
    };
    Ok(std::mem::replace(&mut entry.listing, none))
}

/// What is found of the state, for one use.
pub fn take<'t, T: Theory>(
    theory: &T,
    alloc: Global,
    entries: &mut Vec<Entry<'t, T::Value>>,
    state: u64,
) -> Result<Listing<'t, T::Value>, Memory>
    requires { 0 < used (uses_in entries.old.items) state }
    ensures taken { IfOk result (IsTaken T.label_of entries.old.items state) }
    ensures still { OnOk result (AreStillFound entries.old.items entries.new.items) }
    ensures used { OnOk result ((q : ℕ) → used (uses_in entries.new.items) q + one state q ≡ used (uses_in entries.old.items) q) }
{
    match place_of_entry(entries, state) {
        Some(place) => {
            let listing = take_from(theory, alloc, &mut entries[place])?;
            Ok(listing)
        }
        None => Ok(Listing {
            outs: Vec::new(alloc),
            far: None,
        }),
    }
}
