//! The numbers of opposites: the opposite of a state has exactly the classes that the state doesn't have.

ghost use Rattle.std.specs.Prelude.{ℕ, ◌≡◌, ◌<◌, length, Decides, MatchOption, IfOk};
ghost use Rattle.model_sta.specs.Least.{rows_of};
ghost use Rattle.sta_ops.specs.Numbers.{AreOpposite, HasNoOpposite, IsOppositeAmong, IsNumber, AreNumbered};

use fast_fault::Memory;
use sta_classes::Table;
use std::alloc::Global;

/// Which state is the opposite of each, and the states whose opposites are new ones, behind the states that there are.
#[derive(Drop)]
pub struct Opposites {
    pub numbers: Vec<u64>,
    pub fresh: Vec<u64>,
}

/// Whether exactly the classes without the one state have the other.
fn are_opposite<A, V>(table: &Table<A, V>, state: u64, other: u64) -> bool
    ensures { Decides result (AreOpposite (rows_of table.now.found) state other) }
{
    'classes: for class in 0..table.len() {
        if table.has(class, state) == table.has(class, other) {
            return false;
        }
    }
    true
}

/// One of the first so many states that is the opposite of the state.
fn find_opposite<A, V>(table: &Table<A, V>, states: u64, state: u64) -> Option<u64>
    ensures { MatchOption result (HasNoOpposite (rows_of table.now.found) states state) (IsOppositeAmong (rows_of table.now.found) states state) }
{
    'others: for other in 0..states {
        if are_opposite(table, state, other) {
            return Some(other);
        }
    }
    None
}

/// The number of the state's opposite. The state is put behind the others if its opposite is a new one.
fn number_of<A, V>(
    table: &Table<A, V>,
    states: u64,
    state: u64,
    fresh: &mut Vec<u64>,
) -> Result<u64, Memory>
    ensures { IfOk result (IsNumber (rows_of table.now.found) states state fresh.old.items fresh.new.items) }
{
    if let Some(other) = find_opposite(table, states, state) {
        return Ok(other);
    }
    // so many states are out of reach of any memory
    let Some(number) = states.checked_add(fresh.len() as u64) else {
        return Err(Memory);
    };
    fresh.push(state)?;
    Ok(number)
}

/// The numbers of the opposites of the first so many states.
pub fn number<A, V>(alloc: Global, table: &Table<A, V>, states: u64) -> Result<Opposites, Memory>
    ensures { IfOk result (λ made. AreNumbered (rows_of table.now.found) states states made.numbers.items made.fresh.items) }
{
    let mut numbers = Vec::new(alloc);
    let mut fresh = Vec::new(alloc);
    'states: for state in 0..states {
        numbers.push(number_of(table, states, state, &mut fresh)?)?;
    }
    Ok(Opposites { numbers, fresh })
}
