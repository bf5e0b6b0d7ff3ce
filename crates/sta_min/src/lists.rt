//! Lists of numbers, one from the choices for each place.

ghost use Rattle.std.specs.Prelude.{◌≡◌, ◌++◌, ◌∷◌, ◌↔◌, [], ℕ, List, length, Contains, IfOk, OnOk};
ghost use Rattle.sta_classes.specs.Grow.{Grown};
ghost use Rattle.sta_classes.specs.Rows.{lists_of};
ghost use Rattle.sta_min.specs.Lists.{IsListOf};

use fast_fault::Memory;
use std::alloc::Global;

/// The list with one more behind it.
fn with_last(alloc: Global, list: &[u32], number: u32) -> Result<Vec<u32>, Memory>
    ensures { IfOk result (λ made. made.items ≡ list.now ++ number ∷ []) }
{
    let mut made = Vec::from_slice(alloc, list)?;
    made.push(number)?;
    Ok(made)
}

/// Adds the list with each of the numbers behind it.
fn add_longer(
    alloc: Global,
    list: &[u32],
    numbers: &[u32],
    lists: &mut Vec<Vec<u32>>,
) -> Result<(), Memory>
    ensures { OnOk result (Grown (lists_of lists.old.items) (lists_of lists.new.items) (λ ks. (k : ℕ) × Contains numbers.now k × (list.now ++ k ∷ [] ≡ ks))) }
{
    'classes: for number in numbers {
        lists.push(with_last(alloc, list, *number)?)?;
    }
    Ok(())
}

/// Each of the lists with each of the numbers behind it.
fn longer(alloc: Global, lists: &[Vec<u32>], numbers: &[u32]) -> Result<Vec<Vec<u32>>, Memory>
    ensures { IfOk result (λ made. (ks : List ℕ) → Contains (lists_of made.items) ks ↔ ((front : List ℕ) × Contains (lists_of lists.now) front × (k : ℕ) × Contains numbers.now k × (front ++ k ∷ [] ≡ ks))) }
{
    let mut made = Vec::new(alloc);
    'lists: for list in lists {
        add_longer(alloc, list, numbers, &mut made)?;
    }
    Ok(made)
}

/// The empty list alone.
fn empty_list(alloc: Global) -> Result<Vec<Vec<u32>>, Memory>
    ensures { IfOk result (λ lists. lists_of lists.items ≡ [] ∷ []) }
{
    let mut lists = Vec::new(alloc);
    lists.push(Vec::new(alloc))?;
    Ok(lists)
}

/// All lists with one of the choices for each place.
pub fn combinations(alloc: Global, choices: &[Vec<u32>]) -> Result<Vec<Vec<u32>>, Memory>
    ensures { IfOk result (λ lists. (ks : List ℕ) → Contains (lists_of lists.items) ks ↔ IsListOf (lists_of choices.now) (length choices.now) ks) }
{
    let mut lists = empty_list(alloc)?;
    for j in 0..choices.len() {
        lists = longer(alloc, &lists, &choices[j])?;
    }
    Ok(lists)
}
