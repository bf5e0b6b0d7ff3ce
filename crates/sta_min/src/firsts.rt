//! Numbers of keys.

ghost use Rattle.std.specs.Prelude.{IfOk};
ghost use Rattle.sta_min.specs.Firsts.{IsKept};

use fast_fault::Memory;
use indexmap::IndexMap;
use std::hash::Hash;

/// The number that is kept for the key, which is this one if there was none.
pub fn number_of<K: Eq + Hash + Drop>(
    seen: &mut IndexMap<K, u32>,
    key: K,
    number: u32,
) -> Result<u32, Memory>
    ensures { IfOk result (λ kept. IsKept K.eq seen.old seen.new key number kept) }
{
    if let Some(kept) = seen.get(&key) {
        return Ok(*kept);
    }
    seen.insert(key, number)?;
    Ok(number)
}
