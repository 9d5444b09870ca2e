//! Maps that keep the first value of each key.
ghost use Rattle.std.specs.Prelude.{◌≡◌, OnOk};
ghost use Rattle.std.specs.HashMap.{get};
ghost use Rattle.bd_report.specs.First.{first_of, if_key};

use bd_base::OutOfMemory;
use std::collections::HashMap;
use std::hash::Hash;

/// Puts a value at a key that has none; a key that has one keeps it. Out of memory is the only error.
pub(crate) fn put_first<K: Eq + Hash + Drop, V: Drop>(
    map: &mut HashMap<K, V>,
    key: K,
    value: V,
) -> Result<(), OutOfMemory>
    ensures { OnOk result ((q : K) → get K.eq map.new q ≡ first_of (get K.eq map.old q) (if_key (K.eq key q) value)) }
{
    if !map.contains_key(&key) {
        map.insert(key, value)?;
    }
    Ok(())
}
