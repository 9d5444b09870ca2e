//! The tokens that aren't at a place, and are no walks: a map by their ids.
ghost use Rattle.std.specs.Prelude.{◌≡◌, ◌+◌, ◌<◌, ◌≤◌, option_copied, IfNone, IsOk, OnErr, OnOk, Some, None};
ghost use Rattle.std.specs.HashMap.{spare};
ghost use Rattle.bd_tokens.specs.Tokens.{here_in, items_of, Sets};

use crate::key::Key;
use bd_base::OutOfMemory;
use bd_machine::{Id, Kept};
use std::collections::HashMap;

/// What the map has of the token.
pub(crate) fn get_other(map: &HashMap<Key, Kept>, id: Id) -> Option<&Kept>
    ensures { option_copied result ≡ here_in (items_of map.now.entries) id }
{
    if map.is_empty() {
        return None;
    }
    map.get(&Key { id })
}

/// The map has a token, in place of what it had of it. It takes no memory where there is room; out of memory, nothing changed.
pub(crate) fn hold_other(
    map: &mut HashMap<Key, Kept>,
    id: Id,
    kept: Kept,
) -> Result<(), OutOfMemory>
    ensures ok { OnOk result (Sets (items_of map.old.entries) (items_of map.new.entries) id (Some kept)) }
    ensures err { OnErr result (items_of map.new.entries ≡ items_of map.old.entries) }
    ensures room { spare map.old ≤ spare map.new + 1 }
    ensures holds { 0 < spare map.old → IsOk result }
{
    map.insert(Key { id }, kept)?;
    Ok(())
}

/// Takes out what the map has of the token.
pub(crate) fn take_other(map: &mut HashMap<Key, Kept>, id: Id) -> Option<Kept>
    ensures kept { result ≡ here_in (items_of map.old.entries) id }
    ensures gone { Sets (items_of map.old.entries) (items_of map.new.entries) id None }
    ensures same { IfNone result (items_of map.new.entries ≡ items_of map.old.entries) }
    ensures room { spare map.old ≤ spare map.new }
{
    if map.is_empty() {
        return None;
    }
    map.remove(&Key { id })
}

/// The map doesn't have the token any more.
pub(crate) fn drop_other(map: &mut HashMap<Key, Kept>, id: Id)
    ensures gone { Sets (items_of map.old.entries) (items_of map.new.entries) id None }
    ensures room { spare map.old ≤ spare map.new }
{
    if !map.is_empty() {
        take_other(map, id);
    }
}
