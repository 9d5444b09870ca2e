//! The list of the entries of a thread's turn.
ghost use Rattle.std.specs.Prelude.{◌≡◌, ◌<◌, IfSome, OnErr, OnOk, length};
ghost use Rattle.bd_links.specs.Entries.{longer, next_stamp};

use bd_base::{Act, Entry, OutOfMemory, Rows};

/// Adds what a thread did to the list, with the next stamp; out of memory, the list stays as it was.
pub fn add(entries: &mut Rows<Entry>, thread: u32, act: Act) -> Result<(), OutOfMemory>
    ensures ok { OnOk result (entries.new ≡ longer thread entries.old act) }
    ensures err { OnErr result (entries.new ≡ entries.old) }
{
    let stamp = entries.len() as u128 + 1;
    entries.push(Entry { stamp, thread, act })
}

/// The stamp of the next entry, where another list ends at the stamp `last`: one above both. None where
/// stamps run out.
pub fn next_stamp(entries: &Rows<Entry>, last: u128) -> Option<u128>
    ensures stamp { IfSome result (λ n. n ≡ next_stamp (length entries.now) last) }
    ensures above { IfSome result (λ n. last < n) }
{
    let count = entries.len() as u128;
    let greatest = if count < last { last } else { count };
    greatest.checked_add(1)
}
