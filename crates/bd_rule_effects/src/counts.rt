//! Messages are counted for each thread.
ghost use Rattle.std.specs.Prelude.{◌≡◌, ◌==◌, ◌+◌, OnOk, position};
ghost use Rattle.bd_machine.specs.Table.{write};

use bd_base::{OutOfMemory, Rows};

fn place_of(table: &[(u32, u128)], thread: u32) -> Option<usize>
    ensures { result ≡ position (λ row. row.0 == thread) table.now }
{
    table.iter().position(|row| row.0 == thread)
}

// Writes the count of a thread.
fn write_count(table: &mut Rows<(u32, u128)>, thread: u32, count: u128) -> Result<(), OutOfMemory>
    ensures { OnOk result (table.new ≡ write ◌==◌ table.old thread count) }
{
    match place_of(table.as_slice(), thread) {
        Some(i) => {
            table.set(i, (thread, count));
            Ok(())
        }
        None => {
            table.push((thread, count))?;
            Ok(())
        }
    }
}

/// Counts the message of this number of a thread. A count past 128 bits counts as out of memory: it
/// takes more entries than there are stamps.
pub(crate) fn count(
    table: &mut Rows<(u32, u128)>,
    thread: u32,
    number: u128,
) -> Result<(), OutOfMemory>
    ensures { OnOk result (table.new ≡ write ◌==◌ table.old thread (number + 1)) }
{
    match number.checked_add(1) {
        Some(next) => write_count(table, thread, next),
        None => Err(OutOfMemory),
    }
}
