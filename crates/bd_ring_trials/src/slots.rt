//! A slot.
use bd_base::{Entry, OutOfMemory};
use bd_ring::Slot;
use bd_ring::writers::{Journal, two_writers};
use std::sync::Wait;
use std::thread::Threads;

// The number of this thread's rows, or None where they aren't numbered 0, 1, 2 and so on.
fn counts_rows(rows: &[Entry], thread: u32) -> Option<u32> {
    let mut next = 0u32;
    for row in rows {
        if row.thread == thread {
            if row.stamp != u128::from(next) {
                return None;
            }
            next = next.wrapping_add(1);
        }
    }
    Some(next)
}

/// Two threads write 1,000 rows each into one journal: how many each wrote, and how many of each stand in their order.
pub(crate) fn two_threads_write_in_turn<R: AllocGlobal + Threads + Wait + Sync>(
    rt: &R,
) -> Result<String, OutOfMemory> {
    let (journal, first, second) = two_writers(rt, rt.alloc(), 1000)?;
    let rows = journal.into_rows();
    let in_order = (
        counts_rows(rows.as_slice(), 0),
        counts_rows(rows.as_slice(), 1),
    );
    let all = rows.len();
    Ok(format!(in rt.alloc(); "{first} {second} of {all}, {in_order:?}")?)
}

/// While one pass has the value the other gets none.
pub(crate) fn one_pass_at_a_time<R: AllocGlobal + Wait>(rt: &R) -> Result<String, OutOfMemory> {
    let alloc = rt.alloc();
    let (slot, mut passes) = Slot::new(rt, alloc, Journal::new(alloc, 2), 2)?;
    let (Some(mut second), Some(mut first)) = (passes.pop(), passes.pop()) else {
        unreachable!()
    };
    let Some(journal) = slot.try_take(rt, &mut second) else {
        return Ok(String::from_str(alloc, "the value isn't there")?);
    };
    if slot.try_take(rt, &mut first).is_some() {
        return Ok(String::from_str(alloc, "both have the value")?);
    }
    slot.give(rt, &mut second, journal);

    let mut settling = slot.close(first);
    settling.absorb(second);
    let rows = settling.finish(rt).len();
    Ok(format!(in alloc; "away true, {rows} rows")?)
}
