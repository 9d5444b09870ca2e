//! From the passes for each ring to the passes of each thread, and back.
ghost use Rattle.std.specs.Prelude.{◌≡◌, ◌<◌, length};
ghost use Rattle.bd_wires.specs.Transposing.{Exchanged, IsSquare, RowExchanged, Transposed};

use crate::wires::Passes;
use std::mem;

// Two threads exchange: what the earlier has for the later, with what that has for the earlier.
fn exchange(passes: &mut [Passes], first: usize, second: usize)
    requires square { IsSquare (length passes.old) passes.old }
    requires first { first < second }
    requires second { second < length passes.old }
    ensures { Exchanged first second passes.old passes.new }
{
    let (earlier, later) = passes.split_at_mut(second);
    mem::swap(
        &mut earlier[first].sends[second],
        &mut later[0].sends[first],
    );
}

// A thread exchanges with each earlier one.
fn exchange_row(passes: &mut [Passes], thread: usize)
    requires square { IsSquare (length passes.old) passes.old }
    requires thread { thread < length passes.old }
    ensures { RowExchanged thread thread passes.old passes.new }
{
    for earlier in 0..thread {
        exchange(passes, earlier, thread);
    }
}

/// All threads exchange with each other. It takes no memory.
pub(crate) fn transpose(passes: &mut [Passes])
    requires square { IsSquare (length passes.old) passes.old }
    ensures { Transposed passes.old passes.new }
{
    for thread in 0..passes.len() {
        exchange_row(passes, thread);
    }
}
