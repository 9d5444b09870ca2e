//! Turns of a thread, in which its disks serve first.
ghost use Rattle.std.specs.Prelude.{◌≡◌, ◌<◌, ◌≤◌, vec_len, IfOk, OnOk};
ghost use Rattle.bd_disks.specs.Rows.{places};
ghost use Rattle.bd_registry.specs.State.{rows_of};
ghost use Rattle.bd_storage.specs.Served.{WentAloneWithDisks, WentWithDisks};
ghost use Rattle.bd_storage.specs.Serving.{moment, RestsOnDisks, TurnsWith};
ghost use Rattle.bd_thread.specs.Moves.{AddsMore, turned_of};
ghost use Rattle.bd_thread.specs.Looking.{KeepsOwn};
ghost use Rattle.bd_thread.specs.Seen.{number_of, setup_of};
ghost use Rattle.bd_thread.specs.Waits.{Quiets};
ghost use Rattle.bd_thread.specs.Work.{QuietsAlone};

use crate::serving::serve_all;
use bd_base::OutOfMemory;
use bd_disks::Disks;
use bd_outside::Disk;
use bd_thread::{Links, Thread, Turned};

// What is answered, by the number of entries before and after.
fn tell(before: usize, after: usize) -> Turned
    requires { before ≤ after }
    ensures { result ≡ turned_of before after }
{
    if before == after {
        Turned::Quiet
    } else {
        Turned::Moved(after - before)
    }
}

/// A turn (`Thread::turn`) in which first each disk serves pieces of its device, at most 8. `Quiet` only where
/// nothing could be done, by a disk either. The same disks are there after it, also out of memory.
pub fn turn_with_disks<D: Disk>(
    thread: &mut Thread<'_>,
    links: &mut Links,
    disks: &mut Disks<D>,
) -> Result<Turned, OutOfMemory>
    requires me { number_of thread.old < vec_len links.old.queues }
    requires rows { links.old.registry.setup ≡ rows_of (setup_of thread.old) }
    ensures over { OnOk result (WentWithDisks D.state disks.old thread.old links.old disks.new thread.new links.new) }
    ensures tickets { OnOk result (KeepsOwn thread.old → KeepsOwn thread.new) }
    ensures turned { IfOk result (AddsMore links.old links.new) }
    ensures quiet { IfOk result (Quiets thread.old links.old thread.new links.new) }
    ensures disks { IfOk result (RestsOnDisks D.state disks.old thread.old) }
    ensures serves { OnOk result (TurnsWith D.state (moment disks.old thread.old links.old) (moment disks.new thread.new links.new)) }
    ensures kept { places D.state disks.new ≡ places D.state disks.old }
{
    let before = links.entries.len();
    serve_all(thread, links, disks)?;
    thread.turn(links)?;
    Ok(tell(before, links.entries.len()))
}

/// A turn that asks the registry for nothing (`Thread::work`), in which first each disk serves pieces of its
/// device, at most 8. `Quiet` only where nothing could be done, by a disk either. The same disks are there after
/// it, also out of memory.
pub fn work_with_disks<D: Disk>(
    thread: &mut Thread<'_>,
    links: &mut Links,
    disks: &mut Disks<D>,
) -> Result<Turned, OutOfMemory>
    requires { number_of thread.old < vec_len links.old.queues }
    ensures over { OnOk result (WentWithDisks D.state disks.old thread.old links.old disks.new thread.new links.new) }
    ensures tickets { OnOk result (KeepsOwn thread.old → KeepsOwn thread.new) }
    ensures turned { IfOk result (AddsMore links.old links.new) }
    ensures quiet { IfOk result (QuietsAlone thread.old links.old thread.new links.new) }
    ensures alone { OnOk result (WentAloneWithDisks D.state disks.old thread.old links.old disks.new thread.new links.new) }
    ensures disks { IfOk result (RestsOnDisks D.state disks.old thread.old) }
    ensures serves { OnOk result (TurnsWith D.state (moment disks.old thread.old links.old) (moment disks.new thread.new links.new)) }
    ensures kept { places D.state disks.new ≡ places D.state disks.old }
{
    let before = links.entries.len();
    serve_all(thread, links, disks)?;
    thread.work(links)?;
    Ok(tell(before, links.entries.len()))
}
