//! Disks serve the pieces that wait for them.
ghost use Rattle.std.specs.Prelude.{◌≡◌, ◌<◌, vec_len, IfOk, OnOk};
ghost use Rattle.bd_disks.specs.Rows.{places};
ghost use Rattle.bd_storage.specs.Served.{WentWithDisks};
ghost use Rattle.bd_storage.specs.Serving.{moment, NoService, NoServiceOn, Serves, ServesIf, Still};
ghost use Rattle.bd_thread.specs.Looking.{KeepsOwn};
ghost use Rattle.bd_thread.specs.Seen.{number_of};
ghost use Rattle.bd_thread.specs.Waits.{Idles};
ghost use Rattle.bd_thread.specs.Work.{AsksNothing};

use bd_base::{DevId, OutOfMemory};
use bd_disks::Disks;
use bd_outside::Disk;
use bd_thread::{Links, Thread};

/// How many pieces a disk serves in a turn, at most.
const BATCH: u32 = 8;

// The disk of a device serves the piece that is next there: true. False, and nothing changes, where none is,
// or it doesn't lie inside the disk. The same disks are there after it, also out of memory.
fn serve_one<D: Disk>(
    thread: &mut Thread<'_>,
    links: &mut Links,
    disks: &mut Disks<D>,
    dev: DevId,
) -> Result<bool, OutOfMemory>
    requires { number_of thread.old < vec_len links.old.queues }
    ensures over { OnOk result (WentWithDisks D.state disks.old thread.old links.old disks.new thread.new links.new) }
    ensures tickets { OnOk result (KeepsOwn thread.old → KeepsOwn thread.new) }
    ensures quiet { OnOk result (Idles (λ t _links. NoServiceOn D.state disks.old dev t) thread.old links.old thread.new links.new) }
    ensures alone { OnOk result (AsksNothing links.old links.new) }
    ensures same { OnOk result (Still links.old links.new disks.old disks.new) }
    ensures serves { IfOk result (ServesIf D.state (moment disks.old thread.old links.old) (moment disks.new thread.new links.new)) }
    ensures kept { places D.state disks.new ≡ places D.state disks.old }
{
    let Some(piece) = thread.next_on_disk(dev) else {
        return Ok(false);
    };
    let size = thread.block_size(dev);
    if !disks.can_serve(size, piece) {
        return Ok(false);
    }
    let given = disks.serve(size, piece)?;
    thread.serve_as_given(links, dev, given)
}

// The disk of a device serves pieces, at most 8.
fn serve_some<D: Disk>(
    thread: &mut Thread<'_>,
    links: &mut Links,
    disks: &mut Disks<D>,
    dev: DevId,
) -> Result<(), OutOfMemory>
    requires { number_of thread.old < vec_len links.old.queues }
    ensures over { OnOk result (WentWithDisks D.state disks.old thread.old links.old disks.new thread.new links.new) }
    ensures tickets { OnOk result (KeepsOwn thread.old → KeepsOwn thread.new) }
    ensures quiet { OnOk result (Idles (λ t _links. NoServiceOn D.state disks.old dev t) thread.old links.old thread.new links.new) }
    ensures alone { OnOk result (AsksNothing links.old links.new) }
    ensures same { OnOk result (Still links.old links.new disks.old disks.new) }
    ensures serves { OnOk result (Serves D.state (moment disks.old thread.old links.old) (moment disks.new thread.new links.new)) }
    ensures kept { places D.state disks.new ≡ places D.state disks.old }
{
    for _round in 0..BATCH {
        if !serve_one(thread, links, disks, dev)? {
            break;
        }
    }
    Ok(())
}

/// Each disk serves pieces of its device, at most 8.
pub(crate) fn serve_all<D: Disk>(
    thread: &mut Thread<'_>,
    links: &mut Links,
    disks: &mut Disks<D>,
) -> Result<(), OutOfMemory>
    requires { number_of thread.old < vec_len links.old.queues }
    ensures over { OnOk result (WentWithDisks D.state disks.old thread.old links.old disks.new thread.new links.new) }
    ensures tickets { OnOk result (KeepsOwn thread.old → KeepsOwn thread.new) }
    ensures quiet { OnOk result (Idles (λ t _links. NoService D.state disks.old t) thread.old links.old thread.new links.new) }
    ensures alone { OnOk result (AsksNothing links.old links.new) }
    ensures serves { OnOk result (Serves D.state (moment disks.old thread.old links.old) (moment disks.new thread.new links.new)) }
    ensures kept { places D.state disks.new ≡ places D.state disks.old }
{
    for place in 0..disks.len() {
        let Some(dev) = disks.device_at(place) else {
            return Ok(());
        };
        serve_some(thread, links, disks, dev)?;
    }
    Ok(())
}
