//! Visit: a walk is at a thread, and sets or takes its marks.
ghost use Rattle.std.specs.Prelude.{◌≡◌, ◌+◌, IfOk, OnOk};
ghost use Rattle.bd_machine.specs.Delays.{uncounted};
ghost use Rattle.bd_machine.specs.Guards.{softens};
ghost use Rattle.bd_machine.specs.Same.{same_dev};
ghost use Rattle.bd_machine.specs.Step.{first_failing};
ghost use Rattle.bd_machine.specs.Table.{write};
ghost use Rattle.bd_machine.specs.Marks.{freeze_set, hardened};
ghost use Rattle.bd_machine.specs.Walks.{guards_visit, is_next_visit, marked_by, put_owed, time_of_walk, visited};
ghost use Rattle.bd_rule_walks.specs.Walking.{with_channel};

use crate::waits::is_drained;
use bd_base::{DevId, OutOfMemory, Setup, WalkId, WalkKind};
use bd_blocks::{first_of, home, is_limited, without, write_row};
use bd_machine::guard::{DRAINED, NEXT_VISIT};
use bd_machine::{Delayed, FreezeMark, Marking, OpenWalk, Owed, Part};
use bd_rule_requests::{marking_of, walk_here};
use bd_rule_view::{Sees, same_walk_kind};

// ---- whether it is allowed

fn is_next_visit(thread: u32, dev: DevId, kind: WalkKind, here: Option<OpenWalk>) -> bool
    ensures { result ≡ is_next_visit thread dev kind here }
{
    let Some(w) = here else {
        return false;
    };
    let is_next = match first_of(w.left) {
        Some(first) => thread == first,
        None => false,
    };
    w.taken && is_next && w.dev.0 == dev.0 && same_walk_kind(w.kind, kind)
}

/// Why a Visit isn't allowed.
pub fn refused_visit<S: Sees>(
    seen: &S,
    setup: &Setup,
    thread: u32,
    walk: WalkId,
    dev: DevId,
    kind: WalkKind,
) -> Option<u32>
    ensures { result ≡ first_failing (guards_visit setup.now thread (S.view_of seen.now) walk dev kind) }
{
    if !is_next_visit(thread, dev, kind, walk_here(seen, walk)) {
        return Some(NEXT_VISIT);
    }
    if is_drained(setup, seen.part(), dev, kind) {
        None
    } else {
        Some(DRAINED)
    }
}

// ---- marks

/// A device has these marks on the thread. Out of memory leaves the part unspecified.
pub fn remark(part: &mut Part, dev: DevId, marking: Marking) -> Result<(), OutOfMemory>
    ensures { OnOk result (part.new ≡ record part.old { marked = write same_dev part.old.marked dev marking }) }
{
    write_row(&mut part.marked, dev, marking)
}

/// The delays of a device's channel on the thread count from 0. Out of memory leaves the part
/// unspecified.
pub fn uncount(part: &mut Part, dev: DevId) -> Result<(), OutOfMemory>
    ensures { OnOk result (part.new ≡ record part.old { delayed = write same_dev part.old.delayed dev uncounted }) }
{
    let counted = Delayed {
        reads: 0,
        writes: 0,
    };
    write_row(&mut part.delayed, dev, counted)
}

fn once_more(times: u128) -> Result<u128, OutOfMemory>
    ensures { IfOk result (λ n. n ≡ times + 1) }
{
    match times.checked_add(1) {
        Some(n) => Ok(n),
        None => Err(OutOfMemory),
    }
}

// The home of a limited device owes the put of its channel.
fn owe_put(part: &mut Part, setup: &Setup, thread: u32, dev: DevId) -> Result<(), OutOfMemory>
    ensures { OnOk result (part.new ≡ put_owed setup.now thread dev part.old) }
{
    if is_limited(setup, dev) && home(setup, dev) == thread {
        part.owed.push(Owed::Put(dev))?;
    }
    Ok(())
}

/// A mark that is hard from now on. A count past 128 bits is out of memory.
pub fn hardened(marking: Marking) -> Result<Marking, OutOfMemory>
    ensures { IfOk result (λ m. m ≡ hardened marking) }
{
    let times = once_more(marking.times)?;
    Ok(Marking {
        frozen: FreezeMark::Hard,
        removed: marking.removed,
        times,
    })
}

// The mark that a freeze walk's visit sets: hard, or soft where the reset has a drain time (microseconds).
fn freeze_set(walk: WalkId, time: u64, marking: Marking) -> Result<Marking, OutOfMemory>
    ensures { IfOk result (λ m. m ≡ freeze_set walk time marking) }
{
    if time == 0 {
        return hardened(marking);
    }
    let until = None;
    Ok(Marking {
        frozen: FreezeMark::Soft { walk, time, until },
        removed: marking.removed,
        times: marking.times,
    })
}

/// The drain time that a walk brings (microseconds); 0 where there is no walk.
pub fn time_of_walk(here: Option<OpenWalk>) -> u64
    ensures { result ≡ time_of_walk here }
{
    match here {
        Some(w) => w.time,
        None => 0,
    }
}

/// Whether a visit of this walk sets a soft mark: it is a freeze walk with a drain time, and the thread has the
/// device's channel.
pub fn softens<S: Sees>(seen: &S, walk: WalkId, dev: DevId, kind: WalkKind) -> bool
    ensures { result ≡ softens (S.view_of seen.now) walk dev kind }
{
    match kind {
        WalkKind::Freeze => {
            seen.channels(dev).is_some() && 0 < time_of_walk(walk_here(seen, walk))
        }
        _ => false,
    }
}

/// A walk that visits a thread: its device and kind, and the drain time that it brings (microseconds).
#[derive(Clone, Copy, PartialEq, Eq)]
pub struct Visiting {
    pub walk: WalkId,
    pub dev: DevId,
    pub kind: WalkKind,
    pub time: u64,
}

/// A visit sets the freeze mark where the thread has a channel, hard or soft by the drain time, or the removal mark,
/// or takes the freeze mark. A count past 128 bits is out of memory, which leaves the part unspecified.
pub fn mark(
    part: &mut Part,
    setup: &Setup,
    thread: u32,
    channel: Option<u128>,
    visit: Visiting,
) -> Result<(), OutOfMemory>
    ensures { OnOk result (part.new ≡ marked_by setup.now thread (with_channel part.old channel visit.time) visit.walk visit.dev visit.kind) }
{
    let dev = visit.dev;
    let mut marking = marking_of(part, dev);
    match visit.kind {
        WalkKind::Freeze => {
            if channel.is_none() {
                return Ok(());
            }
            let frozen = freeze_set(visit.walk, visit.time, marking)?;
            remark(part, dev, frozen)
        }
        WalkKind::Drain => Ok(()),
        WalkKind::Thaw => {
            marking.frozen = FreezeMark::Not;
            remark(part, dev, marking)
        }
        WalkKind::Removal => {
            marking.removed = true;
            marking.times = once_more(marking.times)?;
            remark(part, dev, marking)?;
            owe_put(part, setup, thread, dev)
        }
    }
}

/// A walk that visited a thread.
pub fn visited(thread: u32, walk: OpenWalk) -> OpenWalk
    ensures { result ≡ visited thread walk }
{
    let mut after = walk;
    after.left = without(walk.left, thread);
    after
}
