//! Walks begin and end: what that makes of a thread's part, and the walk that begins.
ghost use Rattle.std.specs.Prelude.{◌≡◌, ◌++◌, IfOk, OnOk};
ghost use Rattle.bd_base.specs.declared.request.WalkKind.TheVariants.{Freeze};
ghost use Rattle.bd_machine.specs.Events.{alone};
ghost use Rattle.bd_machine.specs.Walks.{after_walk, begin_walk_with, drain_threads, is_at_end, numbered, over_nobody, walked};
ghost use Rattle.bd_rule_effects.specs.Begun.{begun, walk_moved, with_walk};

use crate::resets::stage;
use bd_base::{DevId, OutOfMemory, ReqId, ThreadSet, WalkId, WalkKind};
use bd_blocks::is_nobody;
use bd_machine::{OpenWalk, Part, Stage};
use bd_rule_requests::reset_of;

/// A walk that is to begin: over these threads, for a device, for a reset's request if it is one of a reset, and
/// for a freeze walk with the drain time of its reset (microseconds), else 0.
#[derive(Clone, Copy, PartialEq, Eq)]
pub struct Plan {
    pub dev: DevId,
    pub kind: WalkKind,
    pub threads: ThreadSet,
    pub request: Option<ReqId>,
    pub time: u64,
}

// Numbers of walks are used up. A number past 128 bits counts as out of memory.
fn number(part: &mut Part, n: u128) -> Result<(), OutOfMemory>
    ensures { OnOk result (part.new ≡ numbered n part.old) }
{
    match part.next_walk.checked_add(n) {
        Some(next) => {
            part.next_walk = next;
            Ok(())
        }
        None => Err(OutOfMemory),
    }
}

// A walk over nobody begins and ends at once; after a freeze walk so does the drain walk.
fn begin_over_nobody(part: &mut Part, kind: WalkKind, req: Option<ReqId>) -> Result<(), OutOfMemory>
    ensures { OnOk result (part.new ≡ over_nobody kind req part.old) }
{
    match kind {
        WalkKind::Freeze => {
            number(part, 2)?;
            stage(part, req, Stage::Drained);
        }
        WalkKind::Drain => {
            number(part, 1)?;
            stage(part, req, Stage::Drained);
        }
        WalkKind::Thaw => {
            number(part, 1)?;
            stage(part, req, Stage::Thawed);
        }
        WalkKind::Removal => number(part, 1)?,
    }
    Ok(())
}

/// A walk begins on the thread, with the next number, unless it is over nobody: then it ends at once,
/// and there is none. Out of memory leaves the part unspecified.
pub fn begin_walk(
    part: &mut Part,
    thread: u32,
    plan: Plan,
) -> Result<Option<(WalkId, OpenWalk)>, OutOfMemory>
    ensures { IfOk result (λ walk. with_walk part.new walk ≡ begin_walk_with thread plan.kind plan.dev plan.threads plan.request plan.time (alone part.old)) }
{
    if is_nobody(plan.threads) {
        begin_over_nobody(part, plan.kind, plan.request)?;
        return Ok(None);
    }
    let id = WalkId {
        thread,
        seq: part.next_walk,
    };
    number(part, 1)?;
    Ok(Some((
        id,
        OpenWalk {
            dev: plan.dev,
            kind: plan.kind,
            left: plan.threads,
            request: plan.request,
            taken: false,
            time: plan.time,
        },
    )))
}

// The threads over which the drain walk of a reset goes: those that were frozen.
fn drain_threads(part: &Part, req: Option<ReqId>) -> ThreadSet
    ensures { result ≡ drain_threads part.now req }
{
    let reset = match req {
        Some(id) => reset_of(part, id),
        None => None,
    };
    match reset {
        Some(r) => r.threads,
        None => ThreadSet(0),
    }
}

// A freeze walk ended: the drain walk begins over the threads that were frozen.
fn drain(
    part: &mut Part,
    thread: u32,
    walk: OpenWalk,
) -> Result<Option<(WalkId, OpenWalk)>, OutOfMemory>
    ensures { IfOk result (λ begun. with_walk part.new begun ≡ after_walk thread walk Freeze (alone part.old)) }
{
    let threads = drain_threads(part, walk.request);
    stage(part, walk.request, Stage::Draining);
    let plan = Plan {
        dev: walk.dev,
        kind: WalkKind::Drain,
        threads,
        request: walk.request,
        time: 0,
    };
    begin_walk(part, thread, plan)
}

/// A walk ended on the thread that began it: after a freeze walk the drain walk begins. Out of memory
/// leaves the part unspecified.
pub fn end_walk(
    part: &mut Part,
    thread: u32,
    walk: OpenWalk,
) -> Result<Option<(WalkId, OpenWalk)>, OutOfMemory>
    ensures { IfOk result (λ begun. with_walk part.new begun ≡ after_walk thread walk walk.kind (alone part.old)) }
{
    match walk.kind {
        WalkKind::Freeze => return drain(part, thread, walk),
        WalkKind::Drain => stage(part, walk.request, Stage::Drained),
        WalkKind::Thaw => stage(part, walk.request, Stage::Thawed),
        WalkKind::Removal => {}
    }
    Ok(None)
}

/// Whether a walk that is on the thread ends there: no thread is left, and this one began it.
pub fn is_at_end(thread: u32, id: WalkId, walk: OpenWalk) -> bool
    ensures { result ≡ is_at_end thread id walk }
{
    is_nobody(walk.left) && id.thread == thread
}

/// A walk is on the thread: it ends where no thread is left and this one began it, and may be followed
/// by another; else it stays. Out of memory leaves the part unspecified.
pub fn walk_on(
    part: &mut Part,
    thread: u32,
    id: WalkId,
    walk: OpenWalk,
) -> Result<Option<(WalkId, OpenWalk)>, OutOfMemory>
    ensures part { OnOk result (part.new ≡ (walked thread id walk part.old).part) }
    ensures moves { IfOk result (λ next. (walked thread id walk part.old).moves ≡ walk_moved thread id walk ++ begun next) }
{
    if is_at_end(thread, id, walk) {
        end_walk(part, thread, walk)
    } else {
        Ok(None)
    }
}
