//! A thread that holds what it sees, by hand: which acts the guards refuse, and which they let
//! pass; so which requests a mark stops, and what a drain waits for.
ghost use Rattle.std.specs.Prelude.{filter};
ghost use Rattle.bd_machine.specs.Registry.{references};
ghost use Rattle.bd_machine.specs.Same.{same_id};
ghost use Rattle.bd_machine.specs.Table.{look_up};
ghost use Rattle.bd_machine.specs.View.{is_of};

use crate::setups::limited_device;
use bd_base::{
    AbortCause, Decision, DevId, HandleId, Op, OutOfMemory, Rates, ReqId, Setup, ThreadSet, WalkId,
    WalkKind,
};
use bd_blocks::{part_at_start, references, registry_at_start};
use bd_machine::guard::{
    ABORT_CAUSE, DRAINED, FIRST_IN_LINE, GRACE_DUE, GROW_DUE, HOLD_OVER, INJECTION_TAKEN, MARK_DUE,
    MAY_ABORT, MAY_HOLD, MAY_PEND, NEXT_VISIT, TICK_DUE, WITHIN_LIMITS,
};
use bd_machine::{
    FreezeMark, Handle, Id, Kept, Marking, Open, OpenWalk, Owed, Part, Prior, Registry, Trip,
};
use bd_rule_faults::{
    refused_abort, refused_due, refused_grace, refused_hold, refused_inject, refused_let,
    refused_pend, refused_release, refused_tick,
};
use bd_rule_requests::{may_grow, new_request};
use bd_rule_view::{Sees, Submission, look_up, own_handle};
use bd_rule_walks::refused_visit;
use std::alloc::Global;
use std::process::Abort;
use std::test::Fail;

const DEV: DevId = DevId(0);

const HANDLE: HandleId = HandleId(0);

const REQ: ReqId = ReqId { thread: 0, seq: 3 };

const OTHER: ReqId = ReqId { thread: 0, seq: 4 };

const WALK: WalkId = WalkId { thread: 0, seq: 0 };

// The causes by which a reset and a removal of the device abort.
const RESET: AbortCause = AbortCause::Frozen(DEV);

const REMOVAL: AbortCause = AbortCause::Removed(DEV);

const READ: Submission = Submission {
    op: Op::Read,
    lba: 0,
    count: 1,
};

// What a thread holds.
#[derive(Drop)]
struct Holder {
    part: Part,
    held: Vec<(Id, Kept)>,
    registry: Registry,
}

impl Sees for Holder {
    ghost view_of = { λ h. record {
      part = h.part;
      here = λ id. look_up same_id h.held.items id;
      handles = filter (is_of 0) h.registry.handles;
      channels = references h.registry 0;
    } };

    ghost thread_of = { λ h. 0 };

    fn thread(&self) -> u32 {
        0
    }

    fn part(&self) -> &Part {
        &self.part
    }

    fn kept(&self, id: Id) -> Option<&Kept> {
        look_up(self.held.as_slice(), id)
    }

    fn handle(&self, id: HandleId) -> Option<Handle> {
        own_handle(self.registry.handles.as_slice(), 0, id)
    }

    #[tactic(auto, using(bd_machine::proofs::Laws::filter_twice))]
    fn handles_of(&self, _dev: DevId) -> &[Handle] {
        self.registry.handles.as_slice()
    }

    fn channels(&self, dev: DevId) -> Option<u128> {
        references(&self.registry, 0, dev)
    }
}

// What the device lets pass: 1,000 requests a second, one in a timeslice.
const RATES: Rates = Rates {
    rw_ios_per_sec: 1000,
    rw_mbytes_per_sec: 0,
    r_mbytes_per_sec: 0,
    w_mbytes_per_sec: 0,
};

// What the thread has: one read, open there or elsewhere, on its own way or out to the limits of
// its device, where it may wait with so many requests left; a walk that came here for a drain; and
// the marks of its device: a freeze mark or none, or no marks at all. The read was accepted before
// that freeze mark, or it is late.
#[derive(Clone, Copy)]
struct Case {
    open: bool,
    trip: Trip,
    waits: bool,
    left: i128,
    walks: bool,
    marked: Option<FreezeMark>,
    late: bool,
    // what the thread's entry before was
    prior: Option<Prior>,
    // the device is to grow to eight blocks
    grows: bool,
}

// The read is open, on its own way.
const OPEN: Case = Case {
    open: true,
    trip: Trip::Own,
    waits: false,
    left: 1,
    walks: false,
    marked: None,
    late: false,
    prior: None,
    grows: false,
};

// It waits for the limits of its device.
const WAITING: Case = Case {
    trip: Trip::Out,
    waits: true,
    ..OPEN
};

// It is open, and its device is frozen.
const FROZEN: Case = Case {
    marked: Some(FreezeMark::Hard),
    ..OPEN
};

// Its device was frozen, and is no more.
const THAWED: Case = Case {
    marked: Some(FreezeMark::Not),
    ..OPEN
};

// The mark of a reset with a drain time of a millisecond.
const SOFT_MARK: FreezeMark = FreezeMark::Soft {
    walk: WALK,
    time: 1000,
    until: None,
};

// It lasts until the moment 1,000.
const LASTING: FreezeMark = FreezeMark::Soft {
    walk: WALK,
    time: 1000,
    until: Some(1000),
};

// Such a mark was set by the thread's entry before.
const SOFTENED: Case = Case {
    marked: Some(SOFT_MARK),
    prior: Some(Prior::Softening {
        walk: WALK,
        dev: DEV,
    }),
    ..OPEN
};

// It stands until the moment 1,000.
const SOFT: Case = Case {
    marked: Some(LASTING),
    ..OPEN
};

// The read waits for the limits, and such a mark stands.
const SOFT_WAITING: Case = Case {
    marked: Some(LASTING),
    ..WAITING
};

// Puts the read where the case has it.
fn fill_requests(part: &mut Part, case: Case) -> Result<(), OutOfMemory> {
    if case.open {
        part.requests.push(Open {
            id: REQ,
            handle: HANDLE,
            dev: DEV,
            op: Op::Read,
        })?;
    }
    if part.limited.len() == 1 {
        let limited = part.limited.at_mut(0);
        limited.left.rw_requests = case.left;
        if case.waits {
            limited.waiting.push(REQ)?;
        }
    }
    Ok(())
}

fn fill_marks(part: &mut Part, case: Case) -> Result<(), OutOfMemory> {
    if let Some(frozen) = case.marked {
        let marking = Marking {
            frozen,
            removed: false,
            times: 1,
        };
        part.marked.push((DEV, marking))?;
    }
    Ok(())
}

fn fill(part: &mut Part, case: Case) -> Result<(), OutOfMemory> {
    fill_requests(part, case)?;
    if case.grows {
        part.owed.push(Owed::Grow(DEV, 8))?;
    }
    part.prior = case.prior;
    fill_marks(part, case)
}

fn part(alloc: Global, setup: &Setup, case: Case) -> Result<Part, OutOfMemory> {
    let mut part = part_at_start(alloc, setup, 0)?;
    fill(&mut part, case)?;
    Ok(part)
}

// The read, which the thread accepted when it had this part.
fn request(setup: &Setup, part: &Part, case: Case) -> Kept {
    let mut request = new_request(setup, part, HANDLE, DEV, READ);
    request.trip = case.trip;
    Kept::Request(request)
}

fn walk() -> Kept {
    Kept::Walk(OpenWalk {
        dev: DEV,
        kind: WalkKind::Drain,
        left: ThreadSet(1),
        request: None,
        taken: true,
        time: 0,
    })
}

fn held(alloc: Global, setup: &Setup, case: Case) -> Result<Vec<(Id, Kept)>, OutOfMemory> {
    let accepting = part(alloc, setup, if case.late { case } else { OPEN })?;
    let mut held = Vec::new(alloc);
    held.push((Id::Request(REQ), request(setup, &accepting, case)))?;
    if case.walks {
        held.push((Id::Walk(WALK), walk()))?;
    }
    Ok(held)
}

fn seen_in(alloc: Global, setup: &Setup, case: Case) -> Result<Holder, OutOfMemory> {
    let held = held(alloc, setup, case)?;
    let registry = registry_at_start(alloc, setup)?;
    let part = part(alloc, setup, case)?;
    Ok(Holder {
        part,
        held,
        registry,
    })
}

// An act of the thread, on the read or on one that isn't here.
#[derive(Clone, Copy)]
enum Deed {
    Let,
    // with this moment
    Tick(u64),
    Inject,
    Pend,
    Hold,
    Release,
    Abort(ReqId, AbortCause),
    Visit,
    // until this moment
    Grace(u64),
    Due(u64),
    // to this number of blocks
    Grow(u64),
}

fn refused_grow(seen: &Holder, setup: &Setup, blocks: u64) -> Option<u32> {
    if may_grow(seen, setup, 0, DEV, blocks) {
        None
    } else {
        Some(GROW_DUE)
    }
}

fn refused(seen: &Holder, setup: &Setup, deed: Deed) -> Result<Option<u32>, OutOfMemory> {
    match deed {
        Deed::Let => Ok(refused_let(seen, setup, 0, REQ, DEV, 7)),
        Deed::Tick(now) => refused_tick(seen, setup, 0, DEV, now, 1),
        Deed::Inject => Ok(refused_inject(seen, REQ, DEV, Decision::Fail)),
        Deed::Pend => Ok(refused_pend(seen, 0, REQ)),
        Deed::Hold => refused_hold(seen, setup, 0, REQ, 9),
        Deed::Release => refused_release(seen, setup, 0, REQ, 9),
        Deed::Abort(req, cause) => Ok(refused_abort(seen, setup, 0, req, cause)),
        Deed::Grace(until) => Ok(refused_grace(seen, WALK, until)),
        Deed::Due(now) => Ok(refused_due(seen, WALK, now)),
        Deed::Grow(blocks) => Ok(refused_grow(seen, setup, blocks)),
        Deed::Visit => { Ok(refused_visit(seen, setup, 0, WALK, DEV, WalkKind::Drain)) }
    }
}

// The guard that refuses the act in this case, if one does.
fn answer(
    alloc: Global,
    setup: &Setup,
    case: Case,
    deed: Deed,
) -> Result<Option<u32>, OutOfMemory> {
    let seen = seen_in(alloc, setup, case)?;
    refused(&seen, setup, deed)
}

const ROWS: [(Case, Deed, Option<u32>); 37] = [
    // a read that waits for the limits passes, unless it isn't the first there or nothing is left
    (WAITING, Deed::Let, None),
    (OPEN, Deed::Let, Some(FIRST_IN_LINE)),
    (Case { left: 0, ..WAITING }, Deed::Let, Some(WITHIN_LIMITS)),
    // a timeslice of 1,000 microseconds passed, not 999, and somebody waits
    (WAITING, Deed::Tick(1000), None),
    (WAITING, Deed::Tick(999), Some(TICK_DUE)),
    (OPEN, Deed::Tick(1000), Some(TICK_DUE)),
    // nothing was taken of an error device, and no decision keeps the read
    (OPEN, Deed::Inject, Some(INJECTION_TAKEN)),
    (OPEN, Deed::Pend, Some(MAY_PEND)),
    // no delay device is below, and nothing is held
    (OPEN, Deed::Hold, Some(MAY_HOLD)),
    (OPEN, Deed::Release, Some(HOLD_OVER)),
    // a request that isn't here, and one whose device carries no mark
    (OPEN, Deed::Abort(OTHER, REMOVAL), Some(MAY_ABORT)),
    (OPEN, Deed::Abort(REQ, REMOVAL), Some(ABORT_CAUSE)),
    // a freeze mark stops the read while it stands, and is no cause for a removal
    (FROZEN, Deed::Abort(REQ, RESET), None),
    (FROZEN, Deed::Abort(REQ, REMOVAL), Some(ABORT_CAUSE)),
    (THAWED, Deed::Abort(REQ, RESET), Some(ABORT_CAUSE)),
    // it stops the read too where that waits for the limits, also if it isn't open on this thread
    (
        Case {
            marked: Some(FreezeMark::Hard),
            ..WAITING
        },
        Deed::Abort(REQ, RESET),
        None,
    ),
    (
        Case {
            open: false,
            marked: Some(FreezeMark::Hard),
            ..WAITING
        },
        Deed::Abort(REQ, RESET),
        None,
    ),
    // a soft mark stops only what is late
    (SOFT, Deed::Abort(REQ, RESET), Some(ABORT_CAUSE)),
    (Case { late: true, ..SOFT }, Deed::Abort(REQ, RESET), None),
    (SOFT_WAITING, Deed::Let, None),
    (
        Case {
            late: true,
            ..SOFT_WAITING
        },
        Deed::Let,
        Some(FIRST_IN_LINE),
    ),
    // it lasts at least its drain time, which the entry after the visit says, and ends then
    (SOFTENED, Deed::Grace(1000), None),
    (SOFTENED, Deed::Grace(5000), None),
    (SOFTENED, Deed::Grace(999), Some(GRACE_DUE)),
    (SOFT, Deed::Grace(1000), Some(GRACE_DUE)),
    (SOFT, Deed::Due(1000), None),
    (SOFT, Deed::Due(999), Some(MARK_DUE)),
    (SOFTENED, Deed::Due(1000), Some(MARK_DUE)),
    (FROZEN, Deed::Due(1000), Some(MARK_DUE)),
    (OPEN, Deed::Due(1000), Some(MARK_DUE)),
    // a device grows to the blocks that its home was told
    (
        Case {
            grows: true,
            ..OPEN
        },
        Deed::Grow(8),
        None,
    ),
    (
        Case {
            grows: true,
            ..OPEN
        },
        Deed::Grow(9),
        Some(GROW_DUE),
    ),
    (OPEN, Deed::Grow(8), Some(GROW_DUE)),
    // no walk is here; a drain waits for the open read, and goes on without one
    (OPEN, Deed::Visit, Some(NEXT_VISIT)),
    (
        Case {
            walks: true,
            ..OPEN
        },
        Deed::Visit,
        Some(DRAINED),
    ),
    (
        Case {
            open: false,
            walks: true,
            ..OPEN
        },
        Deed::Visit,
        None,
    ),
    // nor does it wait for a read that waits here for the limits, and isn't open on this thread
    (
        Case {
            open: false,
            walks: true,
            ..WAITING
        },
        Deed::Visit,
        None,
    ),
];

fn are_refused(rt: &impl Abort, alloc: Global, setup: &Setup) {
    for row in &ROWS {
        let (case, deed, guard) = *row;
        let refused = answer(alloc, setup, case, deed);
        assert!(rt; refused == Ok(guard), "{guard:?}");
    }
}

#[test]
fn what_the_guards_refuse_and_let_pass(rt: HostRuntime) -> Result<(), Fail> {
    let setup = limited_device(rt.alloc(), RATES)?;
    are_refused(&rt, rt.alloc(), &setup);
    Ok(())
}
