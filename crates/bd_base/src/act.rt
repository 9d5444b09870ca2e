//! The acts of a history: each is one step of the layer that nothing divides.
use crate::boxed::Boxed;
use crate::event::{Answer, RegEvent};
use crate::id::{DevId, HandleId, ReqId, WalkId};
use crate::name::Name;
use crate::request::{AbortCause, Decision, Errno, Op, Shown, Status, WalkKind};
use crate::thread_set::ThreadSet;

/// What a message brings.
#[derive(Drop)]
pub enum Token {
    Request(ReqId),
    /// A piece of a request, by its place from 0.
    Piece(ReqId, u32),
    Walk(WalkId),
    /// The next reset may begin, over these threads.
    Go(ReqId, ThreadSet),
    /// The device of this handle is being removed.
    Gone(HandleId),
    /// A channel of this device is to be dropped.
    Channel(DevId),
    /// This device is to be destructed.
    Device(DevId),
    /// A script's mark.
    Mark(Name),
    /// The content of this device is to grow to this many blocks.
    Grow(DevId, u64),
    /// The device of this handle has this many blocks from now on.
    Sized(HandleId, u64),
}

/// How the home ended a piece.
#[derive(Clone, Copy, PartialEq, Eq)]
pub enum ApplyEnd {
    Done,
    /// The disk failed.
    Fault,
}

/// The outcome of a script's line.
#[derive(Clone, Copy, PartialEq, Eq)]
pub enum Outcome {
    Done,
    Errno(Errno),
    /// A close while this number of requests is open.
    BusyOpen(u32),
    Accepted(ReqId),
}

/// What a thread did.
#[derive(Drop)]
pub enum Act {
    /// A message left for a thread's ring. Messages are numbered from 0 by sender and receiver.
    Put {
        to: u32,
        number: u128,
        what: Token,
    },
    /// A message was taken from this thread's ring.
    Took {
        source: u32,
        number: u128,
        what: Token,
    },
    /// An event of the registry. The answer has a place of its own, since few acts have one and an entry is to stay narrow.
    Reg {
        event: RegEvent,
        answer: Boxed<Answer>,
    },
    /// A request was accepted: its range is in blocks of the handle's device.
    Accept {
        dev: DevId,
        lba: u64,
        handle: HandleId,
        req: ReqId,
        op: Op,
        count: u64,
    },
    /// A submission was refused; a name that is not bound gives no handle.
    Refuse {
        errno: Errno,
        lba: u64,
        handle: Option<HandleId>,
        op: Op,
        count: u64,
    },
    /// A request took this decision of an error device.
    Inject {
        req: ReqId,
        dev: DevId,
        decision: Decision,
    },
    /// A request is kept without an answer.
    Pend {
        req: ReqId,
    },
    /// A request passed a device's limits at this moment (microseconds).
    Let {
        req: ReqId,
        dev: DevId,
        now: u64,
    },
    /// A request was cut into this number of pieces.
    Cut {
        req: ReqId,
        pieces: u32,
    },
    /// The home applied a piece to a base device.
    Apply {
        req: ReqId,
        k: u32,
        dev: DevId,
        end: ApplyEnd,
    },
    /// The home's queue was full, and the piece goes back.
    NoMem {
        req: ReqId,
        k: u32,
        dev: DevId,
    },
    /// A request is held by delays until this moment (microseconds).
    Hold {
        req: ReqId,
        until: u64,
    },
    /// The hold ended at this moment (microseconds).
    Release {
        req: ReqId,
        now: u64,
    },
    Abort {
        req: ReqId,
        cause: AbortCause,
    },
    /// A request completed; data is shown exactly for a read with success.
    Complete {
        req: ReqId,
        status: Status,
        shown: Option<Shown>,
    },
    /// A walk was handled on this thread.
    Visit {
        walk: WalkId,
        dev: DevId,
        kind: WalkKind,
    },
    /// Timeslices of a device's limits passed, at least one.
    Tick {
        dev: DevId,
        now: u64,
        slices: u64,
    },
    /// A device's module was told to end; a malloc device's contents have this digest.
    Destruct {
        dev: DevId,
        digest: Option<[u8; 32]>,
    },
    /// A script's line was done.
    Script {
        line: u32,
        outcome: Outcome,
    },
    /// Every thread is at rest, and no further line is done.
    Shutdown,
    /// The home gave a device's content this number of blocks, more than it had; the new ones are zeros.
    Grow {
        dev: DevId,
        blocks: u64,
    },
    /// The drain time that a reset's walk began on this thread lasts until this moment (microseconds).
    Grace {
        walk: WalkId,
        until: u64,
    },
    /// That drain time was over at this moment (microseconds), and what still waits is aborted.
    Due {
        walk: WalkId,
        now: u64,
    },
}

/// A line of a thread's log. Stamps rise in each log, beginning at 1 or above.
#[derive(Drop)]
pub struct Entry {
    pub stamp: u128,
    pub thread: u32,
    pub act: Act,
}

// A history has millions of entries, and each log keeps its own in a table.
const _: () = prove!(size_of::<Op>() == 24);

const _: () = prove!(size_of::<Token>() == 48);

const _: () = prove!(size_of::<RegEvent>() == 48);

const _: () = prove!(size_of::<Act>() == 80);

const _: () = prove!(size_of::<Entry>() == 112);
