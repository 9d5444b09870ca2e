//! Events of the registry: what a thread asks of it, and what it answers.
use crate::id::{DevId, HandleId, ReqId, ThreadId};
use crate::name::Name;
use crate::request::{Decision, Errno, Op};
use crate::rows::{DevList, HandleList};
use crate::thread_set::ThreadSet;

/// What a claim lets others do.
#[derive(Clone, Copy, Debug, PartialEq, Eq)]
pub enum ClaimKind {
    /// One writer, and no other claim.
    Exclusive,
    /// One writer among the handles, others may read.
    WriteOne,
    /// No writer at all.
    WriteNone,
    /// Writers that share this key, which is not 0.
    Shared(u64),
}

/// The outcome of a call that drops a channel.
#[derive(Clone, Copy, Debug, PartialEq, Eq)]
pub enum Dropped {
    /// It has a reference, or there was none.
    Kept,
    /// It is gone.
    Gone,
    /// It is gone, and it was the last channel of its device.
    Last,
}

/// What is asked of the registry.
#[derive(Drop)]
pub enum RegEvent {
    Open { name: Name, write: bool },
    Close { handle: HandleId },
    Claim { handle: HandleId, kind: ClaimKind },
    GetChannel { dev: DevId },
    /// `closing`: the close of a script's handle follows under the same hold of the registry.
    PutChannel { dev: DevId, closing: bool },
    DropChannel { dev: DevId },
    BeginRemove { name: Name },
    BeginReset { dev: DevId, req: ReqId },
    EndReset { dev: DevId },
    FinishReset { dev: DevId },
    TakeInjection { dev: DevId, req: ReqId, op: Op },
    Destructed { dev: DevId },
    /// A malloc or null device is to have this number of blocks, more than it has.
    BeginResize { name: Name, blocks: u64 },
    EndResize { dev: DevId },
}

/// What the registry answers.
#[derive(Drop)]
pub enum Answer {
    /// `blocks`: the size that the device has now.
    Opened {
        handle: HandleId,
        dev: DevId,
        blocks: u64,
    },
    /// `destruct`: the device that this close left being removed with neither handle nor channel.
    Closed {
        destruct: Option<DevId>,
    },
    Claimed,
    /// `frozen`: the devices whose channels were made and that are being reset, from the top down.
    Got {
        fresh: bool,
        frozen: DevList,
    },
    /// How many references are left.
    PutDown {
        left: u128,
    },
    /// `zero`: the base whose count on this thread reached zero by this drop.
    Dropped {
        what: Dropped,
        zero: Option<DevId>,
        destruct: Option<DevId>,
    },
    /// The threads that have a channel, and the open handles, by rising number.
    Removing {
        dev: DevId,
        threads: ThreadSet,
        handles: HandleList,
        destruct: Option<DevId>,
    },
    ResetStarted {
        threads: ThreadSet,
    },
    ResetQueued,
    ResetEnded {
        threads: ThreadSet,
    },
    /// The next reset that waited, with the threads that have a channel.
    ResetFinished {
        next: Option<(ReqId, ThreadSet)>,
    },
    Injected {
        decision: Decision,
    },
    /// The base handle whose last user was destructed.
    Freed {
        close: Option<HandleId>,
    },
    /// The thread that is to let the content grow.
    Resizing {
        dev: DevId,
        home: ThreadId,
    },
    /// The open handles, by rising number, whose devices have this size from now on; `destruct`: the device,
    /// where it is being removed and only its resize kept it.
    Resized {
        handles: HandleList,
        blocks: u64,
        destruct: Option<DevId>,
    },
    /// Nothing else changed.
    Refused(Errno),
}
