//! Lines of a script.
ghost use Rattle.std.specs.Prelude.{◌≡◌};
ghost use Rattle.bd_base.specs.Word.{job_word, submit_word};

use crate::event::ClaimKind;
use crate::name::Name;
use crate::request::Op;
use crate::rows::{NameList, Rows, SizeList};

/// What a script's line asks.
#[derive(Drop)]
pub enum Job {
    /// Opens a device, for reading or for writing too, and binds the name to the handle.
    Open {
        handle: Name,
        dev: Name,
        write: bool,
    },
    Close {
        handle: Name,
    },
    Claim {
        handle: Name,
        kind: ClaimKind,
    },
    /// Submits a request on blocks `lba` and on, `count` of them. A reset and an abort have no
    /// range (both are 0), and an abort carries the line of the request that it names.
    Submit {
        handle: Name,
        op: Op,
        lba: u64,
        count: u64,
    },
    Remove {
        dev: Name,
    },
    /// Goes on once this thread has no open request.
    Wait,
    /// Goes on after this number of microseconds.
    Sleep(u64),
    /// Sends a mark to every thread.
    Post(Name),
    /// Goes on once a mark was taken.
    Await(Name),
    /// Goes on once the remove event of a handle was taken.
    Gone {
        handle: Name,
    },
    /// Begins to let a malloc or null device grow to this number of blocks.
    Resize {
        dev: Name,
        blocks: u64,
    },
    /// Goes on once the handle's device is known here to have at least this number of blocks.
    Sized {
        handle: Name,
        blocks: u64,
    },
}

impl Job {
    /// The command's word, in a script and in a report.
    pub fn word(&self) -> &'static str
        ensures { result.now ≡ job_word self.now }
    {
        match self {
            Job::Open { .. } => "open",
            Job::Close { .. } => "close",
            Job::Claim { .. } => "claim",
            Job::Submit { op, .. } => submit_word(op),
            Job::Remove { .. } => "remove",
            Job::Wait => "wait",
            Job::Sleep(_) => "sleep",
            Job::Post(_) => "post",
            Job::Await(_) => "await",
            Job::Gone { .. } => "gone",
            Job::Resize { .. } => "resize",
            Job::Sized { .. } => "sized",
        }
    }
}

// The word of the command that submits a type.
fn submit_word(op: &Op) -> &'static str
    ensures { result.now ≡ submit_word op.now }
{
    match op {
        Op::Read => "read",
        Op::Write(_) => "write",
        Op::Zeroes => "zeroes",
        Op::Unmap => "unmap",
        Op::Flush => "flush",
        Op::Reset(_) => "reset",
        Op::Abort(_) => "abort",
    }
}

/// A line with its number in the file, from 1.
#[derive(Drop)]
pub struct Line {
    pub number: u32,
    pub job: Job,
}

/// The lines of one thread, in the order of their numbers.
#[derive(Drop)]
pub struct Script {
    pub thread: u32,
    pub lines: Rows<Line>,
}

/// What a script's next move goes by, as its thread sees it at one moment.
#[derive(Drop)]
pub struct View {
    /// This moment, in microseconds.
    pub now: u64,
    /// The moment at which the next line was first looked at, in microseconds, at most `now`.
    pub met: u64,
    /// How many requests of the thread are open, 0 to 1,024.
    pub requests: u32,
    /// The marks that the thread took.
    pub marks: NameList,
    /// The names of the handles whose remove event the thread took.
    pub gone: NameList,
    /// The names that are bound to a handle.
    pub bound: NameList,
    /// The names that are bound to an open handle, each with the number of blocks that its device is known to have.
    pub sizes: SizeList,
}
