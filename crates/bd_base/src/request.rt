//! What a request asks and how it ends.
ghost use Rattle.std.specs.Prelude.{◌≡◌};
ghost use Rattle.bd_base.specs.Errno.{number_of};
ghost use Rattle.bd_base.specs.Word.{status_word};

use crate::id::{DevId, ReqId};

/// Why a call was refused, in the words of errno.
#[derive(Clone, Copy, Debug, PartialEq, Eq)]
pub enum Errno {
    /// A claim forbids it (EPERM).
    Perm,
    /// There is no such handle, or it is not open for that (EBADF).
    BadDesc,
    /// It is at work already (EBUSY).
    Busy,
    /// The name is taken (EEXIST).
    Exists,
    /// There is no such device, or it is being removed (ENODEV).
    NoDev,
    /// A value is out of its range (EINVAL).
    Inval,
    /// The device lacks this type of request (ENOTSUP, by the number that SPDK prints).
    NotSup,
}

impl Errno {
    /// The number that a report prints.
    pub fn number(&self) -> u32
        ensures { result ≡ number_of self.now }
    {
        match self {
            Errno::Perm => 1,
            Errno::BadDesc => 9,
            Errno::Busy => 16,
            Errno::Exists => 17,
            Errno::NoDev => 19,
            Errno::Inval => 22,
            Errno::NotSup => 95,
        }
    }
}

/// How a request completed.
#[derive(Clone, Copy, Debug, PartialEq, Eq)]
pub enum Status {
    Success,
    Failed,
    Aborted,
}

impl Status {
    /// The word that a report prints.
    pub fn word(&self) -> &'static str
        ensures { result.now ≡ status_word self.now }
    {
        match self {
            Status::Success => "success",
            Status::Failed => "failed",
            Status::Aborted => "aborted",
        }
    }
}

/// The data of a write: the pattern of a seed; with `flip`, byte 0 of the first block is 255 minus it.
#[derive(Clone, Copy, Debug, PartialEq, Eq)]
pub struct Fill {
    pub seed: u64,
    pub flip: bool,
}

/// The type of a request.
#[derive(Clone, Copy, Debug, PartialEq, Eq)]
pub enum Op {
    Read,
    Write(Fill),
    /// Write zeroes.
    Zeroes,
    Unmap,
    Flush,
    /// Reset of the handle's device. What waits there goes on for this drain time (microseconds), and is aborted
    /// then; with 0, which is a reset without one, it is aborted at once.
    Reset(u64),
    /// Abort of the request of the same thread with this number; the greatest number names none.
    Abort(u64),
}

/// The two ways that limits and latencies count.
#[derive(Clone, Copy, PartialEq, Eq)]
pub enum Way {
    Read,
    Write,
}

/// What an error device decided for a request.
#[derive(Clone, Copy, Debug, PartialEq, Eq)]
pub enum Decision {
    Pass,
    Fail,
    Pend,
    Corrupt,
}

/// What a walk over channels is for.
#[derive(Clone, Copy, Debug, PartialEq, Eq)]
pub enum WalkKind {
    /// A reset marks each channel.
    Freeze,
    /// A reset waits on each thread for its open requests.
    Drain,
    /// A reset clears the marks.
    Thaw,
    /// A removal marks each channel.
    Removal,
}

/// Why a request was aborted.
#[derive(Clone, Copy, PartialEq, Eq)]
pub enum AbortCause {
    /// A device under it is being reset.
    Frozen(DevId),
    /// A device under it is being removed.
    Removed(DevId),
    /// An abort names it.
    Named(ReqId),
}

/// What a read showed: its first 8 bytes, and the SHA-256 of all its data.
#[derive(Clone, Copy, PartialEq, Eq)]
pub struct Shown {
    pub first: [u8; 8],
    pub digest: [u8; 32],
}
