//! Devices: their kinds, their rows, their limits and their injected errors.
ghost use Rattle.std.specs.Prelude.{◌≡◌};
ghost use Rattle.bd_base.specs.Word.{kind_word};

use crate::id::DevId;
use crate::name::Name;

/// What a device is. Malloc, null and aio devices are bases; the others stand on one.
#[derive(Clone, Copy, PartialEq, Eq)]
pub enum Kind {
    /// Memory, zeros at first.
    Malloc,
    /// Writes are discarded, reads give zeros.
    Null,
    /// A file.
    Aio,
    Passthru,
    /// A part of its base, which begins at this block.
    Part {
        shift: u64,
    },
    /// Reads and writes wait these latencies (microseconds): the average, and each hundredth the p99.
    Delay {
        average_read: u64,
        p99_read: u64,
        average_write: u64,
        p99_write: u64,
    },
    /// Requests take injected errors.
    Error,
}

impl Kind {
    /// The word that a report prints.
    pub fn word(&self) -> &'static str
        ensures { result.now ≡ kind_word self.now }
    {
        match self {
            Kind::Malloc => "malloc",
            Kind::Null => "null",
            Kind::Aio => "aio",
            Kind::Passthru => "passthru",
            Kind::Part { .. } => "part",
            Kind::Delay { .. } => "delay",
            Kind::Error => "error",
        }
    }
}

/// A device.
#[derive(Drop)]
pub struct DevRow {
    pub name: Name,
    pub kind: Kind,
    /// The device that it stands on; none for a base device.
    pub base: Option<DevId>,
    /// How many blocks it has: 1 to 2^21 for malloc, else to 2^40.
    pub blocks: u64,
    /// Bytes of a block: 512 or 4,096.
    pub size: u32,
    /// Requests are cut at multiples of this number of blocks: 8 or more, or 0 for no cut.
    pub boundary: u64,
    /// How many pieces its work queue takes: 1 to 1,024 for a base device, else 0.
    pub depth: u32,
    /// The file of an aio device.
    pub file: Option<Name>,
    /// The same number for the parts of one split, and another for every other device.
    pub group: u32,
}

/// The limits of a device, by SPDK's names; 0 is no limit.
#[derive(Clone, Copy, PartialEq, Eq)]
pub struct Rates {
    /// Reads and writes per second, at most 1,000,000,000.
    pub rw_ios_per_sec: u64,
    /// Megabytes (1,048,576 bytes) read and written per second, at most 1,000,000.
    pub rw_mbytes_per_sec: u64,
    pub r_mbytes_per_sec: u64,
    pub w_mbytes_per_sec: u64,
}

/// Limits to set; none leaves a limit as it was.
#[derive(Clone, Copy, PartialEq, Eq)]
pub struct RateSet {
    pub rw_ios_per_sec: Option<u64>,
    pub rw_mbytes_per_sec: Option<u64>,
    pub r_mbytes_per_sec: Option<u64>,
    pub w_mbytes_per_sec: Option<u64>,
}

/// How an injected error shows.
#[derive(Clone, Copy, Debug, PartialEq, Eq)]
pub enum ErrKind {
    /// The request fails.
    Failure,
    /// The request is kept without an answer.
    Pending,
    /// Byte 0 of the data read or written becomes 255 minus it.
    Corrupt,
}

/// Types of request, for an injection.
#[derive(Clone, Copy, PartialEq, Eq)]
pub struct IoSet {
    pub read: bool,
    pub write: bool,
    pub zeroes: bool,
    pub unmap: bool,
    pub flush: bool,
}

/// An injected error, and for how many requests it is left.
#[derive(Clone, Copy, PartialEq, Eq)]
pub struct Injection {
    pub kind: ErrKind,
    pub left: u32,
}

/// What an error device injects, by the type of the request.
#[derive(Clone, Copy, PartialEq, Eq)]
pub struct Injections {
    pub read: Injection,
    pub write: Injection,
    pub zeroes: Injection,
    pub unmap: Injection,
    pub flush: Injection,
}
