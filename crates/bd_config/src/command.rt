//! What a call of a configuration asks for.
use bd_base::{ErrKind, IoSet, Name, RateSet};

/// One call with its parameters.
#[derive(Drop)]
pub enum Command {
    /// Makes a device in memory: 1 to 2^21 blocks.
    Malloc {
        name: Name,
        blocks: u64,
        /// Bytes of a block: 512 or 4,096.
        size: u32,
        /// Requests are cut at multiples of this number of blocks: 8 or more, or 0 for no cut.
        boundary: u64,
        /// How many pieces its queue takes: 1 to 1,024.
        depth: u32,
    },
    /// Makes a device that keeps nothing: 1 to 2^40 blocks.
    Null {
        name: Name,
        blocks: u64,
        size: u32,
        boundary: u64,
        depth: u32,
    },
    /// Makes a device of a file's blocks. The file's name has 1 to 4,096 bytes.
    Aio {
        name: Name,
        file: Name,
        size: u32,
        depth: u32,
    },
    /// Makes a device that hands each request to its base.
    Passthru {
        base: Name,
        name: Name,
    },
    /// Makes 1 to 64 parts of a base, each of 1 to 1,048,576 megabytes (1,048,576 bytes each); at
    /// 0 they share it out equally.
    Split {
        base: Name,
        count: u32,
        megabytes: u64,
    },
    /// Makes a device whose reads and writes wait these latencies (microseconds).
    Delay {
        base: Name,
        name: Name,
        average_read: u64,
        p99_read: u64,
        average_write: u64,
        p99_write: u64,
    },
    /// Makes a device that takes injected errors.
    Error {
        base: Name,
    },
    /// Injects an error into the next `count` requests of these types.
    InjectError {
        name: Name,
        types: IoSet,
        kind: ErrKind,
        count: u32,
    },
    /// Sets limits, at least one.
    SetLimits {
        name: Name,
        rates: RateSet,
    },
    /// A call that configures what isn't here.
    PassedOver,
}
