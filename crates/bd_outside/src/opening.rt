//! What a host keeps of the disks that it opened.
use bd_base::{Bytes, Name};

/// What a disk had when it was closed.
#[derive(Drop)]
pub struct Closing {
    /// The bytes of its blocks, if it told them.
    pub content: Option<Bytes>,
    pub faults: u64,
    pub flushes: u64,
}

/// One opening of a disk.
#[derive(Drop)]
pub struct Opening {
    /// The file's name.
    pub name: Name,
    /// How many blocks the disk has.
    pub blocks: u64,
    /// None while the disk stands open.
    pub closing: Option<Closing>,
}
