//! Requests and the pieces that they are cut into.
use bd_base::{DevId, HandleId, Op, ReqId};

/// What was asked of a device. It carries no ticket, so it may be dropped.
#[derive(Clone, Copy, Debug, PartialEq, Eq)]
pub struct Request {
    pub id: ReqId,
    pub dev: DevId,
    pub handle: HandleId,
    pub op: Op,
    /// The first block, in the numbering of `dev`.
    pub lba: u64,
    /// How many blocks.
    pub count: u64,
}

/// A piece of a request: blocks that follow each other on one base device.
#[derive(Clone, Copy, Debug, PartialEq, Eq)]
pub struct Piece {
    pub req: ReqId,
    /// Its place among the request's pieces, from 0.
    pub k: u32,
    pub base: DevId,
    /// The first block, in the numbering of `base`.
    pub lba: u64,
    /// How many blocks.
    pub count: u64,
    /// The first block, in the numbering of the device that the request was submitted on.
    pub first: u64,
    /// The request's type. The `flip` of a write stands in piece 0 alone.
    pub op: Op,
}
