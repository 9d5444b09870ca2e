//! What travels together.
use bd_base::{Op, ReqId};

/// What a submission asks: a type, and for a type with a range `count` blocks from `lba` on.
#[derive(Clone, Copy, PartialEq, Eq)]
pub struct Submission {
    pub op: Op,
    pub lba: u64,
    pub count: u64,
}

/// A piece of a request, by its place from 0.
#[derive(Clone, Copy, PartialEq, Eq)]
pub struct PieceId {
    pub req: ReqId,
    pub k: u32,
}
