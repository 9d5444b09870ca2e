//! A piece that a lock holds back.

use bd_base::ReqId;

/// A piece that waits for a lock to go: its request, its number there, and its range.
#[derive(Clone, Copy, Debug, PartialEq, Eq)]
pub struct HeldPiece {
    pub req: ReqId,
    pub k: u32,
    pub first: u64,
    pub count: u64,
}
