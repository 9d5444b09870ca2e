//! A piece that waits to be sent again.

use bd_base::{DevId, ReqId};

/// A piece that waits to be sent again: the base device of its channel, its request, and its number there.
#[derive(Clone, Copy, Debug, PartialEq, Eq)]
pub struct Waiting {
    pub base: DevId,
    pub req: ReqId,
    pub k: u32,
}
