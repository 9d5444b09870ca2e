//! Walks over the channels of a device.
use crate::request::Request;
use bd_base::{DevId, ThreadId, ThreadSet, WalkId, WalkKind};

/// A walk visits each thread that had a channel of the device when it began, on that thread itself.
#[derive(Clone, Copy, PartialEq, Eq)]
pub struct Walk {
    pub id: WalkId,
    pub dev: DevId,
    pub kind: WalkKind,
    /// The threads that it has not visited yet.
    pub left: ThreadSet,
    /// The thread that began it, and on which it ends.
    pub back: ThreadId,
    /// The reset that it belongs to; a removal's walk has none.
    pub request: Option<Request>,
}
