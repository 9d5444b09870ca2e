//! The one refusal of a sink and of a disk.

/// The outside failed: the object's count of faults rose in this call.
#[derive(Clone, Copy, Debug, PartialEq, Eq)]
pub struct Failed;
