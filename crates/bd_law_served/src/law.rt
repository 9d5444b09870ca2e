//! The laws of the pieces that were served. Each function says one of them: its body is empty, and its
//! clause is the law, which the definitions alone prove.
ghost use Rattle.bd_law_served.specs.Laws.{MergeServesAsSeen, OverServesAsTold, OverServesOn, OwnServesNone};

/// What a thread serves over what its disks hold is what it serves by the local rules where that is told.
pub fn over_serves_as_told()
    ensures { OverServesAsTold }
{}

/// What a thread does without its disks serves no piece of an aio device.
pub fn own_serves_none()
    ensures { OwnServesNone }
{}

/// What is served over what the disks hold may be said in parts, one after the other.
pub fn over_serves_on()
    ensures { OverServesOn }
{}

/// What a thread served in the merge of logs is what its own rows say.
pub fn merge_serves_as_seen()
    ensures { MergeServesAsSeen }
{}
