//! The laws of the requests that are held. Each function says one of them: its body is empty, and its
//! clause is the law, which the definitions alone prove.
ghost use Rattle.bd_law_held.specs.Laws.{HeldAsAccepted, MergeHoldsAsSeen, OverHoldsAsTold};

/// What a thread holds over what its disks hold is what it holds by the local rules where that is told.
pub fn over_holds_as_told()
    ensures { OverHoldsAsTold }
{}

/// What a thread held in the merge of logs is what its own rows say.
pub fn merge_holds_as_seen()
    ensures { MergeHoldsAsSeen }
{}

/// Where each thread holds in time what it holds, as it sees it, each request of a run is held in time as its
/// Accept says it.
pub fn held_as_accepted()
    ensures { HeldAsAccepted }
{}
