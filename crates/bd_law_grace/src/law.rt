//! The law of drain times. The function says it: its body is empty, and its clause is the law, which the definitions
//! alone prove.
ghost use Rattle.bd_law_grace.specs.Laws.{GraceIsKept};

/// A request that wasn't late for a device is aborted for its reset only where the thread's mark of the device was made
/// hard: at once, with the channel, or after the reset's drain time.
pub fn grace_is_kept()
    ensures { GraceIsKept }
{}
