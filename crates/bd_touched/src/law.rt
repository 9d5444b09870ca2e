//! A law of what a thread looks at. The function says it: its body is empty, and its clause is the law, which the
//! definitions alone prove.
ghost use Rattle.bd_touched.specs.Looks.{LooksOn};

/// Where each open request of a thread is to be looked at, or reached by an entry, or rests, so it is after further
/// entries of the thread: one that rests does so until an entry reaches it.
pub fn looks_on()
    ensures { LooksOn }
{}
