//! What a script may do next.
use bd_base::Job;

/// What a line waits for.
#[derive(Clone, Copy, Debug, PartialEq, Eq)]
pub enum Why {
    /// A mark that the thread hasn't taken.
    Mark,
    /// The remove event of a handle.
    Gone,
    /// A larger size of a handle's device.
    Size,
    /// The end of all the thread's open requests.
    Requests,
    /// Room for one more request: 1,024 are open.
    Room,
    /// A later moment.
    Time,
}

/// What a script may do at one moment.
#[derive(Drop)]
pub enum Move<'a> {
    /// The next line may be done.
    Do(&'a Job),
    /// The next line waits.
    Blocked(Why),
    /// No line is left.
    End,
}
