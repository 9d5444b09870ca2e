//! A worker: a thread with links of its own, and its log.
use bd_log::Log;
use bd_thread::{Links, Thread};

/// A thread, what it has for itself of what threads share, and what it did.
pub struct Worker<'a> {
    /// The thread's number.
    pub me: u32,
    pub thread: Thread<'a>,
    /// Its queues, its replica of the registry, and the entries of its turn.
    pub links: Links,
    /// What it did since its log was last handed out.
    pub log: Log,
}
