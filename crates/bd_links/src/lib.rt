//! What a thread of a node has in its hands: queues of messages, and the list of entries.
#![tactic(auto)]

mod entries;
mod queue;

pub use entries::{add, next_stamp};
pub use queue::{Queue, empty_queues, is_full, pop, push};
