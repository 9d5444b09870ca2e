//! What the registry answers to a thread's event.
#![tactic(auto)]

mod answer;
mod bare;
mod channels;
mod devices;
mod handles;
mod resize;
mod sizes;
mod standing;

pub use answer::{answer_by, answer_to};
pub use bare::{is_free, threads_of};
pub use channels::made;
pub use sizes::size_now;
pub use standing::is_live;
