//! Delays: how long a read or a write over delay devices waits, and which held request goes on next.
#![tactic(auto)]

mod channel;
mod held;
mod latency;

pub use channel::DelayChannel;
pub use held::Held;
pub use latency::{counted, counted_once, held_until, latency_of_kind};
