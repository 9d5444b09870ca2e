//! A thread at its seat, with all that it has for itself: its turns, beside those of others, and how it learns that
//! no further line is done.
#![tactic(auto)]

mod seat;
mod shutting;
mod turning;
mod worker;
mod working;

pub use seat::Seat;
pub use turning::has_moved;
pub use worker::Worker;
