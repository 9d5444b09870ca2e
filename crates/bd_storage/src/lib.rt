//! A thread's turn with the disks of its aio devices: each serves the pieces that wait there.
#![tactic(auto)]

mod serving;
mod turning;

pub use turning::{turn_with_disks, work_with_disks};
