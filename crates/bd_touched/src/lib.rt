//! Which open requests a thread still has to look at, by what its acts reached, and which rest until one reaches them.
#![tactic(auto)]

pub mod law;
mod reach;
mod resting;
mod touched;

pub use resting::rests;
pub use touched::Touched;
