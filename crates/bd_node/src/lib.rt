//! A node: the threads of a setup, each with links and a log of its own, the rings and the slot through
//! which they exchange, and the reactors that drive their turns, beside each other or by a schedule.
#![tactic(auto)]

mod building;
mod crew;
mod driving;
mod ending;
mod gathering;
mod history;
mod node;
mod outside;
mod run;
mod schedule;
mod sharing;

pub use history::{History, Played};
pub use node::{Node, NodeState};
pub use outside::Outside;
pub use run::{Drive, play};
