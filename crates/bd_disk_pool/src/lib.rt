//! The disks of a run, from their opening to their closing: each is opened for the home of its device,
//! and each is closed once, by its own file's name.
#![tactic(auto)]

mod closing;
mod disks;
mod names;

pub use closing::{close_all, close_shelf};
pub use disks::OpenDisks;
pub use names::Names;
