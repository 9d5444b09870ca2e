//! The disks of one thread's aio devices: what a piece asks of a device is done to its disk. And the
//! disks of all threads, kept where giving them back takes no memory.
#![tactic(auto)]

mod disks;
mod image;
mod serving;
mod shelf;

pub use disks::Disks;
pub use serving::{can_serve, serve};
pub use shelf::Shelf;
