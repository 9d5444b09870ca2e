//! A volume: blocks in clusters that its snapshots share until one of them writes.
#![tactic(auto)]

mod cluster;
mod clusters;
mod guesses;
mod store;
mod volume;

pub use volume::Volume;
