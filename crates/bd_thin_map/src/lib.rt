//! The map of a pool's clusters: which cluster each place of each device has, and which clusters are free.
#![tactic(auto)]

mod map;
mod pairs;
mod ready;
mod row;
mod users;

pub use map::ThinMap;
pub use ready::{Need, NoSpace, Ready};
