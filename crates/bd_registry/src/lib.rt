//! The registry of handles, claims and channels, with its journal.
#![tactic(auto)]

mod copies;
mod handles;
pub mod law;
mod names;
mod registry;
mod setups;
mod tables;

pub use registry::Registry;
