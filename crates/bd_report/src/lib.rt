//! The statistics and the report of a run.
#![tactic(auto)]

mod completions;
pub mod counter;
pub mod counts;
mod digests;
mod first;
mod handles;
mod index;
mod order;
mod outcomes;
pub mod report;
pub mod stats;
mod submitted;
mod successes;
mod told;
pub mod traffic;
pub mod writing;
