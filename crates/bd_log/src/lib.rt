//! The logs of threads, and their merge into one history.
#![tactic(auto)]

mod firsts;
mod log;
mod merging;
mod part;
mod places;

pub use log::{Log, LogError};
pub use merging::{merge, merge_is_unique, merge_onto, merging_by_parts};
pub use part::LogPart;
