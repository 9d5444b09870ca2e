//! Copies of what a setup and a state of the machine hold, where there is memory.
#![tactic(auto)]

mod duplicate;

pub use duplicate::{Duplicate, duplicate_rows};
