//! Devices as they are registered: their rows, by name, with limits and injected errors. From them a
//! registry begins.
#![tactic(auto)]

mod devices;
mod names;
mod refusals;

pub use devices::{Devices, RegisterError};
