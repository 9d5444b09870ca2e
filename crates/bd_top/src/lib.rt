//! The top call: two files in, a report out; or generated work in their place.
#![tactic(auto)]

mod configure;
mod devices;
mod exercise;
mod fault;
mod files;
mod inputs;
mod setup;
mod top;
mod words;

pub use fault::Fault;
pub use top::{Ran, run};
