//! The sequential device machine as a program: it decides which entries of a history are allowed,
//! and keeps the state that they leave. It is plain and slow: each step works on a copy of the
//! state, so that running out of memory leaves the state as it was.
#![tactic(auto)]

mod course;
mod events;
mod homes;
mod machine;
mod messages;
mod requests;
mod scripts;
mod side;
mod step;
mod walks;

pub use machine::{Machine, StepError};
