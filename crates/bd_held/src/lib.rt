//! The requests that delay devices hold on a thread, by the moment until which each is held.
#![tactic(auto)]

mod held;

pub use held::{Held, HeldRequest};
