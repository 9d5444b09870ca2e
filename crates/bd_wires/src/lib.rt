//! What the threads of a node share, a ring to each and the registry in its slot; and each thread's
//! passes for them.
#![tactic(auto)]

mod transposing;
mod wires;

pub use wires::{Passes, Wires, connect, disconnect};
