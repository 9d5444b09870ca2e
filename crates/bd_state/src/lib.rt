//! What is said of the machine's whole state: what it is before any entry, what is written of a token,
//! and when a run is at rest and complete.
#![tactic(auto)]

mod finished;
mod rest;
mod start;
mod tokens;

pub use finished::is_finished;
pub use rest::is_at_rest;
pub use start::state_at_start;
pub use tokens::{begin, place_of_walk, put_in};
