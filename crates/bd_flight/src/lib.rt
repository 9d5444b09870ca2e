//! What an open request does next, by the rules over what its thread sees: each rule is asked once.
#![tactic(auto)]

mod aborts;
mod ends;
mod limits;
mod next;

pub use ends::end_due;
pub use next::{Step, next_step};
