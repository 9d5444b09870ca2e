//! The next move of one thread's script, from what is known of its thread.
#![tactic(auto)]

mod known;
mod moves;
mod room;
mod user;

pub use known::Knows;
pub use moves::{Move, Why};
pub use room::has_room;
pub use user::{User, next_move, waits_for};
