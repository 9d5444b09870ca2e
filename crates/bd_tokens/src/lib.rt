//! What a thread holds: its tokens, with what is kept of each.
#![tactic(auto)]

mod beyond;
mod key;
pub mod law;
mod others;
mod pended;
mod places;
mod tokens;
mod unplaced;
mod walks;

pub use tokens::Tokens;
