//! The tickets of the requests that a thread accepted, and types of requests, pieces and walks.
#![tactic(auto)]

mod mint;
mod purse;
mod request;
mod ticket;
mod walk;

pub use mint::Mint;
pub use purse::Purse;
pub use request::{Piece, Request};
pub use ticket::{Finished, Ticket};
pub use walk::Walk;
