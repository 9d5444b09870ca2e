//! Locks of ranges of a base device's blocks, and the pieces that they hold back.
#![tactic(auto)]

mod locks;
mod near;
mod piece;
mod rival;

pub use locks::Locks;
pub use piece::HeldPiece;
