//! What an answer of the registry changes on the thread that asked: claims, channels, removal, resets,
//! injections, resizes.
#![tactic(auto)]

mod channels;
mod removal;
mod resets;
mod resize;

pub use channels::{dropped, got, put_down};
pub use removal::{freed, removal_paid, removing};
pub use resets::{reset_begun, reset_finishes, reset_thaws};
pub use resize::{resized, resizing};
