//! The two layouts of a set of devices, concatenation and striping: where each block of the set lies.
#![tactic(auto)]

mod layout;
mod raid;

pub use layout::{left_in_strip, striped_at, used};
pub use raid::{Raid, RaidError};
