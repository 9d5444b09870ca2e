//! What an act makes of a thread's part and of the registry.
#![tactic(auto)]

mod counts;
mod devices;
mod events;
mod homes;
mod kept;
mod lines;
mod messages;
mod noted;
mod notices;
mod registry;
mod requests;
mod resets;
mod walks;

pub use devices::change_devices;
pub use events::{closed, decide, destruct_of, device_due, make_due, owe, pay};
pub use homes::{destructed, grown};
pub use kept::{news_of, progress_put, progress_took, sent, stays, taken, trip_put};
pub use lines::{decision_of, line_done};
pub use messages::{arrived, put, took};
pub use noted::note;
pub use notices::take_notice;
pub use registry::{between_after, change_handles, register};
pub use requests::{accepted, completed};
pub use resets::{advance, freeze, stage};
pub use walks::{Plan, begin_walk, end_walk, is_at_end, walk_on};
