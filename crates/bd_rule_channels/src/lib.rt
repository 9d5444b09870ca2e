//! Counted channels: each thread has at most one channel of a device, which lasts while it has
//! references, and until it is dropped. The counts are kept by device.
#![tactic(auto)]

mod by_device;
mod channels;
mod counts;

pub use by_device::place_of;
pub use channels::Channels;
pub use counts::counts_after;
