//! Stacked devices: their rows, what lies below a device and under a block, and the base handles of those
//! that stand on another.
#![tactic(auto)]

mod devices;
mod groups;
mod path;

pub use devices::{
    blocks_of, boundary_of, depth_of, device_named, is_delay, is_error, is_malloc, is_null,
    number_named, row_of, size_of, stands_on,
};
pub use groups::{base_handle, firsts, is_base_handle, users};
pub use path::{
    Descent, at, base_of, below, home, is_aio, is_below, is_home, is_over, under, whole_base,
};
