//! Blocks of devices: limits, channels, where a request is cut, what a piece does to blocks and reads of
//! them, and what there is before any entry. What lies below a device is bd_stack's, and named here too.
#![tactic(auto)]

mod bases;
mod channels;
mod digest;
mod growing;
mod limits;
mod pieces;
mod registry;
mod serving;
mod start;
mod store;
mod table;
mod threads;

pub use bases::{base_place, find_base};
pub use bd_stack::{
    at, base_handle, base_of, below, blocks_of, boundary_of, depth_of, device_named, firsts, home,
    is_aio, is_base_handle, is_below, is_delay, is_error, is_home, is_malloc, is_null, is_over,
    number_named, row_of, size_of, stands_on, users, whole_base,
};
pub use channels::{get_channel, references, set_count};
pub use digest::{digest_due, is_digest_due};
pub use growing::grow;
pub use limits::{
    bytes_in_slice, counts_way, is_limited, one_quota, rates_of, requests_in_slice, way_of,
};
pub use pieces::{copy_of_piece, extents, new_piece};
pub use registry::registry_at_start;
pub use serving::serve;
pub use start::part_at_start;
pub use table::write_row;
pub use threads::{first_of, has, is_nobody, with_thread, without};
