//! What the machine's rules allow, each rule once as a program, for whoever sees.
#![tactic(auto)]

mod admission;
mod completion;
mod delays;
mod homes;
mod injections;
mod kept;
mod limits;
mod marks;
mod messages;
mod pieces;
mod resets;
mod statuses;

pub use admission::{admit, has_range, is_device_of, is_gone, refusal_of, size_of_handle};
pub use completion::{data_read, has_extents, is_shown_due, may_complete, may_cut, uncut};
pub use delays::{is_delay_left, is_delayed};
pub use homes::{
    base_here, has_destructed, is_digest_due, is_told, may_apply, may_destruct, may_end, may_grow,
    may_hold, may_refuse,
};
pub use injections::{asks_injection, has_every_decision, is_at_own, is_fail, is_under_way};
pub use kept::{new_request, piece_here, request_here, walk_here};
pub use limits::next_limited;
pub use marks::{
    freezes_here, has_any_mark, is_frozen, is_marked, is_removed, is_removed_below, marking_of,
    stops_here,
};
pub use messages::{brings, count_at, id_of, is_due_to, is_token_here, may_go, tells};
pub use pieces::{all_back, all_done, all_ended, any_faulted, any_unsent, data_of};
pub use resets::{is_finished, is_reset, is_reset_of, is_walking, reset_of};
pub use statuses::{is_status_due, may_be_status, status_due};
