//! What a request meets beside its pieces, each rule once as a program: limits, injected errors,
//! delays and aborts; and how long the drain time of a reset lasts for it.
#![tactic(auto)]

mod aborts;
mod delays;
mod grace;
mod injections;
mod limits;

pub use aborts::{aborted, refused_abort};
pub use bd_delay::counted;
pub use delays::{held, refused_hold, refused_release, released};
pub use grace::{harden, is_mark_due, may_grace, refused_due, refused_grace, set_grace};
pub use injections::{asked_once_more, injected, pended, refused_inject, refused_pend};
pub use limits::{
    charge, depart, limited_here, passed, refused_let, refused_tick, seen_at, tick, waiting_for,
    waits_at,
};
