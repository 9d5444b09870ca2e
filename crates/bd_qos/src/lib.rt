//! Limits on the requests and bytes per second of a device, kept by timeslices.
#![tactic(auto)]

mod budget;
mod limits;

pub use budget::{charged, may_have_passed, may_pass, renewed, slices_due, starts_before};
pub use limits::Limits;
