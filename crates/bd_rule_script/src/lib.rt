//! Scripts: the next line, what it asks of requests and of the registry, and how it ends.
#![tactic(auto)]

mod events;
mod jobs;
mod lines;
mod outcome;
mod waits;

pub use events::{asks_event, may_close, owes_it};
pub use jobs::{asks_submission, is_new, op_asked};
pub use lines::{bound_to, has_mark, is_open_handle, job_now, next_line, open_on, undecided_job};
pub use outcome::{is_script_blocked, outcome_due, outcome_of};
