//! What is due on a thread, over what it sees: how a request completes and whether it may be aborted, which
//! pieces are to be put and which no longer, which is served next, whether a walk visits and where it goes next,
//! which event does what the thread owes, what has to follow an event, what an answer of the registry makes of
//! the thread, and what the thread has to ask the registry for.
#![tactic(auto)]

mod answering;
mod asking;
mod completion;
mod duties;
mod following;
mod naming;
mod pieces;
mod refusing;
mod resetting;
mod resting;
mod returning;
mod sending;
mod serving;
mod stopping;
mod tickets;
mod visiting;

pub use answering::{made_by, removal_answered};
pub use asking::{asks_registry, is_any_live};
pub use completion::{Ending, Showing, drop_request, ending_of, shown_now};
pub use duties::{duty_owed, growth_owed, has_duty, owes_nothing, removal_after};
pub use following::{close_due, get_due};
pub use naming::named_by;
pub use pieces::{hold_pieces, piece_count, send_cut};
pub use refusing::{refusal_due, refuse};
pub use resetting::{note_resets, reset_event};
pub use resting::{are_done_with, are_settled, is_done_with};
pub use returning::piece_back;
pub use sending::{begin_walk, copy_of, first_due, leave, may_take, send_off, send_on};
pub use serving::{Next, next_due, next_on_disk};
pub use stopping::{abortable, drop_left, drop_unsent, stop_waiting, stoppable, turn_back};
pub use tickets::{next_ticket, spend};
pub use visiting::visitor;
