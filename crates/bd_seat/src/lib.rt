//! What stands round a thread that runs beside others: how messages come to it and go out, how its
//! registry follows the shared one, and how what it did goes into its log.
#![tactic(auto)]

mod incoming;
mod outgoing;
mod replica;
mod seat_error;
mod taking;

pub use incoming::fetch;
pub use outgoing::{flush, flush_all};
pub use replica::{catch_up, follow};
pub use seat_error::SeatError;
pub use taking::{append_all, take_over};
