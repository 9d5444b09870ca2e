//! The channels of a thread: what is in flight at each base device, and the retry queues of pieces that a full home refused.
#![tactic(auto)]

mod retries;
mod retry;
mod waiting;

pub use retries::Retries;
pub use retry::Retry;
pub use waiting::Waiting;
