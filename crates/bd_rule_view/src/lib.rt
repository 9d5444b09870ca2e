//! What a thread sees of the machine, and when two of its words are the same.
#![tactic(auto)]

mod answers;
mod handles;
mod names;
mod records;
mod same;
mod sees;
mod tokens;

pub use answers::same_answer;
pub use handles::{handle_of, own_handle};
pub use names::{PieceId, Submission};
pub use records::Records;
pub use same::{
    same_decision, same_errno, same_handle_if_any, same_id, same_kind, same_news, same_op,
    same_outcome, same_owed, same_request, same_stage, same_status, same_threads, same_walk,
    same_walk_kind,
};
pub use sees::Sees;
pub use tokens::{as_piece, as_request, as_walk, look_up};
