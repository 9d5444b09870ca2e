//! Visits of walks, and the marks that they set: each rule once as a program.
#![tactic(auto)]

mod visit;
mod waits;

pub use visit::{
    Visiting, hardened, mark, refused_visit, remark, softens, time_of_walk, uncount, visited,
};
pub use waits::{any_waits, is_drained, is_kept_waiting};
