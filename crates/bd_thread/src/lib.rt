//! One thread of the layer: what it holds, and its turn.
#![tactic(auto)]

mod aborts;
mod delays;
mod disks;
mod duties;
mod ending;
mod grace;
mod homes;
mod injections;
pub mod law;
mod limits;
mod lines;
mod links;
mod messages;
mod requests;
mod resets;
mod resting;
mod retries;
mod steps;
mod thread;
mod time;
mod turn;
mod view;
mod walks;
mod work;

pub use links::Links;
pub use requests::Refused;
pub use thread::Thread;
pub use turn::Turned;
