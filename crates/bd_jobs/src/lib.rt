//! Scripts: the lines of a text as the commands of each thread.
#![tactic(auto)]

mod command;
mod generated;
mod generator;
mod read;
mod steps;
mod word;

pub use command::Command;
pub use generated::generated_scripts;
pub use generator::generate;
pub use read::{JobError, read_jobs};
pub use word::number;
