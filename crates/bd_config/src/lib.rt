//! The configuration: JSON as SPDK saves it, read into the commands that make devices.
#![tactic(auto)]

mod base;
mod command;
mod config;
mod method;
mod param;
mod setting;
mod shape;
mod stacked;

pub use command::Command;
pub use config::{ConfigError, read_config};
