//! Laws over every run of the sequential device machine.
#![tactic(auto)]

pub mod law;
