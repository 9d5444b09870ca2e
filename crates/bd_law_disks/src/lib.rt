//! Own steps of a thread are the same whatever its disks hold: the laws of content that is told.
#![tactic(auto)]

pub mod law;
