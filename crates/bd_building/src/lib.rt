//! From the commands of a configuration to the devices of a setup: commands done in order, those whose
//! base isn't there waiting for it, and the first refusal with its command's index.
#![tactic(auto)]

mod base;
mod building;
mod causes;
mod made;
mod parts;
mod rows;
mod waiter;

pub use building::{BuildError, Building};
