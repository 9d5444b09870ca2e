//! Judges a whole history by the sequential device machine.
#![tactic(auto)]

mod judging;
pub mod law;
#[cfg(test)]
mod tests;

pub use judging::{Verdict, judge};
