//! The moments of a thread's turns, how long the next line of its script sleeps, and since when timeslices are counted.
#![tactic(auto)]

mod time;

pub use time::Time;
