//! The outside of a program: the system's files, its standard output and its monotonic clock, as forms of
//! `bd_outside`'s traits.
#![tactic(auto)]

mod clock;
mod disk;
mod host;
mod output;

pub use clock::SystemClock;
pub use disk::SystemDisk;
pub use host::SystemHost;
pub use output::{Output, SteadyWrite};
