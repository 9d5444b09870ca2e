//! The statistics of a run.
use crate::counts::{Counts, CountsList};
use crate::traffic::TrafficList;

/// How many requests each thread and all together had, and how much each device moved.
#[derive(Drop)]
pub struct Stats {
    /// The counts of each thread, by number.
    pub threads: CountsList,
    /// What was read and written with success on each device, by number.
    pub devices: TrafficList,
    /// The counts of all threads together, also of threads that the setup doesn't have.
    pub all: Counts,
}
