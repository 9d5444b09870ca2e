//! The outside: files, output, disks, the clock and the gate, as traits against which everything
//! above is written, and forms of them in memory.
#![tactic(auto)]

mod calm_disk;
mod calm_host;
mod clock;
mod disk;
mod failed;
mod gate;
mod host;
mod mem_disk;
mod mem_host;
mod mem_sink;
mod opening;
mod sink;

pub use calm_disk::CalmDisk;
pub use calm_host::CalmHost;
pub use clock::{Clock, StepClock, StillClock};
pub use disk::Disk;
pub use failed::Failed;
pub use gate::{Gate, OpenGate};
pub use host::{Host, HostError};
pub use mem_disk::MemDisk;
pub use mem_host::MemHost;
pub use mem_sink::MemSink;
pub use opening::{Closing, Opening};
pub use sink::Sink;
