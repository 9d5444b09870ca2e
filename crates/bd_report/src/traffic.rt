//! How much was read and written with success.
ghost use Rattle.std.specs.Prelude.{◌≡◌, ◌*◌, if◌then◌else◌, length};
ghost use Rattle.bd_report.specs.Traffic.{no_traffic, with_bytes, moved_at};

use crate::submitted::Submitted;
use bd_base::{Rows, Way};

/// How many reads and writes of a device completed with success, and their bytes: each at most
/// `u64::MAX`, where it stays.
#[derive(Clone, Copy, PartialEq, Eq)]
pub struct Traffic {
    pub reads: u64,
    pub writes: u64,
    pub read_bytes: u64,
    pub write_bytes: u64,
}

/// What was moved by device number, seen as its list.
pub type TrafficList = Rows<Traffic>;

impl Traffic {
    /// Nothing was read or written.
    pub fn new() -> Traffic
        ensures { result ≡ no_traffic }
    {
        Traffic {
            reads: 0,
            writes: 0,
            read_bytes: 0,
            write_bytes: 0,
        }
    }

    // With one more request of these blocks, each of this many bytes.
    fn with(self, way: Way, blocks: u64, size: u32) -> Traffic
        ensures { result ≡ with_bytes way (blocks * size) self }
    {
        let bytes = blocks.saturating_mul(u64::from(size));
        match way {
            Way::Read => Traffic {
                reads: self.reads.saturating_add(1),
                read_bytes: self.read_bytes.saturating_add(bytes),
                ..self
            },
            Way::Write => Traffic {
                writes: self.writes.saturating_add(1),
                write_bytes: self.write_bytes.saturating_add(bytes),
                ..self
            },
        }
    }
}

/// Adds a read or write to what its device moved, if it succeeded, by the bytes of a block of each
/// device. A device that isn't among these moves nothing here.
pub(crate) fn note_if_moved(
    devices: &mut TrafficList,
    sizes: &[u32],
    submitted: &Submitted,
    has_succeeded: bool,
)
    requires { length devices.old ≡ length sizes.now }
    ensures { devices.new ≡ (if has_succeeded then moved_at sizes.now submitted.now devices.old else devices.old) }
{
    let at = submitted.device.0 as usize;
    if has_succeeded && at < devices.len() {
        let traffic = devices.as_slice()[at].with(submitted.way, submitted.blocks, sizes[at]);
        devices.set(at, traffic);
    }
}
