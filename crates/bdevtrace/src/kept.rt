//! Output that is kept in memory.
ghost use Rattle.std.specs.Prelude.{◌≡◌, []};

use bd_outside::{Failed, Sink};
use std::alloc::Global;

/// A sink that keeps what it takes, and fails where there is no memory for it.
#[derive(Drop)]
pub(crate) struct Kept {
    bytes: Vec<u8>,
    faults: u64,
}

impl Kept {
    /// An empty one, which takes no memory.
    pub(crate) fn new(alloc: Global) -> Kept
        ensures { result.bytes.items ≡ [] }
    {
        Kept {
            bytes: Vec::new(alloc),
            faults: 0,
        }
    }

    /// All bytes that it took, in order.
    pub(crate) fn into_bytes(self) -> Vec<u8>
        ensures { result ≡ self.bytes }
    {
        self.bytes
    }
}

impl Sink for Kept {
    ghost use Rattle.std.specs.Prelude.{Some};

    ghost state = { λ s. record { faults = s.faults; written = Some s.bytes.items } };

    /// Takes all of the bytes, or none of them: then memory ran out.
    fn put(&mut self, bytes: &[u8]) -> Result<usize, Failed> {
        if self.bytes.extend_from_slice(bytes).is_err() {
            self.faults = self.faults.saturating_add(1);
            return Err(Failed);
        }
        Ok(bytes.len())
    }
}
