//! Output in memory.
ghost use Rattle.std.specs.Prelude.{◌≡◌, ◌++◌, ◌<◌, ◌≤◌, Some, length, take, min, IfOk, OnErr, vec_len, vec_capacity};
ghost use Rattle.bd_outside.specs.Memory.{MemorySink, empty_sink, space};
ghost use Rattle.bd_outside.specs.Count.{one_more};

use crate::failed::Failed;
use crate::sink::Sink;
use bd_base::OutOfMemory;
use std::alloc::Global;
use std::marker::Model;

/// A sink with room for a number of bytes, which it reserves when it is made.
#[derive(Drop)]
pub struct MemSink {
    bytes: Vec<u8>,
    room: usize,
    faults: u64,
}

impl Model for MemSink {
    ghost Value = { MemorySink };

    ghost view = { λ s. record { bytes = s.bytes.items; room = s.room; faults = s.faults } };

    ghost invariant = { λ s. (vec_len s.bytes ≤ s.room) × (s.room ≤ vec_capacity s.bytes) };
}

impl MemSink {
    /// An empty sink with room for `room` bytes, or out of memory.
    pub fn new(alloc: Global, room: u64) -> Result<MemSink, OutOfMemory>
        ensures { IfOk result (λ s. s ≡ empty_sink room) }
    {
        let bytes = Vec::with_capacity(alloc, room as usize)?;
        Ok(MemSink {
            bytes,
            room: room as usize,
            faults: 0,
        })
    }

    /// The bytes that it took, in order.
    pub fn bytes(&self) -> &[u8]
        ensures { result.now ≡ self.now.bytes }
    {
        self.bytes.as_slice()
    }

    /// How often it was full.
    pub fn faults(&self) -> u64
        ensures { result ≡ self.now.faults }
    {
        self.faults
    }
}

impl Sink for MemSink {
    ghost state = { λ s. record { faults = s.faults; written = Some s.bytes } };

    /// Takes as many bytes as there is room for. Failed exactly where there are bytes and no room.
    fn put(&mut self, bytes: &[u8]) -> Result<usize, Failed>
        ensures within { IfOk result (λ n. n ≡ min (space self.old) (length bytes.now)) }
        ensures some { 0 < length bytes.now → IfOk result (λ n. 0 < n) }
        ensures taken { IfOk result (λ n. self.new ≡ record self.old { bytes = self.old.bytes ++ take n bytes.now }) }
        ensures full { OnErr result ((0 < length bytes.now) × (space self.old ≡ 0)) }
        ensures fault { OnErr result (self.new ≡ record self.old { faults = one_more self.old.faults }) }
        ensures fault_count { self.old.faults ≤ self.new.faults }
    {
        let n = (self.room - self.bytes.len()).min(bytes.len());
        if n == 0 && !bytes.is_empty() || self.bytes.extend_from_slice(&bytes[..n]).is_err() {
            self.faults = self.faults.saturating_add(1);
            return Err(Failed);
        }
        Ok(n)
    }
}
