//! A disk in memory.
ghost use Rattle.std.specs.Prelude.{◌≡◌, ◌<◌, ◌≤◌, ◌*◌, Some, None, false, length, IsTrue, OnOk, OnErr};
ghost use Rattle.bd_outside.specs.Count.{one_more};
ghost use Rattle.bd_outside.specs.Disk.{HasSameShape, IsInside, Reads};
ghost use Rattle.bd_outside.specs.Memory.{MemoryDisk, disk_over, next_disk_call_fails, disk_call, failed_disk_call, write_call, flush_call, memory_state};

use crate::disk::Disk;
use crate::failed::Failed;
use bd_base::Bytes;
use std::alloc::Global;
use std::marker::Model;

/// A disk in memory, and a list of its calls that fail: reads, writes and flushes are numbered
/// together from 1.
#[derive(Drop)]
pub struct MemDisk {
    content: Vec<u8>,
    block_size: u32,
    blocks: u64,
    fails: Vec<u64>,
    calls: u64,
    faults: u64,
    flushes: u64,
    place: Option<u32>,
}

impl Model for MemDisk {
    ghost Value = { MemoryDisk };

    ghost view = { λ d. record {
      content = d.content.items;
      block_size = d.block_size;
      blocks = d.blocks;
      fails = d.fails.items;
      calls = d.calls;
      faults = d.faults;
      flushes = d.flushes;
      place = d.place;
    } };

    ghost invariant = { λ d. length d.content.items ≡ d.blocks * d.block_size };
}

impl MemDisk {
    /// A disk with the whole blocks of these bytes, of which these calls fail; what comes after the
    /// last whole block is dropped. It takes no memory; the allocator comes first as in each call
    /// that makes a value which holds memory.
    pub fn new(_alloc: Global, content: Bytes, block_size: u32, fails: Vec<u64>) -> MemDisk
        requires { 0 < block_size }
        ensures { result ≡ disk_over content block_size fails.items None }
    {
        MemDisk::opened(content, block_size, fails, None)
    }

    // A disk over the bytes of a file, at its place among its host's openings.
    pub(crate) fn opened(
        content: Bytes,
        block_size: u32,
        fails: Vec<u64>,
        place: Option<u32>,
    ) -> MemDisk
        requires { 0 < block_size }
        ensures { result ≡ disk_over content block_size fails.items place }
    {
        let mut content = content.into_vec();
        let blocks = content.len() / block_size as usize;
        content.truncate(blocks * block_size as usize);
        MemDisk {
            content,
            block_size,
            blocks: blocks as u64,
            fails,
            calls: 0,
            faults: 0,
            flushes: 0,
            place,
        }
    }

    /// The bytes of its blocks.
    pub fn content(&self) -> &[u8]
        ensures { result.now ≡ self.now.content }
    {
        self.content.as_slice()
    }

    /// How often it failed; it stands still at u64::MAX.
    pub fn faults(&self) -> u64
        ensures { result ≡ self.now.faults }
    {
        self.faults
    }

    /// How many flushes were done; it stands still at u64::MAX.
    pub fn flushes(&self) -> u64
        ensures { result ≡ self.now.flushes }
    {
        self.flushes
    }

    // Its place among its host's openings.
    pub(crate) fn place(&self) -> Option<u32>
        ensures { result ≡ self.now.place }
    {
        self.place
    }

    // The bytes of its blocks, to be kept.
    pub(crate) fn into_content(self) -> Bytes
        ensures { result ≡ self.content }
    {
        Bytes::from_vec(self.content)
    }

    // Counts a call, and also a fault where the call is one of those that fail.
    fn begin_call(&mut self) -> Result<(), Failed>
        ensures begun { OnOk result ((next_disk_call_fails self.old ≡ false) × (self.new ≡ disk_call self.old)) }
        ensures failed { OnErr result (IsTrue (next_disk_call_fails self.old) × (self.new ≡ failed_disk_call self.old)) }
        ensures fault_count { self.old.faults ≤ self.new.faults }
    {
        self.calls = self.calls.saturating_add(1);
        if self.fails.contains(&self.calls) {
            self.faults = self.faults.saturating_add(1);
            return Err(Failed);
        }
        Ok(())
    }
}

impl Disk for MemDisk {
    ghost state = { memory_state };

    fn block_size(&self) -> u32 {
        self.block_size
    }

    fn blocks(&self) -> u64 {
        self.blocks
    }

    fn tells(&self) -> bool {
        let _whole = &self.content;
        true
    }

    /// Failed exactly where this call is one that fails: the buffer is as it was.
    fn read(&mut self, lba: u64, to: &mut [u8]) -> Result<(), Failed>
        requires { IsInside lba (length to.old) self.old.block_size self.old.blocks }
        ensures given { OnOk result (Reads (Some self.old.content) (lba * self.old.block_size) to.new) }
        ensures done { OnOk result ((next_disk_call_fails self.old ≡ false) × (self.new ≡ disk_call self.old)) }
        ensures failed { OnErr result (IsTrue (next_disk_call_fails self.old) × (self.new ≡ failed_disk_call self.old)) }
        ensures same_buffer { OnErr result (to.new ≡ to.old) }
        ensures fault_count { self.old.faults ≤ self.new.faults }
        ensures same_shape { HasSameShape (memory_state self.old) (memory_state self.new) }
    {
        self.begin_call()?;
        let at = lba as usize * self.block_size as usize;
        to.copy_from_slice(&self.content[at..at + to.len()]);
        Ok(())
    }

    /// Failed exactly where this call is one that fails.
    fn write(&mut self, lba: u64, from: &[u8]) -> Result<(), Failed>
        requires { IsInside lba (length from.now) self.old.block_size self.old.blocks }
        ensures done { OnOk result ((next_disk_call_fails self.old ≡ false)
            × (self.new ≡ write_call self.old (lba * self.old.block_size) from.now)) }
        ensures failed { OnErr result (IsTrue (next_disk_call_fails self.old) × (self.new ≡ failed_disk_call self.old)) }
        ensures fault_count { self.old.faults ≤ self.new.faults }
        ensures same_shape { HasSameShape (memory_state self.old) (memory_state self.new) }
    {
        self.begin_call()?;
        let at = lba as usize * self.block_size as usize;
        self.content[at..at + from.len()].copy_from_slice(from);
        Ok(())
    }

    /// Failed exactly where this call is one that fails.
    fn flush(&mut self) -> Result<(), Failed>
        ensures done { OnOk result ((next_disk_call_fails self.old ≡ false) × (self.new ≡ flush_call self.old)) }
        ensures failed { OnErr result (IsTrue (next_disk_call_fails self.old) × (self.new ≡ failed_disk_call self.old)) }
        ensures fault_count { self.old.faults ≤ self.new.faults }
        ensures same_shape { HasSameShape (memory_state self.old) (memory_state self.new) }
        ensures flush_count { self.old.flushes ≤ self.new.flushes }
    {
        self.begin_call()?;
        self.flushes = self.flushes.saturating_add(1);
        Ok(())
    }
}
