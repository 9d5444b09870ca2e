//! The blocks of one cluster, which several volumes may share.
ghost use Rattle.std.specs.Prelude.{◌≡◌, ◌+◌, ◌<◌, ◌≤◌, ◌^◌, ◌++◌, All, length, replicate, take, drop, IfOk, OnOk, OnErr};
ghost use Rattle.std.specs.List.{concat};
ghost use Rattle.bd_pages.specs.Fills.{filled};
ghost use Rattle.bd_pages.specs.Pages.{zeroed};

use crate::store::Store;
use bd_base::{Bytes, Fill, OutOfMemory};
use std::alloc::{AllocError, Global};
use std::marker::Model;
use std::sync::Arc;

/// The blocks of a cluster. Those that share it see the same; the first that writes gets pages of its own.
#[derive(Drop)]
pub(crate) struct Cluster {
    store: Arc<Store>,
}

impl Model for Cluster {
    ghost use Rattle.std.specs.Arc.{arc_value};
    ghost use Rattle.bd_volume.specs.Clusters.{Stored};

    ghost Value = { Stored };

    ghost view = { λ c. arc_value c.store };
}

impl Clone for Cluster {
    ghost is_clone = { λ c d. d ≡ c };

    // It shares the blocks.
    fn clone(&self) -> Result<Cluster, AllocError> {
        let store = Arc::try_clone(&self.store)?;
        Ok(Cluster { store })
    }
}

impl Cluster {
    /// This number of blocks of that size, all zeros.
    pub(crate) fn zeros(alloc: Global, blocks: u64, size: u32) -> Result<Cluster, OutOfMemory>
        ensures size { IfOk result (λ c. c.size ≡ size) }
        ensures blocks { IfOk result (λ c. c.blocks ≡ replicate blocks (replicate size 0)) }
    {
        let zeros = Store::zeros(alloc, blocks, size)?;
        let store = Arc::new(alloc, zeros)?;
        Ok(Cluster { store })
    }

    /// The bytes of a block: every block has so many.
    pub(crate) fn size(&self) -> u32
        ensures value { result ≡ self.now.size }
        ensures each { All (λ block. length block ≡ result) self.now.blocks }
    {
        self.store.size()
    }

    /// The bytes of `count` blocks from `at` on, one block after another.
    pub(crate) fn read(&self, alloc: Global, at: u64, count: u64) -> Result<Bytes, OutOfMemory>
        requires { at + count ≤ length self.now.blocks }
        ensures { IfOk result (λ b. b ≡ concat (take count (drop at self.now.blocks))) }
    {
        self.store.read(alloc, at, count)
    }

    /// Puts what a write brings into `count` blocks from `at` on, of which the first has this number on
    /// the device that was written. Out of memory, the blocks are as they were.
    pub(crate) fn fill(
        &mut self,
        alloc: Global,
        at: u64,
        count: u64,
        fill: Fill,
        number: u64,
    ) -> Result<(), OutOfMemory>
        requires inside { at + count ≤ length self.old.blocks }
        requires numbered { number + count < 2 ^ 64 }
        ensures size { self.new.size ≡ self.old.size }
        ensures long { length self.new.blocks ≡ length self.old.blocks }
        ensures ok { OnOk result (self.new.blocks ≡ take at self.old.blocks ++ filled fill number (take count (drop at self.old.blocks)) ++ drop (at + count) self.old.blocks) }
        ensures err { OnErr result (self.new ≡ self.old) }
    {
        if let Some(store) = Arc::get_mut(&mut self.store) {
            store.fill(at, count, fill, number);
            return Ok(());
        }
        let mut copy = self.store.copy(alloc)?;
        copy.fill(at, count, fill, number);
        self.store = Arc::new(alloc, copy)?;
        Ok(())
    }

    /// Makes every byte of `count` blocks from `at` on 0. Out of memory, the blocks are as they were.
    pub(crate) fn zero(&mut self, alloc: Global, at: u64, count: u64) -> Result<(), OutOfMemory>
        requires { at + count ≤ length self.old.blocks }
        ensures size { self.new.size ≡ self.old.size }
        ensures long { length self.new.blocks ≡ length self.old.blocks }
        ensures ok { OnOk result (self.new.blocks ≡ take at self.old.blocks ++ zeroed (take count (drop at self.old.blocks)) ++ drop (at + count) self.old.blocks) }
        ensures err { OnErr result (self.new ≡ self.old) }
    {
        if let Some(store) = Arc::get_mut(&mut self.store) {
            store.zero(at, count);
            return Ok(());
        }
        let mut copy = self.store.copy(alloc)?;
        copy.zero(at, count);
        self.store = Arc::new(alloc, copy)?;
        Ok(())
    }
}
