//! The blocks alone, without what is told of pages.
ghost use Rattle.std.specs.Prelude.{◌≡◌, ◌+◌, ◌<◌, ◌≤◌, ◌^◌, ◌++◌, length, nat_le, replicate, take, drop, IfOk, OnOk, OnErr};
ghost use Rattle.std.specs.List.{concat};
ghost use Rattle.sha2.specs.Sha256.{sha256};
ghost use Rattle.bd_pages.specs.Fills.{filled};
ghost use Rattle.bd_pages.specs.Pages.{cut_as, grown, zeroed};

use crate::pages::Pages;
use bd_base::{Bytes, Fill, OutOfMemory};
use std::alloc::Global;
use std::marker::Model;

/// The blocks of a malloc device over its pages, seen as their list: `Pages`, of which nothing is told
/// but the blocks.
#[derive(Drop)]
pub struct Blocks {
    pages: Pages,
}

impl Model for Blocks {
    ghost use Rattle.std.specs.Prelude.{List, ℕ};

    ghost Value = { List (List ℕ) };

    ghost view = { λ b. b.pages.blocks };
}

impl Blocks {
    /// `blocks` blocks of `size` bytes, all zeros, and no page is taken. More bytes than 64 bits count
    /// are out of memory.
    pub fn zeros(alloc: Global, blocks: u64, size: u32) -> Result<Blocks, OutOfMemory>
        ensures { IfOk result (λ b. b ≡ replicate blocks (replicate size 0)) }
    {
        let pages = Pages::zeros(alloc, blocks, size)?;
        Ok(Blocks { pages })
    }

    /// The same blocks with the pages that are taken.
    pub fn pages(&self) -> &Pages
        ensures { result.now.blocks ≡ self.now }
    {
        &self.pages
    }

    /// How many blocks there are.
    pub fn len(&self) -> u64
        ensures { result ≡ length self.now }
    {
        self.pages.len()
    }

    /// Whether there are `count` blocks from `lba` on.
    pub fn has(&self, lba: u64, count: u64) -> bool
        ensures { result ≡ nat_le (lba + count) (length self.now) }
    {
        self.pages.has(lba, count)
    }

    /// The bytes of `count` blocks from `lba` on, one block after another.
    pub fn read(&self, alloc: Global, lba: u64, count: u64) -> Result<Bytes, OutOfMemory>
        requires { lba + count ≤ length self.now }
        ensures { IfOk result (λ b. b ≡ concat (take count (drop lba self.now))) }
    {
        self.pages.read(alloc, lba, count)
    }

    /// Writes `count` blocks from `lba` on: as many bytes as they have. Out of memory, the blocks are
    /// as they were.
    pub fn write(
        &mut self,
        alloc: Global,
        lba: u64,
        count: u64,
        bytes: &[u8],
    ) -> Result<(), OutOfMemory>
        requires inside { lba + count ≤ length self.old }
        requires whole { length bytes.now ≡ length (concat (take count (drop lba self.old))) }
        ensures ok { OnOk result (self.new ≡ take lba self.old ++ cut_as (take count (drop lba self.old)) bytes.now ++ drop (lba + count) self.old) }
        ensures err { OnErr result (self.new ≡ self.old) }
    {
        let _size = self.pages.size();
        self.pages.write(alloc, lba, count, bytes)
    }

    /// Puts what a write brings into `count` blocks from `lba` on, of which the first has this number on
    /// the device that was written: the pattern of its seed, and where it says so byte 0 complemented.
    /// Out of memory, the blocks are as they were.
    pub fn fill(
        &mut self,
        alloc: Global,
        lba: u64,
        count: u64,
        fill: Fill,
        number: u64,
    ) -> Result<(), OutOfMemory>
        requires inside { lba + count ≤ length self.old }
        requires numbered { number + count < 2 ^ 64 }
        ensures ok { OnOk result (self.new ≡ take lba self.old ++ filled fill number (take count (drop lba self.old)) ++ drop (lba + count) self.old) }
        ensures err { OnErr result (self.new ≡ self.old) }
    {
        self.pages.fill(alloc, lba, count, fill, number)
    }

    /// Makes every byte of `count` blocks from `lba` on 0. It takes no memory.
    pub fn zero(&mut self, lba: u64, count: u64)
        requires { lba + count ≤ length self.old }
        ensures { self.new ≡ take lba self.old ++ zeroed (take count (drop lba self.old)) ++ drop (lba + count) self.old }
    {
        self.pages.zero(lba, count);
    }

    /// This number of blocks: those that are there, and after them zeros as long as the first. Where there are
    /// as many or more, nothing changes. Out of memory, the blocks are as they were.
    pub fn grow(&mut self, alloc: Global, blocks: u64) -> Result<(), OutOfMemory>
        ensures ok { OnOk result (self.new ≡ grown blocks self.old) }
        ensures err { OnErr result (self.new ≡ self.old) }
    {
        if self.len() == 0 {
            // No block tells how long one is.
            self.pages = Pages::zeros(alloc, blocks, 0)?;
            return Ok(());
        }
        let _size = self.pages.size();
        self.pages.grow(alloc, blocks)
    }

    /// The SHA-256 of all bytes in order. It takes no memory.
    pub fn digest(&self) -> [u8; 32]
        ensures { result ≡ sha256 (concat self.now) }
    {
        self.pages.digest()
    }

    /// Equal blocks.
    pub fn copy(&self, alloc: Global) -> Result<Blocks, OutOfMemory>
        ensures { IfOk result (λ b. b ≡ self.now) }
    {
        let pages = self.pages.copy(alloc)?;
        Ok(Blocks { pages })
    }
}
