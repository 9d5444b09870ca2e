//! The blocks of a device over its pages.
ghost use Rattle.std.specs.Prelude.{◌≡◌, ◌+◌, ◌*◌, ◌<◌, ◌≤◌, ◌^◌, ◌++◌, ◌-◌, false, length, nat_le, replicate, take, drop, All, IfOk, OnOk, OnErr, count_by};
ghost use Rattle.std.specs.List.{concat};
ghost use Rattle.sha2.specs.Sha256.{sha256};
ghost use Rattle.bd_pages.specs.Fills.{filled};
ghost use Rattle.bd_pages.specs.Pages.{Paged, blocks_of, zeroed};
ghost use Rattle.bd_pages.specs.Table.{pages_of, touched, untaken};

use crate::page::{Page, Span};
use crate::table;
use bd_base::{Bytes, Fill, OutOfMemory};
use std::alloc::Global;
use std::marker::Model;

/// The blocks of a malloc device. Page n has its bytes from 65,536 * n on, and takes memory at the
/// first write that touches it; until then it reads as zeros.
#[derive(Drop)]
pub struct Pages {
    pages: Vec<Page>,
    count: usize,
    size: u32,
}

impl Model for Pages {
    ghost use Rattle.bd_pages.specs.Pages.{IsWhole, Paged, blocks_of};
    ghost use Rattle.bd_pages.specs.Table.{flat, marks};

    ghost Value = { Paged };

    ghost view = { λ s. record { size = s.size; blocks = blocks_of s.size s.count (flat s.pages.items); taken = marks s.pages.items } };

    ghost invariant = { λ s. IsWhole s.size s.count s.pages.items };
}

impl Pages {
    /// `blocks` blocks of `size` bytes, all zeros, and no page is taken. Only the table of the pages
    /// takes memory, 40 bytes for each. More bytes than 64 bits count are out of memory.
    pub fn zeros(alloc: Global, blocks: u64, size: u32) -> Result<Pages, OutOfMemory>
        ensures size { IfOk result (λ p. p.size ≡ size) }
        ensures blocks { IfOk result (λ p. p.blocks ≡ replicate blocks (replicate size 0)) }
        ensures taken { IfOk result (λ p. p.taken ≡ replicate (pages_of 0 (blocks * size)) false) }
    {
        let Some(len) = blocks.checked_mul(size as u64) else {
            return Err(OutOfMemory);
        };
        let pages = table::blank(alloc, len as usize)?;
        Ok(Pages {
            pages,
            count: blocks as usize,
            size,
        })
    }

    /// The bytes of a block: every block has so many.
    pub fn size(&self) -> u32
        ensures value { result ≡ self.now.size }
        ensures each { All (λ block. length block ≡ result) self.now.blocks }
    {
        self.size
    }

    /// How many blocks there are.
    pub fn len(&self) -> u64
        ensures { result ≡ length self.now.blocks }
    {
        self.count as u64
    }

    /// Whether there are `count` blocks from `lba` on.
    pub fn has(&self, lba: u64, count: u64) -> bool
        ensures { result ≡ nat_le (lba + count) (length self.now.blocks) }
    {
        let len = self.len();
        lba <= len && count <= len - lba
    }

    /// The bytes of `count` blocks from `lba` on, one block after another.
    pub fn read(&self, alloc: Global, lba: u64, count: u64) -> Result<Bytes, OutOfMemory>
        requires { lba + count ≤ length self.now.blocks }
        ensures { IfOk result (λ b. b ≡ concat (take count (drop lba self.now.blocks))) }
    {
        let size = self.size as usize;
        let len = count as usize * size;
        let mut bytes = Vec::with_capacity(alloc, len)?;
        table::read(self.pages.as_slice(), lba as usize * size, len, &mut bytes)?;
        Ok(Bytes::from_vec(bytes))
    }

    /// Writes `count` blocks from `lba` on. Every page that they need is taken before anything
    /// changes. Out of memory, blocks and taken pages are as they were, and what memory was got
    /// for the write is given back.
    pub fn write(
        &mut self,
        alloc: Global,
        lba: u64,
        count: u64,
        bytes: &[u8],
    ) -> Result<(), OutOfMemory>
        requires inside { lba + count ≤ length self.old.blocks }
        requires whole { length bytes.now ≡ count * self.old.size }
        ensures size { self.new.size ≡ self.old.size }
        ensures blocks { OnOk result (self.new.blocks ≡ take lba self.old.blocks ++ blocks_of self.old.size count bytes.now ++ drop (lba + count) self.old.blocks) }
        ensures taken { OnOk result (self.new.taken ≡ touched (lba * self.old.size) (count * self.old.size) self.old.taken) }
        ensures err { OnErr result (self.new ≡ self.old) }
    {
        let at = lba as usize * self.size as usize;
        table::write(alloc, self.pages.as_mut_slice(), at, bytes)
    }

    /// Puts what a write brings into `count` blocks from `lba` on, of which the first has this number on
    /// the device that was written: the pattern of its seed, and where it says so byte 0 complemented.
    /// As with `write`, every page is taken before anything changes, and out of memory, blocks and
    /// taken pages are as they were.
    pub fn fill(
        &mut self,
        alloc: Global,
        lba: u64,
        count: u64,
        fill: Fill,
        number: u64,
    ) -> Result<(), OutOfMemory>
        requires inside { lba + count ≤ length self.old.blocks }
        requires numbered { number + count < 2 ^ 64 }
        ensures size { self.new.size ≡ self.old.size }
        ensures blocks { OnOk result (self.new.blocks ≡ take lba self.old.blocks ++ filled fill number (take count (drop lba self.old.blocks)) ++ drop (lba + count) self.old.blocks) }
        ensures taken { OnOk result (self.new.taken ≡ touched (lba * self.old.size) (count * self.old.size) self.old.taken) }
        ensures err { OnErr result (self.new ≡ self.old) }
    {
        let size = self.size as usize;
        let span = Span {
            at: lba as usize * size,
            size,
            count: count as usize,
        };
        table::fill(alloc, self.pages.as_mut_slice(), span, fill, number)
    }

    /// Makes every byte of `count` blocks from `lba` on 0. It takes no memory, and the pages taken
    /// stay as they are.
    pub fn zero(&mut self, lba: u64, count: u64)
        requires { lba + count ≤ length self.old.blocks }
        ensures size { self.new.size ≡ self.old.size }
        ensures blocks { self.new.blocks ≡ take lba self.old.blocks ++ zeroed (take count (drop lba self.old.blocks)) ++ drop (lba + count) self.old.blocks }
        ensures taken { self.new.taken ≡ self.old.taken }
    {
        let size = self.size as usize;
        table::clear(
            self.pages.as_mut_slice(),
            lba as usize * size,
            count as usize * size,
        );
    }

    /// This number of blocks: those that are there, and zeros after them. No page is taken. Where there are as
    /// many or more, nothing changes. Out of memory, blocks and taken pages are as they were.
    pub fn grow(&mut self, alloc: Global, blocks: u64) -> Result<(), OutOfMemory>
        ensures size { self.new.size ≡ self.old.size }
        ensures blocks { OnOk result (self.new.blocks ≡ self.old.blocks ++ replicate (blocks - length self.old.blocks) (replicate self.old.size 0)) }
        ensures taken { OnOk result (self.new.taken ≡ untaken (pages_of 0 (blocks * self.old.size)) self.old.taken) }
        ensures err { OnErr result (self.new ≡ self.old) }
    {
        let size = self.size as usize;
        let count = blocks as usize;
        if count <= self.count {
            return Ok(());
        }
        let Some(len) = count.checked_mul(size) else {
            return Err(OutOfMemory);
        };
        let old = self.count * size;
        table::grow(alloc, &mut self.pages, old, len - old)?;
        self.count = count;
        Ok(())
    }

    /// The SHA-256 of all bytes in order. It takes no memory.
    pub fn digest(&self) -> [u8; 32]
        ensures { result ≡ sha256 (concat self.now.blocks) }
    {
        table::digest(self.pages.as_slice())
    }

    /// How many different pages writes have touched. It takes no memory.
    pub fn taken(&self) -> u64
        ensures { result ≡ count_by (λ taken. taken) self.now.taken }
    {
        table::count(self.pages.as_slice())
    }

    /// Equal blocks, and the same pages are taken.
    pub fn copy(&self, alloc: Global) -> Result<Pages, OutOfMemory>
        ensures { IfOk result (λ p. p ≡ self.now) }
    {
        let pages = table::copy(alloc, self.pages.as_slice())?;
        Ok(Pages {
            pages,
            count: self.count,
            size: self.size,
        })
    }
}
