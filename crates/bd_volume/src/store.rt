//! Blocks of one size in one piece of memory.
ghost use Rattle.std.specs.Prelude.{◌≡◌, ◌+◌, ◌*◌, ◌-◌, ◌<◌, ◌≤◌, ◌^◌, ◌++◌, All, length, replicate, take, drop, IfOk, OnOk};
ghost use Rattle.std.specs.List.{concat};
ghost use Rattle.bd_base.specs.Pattern.{pattern_byte};
ghost use Rattle.bd_pages.specs.Bytes.{written};
ghost use Rattle.bd_pages.specs.Fills.{bytes_filled, filled, patterns};
ghost use Rattle.bd_pages.specs.Pages.{zeroed};

use bd_base::{Bytes, Fill, OutOfMemory, fill_pattern};
use std::alloc::Global;
use std::marker::Model;

/// Blocks one after another, and the bytes of each.
#[derive(Drop)]
pub(crate) struct Store {
    bytes: Vec<u8>,
    count: u64,
    size: u32,
}

impl Model for Store {
    ghost use Rattle.std.specs.Prelude.{◌≡◌, ◌*◌, length};
    ghost use Rattle.bd_pages.specs.Pages.{blocks_of};
    ghost use Rattle.bd_volume.specs.Clusters.{Stored};

    ghost Value = { Stored };

    ghost view = { λ s. record { size = s.size; blocks = blocks_of s.size s.count s.bytes.items } };

    ghost invariant = { λ s. length s.bytes.items ≡ s.count * s.size };
}

/// Bytes of some blocks: where the first begins, how many each has, and how many blocks there are.
#[derive(Clone, Copy)]
struct Span {
    at: usize,
    size: usize,
    count: usize,
}

// Puts the pattern of a seed into blocks, of which the first has this number.
fn fill_each(bytes: &mut [u8], span: Span, seed: u64, number: u64)
    requires inside { span.at + span.count * span.size ≤ length bytes.old }
    requires numbered { number + span.count < 2 ^ 64 }
    ensures { bytes.new ≡ written span.at (patterns seed number span.size span.count) bytes.old }
{
    let size = span.size;
    for k in 0..span.count {
        let at = span.at + k * size;
        fill_pattern(seed, number + k as u64, &mut bytes[at..at + size]);
    }
}

// Byte 0 of a block of the pattern of a seed, complemented.
fn first_turned(seed: u64, block: u64) -> u8
    ensures { result ≡ 255 - pattern_byte seed block 0 }
{
    255 - ((seed % 256 + 31 * (block % 256)) % 256) as u8
}

// Writes bytes from a place on.
fn put(bytes: &mut [u8], at: usize, new: &[u8])
    requires { at + length new.now ≤ length bytes.old }
    ensures { bytes.new ≡ written at new.now bytes.old }
{
    bytes[at..at + new.len()].copy_from_slice(new);
}

// Makes bytes from a place on 0.
fn clear(bytes: &mut [u8], at: usize, n: usize)
    requires { at + n ≤ length bytes.old }
    ensures { bytes.new ≡ written at (replicate n 0) bytes.old }
{
    bytes[at..at + n].fill(0);
}

// The bytes from a place on.
fn part(alloc: Global, bytes: &[u8], at: usize, n: usize) -> Result<Bytes, OutOfMemory>
    requires { at + n ≤ length bytes.now }
    ensures { IfOk result (λ b. b ≡ take n (drop at bytes.now)) }
{
    let part = Vec::from_slice(alloc, &bytes[at..at + n])?;
    Ok(Bytes::from_vec(part))
}

// Puts what a write brings into blocks, of which the first has this number.
fn fill_span(bytes: &mut [u8], span: Span, fill: Fill, number: u64)
    requires inside { span.at + span.count * span.size ≤ length bytes.old }
    requires numbered { number + span.count < 2 ^ 64 }
    ensures { bytes.new ≡ written span.at (bytes_filled fill number span.size span.count) bytes.old }
{
    let len = span.count * span.size;
    fill_each(bytes, span, fill.seed, number);
    if fill.flip && len > 0 {
        put(bytes, span.at, &[first_turned(fill.seed, number)]);
    }
}

impl Store {
    /// This number of blocks of that size, all zeros. More bytes than 64 bits count are out of memory.
    pub(crate) fn zeros(alloc: Global, count: u64, size: u32) -> Result<Store, OutOfMemory>
        ensures size { IfOk result (λ s. s.size ≡ size) }
        ensures blocks { IfOk result (λ s. s.blocks ≡ replicate count (replicate size 0)) }
    {
        let Some(len) = count.checked_mul(size as u64) else {
            return Err(OutOfMemory);
        };
        let bytes = vec![in alloc; 0; len as usize]?;
        Ok(Store { bytes, count, size })
    }

    /// The bytes of a block: every block has so many.
    pub(crate) fn size(&self) -> u32
        ensures value { result ≡ self.now.size }
        ensures each { All (λ block. length block ≡ result) self.now.blocks }
    {
        self.size
    }

    // Where some blocks lie among the bytes.
    fn span(&self, at: u64, count: u64) -> Span
        requires { at + count ≤ length self.now.blocks }
        ensures at { result.at ≡ at * self.now.size }
        ensures size { result.size ≡ self.now.size }
        ensures count { result.count ≡ count }
        ensures small { result.at + result.count * result.size < 2 ^ 64 }
    {
        let _len = self.bytes.len();
        let size = self.size as usize;
        Span {
            at: at as usize * size,
            size,
            count: count as usize,
        }
    }

    /// The bytes of `count` blocks from `at` on, one block after another.
    pub(crate) fn read(&self, alloc: Global, at: u64, count: u64) -> Result<Bytes, OutOfMemory>
        requires { at + count ≤ length self.now.blocks }
        ensures { IfOk result (λ b. b ≡ concat (take count (drop at self.now.blocks))) }
    {
        let span = self.span(at, count);
        let bytes = part(
            alloc,
            self.bytes.as_slice(),
            span.at,
            span.count * span.size,
        )?;
        Ok(bytes)
    }

    /// Puts what a write brings into `count` blocks from `at` on, of which the first has this number on
    /// the device that was written.
    pub(crate) fn fill(&mut self, at: u64, count: u64, fill: Fill, number: u64)
        requires inside { at + count ≤ length self.old.blocks }
        requires numbered { number + count < 2 ^ 64 }
        ensures size { self.new.size ≡ self.old.size }
        ensures long { length self.new.blocks ≡ length self.old.blocks }
        ensures blocks { self.new.blocks ≡ take at self.old.blocks ++ filled fill number (take count (drop at self.old.blocks)) ++ drop (at + count) self.old.blocks }
    {
        let span = self.span(at, count);
        fill_span(self.bytes.as_mut_slice(), span, fill, number);
    }

    /// Makes every byte of `count` blocks from `at` on 0.
    pub(crate) fn zero(&mut self, at: u64, count: u64)
        requires { at + count ≤ length self.old.blocks }
        ensures size { self.new.size ≡ self.old.size }
        ensures long { length self.new.blocks ≡ length self.old.blocks }
        ensures blocks { self.new.blocks ≡ take at self.old.blocks ++ zeroed (take count (drop at self.old.blocks)) ++ drop (at + count) self.old.blocks }
    {
        let span = self.span(at, count);
        clear(self.bytes.as_mut_slice(), span.at, span.count * span.size);
    }

    /// Equal blocks.
    pub(crate) fn copy(&self, alloc: Global) -> Result<Store, OutOfMemory>
        ensures { IfOk result (λ s. s ≡ self.now) }
    {
        Ok(Store {
            bytes: Vec::from_slice(alloc, self.bytes.as_slice())?,
            count: self.count,
            size: self.size,
        })
    }
}
