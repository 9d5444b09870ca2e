//! One page: a part of a device's bytes, which takes memory only once a write needs it.
ghost use Rattle.std.specs.Prelude.{◌≡◌, ◌+◌, ◌*◌, ◌^◌, ◌<◌, ◌≤◌, ◌++◌, ℕ, List, true, false, length, min, replicate, take, drop, IfOk, OnOk, OnErr};
ghost use Rattle.sha2.specs.Hashers.{Holds256};
ghost use Rattle.bd_base.specs.Pattern.{pattern};
ghost use Rattle.bd_pages.specs.Bytes.{written};
ghost use Rattle.bd_pages.specs.Fills.{patterns};
ghost use Rattle.bd_pages.specs.Leaf.{Leaf};

use bd_base::{OutOfMemory, fill_pattern};
use sha2::{Digest, Sha256};
use std::alloc::Global;
use std::marker::Model;

/// A page, seen as its bytes, whether there is memory for them, and whether a write touched it.
#[derive(Drop)]
pub(crate) struct Page {
    len: usize,
    memory: Option<Vec<u8>>,
    taken: bool,
}

impl Model for Page {
    ghost use Rattle.std.specs.Prelude.{is_some, option_map};
    ghost use Rattle.bd_pages.specs.Leaf.{Leaf, IsPage, bytes_of};

    ghost Value = { Leaf };

    ghost view = { λ p. record { bytes = bytes_of p.len (option_map (λ m. m.items) p.memory); ready = is_some p.memory; taken = p.taken } };

    ghost invariant = { λ p. IsPage p.len (option_map (λ m. m.items) p.memory) p.taken };
}

/// Blocks one after another: where the first begins, the bytes of each, and how many there are.
#[derive(Clone, Copy)]
pub(crate) struct Span {
    pub(crate) at: usize,
    pub(crate) size: usize,
    pub(crate) count: usize,
}

// Puts the pattern of a seed into blocks, of which the first has this number.
fn fill_each(bytes: &mut [u8], span: Span, seed: u64, number: u64)
    requires inside { span.at + span.count * span.size ≤ length bytes.old }
    requires numbered { number + span.count < 2 ^ 64 }
    ensures { bytes.new ≡ written span.at (patterns seed number span.size span.count) bytes.old }
{
    let size = span.size;
    for k in 0..span.count {
        let at = span.at + k * size;
        fill_pattern(seed, number + k as u64, &mut bytes[at..at + size]);
    }
}

// Appends zeros. More bytes than 64 bits count are out of memory.
fn append_zeros(to: &mut Vec<u8>, n: usize) -> Result<(), OutOfMemory>
    ensures { OnOk result (to.new.items ≡ to.old.items ++ replicate n 0) }
{
    match to.len().checked_add(n) {
        Some(len) => to.resize(len, 0)?,
        None => return Err(OutOfMemory),
    }
    Ok(())
}

// How many zeros a hasher is fed at a time.
const ZEROS: usize = 1_024;

// The lesser of two.
fn least(n: usize, most: usize) -> usize
    ensures { result ≡ min n most }
{
    if n < most { n } else { most }
}

// Feeds zeros to a hasher. It takes no memory.
fn feed_zeros(hasher: &mut Sha256, n: usize)
    ensures { (m : List ℕ) → Holds256 hasher.old m → Holds256 hasher.new (m ++ replicate n 0) }
{
    let zeros = [0; ZEROS];
    let mut done = 0;
    while done < n {
        let count = least(n - done, ZEROS);
        hasher.update(&zeros[..count]);
        done += count;
    }
}

impl Page {
    /// Zeros, without memory.
    pub(crate) fn blank(len: usize) -> Page
        ensures { result ≡ record { bytes = replicate len 0; ready = false; taken = false } }
    {
        Page {
            len,
            memory: None,
            taken: false,
        }
    }

    /// Whether a write touched it.
    pub(crate) fn is_taken(&self) -> bool
        ensures { result ≡ self.now.taken }
    {
        self.taken
    }

    /// Takes memory, where there is none yet.
    pub(crate) fn prepare(&mut self, alloc: Global) -> Result<(), OutOfMemory>
        ensures ok { OnOk result (self.new ≡ record self.old { ready = true }) }
        ensures err { OnErr result (self.new ≡ self.old) }
    {
        if self.memory.is_none() {
            self.memory = Some(vec![in alloc; 0; self.len]?);
        }
        Ok(())
    }

    /// Gives memory back that no write touched.
    pub(crate) fn release(&mut self)
        ensures bytes { self.new.bytes ≡ self.old.bytes }
        ensures taken { self.new.taken ≡ self.old.taken }
    {
        if !self.taken {
            self.memory = None;
        }
    }

    /// From now on a write has touched it.
    pub(crate) fn mark(&mut self)
        requires { self.old.ready ≡ true }
        ensures { self.new ≡ record self.old { taken = true } }
    {
        self.taken = true;
    }

    /// Writes bytes from a place on.
    pub(crate) fn put(&mut self, at: usize, bytes: &[u8])
        requires taken { self.old.taken ≡ true }
        requires inside { at + length bytes.now ≤ length self.old.bytes }
        ensures { self.new ≡ record self.old { bytes = written at bytes.now self.old.bytes } }
    {
        if let Some(memory) = &mut self.memory {
            memory[at..at + bytes.len()].copy_from_slice(bytes);
        }
    }

    /// Puts the pattern of a seed into `n` bytes from a place on, as at the beginning of a block.
    pub(crate) fn fill(&mut self, at: usize, n: usize, seed: u64, block: u64)
        requires taken { self.old.taken ≡ true }
        requires inside { at + n ≤ length self.old.bytes }
        ensures { self.new ≡ record self.old { bytes = written at (pattern seed block n) self.old.bytes } }
    {
        if let Some(memory) = &mut self.memory {
            fill_pattern(seed, block, &mut memory[at..at + n]);
        }
    }

    /// Puts the pattern of a seed into blocks, of which the first has this number.
    pub(crate) fn fill_blocks(&mut self, span: Span, seed: u64, number: u64)
        requires taken { self.old.taken ≡ true }
        requires inside { span.at + span.count * span.size ≤ length self.old.bytes }
        requires numbered { number + span.count < 2 ^ 64 }
        ensures { self.new ≡ record self.old { bytes = written span.at (patterns seed number span.size span.count) self.old.bytes } }
    {
        if let Some(memory) = &mut self.memory {
            fill_each(memory.as_mut_slice(), span, seed, number);
        }
    }

    /// Makes `n` bytes from a place on 0. It takes no memory.
    pub(crate) fn clear(&mut self, at: usize, n: usize)
        requires { at + n ≤ length self.old.bytes }
        ensures { self.new ≡ record self.old { bytes = written at (replicate n 0) self.old.bytes } }
    {
        match &mut self.memory {
            Some(memory) => memory[at..at + n].fill(0),
            None => {}
        }
    }

    /// Puts this number of zeros after its bytes. Out of memory, it is as it was.
    pub(crate) fn widen(&mut self, n: usize) -> Result<(), OutOfMemory>
        requires { length self.old.bytes + n < 2 ^ 64 }
        ensures ok { OnOk result (self.new ≡ record self.old { bytes = self.old.bytes ++ replicate n 0 }) }
        ensures err { OnErr result (self.new ≡ self.old) }
    {
        let len = self.len + n;
        if let Some(memory) = &mut self.memory {
            memory.resize(len, 0)?;
        }
        self.len = len;
        Ok(())
    }

    /// Appends `n` bytes from a place on.
    pub(crate) fn read(&self, at: usize, n: usize, to: &mut Vec<u8>) -> Result<(), OutOfMemory>
        requires { at + n ≤ length self.now.bytes }
        ensures { OnOk result (to.new.items ≡ to.old.items ++ take n (drop at self.now.bytes)) }
    {
        match &self.memory {
            Some(memory) => to.extend_from_slice(&memory[at..at + n])?,
            None => append_zeros(to, n)?,
        }
        Ok(())
    }

    /// Feeds its bytes to a hasher. It takes no memory.
    pub(crate) fn feed(&self, hasher: &mut Sha256)
        ensures { (m : List ℕ) → Holds256 hasher.old m → Holds256 hasher.new (m ++ self.now.bytes) }
    {
        match &self.memory {
            Some(memory) => hasher.update(memory.as_slice()),
            None => feed_zeros(hasher, self.len),
        }
    }

    /// An equal page.
    pub(crate) fn copy(&self, alloc: Global) -> Result<Page, OutOfMemory>
        ensures { IfOk result (λ page. page ≡ self.now) }
    {
        let memory = match &self.memory {
            Some(memory) => Some(Vec::from_slice(alloc, memory.as_slice())?),
            None => None,
        };
        Ok(Page {
            len: self.len,
            memory,
            taken: self.taken,
        })
    }
}
