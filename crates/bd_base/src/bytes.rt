//! Bytes of blocks and files.
ghost use Rattle.std.specs.Prelude.{◌≡◌, ◌++◌, ◌∷◌, [], List, ℕ, length, replicate, IfOk, OnOk, OnErr};
ghost use Rattle.bd_base.specs.Pattern.{pattern};

use crate::memory::OutOfMemory;
use crate::pattern::fill_pattern;
use std::alloc::Global;
use std::marker::Model;

/// Bytes, seen as their list.
#[derive(Drop)]
pub struct Bytes {
    items: Vec<u8>,
}

impl Model for Bytes {
    ghost Value = { List ℕ };

    ghost view = { λ b. b.items.items };
}

impl Bytes {
    /// No bytes. It takes no memory.
    pub fn new(alloc: Global) -> Bytes
        ensures { result ≡ [] }
    {
        Bytes {
            items: Vec::new(alloc),
        }
    }

    /// The bytes of a slice, or out of memory.
    pub fn from_slice(alloc: Global, bytes: &[u8]) -> Result<Bytes, OutOfMemory>
        ensures { IfOk result (λ b. b ≡ bytes.now) }
    {
        let items = Vec::from_slice(alloc, bytes)?;
        Ok(Bytes { items })
    }

    /// The bytes of a vector. It takes no memory.
    pub fn from_vec(items: Vec<u8>) -> Bytes
        ensures { result ≡ items.items }
    {
        Bytes { items }
    }

    /// The bytes as a vector. It takes no memory.
    pub fn into_vec(self) -> Vec<u8>
        ensures { result.items ≡ self }
    {
        self.items
    }

    /// Zeros of this length, or out of memory.
    pub fn zeros(alloc: Global, n: usize) -> Result<Bytes, OutOfMemory>
        ensures { IfOk result (λ b. b ≡ replicate n 0) }
    {
        let items = vec![in alloc; 0; n]?;
        Ok(Bytes { items })
    }

    /// Adds a byte; out of memory, the bytes stay as they were.
    pub fn push(&mut self, byte: u8) -> Result<(), OutOfMemory>
        ensures ok { OnOk result (self.new ≡ self.old ++ byte ∷ []) }
        ensures err { OnErr result (self.new ≡ self.old) }
    {
        self.items.push(byte)?;
        Ok(())
    }

    /// Appends bytes; out of memory, the others stay as they were.
    pub fn append(&mut self, more: &[u8]) -> Result<(), OutOfMemory>
        ensures ok { OnOk result (self.new ≡ self.old ++ more.now) }
        ensures err { OnErr result (self.new ≡ self.old) }
    {
        self.items.extend_from_slice(more)?;
        Ok(())
    }

    pub fn len(&self) -> usize
        ensures { result ≡ length self.now }
    {
        self.items.len()
    }

    pub fn as_slice(&self) -> &[u8]
        ensures { result.now ≡ self.now }
    {
        self.items.as_slice()
    }

    /// Equal bytes, or out of memory.
    pub fn copy(&self) -> Result<Bytes, OutOfMemory>
        ensures { IfOk result (λ b. b ≡ self.now) }
    {
        let items = self.items.clone()?;
        Ok(Bytes { items })
    }

    /// Makes the bytes a block of a seed's pattern.
    pub fn fill(&mut self, seed: u64, block: u64)
        ensures { self.new ≡ pattern seed block (length self.old) }
    {
        fill_pattern(seed, block, self.items.as_mut_slice());
    }

    /// Makes every byte 0.
    pub fn zero(&mut self)
        ensures { self.new ≡ replicate (length self.old) 0 }
    {
        self.items.as_mut_slice().fill(0);
    }
}
