//! Blocks that grow. A case begins with how many there are, and their size.
use crate::steps::{Subject, said, told};
use crate::words::{first_word, number, small};
use bd_base::{Fill, OutOfMemory};
use bd_pages::Blocks;
use std::alloc::Global;

pub(crate) fn answer(alloc: Global, case: &str) -> Result<String, OutOfMemory> {
    let (beginning, steps) = case.split_once("; ").unwrap_or((case, ""));
    let (blocks, size) = first_word(beginning);
    let mut blocks = Blocks::zeros(alloc, number(blocks), small(size))?;
    told(alloc, &mut blocks, steps)
}

// The bytes of some blocks as numbers.
fn read(alloc: Global, blocks: &Blocks, lba: u64, count: u64) -> Result<String, OutOfMemory> {
    if !blocks.has(lba, count) {
        return said(alloc, "not there");
    }
    let bytes = blocks.read(alloc, lba, count)?;
    let mut text = format!(in alloc; "{} bytes", bytes.as_slice().len())?;
    for byte in bytes.as_slice() {
        write!(text, " {byte}")?;
    }
    Ok(text)
}

// Fills one block, as that of number 0.
fn fill(alloc: Global, blocks: &mut Blocks, lba: u64, seed: u64) -> Result<String, OutOfMemory> {
    if !blocks.has(lba, 1) {
        return said(alloc, "not there");
    }
    blocks.fill(alloc, lba, 1, Fill { seed, flip: false }, 0)?;
    said(alloc, "done")
}

impl Subject for Blocks {
    fn step(&mut self, alloc: Global, words: &[&str]) -> Result<String, OutOfMemory> {
        match words {
            ["fill", lba, seed] => fill(alloc, self, number(lba), number(seed)),
            ["grow", blocks] => {
                self.grow(alloc, number(blocks))?;
                said(alloc, "done")
            }
            ["read", lba, count] => read(alloc, self, number(lba), number(count)),
            ["taken"] => {
                let taken = self.pages().taken();
                Ok(format!(in alloc; "{taken}")?)
            }
            ["len"] => {
                let len = self.len();
                Ok(format!(in alloc; "{len}")?)
            }
            _ => said(alloc, "no such step"),
        }
    }
}
