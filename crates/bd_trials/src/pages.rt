//! The blocks of a device over pages. A case begins with how many blocks there are, and their size.
use crate::steps::{Subject, said, told};
use crate::words::{first_word, number, small};
use bd_base::OutOfMemory;
use bd_pages::Pages;
use std::alloc::Global;

pub(crate) fn answer(alloc: Global, case: &str) -> Result<String, OutOfMemory> {
    let (beginning, steps) = case.split_once("; ").unwrap_or((case, ""));
    let (blocks, size) = first_word(beginning);
    let mut pages = Pages::zeros(alloc, number(blocks), small(size))?;
    told(alloc, &mut pages, steps)
}

// Writes blocks whose bytes are all the same.
fn write(
    alloc: Global,
    pages: &mut Pages,
    lba: u64,
    count: u64,
    byte: u8,
) -> Result<String, OutOfMemory> {
    if !pages.has(lba, count) {
        return said(alloc, "not there");
    }
    let Some(len) = count.checked_mul(pages.size() as u64) else {
        return Err(OutOfMemory);
    };
    let bytes = vec![in alloc; byte; len as usize]?;
    pages.write(alloc, lba, count, bytes.as_slice())?;
    said(alloc, "done")
}

// How many bytes of which value there are, one run after the other.
fn runs(alloc: Global, bytes: &[u8]) -> Result<String, OutOfMemory> {
    let mut text = String::new(alloc);
    let mut run = 0u64;
    let mut value = 0;
    for byte in bytes {
        if run > 0 && *byte != value {
            write!(text, "{run} of {value}, ")?;
            run = 0;
        }
        value = *byte;
        run = run.saturating_add(1);
    }
    write!(text, "{run} of {value}")?;
    Ok(text)
}

fn read(alloc: Global, pages: &Pages, lba: u64, count: u64) -> Result<String, OutOfMemory> {
    if !pages.has(lba, count) {
        return said(alloc, "not there");
    }
    let bytes = pages.read(alloc, lba, count)?;
    runs(alloc, bytes.as_slice())
}

fn zero(alloc: Global, pages: &mut Pages, lba: u64, count: u64) -> Result<String, OutOfMemory> {
    if !pages.has(lba, count) {
        return said(alloc, "not there");
    }
    pages.zero(lba, count);
    said(alloc, "done")
}

impl Subject for Pages {
    fn step(&mut self, alloc: Global, words: &[&str]) -> Result<String, OutOfMemory> {
        match words {
            ["write", lba, count, byte] => {
                let byte = byte.parse().unwrap_or(0);
                write(alloc, self, number(lba), number(count), byte)
            }
            ["read", lba, count] => read(alloc, self, number(lba), number(count)),
            ["zero", lba, count] => zero(alloc, self, number(lba), number(count)),
            ["copy"] => {
                *self = self.copy(alloc)?;
                said(alloc, "done")
            }
            ["taken"] => {
                let taken = self.taken();
                Ok(format!(in alloc; "{taken}")?)
            }
            ["digest"] => Ok(hex::encode(alloc, self.digest().as_slice())?),
            _ => said(alloc, "no such step"),
        }
    }
}
