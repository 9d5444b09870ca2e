//! Layouts of sets: where blocks lie. A case begins with the layout, the strip, and the members' sizes.
ghost use Rattle.std.specs.Prelude.{◌≤◌, ◌↔◌, All, IsTrue};

use crate::steps::{Subject, said, told};
use crate::words::number;
use bd_base::OutOfMemory;
use bd_raid::{Raid, RaidError, left_in_strip, used};
use std::alloc::Global;

// Whether each of some sizes is one that a set takes.
fn fit(sizes: &[u64]) -> bool
    ensures { IsTrue result ↔ All (λ size. size ≤ 1099511627776) sizes.now }
{
    sizes.iter().all(|size| *size <= 1_099_511_627_776)
}

pub(crate) fn answer(alloc: Global, case: &str) -> Result<String, OutOfMemory> {
    let (beginning, steps) = case.split_once("; ").unwrap_or((case, ""));
    let words: Vec<&str> = beginning.split_whitespace().collect(alloc)?;
    let [layout, strip, members @ ..] = words.as_slice() else {
        return said(alloc, "no such set");
    };
    let mut sizes = Vec::new(alloc);
    for member in members {
        sizes.push(number(member))?;
    }
    let strip = number(strip).max(1);
    if !fit(sizes.as_slice()) {
        return said(alloc, "too large");
    }
    match Raid::new(alloc, strip, sizes.as_slice(), *layout == "striped") {
        Ok(mut raid) => told(alloc, &mut raid, steps),
        Err(RaidError::Inval) => said(alloc, "inval"),
        Err(RaidError::OutOfMemory) => Err(OutOfMemory),
    }
}

impl Subject for Raid {
    fn step(&mut self, alloc: Global, words: &[&str]) -> Result<String, OutOfMemory> {
        match words {
            ["blocks"] => {
                let blocks = self.blocks();
                Ok(format!(in alloc; "{blocks}")?)
            }
            ["at", block] => {
                let block = number(block);
                if block >= self.blocks() {
                    return said(alloc, "not there");
                }
                let (member, place) = self.at(block);
                Ok(format!(in alloc; "{member} {place}")?)
            }
            ["run", block] => {
                let block = number(block);
                if block >= self.blocks() {
                    return said(alloc, "not there");
                }
                let run = self.run_from(block);
                Ok(format!(in alloc; "{run}")?)
            }
            ["used", size, strip] => {
                let blocks = used(number(size), number(strip).max(1));
                Ok(format!(in alloc; "{blocks}")?)
            }
            ["left", strip, block] => {
                let blocks = left_in_strip(number(strip).max(1), number(block));
                Ok(format!(in alloc; "{blocks}")?)
            }
            _ => said(alloc, "no such step"),
        }
    }
}
