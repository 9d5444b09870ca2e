//! A volume and its snapshot. A case begins with how many blocks there are, their size, and how many a cluster has.
use crate::steps::{Subject, said, told};
use crate::words::{number, small};
use bd_base::{Fill, OutOfMemory};
use bd_volume::Volume;
use std::alloc::Global;

// The snapshot is equal to the volume until it is made anew.
#[derive(Drop)]
struct Pair {
    volume: Volume,
    snapshot: Volume,
}

pub(crate) fn answer(alloc: Global, case: &str) -> Result<String, OutOfMemory> {
    let (beginning, steps) = case.split_once("; ").unwrap_or((case, ""));
    let words: Vec<&str> = beginning.split_whitespace().collect(alloc)?;
    let [blocks, size, cluster] = words.as_slice() else {
        return said(alloc, "no such volume");
    };
    let cluster = number(cluster);
    if cluster == 0 {
        return said(alloc, "no such volume");
    }
    let volume = Volume::zeros(alloc, number(blocks), small(size), cluster);
    let snapshot = volume.share()?;
    told(alloc, &mut Pair { volume, snapshot }, steps)
}

// The bytes of some blocks as numbers.
fn read(alloc: Global, volume: &Volume, lba: u64, count: u64) -> Result<String, OutOfMemory> {
    if !volume.has(lba, count) {
        return said(alloc, "not there");
    }
    let bytes = volume.read(alloc, lba, count)?;
    let mut text = String::new(alloc);
    for (at, byte) in bytes.as_slice().iter().enumerate() {
        if at > 0 {
            text.push(' ')?;
        }
        write!(text, "{byte}")?;
    }
    Ok(text)
}

fn fill(
    alloc: Global,
    volume: &mut Volume,
    range: (u64, u64),
    fill: Fill,
    first: u64,
) -> Result<String, OutOfMemory> {
    let (lba, count) = range;
    if !volume.has(lba, count) || first.checked_add(count).is_none() {
        return said(alloc, "not there");
    }
    volume.fill(alloc, lba, count, fill, first)?;
    said(alloc, "done")
}

fn zero(alloc: Global, volume: &mut Volume, lba: u64, count: u64) -> Result<String, OutOfMemory> {
    if !volume.has(lba, count) {
        return said(alloc, "not there");
    }
    volume.zero(alloc, lba, count)?;
    said(alloc, "done")
}

fn discard(alloc: Global, volume: &mut Volume, first: u64) -> Result<String, OutOfMemory> {
    let cluster = volume.cluster();
    if first % cluster != 0 || !volume.has(first, cluster) {
        return said(alloc, "not whole");
    }
    volume.discard(first);
    said(alloc, "done")
}

fn step(alloc: Global, volume: &mut Volume, words: &[&str]) -> Result<String, OutOfMemory> {
    match words {
        ["read", lba, count] => read(alloc, volume, number(lba), number(count)),
        ["fill", lba, count, seed, first] => {
            let brought = Fill {
                seed: number(seed),
                flip: false,
            };
            fill(
                alloc,
                volume,
                (number(lba), number(count)),
                brought,
                number(first),
            )
        }
        ["flip", lba, count, seed, first] => {
            let brought = Fill {
                seed: number(seed),
                flip: true,
            };
            fill(
                alloc,
                volume,
                (number(lba), number(count)),
                brought,
                number(first),
            )
        }
        ["zero", lba, count] => zero(alloc, volume, number(lba), number(count)),
        ["discard", first] => discard(alloc, volume, number(first)),
        ["has", lba, count] => {
            let has = volume.has(number(lba), number(count));
            Ok(format!(in alloc; "{has}")?)
        }
        ["len"] => {
            let len = volume.len();
            Ok(format!(in alloc; "{len}")?)
        }
        _ => said(alloc, "no such step"),
    }
}

impl Subject for Pair {
    fn step(&mut self, alloc: Global, words: &[&str]) -> Result<String, OutOfMemory> {
        match words {
            ["share"] => {
                self.snapshot = self.volume.share()?;
                said(alloc, "done")
            }
            ["snapshot", rest @ ..] => step(alloc, &mut self.snapshot, rest),
            _ => step(alloc, &mut self.volume, words),
        }
    }
}
