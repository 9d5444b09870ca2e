//! Devices before a run: the number of the errno that each call is refused with, or 0.
use crate::steps::{Subject, said};
use crate::words::small;
use bd_base::{DevId, DevRow, ErrKind, Errno, IoSet, Kind, Name, OutOfMemory, RateSet};
use bd_devices::{Devices, RegisterError};
use std::alloc::Global;

fn kind(word: &str) -> Kind {
    match word {
        "malloc" => Kind::Malloc,
        "null" => Kind::Null,
        "passthru" => Kind::Passthru,
        "part" => Kind::Part { shift: 0 },
        "part4" => Kind::Part { shift: 4 },
        _ => Kind::Error,
    }
}

// A device by its name, its kind, the number of its base (`-` for none), and its group.
fn row(alloc: Global, words: [&str; 4]) -> Result<DevRow, OutOfMemory> {
    let [name, word, base, group] = words;
    Ok(DevRow {
        name: Name::from_slice(alloc, name.as_bytes())?,
        kind: kind(word),
        base: base.parse().ok().map(DevId),
        blocks: 8,
        size: 512,
        boundary: 0,
        depth: 128,
        file: None,
        group: small(group),
    })
}

fn register(alloc: Global, devices: &mut Devices, row: DevRow) -> Result<u32, OutOfMemory> {
    match devices.register(alloc, row) {
        Ok(_) => Ok(0),
        Err(RegisterError::Refused(errno)) => Ok(errno.number()),
        Err(RegisterError::OutOfMemory) => Err(OutOfMemory),
    }
}

fn number_of(outcome: Result<(), Errno>) -> u32 {
    match outcome {
        Ok(()) => 0,
        Err(errno) => errno.number(),
    }
}

const SOME_RATES: RateSet = RateSet {
    rw_ios_per_sec: Some(2_000),
    rw_mbytes_per_sec: None,
    r_mbytes_per_sec: Some(0),
    w_mbytes_per_sec: None,
};

const READS: IoSet = IoSet {
    read: true,
    write: false,
    zeroes: false,
    unmap: false,
    flush: false,
};

impl Subject for Devices {
    fn step(&mut self, alloc: Global, words: &[&str]) -> Result<String, OutOfMemory> {
        let number = match words {
            ["limit", name] => {
                let name = Name::from_slice(alloc, name.as_bytes())?;
                number_of(self.set_limit(&name, SOME_RATES))
            }
            ["inject", name] => {
                let name = Name::from_slice(alloc, name.as_bytes())?;
                number_of(self.set_injection(&name, READS, ErrKind::Failure, 3))
            }
            ["count"] => {
                let count = self.as_setup().devices.len();
                return Ok(format!(in alloc; "{count}")?);
            }
            [name, kind, base, group] => {
                let row = row(alloc, [*name, *kind, *base, *group])?;
                register(alloc, self, row)?
            }
            _ => return said(alloc, "no such step"),
        };
        Ok(format!(in alloc; "{number}")?)
    }
}
