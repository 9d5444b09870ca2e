//! The setup of the cases.
use crate::words::{device, number, small, words};
use bd_base::{DevId, DevRow, Kind, Name, OutOfMemory, Rates, Rows, Setup};
use std::alloc::Global;

/// What was given so far.
#[derive(Drop)]
pub(crate) struct Given {
    threads: u32,
    devices: String,
    rates: String,
}

fn kind(word: &str) -> Kind {
    match word {
        "malloc" => Kind::Malloc,
        "null" => Kind::Null,
        "passthru" => Kind::Passthru,
        "error" => Kind::Error,
        part => Kind::Part {
            shift: number(part),
        },
    }
}

fn base(word: &str) -> Option<DevId> {
    if word == "-" {
        None
    } else {
        Some(device(word))
    }
}

// The word at a place; none is the empty one.
fn word<'a>(words: &[&'a str], at: usize) -> &'a str {
    match words.get(at) {
        Some(word) => *word,
        None => "",
    }
}

// The device of these words, or of those that are there.
fn row(alloc: Global, words: &[&str]) -> Result<DevRow, OutOfMemory> {
    Ok(DevRow {
        name: Name::from_slice(alloc, word(words, 0).as_bytes())?,
        kind: kind(word(words, 1)),
        base: base(word(words, 2)),
        blocks: number(word(words, 3)),
        size: small(word(words, 4)),
        boundary: number(word(words, 5)),
        depth: 128,
        file: None,
        group: small(word(words, 6)),
    })
}

fn devices(alloc: Global, text: &str) -> Result<Rows<DevRow>, OutOfMemory> {
    let mut devices = Rows::new(alloc);
    for text in text.split("; ") {
        let words = words(alloc, text)?;
        devices.push(row(alloc, words.as_slice())?)?;
    }
    Ok(devices)
}

fn rates(alloc: Global, text: &str) -> Result<Rows<Rates>, OutOfMemory> {
    let mut rates = Rows::new(alloc);
    for text in text.split("; ") {
        if let [all, bytes, read, written] = words(alloc, text)?.as_slice() {
            rates.push(Rates {
                rw_ios_per_sec: number(all),
                rw_mbytes_per_sec: number(bytes),
                r_mbytes_per_sec: number(read),
                w_mbytes_per_sec: number(written),
            })?;
        }
    }
    Ok(rates)
}

impl Given {
    pub(crate) fn none(alloc: Global) -> Given {
        Given {
            threads: 1,
            devices: String::new(alloc),
            rates: String::new(alloc),
        }
    }

    /// Takes what is given for the cases to come; false where this is a case.
    pub(crate) fn take(
        &mut self,
        alloc: Global,
        name: &str,
        text: &str,
    ) -> Result<bool, OutOfMemory> {
        match name {
            "threads" => self.threads = small(text),
            "devices" => self.devices = String::from_str(alloc, text)?,
            "rates" => self.rates = String::from_str(alloc, text)?,
            _ => return Ok(false),
        }
        Ok(true)
    }

    /// The setup.
    pub(crate) fn setup(&self, alloc: Global) -> Result<Setup, OutOfMemory> {
        let devices = devices(alloc, self.devices.as_str())?;
        let rates = rates(alloc, self.rates.as_str())?;
        Ok(Setup {
            threads: self.threads,
            devices,
            rates,
            injections: Rows::new(alloc),
            waiting: Rows::new(alloc),
            scripts: Rows::new(alloc),
        })
    }
}
