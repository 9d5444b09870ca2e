//! Limits: what may pass and is charged, and how many slices have passed. A case begins with a limit
//! of its kind, and the moment at which it starts.
use crate::steps::{Subject, said, told};
use crate::words::number;
use bd_base::{OutOfMemory, Rates, Way};
use bd_qos::Limits;
use std::alloc::Global;

const NO_LIMIT: Rates = Rates {
    rw_ios_per_sec: 0,
    rw_mbytes_per_sec: 0,
    r_mbytes_per_sec: 0,
    w_mbytes_per_sec: 0,
};

pub(crate) fn answer(alloc: Global, case: &str) -> Result<String, OutOfMemory> {
    let (beginning, steps) = case.split_once("; ").unwrap_or((case, ""));
    let words: Vec<&str> = beginning.split_whitespace().collect(alloc)?;
    let mut rates = NO_LIMIT;
    let start = match words.as_slice() {
        ["requests", limit, start] => {
            rates.rw_ios_per_sec = number(limit).min(1_000_000_000);
            number(start)
        }
        ["reads", limit, start] => {
            rates.r_mbytes_per_sec = number(limit).min(1_000_000);
            number(start)
        }
        _ => return said(alloc, "no such step"),
    };
    told(alloc, &mut Limits::new(&rates, start), steps)
}

fn way_of(word: &str) -> Way {
    if word == "write" {
        Way::Write
    } else {
        Way::Read
    }
}

impl Subject for Limits {
    fn step(&mut self, alloc: Global, words: &[&str]) -> Result<String, OutOfMemory> {
        match words {
            ["may", way, bytes] => {
                let may = self.may(way_of(way), number(bytes));
                Ok(format!(in alloc; "{may}")?)
            }
            ["charge", way, bytes] => {
                let (way, bytes) = (way_of(way), number(bytes));
                if !self.may(way, bytes) {
                    return said(alloc, "not charged");
                }
                self.charge(way, bytes);
                said(alloc, "done")
            }
            ["tick", now] => {
                let passed = self.tick(number(now));
                Ok(format!(in alloc; "{passed}")?)
            }
            _ => said(alloc, "no such step"),
        }
    }
}
