//! Delays: the latencies that a channel gives its reads (`r`) and writes (`w`), and requests that are
//! held until a moment.
use crate::steps::{Subject, said, told};
use crate::words::{first_word, number, request};
use bd_base::{OutOfMemory, Way};
use bd_delay::{DelayChannel, Held};
use std::alloc::Global;

pub(crate) fn answer(alloc: Global, case: &str) -> Result<String, OutOfMemory> {
    let (form, rest) = first_word(case);
    match form {
        "held" => told(alloc, &mut Held::new(alloc), rest),
        "channel" => latencies(alloc, rest),
        _ => said(alloc, "no such step"),
    }
}

// The latencies of these ways, of a channel whose reads wait 10 or 500 and whose writes 20 or 900.
fn latencies(alloc: Global, ways: &str) -> Result<String, OutOfMemory> {
    let mut channel = DelayChannel::new(10, 500, 20, 900);
    let mut latencies = String::from_str(alloc, "latencies")?;
    for letter in ways.bytes() {
        let way = if letter == b'r' {
            Way::Read
        } else {
            Way::Write
        };
        let latency = channel.next(way);
        write!(latencies, " {latency}")?;
    }
    Ok(latencies)
}

impl Subject for Held {
    fn step(&mut self, alloc: Global, words: &[&str]) -> Result<String, OutOfMemory> {
        match words {
            ["hold", seq, until] => {
                self.reserve(1)?;
                self.hold(request(seq), number(until));
                said(alloc, "done")
            }
            ["due", now] => {
                let due = self.due(number(now));
                Ok(format!(in alloc; "{due:?}")?)
            },
            ["stop", seq] => {
                let stopped = self.stop(request(seq));
                Ok(format!(in alloc; "{stopped}")?)
            }
            _ => said(alloc, "no such step"),
        }
    }
}
