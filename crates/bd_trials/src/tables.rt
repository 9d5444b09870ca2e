//! Where requests wait: the table of a thread's requests by place, and the retry queues of its channels.
use crate::steps::{Subject, said};
use crate::words::{number, request, small};
use bd_base::{DevId, HandleId, Op, OutOfMemory, ThreadId};
use bd_msg::Request;
use bd_retries::Retries;
use bd_tables::{Place, Tables};
use std::alloc::Global;

// A read on handle 7.
fn read(seq: &str) -> Request {
    Request {
        id: request(seq),
        dev: DevId(3),
        handle: HandleId(7),
        op: Op::Read,
        lba: 8,
        count: 1,
    }
}

// A place by its word; a number is the device whose limits it waits for.
fn place(word: &str) -> Place {
    match word {
        "fresh" => Place::Fresh,
        "away" => Place::Away,
        "out" => Place::Out,
        _ => Place::Quality(DevId(small(word))),
    }
}

// The devices of these numbers.
fn devices(alloc: Global, words: &[&str]) -> Result<Vec<DevId>, OutOfMemory> {
    let mut devices = Vec::new(alloc);
    for word in words {
        devices.push(DevId(small(word)))?;
    }
    Ok(devices)
}

fn park(
    alloc: Global,
    tables: &mut Tables,
    seq: &str,
    word: &str,
    under: &[DevId],
) -> Result<String, OutOfMemory> {
    let request = read(seq);
    if tables.keeps(request.id) || !tables.has_room() {
        return said(alloc, "not parked");
    }
    tables.park(request, place(word), under);
    said(alloc, "done")
}

// The numbers of the requests in order, each with its place.
fn rows(alloc: Global, tables: &Tables) -> Result<String, OutOfMemory> {
    let mut rows = String::from_str(alloc, "rows")?;
    for i in 0..tables.len() {
        let row = tables.row(i);
        let (seq, place) = (row.request.id.seq, row.place);
        write!(rows, " {seq} {place:?}")?;
    }
    Ok(rows)
}

impl Subject for Tables {
    fn step(&mut self, alloc: Global, words: &[&str]) -> Result<String, OutOfMemory> {
        match words {
            ["reserve", count, devices] => {
                self.reserve(small(count), small(devices))?;
                said(alloc, "done")
            }
            ["park", seq, word, under @ ..] => {
                let under = devices(alloc, under)?;
                park(alloc, self, seq, word, under.as_slice())
            }
            ["move", seq, word] => {
                let moved = self.move_to(request(seq), place(word));
                Ok(format!(in alloc; "{moved}")?)
            }
            ["first", word] => {
                let given = self.first_in(place(word));
                Ok(format!(in alloc; "{given:?}")?)
            }
            ["first", "under", dev] => {
                let given = self.first_under(DevId(small(dev)));
                Ok(format!(in alloc; "{given:?}")?)
            }
            ["count", dev, thread] => {
                let count = self.count_under(DevId(small(dev)), ThreadId(small(thread)));
                Ok(format!(in alloc; "{count}")?)
            }
            ["away", seq] => {
                let given = self.away(request(seq));
                Ok(format!(in alloc; "{given:?}")?)
            }
            ["unpark", seq] => {
                let given = self.unpark(request(seq));
                Ok(format!(in alloc; "{given:?}")?)
            }
            ["open", handle] => {
                let open = self.open_on(HandleId(number(handle).into()));
                Ok(format!(in alloc; "{open}")?)
            }
            ["rows"] => rows(alloc, self),
            ["empty"] => {
                let empty = self.is_empty();
                Ok(format!(in alloc; "{empty}")?)
            }
            ["room"] => {
                let room = self.has_room();
                Ok(format!(in alloc; "{room}")?)
            }
            _ => said(alloc, "no such step"),
        }
    }
}

// That many pieces of a base device came back with an end.
fn landed(retries: &mut Retries, base: DevId, count: u32) {
    for _round in 0..count {
        retries.landed(base);
    }
}

// What a step over the channel of a base device gives.
fn channel_step(
    retries: &mut Retries,
    alloc: Global,
    base: DevId,
    words: &[&str],
) -> Result<String, OutOfMemory> {
    match words {
        ["sent", count] => retries.sent(base, small(count))?,
        ["queue", seq, count] => retries.queue(base, request(seq), small(count))?,
        ["landed", count] => landed(retries, base, small(count)),
        ["refused", seq, k] => retries.refused(base, (request(seq), small(k)))?,
        ["retried"] => retries.retried(base)?,
        ["dropped", seq, count] => retries.dropped(base, request(seq), small(count) as usize),
        ["waits"] => {
            let waits = retries.waits(base);
            return Ok(format!(in alloc; "{waits}")?);
        }
        _ => return said(alloc, "no such step"),
    }
    said(alloc, "done")
}

impl Subject for Retries {
    fn step(&mut self, alloc: Global, words: &[&str]) -> Result<String, OutOfMemory> {
        match words {
            ["next", place] => {
                let next = self.next_at(small(place) as usize);
                Ok(format!(in alloc; "{next:?}")?)
            }
            ["channels"] => {
                let count = self.len();
                Ok(format!(in alloc; "{count}")?)
            }
            [base, rest @ ..] => channel_step(self, alloc, DevId(small(base)), rest),
            [] => said(alloc, "no such step"),
        }
    }
}
