//! Reports of histories. A case has how many threads there are; the scripts, each with its thread and
//! its lines with their numbers; and the acts of the history, each with its thread. Bars part the three.
//! A report of the sums alone leaves out the lines of commands; the statistics are told without a report.
mod history;

use crate::words::{escaped, first_word, number, op, small};
use bd_base::{DevRow, Entry, Job, Kind, Line, Name, OutOfMemory, Rows, Script, Setup};
use bd_outside::MemSink;
use bd_report::counter::{Counter, stats};
use bd_report::counts::Counts;
use bd_report::report::report;
use bd_report::writing::{ReportError, write_report};
use std::alloc::Global;

pub(crate) fn answer(alloc: Global, case: &str, full: bool) -> Result<String, OutOfMemory> {
    let (setup, trace) = run(alloc, case)?;
    let text = report(alloc, &setup, trace.as_slice(), full)?;
    escaped(alloc, text.as_slice())
}

/// The statistics of a history that a counter took entry by entry: the counts of each thread, what each
/// device moved, and the counts of all.
pub(crate) fn statistics(alloc: Global, case: &str) -> Result<String, OutOfMemory> {
    let (setup, trace) = run(alloc, case)?;
    let mut counter = Counter::new(alloc, &setup)?;
    for part in trace.as_slice().chunks(1) {
        counter.add(part)?;
    }
    let stats = counter.stats()?;
    let mut text = String::new(alloc);
    for counts in stats.threads.as_slice() {
        write!(text, "thread ")?;
        write_counts(&mut text, counts)?;
        write!(text, "; ")?;
    }
    for traffic in stats.devices.as_slice() {
        let (reads, writes) = (traffic.reads, traffic.writes);
        let (read_bytes, write_bytes) = (traffic.read_bytes, traffic.write_bytes);
        write!(text, "device {reads} {writes} {read_bytes} {write_bytes}; ")?;
    }
    write!(text, "all ")?;
    write_counts(&mut text, &stats.all)?;
    Ok(text)
}

/// What a sink with room for a number of bytes takes of a report that isn't full.
pub(crate) fn written(alloc: Global, case: &str) -> Result<String, OutOfMemory> {
    let (room, rest) = first_word(case);
    let (setup, trace) = run(alloc, rest)?;
    let trace = trace.as_slice();
    let stats = stats(alloc, &setup, trace)?;
    let mut sink = MemSink::new(alloc, number(room))?;
    let word = match write_report(alloc, &mut sink, &setup, trace, &stats, false) {
        Ok(()) => "whole",
        Err(ReportError::WriteFault) => "write fault",
        Err(ReportError::OutOfMemory) => return Err(OutOfMemory),
    };
    let text = escaped(alloc, sink.bytes())?;
    Ok(format!(in alloc; "{word}; {text}")?)
}

fn write_counts(text: &mut String, counts: &Counts) -> Result<(), OutOfMemory> {
    let (accepted, refused) = (counts.accepted, counts.refused);
    let (success, failed, aborted) = (counts.success, counts.failed, counts.aborted);
    write!(text, "{accepted} {success} {failed} {aborted} {refused}")?;
    Ok(())
}

// The setup and the history of a case.
fn run(alloc: Global, case: &str) -> Result<(Setup, Vec<Entry>), OutOfMemory> {
    let (threads, history) = case.split_once(" | ").unwrap_or((case, ""));
    let (scripts, acts) = history.split_once(" | ").unwrap_or((history, ""));
    let setup = setup(alloc, small(threads), scripts)?;
    let trace = history::entries(alloc, acts)?;
    Ok((setup, trace))
}

// N threads, these scripts, and one device.
fn setup(alloc: Global, threads: u32, words: &str) -> Result<Setup, OutOfMemory> {
    let mut scripts = Rows::new(alloc);
    for script_words in words.split("; ") {
        scripts.push(script(alloc, script_words)?)?;
    }
    let mut devices = Rows::new(alloc);
    devices.push(DevRow {
        name: Name::from_slice(alloc, b"Malloc0")?,
        kind: Kind::Malloc,
        base: None,
        blocks: 64,
        size: 512,
        boundary: 0,
        depth: 16,
        file: None,
        group: 0,
    })?;
    Ok(Setup {
        threads,
        devices,
        rates: Rows::new(alloc),
        injections: Rows::new(alloc),
        waiting: Rows::new(alloc),
        scripts,
    })
}

fn script(alloc: Global, words: &str) -> Result<Script, OutOfMemory> {
    let (thread, rest) = first_word(words);
    let mut lines = Rows::new(alloc);
    for line in rest.split(", ") {
        let (number, word) = first_word(line);
        lines.push(Line {
            number: small(number),
            job: job(alloc, word)?,
        })?;
    }
    Ok(Script {
        thread: small(thread),
        lines,
    })
}

// A wait, a submission on the device's first eight blocks, or an open for reading.
fn job(alloc: Global, word: &str) -> Result<Job, OutOfMemory> {
    if word == "wait" {
        return Ok(Job::Wait);
    }
    let handle = Name::from_slice(alloc, b"a")?;
    Ok(match op(word) {
        Some(op) => Job::Submit {
            handle,
            op,
            lba: 0,
            count: 8,
        },
        None => Job::Open {
            handle,
            dev: Name::from_slice(alloc, b"Malloc0")?,
            write: false,
        },
    })
}
