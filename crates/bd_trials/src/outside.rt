//! The forms of the outside in memory.
mod disk;

use crate::steps::{Subject, said, told};
use crate::words::{escaped, first_word, number};
use bd_base::{Bytes, Name, OutOfMemory};
use bd_outside::{Clock, Host, MemHost, MemSink, Sink, StepClock, StillClock};
use std::alloc::Global;

pub(crate) fn answer(alloc: Global, case: &str) -> Result<String, OutOfMemory> {
    let (form, rest) = first_word(case);
    match form {
        "clock" => {
            let clock = StillClock::new(number(rest));
            let (first, second) = (clock.now(), clock.now());
            Ok(format!(in alloc; "{first} {second}")?)
        }
        "steps" => {
            let (start, step) = first_word(rest);
            let clock = StepClock::new(number(start), number(step));
            let (first, second, third) = (clock.now(), clock.now(), clock.now());
            Ok(format!(in alloc; "{first} {second} {third}")?)
        }
        "calm" => disk::calm(alloc),
        "disk" => disk::written(alloc),
        "failing" => disk::failing(alloc),
        "files" => told(alloc, &mut two_files(alloc, 0, &[4])?, rest),
        "openings" => disk::opened(alloc),
        "sink" => taken(alloc, rest),
        _ => said(alloc, "no such step"),
    }
}

// A host of the files `a` and `b`, of which these calls fail.
fn two_files(alloc: Global, rows: u32, fails: &[u64]) -> Result<MemHost, OutOfMemory> {
    let mut files = Vec::new(alloc);
    let a = Name::from_slice(alloc, b"a")?;
    files.push((a, Bytes::from_slice(alloc, b"hello")?))?;
    let b = Name::from_slice(alloc, b"b")?;
    files.push((b, Bytes::from_slice(alloc, b"aaaabbbbc")?))?;
    MemHost::new(alloc, files, rows, Vec::from_slice(alloc, fails)?)
}

impl Subject for MemHost {
    fn step(&mut self, alloc: Global, words: &[&str]) -> Result<String, OutOfMemory> {
        match words {
            ["read", name, at] => {
                let mut to = *b"...";
                let read = self.read_at(name, number(at), &mut to);
                let buffer = escaped(alloc, &to)?;
                Ok(format!(in alloc; "{read:?} {buffer}")?)
            }
            ["counts"] => {
                let (faults, absences) = (self.faults(), self.absences());
                Ok(format!(in alloc; "{faults} failed, {absences} absent")?)
            }
            _ => said(alloc, "no such step"),
        }
    }
}

// What a sink with room for ten bytes takes of each piece; semicolons part them.
fn taken(alloc: Global, pieces: &str) -> Result<String, OutOfMemory> {
    let mut sink = MemSink::new(alloc, 10)?;
    let mut told = String::from_str(alloc, "took")?;
    for piece in pieces.split(';') {
        let taken = sink.put(piece.as_bytes());
        write!(told, " {taken:?}")?;
    }
    let bytes = escaped(alloc, sink.bytes())?;
    let faults = sink.faults();
    write!(told, ": {bytes}, {faults} failed")?;
    Ok(told)
}
