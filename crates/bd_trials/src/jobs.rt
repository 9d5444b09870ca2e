//! What scripts come to: their lines, or the first line outside the grammar; and generated scripts.
mod command;

use crate::steps::said;
use crate::words::{decoded, escaped, first_word, small};
use bd_base::{OutOfMemory, Rows, Script, digest_of};
use bd_jobs::{JobError, generate, generated_scripts, read_jobs};
use std::alloc::Global;

pub(crate) fn answer(alloc: Global, case: &str) -> Result<String, OutOfMemory> {
    let (form, rest) = first_word(case);
    let (number, rest) = first_word(rest);
    match form {
        "read" => outcome(alloc, decoded(alloc, rest)?.as_slice(), small(number)),
        "repeat" => outcome(alloc, repeated(alloc, small(number), rest)?.as_slice(), 1),
        "generate" => escaped(alloc, generated(alloc, number, rest)?.as_slice()),
        "digest" => digest(alloc, number, rest),
        "made" => told(alloc, made(alloc, number, rest)?.as_slice()),
        "alike" => alike(alloc, number, rest),
        _ => said(alloc, "no such step"),
    }
}

fn outcome(alloc: Global, text: &[u8], threads: u32) -> Result<String, OutOfMemory> {
    match read_jobs(alloc, text, threads) {
        Ok(scripts) => told(alloc, scripts.as_slice()),
        Err(JobError::Line(line)) => Ok(format!(in alloc; "line {line}")?),
        Err(JobError::OutOfMemory) => Err(OutOfMemory),
    }
}

// The lines of scripts, each ended by a bar.
fn told(alloc: Global, scripts: &[Script]) -> Result<String, OutOfMemory> {
    let mut text = String::new(alloc);
    for script in scripts {
        let thread = script.thread;
        for line in script.lines.as_slice() {
            let number = line.number;
            let command = command::told(alloc, &line.job)?;
            write!(text, "{thread} {number} {command}|")?;
        }
    }
    if text.is_empty() {
        text.push_str("no line")?;
    }
    Ok(text)
}

// So many of the first word, and the rest after them.
fn repeated(alloc: Global, count: u32, words: &str) -> Result<Vec<u8>, OutOfMemory> {
    let (line, last) = first_word(words);
    let line = decoded(alloc, line)?;
    let mut text = Vec::new(alloc);
    for _ in 0..count {
        text.extend_from_slice(line.as_slice())?;
    }
    text.extend_from_slice(decoded(alloc, last)?.as_slice())?;
    Ok(text)
}

// The script of so many numbers and threads, of at most 500 and 16.
fn generated(alloc: Global, numbers: &str, threads: &str) -> Result<Vec<u8>, OutOfMemory> {
    generate(alloc, small(numbers).min(500), small(threads).min(16))
}

// The digest of a generated script, and how many threads have a script in it.
fn digest(alloc: Global, numbers: &str, threads: &str) -> Result<String, OutOfMemory> {
    let text = generated(alloc, numbers, threads)?;
    let digest = hex::encode(alloc, digest_of(text.as_slice()).as_slice())?;
    match read_jobs(alloc, text.as_slice(), small(threads)) {
        Ok(scripts) => {
            let scripts = scripts.len();
            Ok(format!(in alloc; "{digest} {scripts}")?)
        }
        Err(_) => Ok(digest),
    }
}

// The scripts of so many numbers and threads, without their text.
fn made(alloc: Global, numbers: &str, threads: &str) -> Result<Rows<Script>, OutOfMemory> {
    generated_scripts(alloc, small(numbers).min(500), small(threads).min(16))
}

// Whether these scripts are those that reading their text gives.
fn alike(alloc: Global, numbers: &str, threads: &str) -> Result<String, OutOfMemory> {
    let text = generated(alloc, numbers, threads)?;
    let read = outcome(alloc, text.as_slice(), small(threads))?;
    let made = told(alloc, made(alloc, numbers, threads)?.as_slice())?;
    let alike = read.as_str() == made.as_str();
    Ok(format!(in alloc; "{alike}")?)
}
