//! What was given so far, and the machine that plays it.
use crate::acts::act;
use crate::setups::setup;
use crate::words::{great, number, small, split, words};
use bd_base::{Entry, OutOfMemory, Setup};
use bd_play::{Machine, StepError};
use std::alloc::Global;

/// The device, the script and the trace of the cases to come.
#[derive(Drop)]
pub(crate) struct Given {
    blocks: u64,
    boundary: u64,
    script: String,
    trace: String,
}

// When an act is tried, and by which thread.
#[derive(Clone, Copy)]
struct When {
    stamp: u128,
    thread: u32,
}

fn said(alloc: Global, text: &str) -> Result<String, OutOfMemory> {
    Ok(String::from_str(alloc, text)?)
}

// What the machine says of an act.
fn in_words(alloc: Global, answer: Result<(), StepError>) -> Result<String, OutOfMemory> {
    match answer {
        Ok(()) => said(alloc, "allowed"),
        Err(StepError::OutOfMemory) => Err(OutOfMemory),
        Err(StepError::Illegal { guard, stamp }) => Ok(format!(in alloc;
            "guard {guard}, stamp {stamp}"
        )?),
    }
}

// The machine takes the act of these words; none where they name no act.
fn step(
    alloc: Global,
    machine: &mut Machine,
    when: When,
    text: &str,
) -> Result<Option<Result<(), StepError>>, OutOfMemory> {
    let words = words(alloc, text)?;
    let Some(act) = act(alloc, words.as_slice())? else {
        return Ok(None);
    };
    let entry = Entry {
        stamp: when.stamp,
        thread: when.thread,
        act,
    };
    Ok(Some(machine.step(&entry)))
}

// The machine takes the first acts of a trace: whether it allows each.
fn play(
    alloc: Global,
    machine: &mut Machine,
    trace: &str,
    count: usize,
) -> Result<bool, OutOfMemory> {
    let mut stamp: u128 = 0;
    for text in trace.split("; ").take(count) {
        stamp = stamp.saturating_add(1);
        match step(alloc, machine, When { stamp, thread: 0 }, text)? {
            Some(Ok(())) => {}
            _ => return Ok(false),
        }
    }
    Ok(true)
}

// How the machine takes an act after the first ones of a trace.
fn tried(
    alloc: Global,
    machine: &mut Machine,
    trace: &str,
    when: When,
    asked: &str,
) -> Result<String, OutOfMemory> {
    let (count, text) = split(asked, " ");
    if !play(alloc, machine, trace, small(count) as usize)? {
        return said(alloc, "the trace isn't allowed");
    }
    match step(alloc, machine, when, text)? {
        Some(answer) => in_words(alloc, answer),
        None => said(alloc, "no such act"),
    }
}

// Whether the run of the first acts of a trace is complete.
fn whole(
    alloc: Global,
    machine: &mut Machine,
    trace: &str,
    count: &str,
) -> Result<String, OutOfMemory> {
    if !play(alloc, machine, trace, small(count) as usize)? {
        return said(alloc, "the trace isn't allowed");
    }
    if machine.is_complete()? {
        said(alloc, "complete")
    } else {
        said(alloc, "not complete")
    }
}

// The stamp and the thread of an act, and what is asked of it.
fn moment_of(asked: &str) -> (When, &str) {
    let (stamp, rest) = split(asked, " ");
    let (thread, rest) = split(rest, " ");
    let when = When {
        stamp: great(stamp),
        thread: small(thread),
    };
    let (_, rest) = split(rest, "after ");
    (when, rest)
}

// What the machine of a setup says.
fn played(alloc: Global, setup: &Setup, trace: &str, asked: &str) -> Result<String, OutOfMemory> {
    let mut machine = Machine::start(alloc, setup)?;
    let (verb, rest) = split(asked, " ");
    match verb {
        "whole" => whole(alloc, &mut machine, trace, rest),
        "after" => {
            let last = When {
                stamp: 100,
                thread: 0,
            };
            tried(alloc, &mut machine, trace, last, rest)
        }
        "at" => {
            let (when, rest) = moment_of(rest);
            tried(alloc, &mut machine, trace, when, rest)
        }
        _ => said(alloc, "no such question"),
    }
}

impl Given {
    pub(crate) fn none(alloc: Global) -> Given {
        Given {
            blocks: 0,
            boundary: 0,
            script: String::new(alloc),
            trace: String::new(alloc),
        }
    }

    /// Answers a case, or takes what is given for those to come.
    pub(crate) fn answer(
        &mut self,
        alloc: Global,
        name: &str,
        asked: &str,
    ) -> Result<String, OutOfMemory> {
        match name {
            "device" => {
                let (blocks, boundary) = split(asked, " ");
                self.blocks = number(blocks);
                self.boundary = number(boundary);
                return said(alloc, "given");
            }
            "script" => {
                self.script = String::from_str(alloc, asked)?;
                return said(alloc, "given");
            }
            "trace" => {
                self.trace = String::from_str(alloc, asked)?;
                return said(alloc, "given");
            }
            _ => {}
        }
        let setup = setup(alloc, self.blocks, self.boundary, self.script.as_str())?;
        played(alloc, &setup, self.trace.as_str(), asked)
    }
}
