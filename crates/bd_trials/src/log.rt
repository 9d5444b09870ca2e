//! Logs: the stamps of a thread's acts, the merge of two logs, and parts that are merged one after the
//! other.
ghost use Rattle.std.specs.Prelude.{◌≡◌, IfOk};

use crate::steps::{Subject, said, told};
use crate::words::{first_word, small};
use bd_base::{Act, Entry, OutOfMemory, ThreadId};
use bd_log::{Log, LogError, merge, merge_onto};
use std::alloc::Global;

pub(crate) fn answer(alloc: Global, case: &str) -> Result<String, OutOfMemory> {
    let (form, rest) = first_word(case);
    match form {
        "thread" => stamps(alloc, rest),
        "merge" => merged(alloc),
        "parts" => by_parts(alloc),
        _ => said(alloc, "no such step"),
    }
}

impl Subject for Log {
    fn step(&mut self, alloc: Global, words: &[&str]) -> Result<String, OutOfMemory> {
        match words {
            ["reserve", count] => {
                self.reserve(small(count))?;
                said(alloc, "done")
            }
            ["push"] => match self.push(Act::Shutdown) {
                Ok(stamp) => Ok(format!(in alloc; "{stamp}")?),
                Err(LogError::OutOfMemory) => Err(OutOfMemory),
                Err(LogError::StampsSpent(last)) => Ok(format!(in alloc; "spent at {last}")?),
            },
            ["meet", stamp] => {
                self.meet(stamp.parse().unwrap_or(0));
                said(alloc, "done")
            }
            ["last"] => {
                let last = self.last();
                Ok(format!(in alloc; "{last}")?)
            }
            ["entries"] => {
                let entries = self.entries().len();
                Ok(format!(in alloc; "{entries}")?)
            }
            ["hand", "out"] => {
                let entries = self.hand_out().len();
                Ok(format!(in alloc; "{entries}")?)
            }
            _ => said(alloc, "no such step"),
        }
    }
}

// The steps of a log of thread 2, and how many entries its last part has.
fn stamps(alloc: Global, steps: &str) -> Result<String, OutOfMemory> {
    let mut log = Log::new(alloc, ThreadId(2));
    let told = told(alloc, &mut log, steps)?;
    let left = log.into_part().len();
    Ok(format!(in alloc; "{told}; {left} left")?)
}

// A log of two acts, each stamped after the stamp met before it.
fn log_of(alloc: Global, thread: u32, met: [u128; 2]) -> Result<Log, OutOfMemory>
    ensures { IfOk result (λ log. log.thread ≡ thread) }
{
    let mut log = Log::new(alloc, ThreadId(thread));
    log.meet(met[0]);
    push(&mut log)?;
    log.meet(met[1]);
    push(&mut log)?;
    Ok(log)
}

fn push(log: &mut Log) -> Result<(), OutOfMemory>
    ensures { log.new.thread ≡ log.old.thread }
{
    match log.push(Act::Shutdown) {
        Ok(_stamp) => Ok(()),
        Err(_) => Err(OutOfMemory),
    }
}

// The merge of a log of thread 0, stamped 1 and 4, and one of thread 1, stamped 2 and 4.
fn merged(alloc: Global) -> Result<String, OutOfMemory> {
    let mut logs = Vec::new(alloc);
    logs.push(log_of(alloc, 0, [0, 3])?)?;
    logs.push(log_of(alloc, 1, [1, 3])?)?;
    shown(alloc, merge(alloc, logs)?.as_slice())
}

// A log of thread 5, stamped 1 and 9, merged as it is and after one more act.
fn by_parts(alloc: Global) -> Result<String, OutOfMemory> {
    let mut log = log_of(alloc, 5, [0, 8])?;
    let mut trace = Vec::new(alloc);
    for _ in 0..2 {
        let part = log.hand_out();
        trace.reserve(part.len())?;
        let mut parts = Vec::new(alloc);
        parts.push(part)?;
        merge_onto(parts, &mut trace);
        push(&mut log)?;
    }
    shown(alloc, trace.as_slice())
}

fn shown(alloc: Global, trace: &[Entry]) -> Result<String, OutOfMemory> {
    let mut text = String::from_str(alloc, "merged")?;
    for entry in trace {
        let Entry { stamp, thread, .. } = entry;
        write!(text, " {stamp}:{thread}")?;
    }
    Ok(text)
}
