//! The whole call by a clock of the test's own, and how often it was asked.
use bd_base::{Bytes, Entry, Name};
use bd_outside::{MemHost, MemSink, OpenGate, StepClock};
use bd_top::run;
use std::alloc::Global;
use std::sync::Wait;
use std::test::Fail;
use std::thread::Threads;

const HEAD: &str =
    "{\"subsystems\":[{\"subsystem\":\"bdev\",\"config\":[{\"method\":\"bdev_malloc_create\",\"params\":{\"name\":\"M\",\"num_blocks\":128,\"block_size\":4096}}";

const TAIL: &str = "]}]}";

/// What is run: these jobs on this number of threads, driven in this way, over the malloc device M of 128 blocks of
/// 4,096 bytes and these further commands.
#[derive(Clone, Copy)]
pub(crate) struct Case<'c> {
    pub commands: &'c str,
    pub jobs: &'c str,
    pub threads: &'c str,
    pub drive: (&'c str, &'c str),
}

/// One reactor.
pub(crate) const REACTOR: (&str, &str) = ("--reactors", "1");

fn file(alloc: Global, name: &str, text: &str) -> Result<(Name, Bytes), Fail> {
    let name = Name::from_slice(alloc, name.as_bytes())?;
    let bytes = Bytes::from_slice(alloc, text.as_bytes())?;
    Ok((name, bytes))
}

/// The history of a run by this clock; it is empty where the run has a fault.
pub(crate) fn history<R: AllocGlobal + Threads + Wait + Sync>(
    rt: &R,
    case: Case,
    clock: &StepClock,
) -> Result<Vec<Entry>, Fail> {
    let alloc = rt.alloc();
    let commands = case.commands;
    let mut config = String::new(alloc);
    write!(config, "{HEAD}{commands}{TAIL}")?;
    let mut files = Vec::new(alloc);
    files.push(file(alloc, "c", config.as_str())?)?;
    files.push(file(alloc, "j", case.jobs)?)?;
    let mut host = MemHost::new(alloc, files, 0, Vec::new(alloc))?;
    let mut out = MemSink::new(alloc, 100_000)?;
    let (drive, by) = case.drive;
    let mut words = Vec::new(alloc);
    for word in ["run", "c", "j", "--threads", case.threads, drive, by] {
        words.push(String::from_str(alloc, word)?)?;
    }
    match run(rt, words.as_slice(), &mut host, &mut out, clock, &OpenGate) {
        Ok(ran) => Ok(ran.trace.into_rows().into_vec()),
        Err(_) => Ok(Vec::new(alloc)),
    }
}
