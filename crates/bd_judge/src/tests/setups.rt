//! What the tests play: scripts in words over one memory device, Malloc0, of blocks of 512 bytes. Each function
//! makes one thing, so that nothing large is dropped on many ways.
ghost use Rattle.std.specs.Prelude.{◌<◌, IfOk};

use bd_base::{
    ClaimKind, DevRow, Fill, Job, Kind, Line, Name, Op, OutOfMemory, Rows, Script, Setup,
};
use std::alloc::Global;

/// A line of a script. A submission has its first block and its number of blocks.
#[derive(Clone, Copy)]
pub(crate) enum Word {
    Open(&'static str, &'static str, bool),
    Submit(&'static str, Op, u64, u64),
    Wait,
    Claim(&'static str, ClaimKind),
    Close(&'static str),
    Post(&'static str),
    Await(&'static str),
}

/// The device: its number of blocks, and its boundary.
#[derive(Clone, Copy)]
pub(crate) struct Shape {
    pub blocks: u64,
    pub boundary: u64,
}

/// A device of 64 blocks without a boundary.
pub(crate) const PLAIN: Shape = Shape {
    blocks: 64,
    boundary: 0,
};

/// A write with the pattern of seed 5.
pub(crate) const WRITE: Op = Op::Write(Fill {
    seed: 5,
    flip: false,
});

/// A write with the pattern of seed 9.
pub(crate) const WRITE_9: Op = Op::Write(Fill {
    seed: 9,
    flip: false,
});

/// The name with this text.
pub(crate) fn name(alloc: Global, text: &str) -> Result<Name, OutOfMemory> {
    Name::from_slice(alloc, text.as_bytes())
}

fn open(alloc: Global, handle: &str, dev: &str, write: bool) -> Result<Job, OutOfMemory> {
    let handle = name(alloc, handle)?;
    let dev = name(alloc, dev)?;
    Ok(Job::Open { handle, dev, write })
}

fn job(alloc: Global, word: Word) -> Result<Job, OutOfMemory> {
    match word {
        Word::Open(handle, dev, write) => open(alloc, handle, dev, write),
        Word::Submit(handle, op, lba, count) => Ok(Job::Submit {
            handle: name(alloc, handle)?,
            op,
            lba,
            count,
        }),
        Word::Wait => Ok(Job::Wait),
        Word::Claim(handle, kind) => Ok(Job::Claim {
            handle: name(alloc, handle)?,
            kind,
        }),
        Word::Close(handle) => Ok(Job::Close {
            handle: name(alloc, handle)?,
        }),
        Word::Post(mark) => Ok(Job::Post(name(alloc, mark)?)),
        Word::Await(mark) => Ok(Job::Await(name(alloc, mark)?)),
    }
}

// Adds a line after those before it.
fn add(alloc: Global, lines: &mut Rows<Line>, number: u32, word: Word) -> Result<(), OutOfMemory> {
    let job = job(alloc, word)?;
    lines.push(Line { number, job })
}

// Adds these lines, the first with this number.
fn add_all(
    alloc: Global,
    lines: &mut Rows<Line>,
    first: u32,
    words: &[Word],
) -> Result<(), OutOfMemory> {
    let mut number = first;
    for word in words {
        add(alloc, lines, number, *word)?;
        number = number.saturating_add(1);
    }
    Ok(())
}

fn script(alloc: Global, thread: u32, first: u32, words: &[Word]) -> Result<Script, OutOfMemory> {
    let mut lines = Rows::new(alloc);
    add_all(alloc, &mut lines, first, words)?;
    Ok(Script { thread, lines })
}

// Adds the script of a thread, whose first line has this number.
fn add_script(
    alloc: Global,
    scripts: &mut Rows<Script>,
    thread: u32,
    first: u32,
    words: &[Word],
) -> Result<(), OutOfMemory> {
    let script = script(alloc, thread, first, words)?;
    scripts.push(script)
}

/// A count as a number of threads or lines.
pub(crate) fn count_of(count: usize) -> u32 {
    u32::try_from(count).unwrap_or(u32::MAX)
}

// A script for each list of words, of the threads 0, 1 and on; the lines are numbered on from script to script.
fn scripts(alloc: Global, words: &[&[Word]]) -> Result<Rows<Script>, OutOfMemory> {
    let mut scripts = Rows::new(alloc);
    let mut thread: u32 = 0;
    let mut first: u32 = 1;
    for words in words {
        add_script(alloc, &mut scripts, thread, first, words)?;
        first = first.saturating_add(count_of(words.len()));
        thread = thread.saturating_add(1);
    }
    Ok(scripts)
}

fn device(alloc: Global, shape: Shape) -> Result<DevRow, OutOfMemory> {
    Ok(DevRow {
        name: name(alloc, "Malloc0")?,
        kind: Kind::Malloc,
        base: None,
        blocks: shape.blocks,
        size: 512,
        boundary: shape.boundary,
        depth: 128,
        file: None,
        group: 0,
    })
}

fn devices(alloc: Global, shape: Shape) -> Result<Rows<DevRow>, OutOfMemory> {
    let mut devices = Rows::new(alloc);
    devices.push(device(alloc, shape)?)?;
    Ok(devices)
}

// One thread at least.
fn setup_of(alloc: Global, threads: u32, devices: Rows<DevRow>, scripts: Rows<Script>) -> Setup
    ensures { 0 < result.threads }
{
    Setup {
        threads: threads.max(1),
        devices,
        rates: Rows::new(alloc),
        injections: Rows::new(alloc),
        waiting: Rows::new(alloc),
        scripts,
    }
}

/// This number of threads, one at least, with these scripts over this device.
pub(crate) fn setup(
    alloc: Global,
    threads: u32,
    shape: Shape,
    words: &[&[Word]],
) -> Result<Setup, OutOfMemory>
    ensures { IfOk result (λ setup. 0 < setup.threads) }
{
    let devices = devices(alloc, shape)?;
    let scripts = scripts(alloc, words)?;
    Ok(setup_of(alloc, threads, devices, scripts))
}

// Adds a first line and one that stands there `count` times, numbered from 1.
fn add_many(
    alloc: Global,
    lines: &mut Rows<Line>,
    first: Word,
    word: Word,
    count: u32,
) -> Result<(), OutOfMemory> {
    add(alloc, lines, 1, first)?;
    for number in 0..count {
        add(alloc, lines, number.saturating_add(2), word)?;
    }
    Ok(())
}

fn long_script(
    alloc: Global,
    thread: u32,
    first: Word,
    word: Word,
    count: u32,
) -> Result<Script, OutOfMemory> {
    let mut lines = Rows::new(alloc);
    add_many(alloc, &mut lines, first, word, count)?;
    Ok(Script { thread, lines })
}

fn long_scripts(
    alloc: Global,
    threads: &[u32],
    first: Word,
    word: Word,
    count: u32,
) -> Result<Rows<Script>, OutOfMemory> {
    let mut scripts = Rows::new(alloc);
    for thread in threads {
        scripts.push(long_script(alloc, *thread, first, word, count)?)?;
    }
    Ok(scripts)
}

/// This number of threads, of which these have a first line and one that stands there `count` times.
pub(crate) fn long_setup(
    alloc: Global,
    threads: u32,
    busy: &[u32],
    first: Word,
    word: Word,
    count: u32,
) -> Result<Setup, OutOfMemory>
    ensures { IfOk result (λ setup. 0 < setup.threads) }
{
    let devices = devices(alloc, PLAIN)?;
    let scripts = long_scripts(alloc, busy, first, word, count)?;
    Ok(setup_of(alloc, threads, devices, scripts))
}
