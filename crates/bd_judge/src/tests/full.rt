//! A device whose queue takes one piece: two threads write a hundred blocks to it, so that pieces come to the full
//! queue, go back, and are sent again.
use crate::judging::{Verdict, judge};
use bd_base::{
    Act, Bytes, DevRow, Entry, Fill, Job, Kind, Line, Name, Op, OutOfMemory, Rows, Script, Setup,
    Status,
};
use bd_outside::{MemHost, MemSink, OpenGate, StillClock};
use bd_top::run;
use std::alloc::Global;
use std::sync::Wait;
use std::test::Fail;
use std::thread::Threads;

const CONFIG: &str =
    "{\"subsystems\":[{\"subsystem\":\"bdev\",\"config\":[{\"method\":\"bdev_malloc_create\",\"params\":{\"name\":\"Full0\",\"num_blocks\":128,\"block_size\":512,\"queue_depth\":1}}]}]}";

// How many blocks each thread writes, one by one.
const WRITES: u32 = 50;

// Thread t opens the device under the name h, writes its blocks with seed t + 1, waits, and closes.
fn script(alloc: Global) -> Result<String, OutOfMemory> {
    let mut text = String::new(alloc);
    for t in 0..2u32 {
        write!(text, "{t} open h Full0 w\n")?;
        for b in 0..WRITES {
            let block = t * WRITES + b;
            let seed = t + 1;
            write!(text, "{t} write h {block} 1 {seed}\n")?;
        }
        write!(text, "{t} wait\n{t} close h\n")?;
    }
    Ok(text)
}

fn handle(alloc: Global) -> Result<Name, OutOfMemory> {
    Name::from_slice(alloc, b"h")
}

// The job of line number i of thread t.
fn job(alloc: Global, t: u32, i: u32) -> Result<Job, OutOfMemory> {
    let handle = handle(alloc)?;
    if i == 0 {
        return Ok(Job::Open {
            handle,
            dev: Name::from_slice(alloc, b"Full0")?,
            write: true,
        });
    }
    if i <= WRITES {
        let op = Op::Write(Fill {
            seed: t as u64 + 1,
            flip: false,
        });
        let lba = t as u64 * WRITES as u64 + i as u64 - 1;
        return Ok(Job::Submit {
            handle,
            op,
            lba,
            count: 1,
        });
    }
    if i == WRITES + 1 {
        Ok(Job::Wait)
    } else {
        Ok(Job::Close { handle })
    }
}

fn device(alloc: Global) -> Result<DevRow, OutOfMemory> {
    Ok(DevRow {
        name: Name::from_slice(alloc, b"Full0")?,
        kind: Kind::Malloc,
        base: None,
        blocks: 128,
        size: 512,
        boundary: 0,
        depth: 1,
        file: None,
        group: 0,
    })
}

fn setup(alloc: Global) -> Result<Setup, OutOfMemory> {
    let mut scripts = Rows::new(alloc);
    for t in 0..2u32 {
        let mut lines = Rows::new(alloc);
        for i in 0..WRITES + 3 {
            let number = t * (WRITES + 3) + i + 1;
            let job = job(alloc, t, i)?;
            lines.push(Line { number, job })?;
        }
        scripts.push(Script { thread: t, lines })?;
    }
    let mut devices = Rows::new(alloc);
    devices.push(device(alloc)?)?;
    Ok(Setup {
        threads: 2,
        devices,
        rates: Rows::new(alloc),
        injections: Rows::new(alloc),
        waiting: Rows::new(alloc),
        scripts,
    })
}

fn file(alloc: Global, name: &str, text: &str) -> Result<(Name, Bytes), Fail> {
    let name = Name::from_slice(alloc, name.as_bytes())?;
    let bytes = Bytes::from_slice(alloc, text.as_bytes())?;
    Ok((name, bytes))
}

// The history of the run with these options, and what it reports; both are empty where the run has a fault.
fn history<R: AllocGlobal + Threads + Wait + Sync>(
    rt: &R,
    options: &[&str],
) -> Result<Vec<Entry>, Fail> {
    let alloc = rt.alloc();
    let text = script(alloc)?;
    let mut files = Vec::new(alloc);
    files.push(file(alloc, "c", CONFIG)?)?;
    files.push(file(alloc, "j", text.as_str())?)?;
    let mut host = MemHost::new(alloc, files, 0, Vec::new(alloc))?;
    let mut out = MemSink::new(alloc, 10_000)?;
    let mut words = Vec::new(alloc);
    for word in ["run", "c", "j"] {
        words.push(String::from_str(alloc, word)?)?;
    }
    for word in options {
        words.push(String::from_str(alloc, word)?)?;
    }
    let clock = StillClock::new(0);
    match run(rt, words.as_slice(), &mut host, &mut out, &clock, &OpenGate) {
        Ok(ran) => Ok(ran.trace.into_rows().into_vec()),
        Err(_) => Ok(Vec::new(alloc)),
    }
}

#[test]
fn refused_pieces_are_sent_again(rt: HostRuntime) -> Result<(), Fail> {
    let alloc = rt.alloc();
    let setup = setup(alloc)?;
    for options in [
        &["--threads", "2", "--schedule", "7"] as &[&str],
        &["--threads", "2", "--reactors", "2"],
    ] {
        let trace = history(&rt, options)?;
        let refused = trace
            .iter()
            .filter(|entry| matches!(entry.act, Act::NoMem { .. }))
            .count();
        let succeeded = trace
            .iter()
            .filter(|entry| {
                matches!(
                    entry.act,
                    Act::Complete {
                        status: Status::Success,
                        ..
                    }
                )
            })
            .count();
        assert!(rt; refused > 0);
        assert!(rt; succeeded == 100, "{succeeded}");
        let judged = judge(alloc, &setup, trace.as_slice());
        assert!(rt; judged == Ok(Verdict::Complete), "{judged:?}");
    }
    Ok(())
}
