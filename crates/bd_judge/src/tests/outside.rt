//! The whole call over files and output in memory.
use bd_base::{Bytes, Name, Rows};
use bd_outside::{MemHost, MemSink, OpenGate, StillClock};
use bd_top::{Fault, Ran, run};
use std::alloc::Global;
use std::sync::Wait;
use std::test::Fail;
use std::thread::Threads;

const CONFIG: &str =
    "{\"subsystems\":[{\"subsystem\":\"bdev\",\"config\":[{\"method\":\"bdev_malloc_create\",\"params\":{\"name\":\"Malloc0\",\"num_blocks\":64,\"block_size\":512}}]}]}";

/// A script that writes a block and reads it.
pub(crate) const FIRST: &str =
    "0 open h Malloc0 w\n0 write h 0 1 5\n0 wait\n0 read h 0 1\n0 wait\n0 close h\n";

fn file(alloc: Global, name: &str, text: &str) -> Result<(Name, Bytes), Fail> {
    let name = Name::from_slice(alloc, name.as_bytes())?;
    let bytes = Bytes::from_slice(alloc, text.as_bytes())?;
    Ok((name, bytes))
}

fn add(alloc: Global, files: &mut Vec<(Name, Bytes)>, name: &str, text: &str) -> Result<(), Fail> {
    let file = file(alloc, name, text)?;
    files.push(file)?;
    Ok(())
}

fn files(alloc: Global, script: &str) -> Result<Vec<(Name, Bytes)>, Fail> {
    let mut files = Vec::new(alloc);
    add(alloc, &mut files, "c", CONFIG)?;
    add(alloc, &mut files, "j", script)?;
    add(alloc, &mut files, "e", "{\"subsystems\":[]}")?;
    add(alloc, &mut files, "n", "")?;
    Ok(files)
}

fn host(alloc: Global, script: &str, fails: &[u64]) -> Result<MemHost, Fail> {
    let files = files(alloc, script)?;
    Ok(MemHost::new(alloc, files, 0, Vec::from_slice(alloc, fails)?)?)
}

fn words_of(alloc: Global, words: &[&str]) -> Result<Vec<String>, Fail> {
    let mut list = Vec::new(alloc);
    list.push(String::from_str(alloc, "run")?)?;
    for word in words {
        list.push(String::from_str(alloc, word)?)?;
    }
    Ok(list)
}

/// Runs these words, after `run`, over a host.
pub(crate) fn ran_on<R: AllocGlobal + Threads + Wait + Sync>(
    rt: &R,
    words: &[&str],
    host: &mut MemHost,
    out: &mut MemSink,
) -> Result<Result<Ran, Fault>, Fail> {
    let words = words_of(rt.alloc(), words)?;
    let clock = StillClock::new(0);
    Ok(run(rt, words.as_slice(), host, out, &clock, &OpenGate))
}

/// Runs these words, after `run`, over a configuration `c` with the malloc device Malloc0 of 64 blocks, and this
/// script `j`; `e` is a configuration without devices, `n` a script without lines. The host's calls of these
/// numbers fail.
pub(crate) fn ran<R: AllocGlobal + Threads + Wait + Sync>(
    rt: &R,
    words: &[&str],
    script: &str,
    fails: &[u64],
    out: &mut MemSink,
) -> Result<Result<Ran, Fault>, Fail> {
    let mut host = host(rt.alloc(), script, fails)?;
    ran_on(rt, words, &mut host, out)
}

const DISK_CONFIG: &str =
    "{\"subsystems\":[{\"subsystem\":\"bdev\",\"config\":[{\"method\":\"bdev_aio_create\",\"params\":{\"name\":\"A\",\"filename\":\"disk\",\"block_size\":512}}]}]}";

// The calls of a file's disk that fail.
fn disk_fails(alloc: Global, name: &str, fails: &[u64]) -> Result<Vec<(Name, Rows<u64>)>, Fail> {
    let mut rows = Vec::new(alloc);
    let calls = Vec::from_slice(alloc, fails)?;
    rows.push((
        Name::from_slice(alloc, name.as_bytes())?,
        Rows::from_vec(calls),
    ))?;
    Ok(rows)
}

/// A host with a configuration `c` of the aio device A over the file `disk` of 8 blocks of 512 bytes, and this
/// script `j`. It opens one disk, whose calls of these numbers fail.
pub(crate) fn disk_host(alloc: Global, script: &str, fails: &[u64]) -> Result<MemHost, Fail> {
    let mut files = Vec::new(alloc);
    add(alloc, &mut files, "c", DISK_CONFIG)?;
    add(alloc, &mut files, "j", script)?;
    files.push((
        Name::from_slice(alloc, b"disk")?,
        Bytes::zeros(alloc, 4096)?,
    ))?;
    let host = MemHost::new(alloc, files, 1, Vec::new(alloc))?;
    Ok(host.with_disk_fails(disk_fails(alloc, "disk", fails)?))
}
