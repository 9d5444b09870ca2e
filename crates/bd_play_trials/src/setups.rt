//! The setup of a case, in functions that make one thing each, so that nothing large is dropped on many ways.
use bd_base::{DevRow, Kind, Name, OutOfMemory, Rows, Script, Setup};
use bd_jobs::read_jobs;
use std::alloc::Global;

// The scripts of thread 0 with these lines, which semicolons part; none where they aren't in the grammar.
fn scripts(alloc: Global, lines: &str) -> Result<Rows<Script>, OutOfMemory> {
    let mut text = String::new(alloc);
    for line in lines.split("; ") {
        write!(text, "0 {line}\n")?;
    }
    match read_jobs(alloc, text.as_bytes(), 1) {
        Ok(scripts) => Ok(scripts),
        Err(_) => Ok(Rows::new(alloc)),
    }
}

fn devices(alloc: Global, blocks: u64, boundary: u64) -> Result<Rows<DevRow>, OutOfMemory> {
    let mut devices = Rows::new(alloc);
    devices.push(DevRow {
        name: Name::from_slice(alloc, b"Malloc0")?,
        kind: Kind::Malloc,
        base: None,
        blocks,
        size: 512,
        boundary,
        depth: 128,
        file: None,
        group: 0,
    })?;
    Ok(devices)
}

/// One thread with these lines, over the device Malloc0 with this number of blocks and this boundary.
pub(crate) fn setup(
    alloc: Global,
    blocks: u64,
    boundary: u64,
    lines: &str,
) -> Result<Setup, OutOfMemory> {
    let devices = devices(alloc, blocks, boundary)?;
    let scripts = scripts(alloc, lines)?;
    Ok(Setup {
        threads: 1,
        devices,
        rates: Rows::new(alloc),
        injections: Rows::new(alloc),
        waiting: Rows::new(alloc),
        scripts,
    })
}
