//! The setup of these tests.
use bd_base::{DevRow, Kind, Name, OutOfMemory, Rates, Rows, Setup};
use std::alloc::Global;

fn memory_device(alloc: Global) -> Result<DevRow, OutOfMemory> {
    Ok(DevRow {
        name: Name::from_slice(alloc, b"Malloc0")?,
        kind: Kind::Malloc,
        base: None,
        blocks: 4,
        size: 512,
        boundary: 0,
        depth: 128,
        file: None,
        group: 0,
    })
}

/// One thread, and a memory device of four blocks with these limits.
pub(crate) fn limited_device(alloc: Global, limits: Rates) -> Result<Setup, OutOfMemory> {
    let mut rates = Rows::new(alloc);
    rates.push(limits)?;
    let mut devices = Rows::new(alloc);
    devices.push(memory_device(alloc)?)?;
    Ok(Setup {
        threads: 1,
        devices,
        rates,
        injections: Rows::new(alloc),
        waiting: Rows::new(alloc),
        scripts: Rows::new(alloc),
    })
}
