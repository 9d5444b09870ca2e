//! The devices of each case: E injects errors over P, which passes all on to Malloc0, of which thread 0 is
//! the home. The base handles are 0 (on Malloc0, for P) and 1 (on P, for E).
use bd_base::{DevId, DevRow, Kind, Name, OutOfMemory, Rows, Setup};
use std::alloc::Global;

// Each device stands alone in its group.
fn row(alloc: Global, name: &str, kind: Kind, number: u32) -> Result<DevRow, OutOfMemory> {
    Ok(DevRow {
        name: Name::from_slice(alloc, name.as_bytes())?,
        kind,
        base: number.checked_sub(1).map(DevId),
        blocks: 4,
        size: 512,
        boundary: 0,
        depth: 128,
        file: None,
        group: number,
    })
}

pub(crate) fn stack(alloc: Global) -> Result<Setup, OutOfMemory> {
    let mut devices = Rows::new(alloc);
    devices.push(row(alloc, "Malloc0", Kind::Malloc, 0)?)?;
    devices.push(row(alloc, "P", Kind::Passthru, 1)?)?;
    devices.push(row(alloc, "E", Kind::Error, 2)?)?;
    Ok(Setup {
        threads: 4,
        devices,
        rates: Rows::new(alloc),
        injections: Rows::new(alloc),
        waiting: Rows::new(alloc),
        scripts: Rows::new(alloc),
    })
}
