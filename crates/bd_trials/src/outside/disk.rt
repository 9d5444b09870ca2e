//! Disks in memory.
use crate::outside::two_files;
use crate::steps::said;
use crate::words::escaped;
use bd_base::{Bytes, Name, OutOfMemory, Rows};
use bd_outside::{CalmHost, Disk, Host, MemDisk, Opening};
use std::alloc::Global;

// A disk whose last block isn't whole: its middle block is written, and it and the next are read.
pub(crate) fn written(alloc: Global) -> Result<String, OutOfMemory> {
    let mut disk = MemDisk::new(
        alloc,
        Bytes::from_slice(alloc, b"aaaabbbbccccdd")?,
        4,
        Vec::new(alloc),
    );
    let blocks = disk.blocks();
    let written = disk.write(1, b"BBBB").is_ok();
    let content = escaped(alloc, disk.content())?;
    let mut two = [0; 8];
    let read = disk.read(1, &mut two).is_ok();
    let two = escaped(alloc, &two)?;
    let flushed = disk.flush().is_ok();
    let flushes = disk.flushes();
    Ok(format!(in alloc;
        "{blocks} blocks; {written} {content}; {read} {two}; {flushed} {flushes}"
    )?)
}

// A host that keeps one row opens a disk, which is written, flushed and closed. Then there is no row
// for another, and no file of another name.
pub(crate) fn opened(alloc: Global) -> Result<String, OutOfMemory> {
    let mut host = two_files(alloc, 1, &[])?;
    let Ok(mut disk) = host.open_disk("b", 4) else {
        return said(alloc, "no disk");
    };
    let did = disk.blocks() == 2 && disk.write(0, b"AAAA").is_ok() && disk.flush().is_ok();
    host.close_disk("b", disk);
    let rows = rows(alloc, host.openings())?;
    let (again, other) = (host.open_disk("b", 4).err(), host.open_disk("c", 4).err());
    Ok(format!(in alloc; "{did}; {rows}; {again:?}, {other:?}")?)
}

// A host whose disks over the file `b` fail at their calls 2 and 3 opens one. Its first block is
// written twice, and it is flushed twice and closed.
pub(crate) fn failing(alloc: Global) -> Result<String, OutOfMemory> {
    let mut fails = Vec::new(alloc);
    let calls = Rows::from_vec(Vec::from_slice(alloc, &[2, 3])?);
    fails.push((Name::from_slice(alloc, b"b")?, calls))?;
    let mut host = two_files(alloc, 1, &[])?.with_disk_fails(fails);
    let Ok(mut disk) = host.open_disk("b", 4) else {
        return said(alloc, "no disk");
    };
    if disk.blocks() != 2 {
        return said(alloc, "not two blocks");
    }
    let did = match disk.write(0, b"AAAA") {
        Ok(()) => {
            disk.write(0, b"BBBB").is_err() && disk.flush().is_err() && disk.flush().is_ok()
        }
        Err(_) => false,
    };
    host.close_disk("b", disk);
    let rows = rows(alloc, host.openings())?;
    Ok(format!(in alloc; "{did}; {rows}")?)
}

// A calm host that keeps one row opens a disk, which is written and closed, and one beyond the row.
pub(crate) fn calm(alloc: Global) -> Result<String, OutOfMemory> {
    let mut files = Vec::new(alloc);
    let content = Bytes::from_slice(alloc, b"aaaabbbbc")?;
    files.push((Name::from_slice(alloc, b"b")?, content))?;
    let mut host = CalmHost::new(alloc, files, 1)?;
    let Ok(mut kept) = host.open_disk("b", 4) else {
        return said(alloc, "no disk");
    };
    let did = kept.blocks() == 2 && kept.write(1, b"BBBB").is_ok();
    host.close_disk("b", kept);
    let told = match host.openings() {
        Some(opened) => rows(alloc, opened)?,
        None => String::from_str(alloc, "untold")?,
    };
    let Ok(mut beyond) = host.open_disk("b", 4) else {
        return said(alloc, "no disk");
    };
    let (blocks, flushed) = (beyond.blocks(), beyond.flush().is_ok());
    host.close_disk("b", beyond);
    let (tells, other) = (host.openings().is_some(), host.open_disk("c", 4).err());
    Ok(format!(in alloc; "{did}; {told}; {blocks} blocks, {flushed}, {tells}; {other:?}")?)
}

// The rows of closed disks.
fn rows(alloc: Global, openings: &[Opening]) -> Result<String, OutOfMemory> {
    let mut rows = String::from_str(alloc, "rows")?;
    for row in openings {
        let (name, blocks) = (&row.name, row.blocks);
        write!(rows, " {name} {blocks}")?;
        let Some(closing) = &row.closing else {
            continue;
        };
        let content = match &closing.content {
            Some(content) => escaped(alloc, content.as_slice())?,
            None => String::from_str(alloc, "untold")?,
        };
        let (faults, flushes) = (closing.faults, closing.flushes);
        write!(rows, " {content} {faults} {flushes}")?;
    }
    Ok(rows)
}
