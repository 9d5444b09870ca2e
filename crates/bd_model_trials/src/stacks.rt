//! Stacked devices, and the pieces of ranges on them.
use crate::words::{device, devices, great, maybe, number, said, words};
use bd_base::{DevId, HandleId, Name, OutOfMemory, Rows, Setup};
use bd_blocks::{blocks_of, boundary_of, extents, is_aio, is_home, is_malloc, size_of};
use bd_stack::{
    at, base_handle, base_of, below, device_named, firsts, home, is_base_handle, under, users,
};
use std::alloc::Global;

// What is said of a device.
fn row(alloc: Global, setup: &Setup, dev: DevId) -> Result<String, OutOfMemory> {
    let (blocks, size) = (blocks_of(setup, dev), size_of(setup, dev));
    let (boundary, home) = (boundary_of(setup, dev), home(setup, dev));
    let mut text = format!(in alloc;
        "{blocks} blocks of {size}, boundary {boundary}, home {home}"
    )?;
    if is_home(setup, home, dev) {
        text.push_str(", of the setup")?;
    }
    if is_malloc(setup, dev) {
        text.push_str(", malloc")?;
    }
    if is_aio(setup, dev) {
        text.push_str(", aio")?;
    }
    Ok(text)
}

fn named(alloc: Global, setup: &Setup, text: &str) -> Result<String, OutOfMemory> {
    let name = Name::from_slice(alloc, text.as_bytes())?;
    match device_named(setup, &name) {
        Some(place) => Ok(format!(in alloc; "{place}")?),
        None => said(alloc, "none"),
    }
}

// The base device and the block of it under a block.
fn lowest(alloc: Global, setup: &Setup, dev: DevId, block: u64) -> Result<String, OutOfMemory> {
    let Ok((base, number)) = at(setup, dev, block) else {
        return said(alloc, "past 64 bits");
    };
    let (base, under, home) = (base.0, base_of(setup, dev).0, home(setup, dev));
    Ok(format!(in alloc; "block {number} of {base}; over {under}, home {home}")?)
}

fn next_below(alloc: Global, setup: &Setup, dev: DevId, block: u64) -> Result<String, OutOfMemory> {
    match under(setup, dev, block) {
        Ok(Some((base, number))) => {
            let base = base.0;
            Ok(format!(in alloc; "block {number} of {base}")?)
        }
        Ok(None) => said(alloc, "none"),
        Err(OutOfMemory) => said(alloc, "past 64 bits"),
    }
}

fn all_below(alloc: Global, setup: &Setup, dev: DevId) -> Result<String, OutOfMemory> {
    let mut found = Rows::new(alloc);
    for lower in below(setup, dev) {
        found.push(lower)?;
    }
    devices(alloc, found.as_slice())
}

fn cut(
    alloc: Global,
    setup: &Setup,
    dev: DevId,
    (lba, count): (u64, u64),
) -> Result<String, OutOfMemory> {
    let found = extents(alloc, setup, dev, lba, count)?;
    let mut text = String::from_str(alloc, "pieces")?;
    for extent in found.as_slice() {
        let (first, count) = (extent.first, extent.count);
        write!(text, " {first}+{count}")?;
    }
    Ok(text)
}

// The users of a base handle, and whether it is one.
fn used(alloc: Global, setup: &Setup, handle: HandleId) -> Result<String, OutOfMemory> {
    let users = users(alloc, setup, handle)?;
    let mut text = devices(alloc, users.as_slice())?;
    if is_base_handle(setup, handle) {
        text.push_str(", a base handle")?;
    }
    Ok(text)
}

/// What is said of a device, a block, a range or a handle.
pub(crate) fn answer(alloc: Global, setup: &Setup, asked: &str) -> Result<String, OutOfMemory> {
    let words = words(alloc, asked)?;
    match words.as_slice() {
        ["row", dev] => row(alloc, setup, device(dev)),
        ["named", name] => named(alloc, setup, name),
        ["at", dev, block] => lowest(alloc, setup, device(dev), number(block)),
        ["under", dev, block] => next_below(alloc, setup, device(dev), number(block)),
        ["below", dev] => all_below(alloc, setup, device(dev)),
        ["cut", dev, lba, count] => {
            let range = (number(lba), number(count));
            cut(alloc, setup, device(dev), range)
        }
        ["users", handle] => used(alloc, setup, HandleId(great(handle))),
        ["handle", dev] => maybe(alloc, base_handle(setup, device(dev)).map(|h| h.0)),
        ["firsts"] => {
            let found = firsts(alloc, setup)?;
            devices(alloc, found.as_slice())
        }
        _ => said(alloc, "no such question"),
    }
}
