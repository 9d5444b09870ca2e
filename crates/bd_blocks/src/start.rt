//! What a thread has before any entry.
ghost use Rattle.std.specs.Prelude.{◌≡◌, ◌&&◌, ◌==◌, ◌++◌, [], map, option_to_list, IfOk, OnOk};
ghost use Rattle.bd_machine.specs.BlockMap.{home, is_base_kind, row_of};
ghost use Rattle.bd_machine.specs.Content.{content_at_start};
ghost use Rattle.bd_machine.specs.Limits.{is_limited};
ghost use Rattle.bd_machine.specs.Start.{base_if_here, bases_at_start, limited_at_start, limited_devices, part_at_start};
ghost use Rattle.bd_machine.specs.View.{blank_part};

use crate::limits::{is_limited, one_quota, rates_of};
use bd_base::{DevId, DevRow, Kind, OutOfMemory, Rows, Setup};
use bd_machine::{Base, Content, Limited, Moments, OpenList, Part};
use bd_pages::Blocks;
use bd_stack::{home, row_of};
use std::alloc::Global;

// A malloc device has zeros, a null device always, and of a disk nothing is told.
fn content_at_start(alloc: Global, dev: DevId, row: &DevRow) -> Result<Content, OutOfMemory>
    ensures { IfOk result (λ c. c ≡ content_at_start [] dev row.now.kind row.now.size row.now.blocks) }
{
    match row.kind {
        Kind::Malloc => {
            let blocks = Blocks::zeros(alloc, row.blocks, row.size)?;
            Ok(Content::Blocks(blocks))
        }
        Kind::Null => Ok(Content::Zeros),
        _ => Ok(Content::Untold),
    }
}

fn is_base_kind(kind: Kind) -> bool
    ensures { result ≡ is_base_kind kind }
{
    matches!(kind, Kind::Malloc | Kind::Null | Kind::Aio)
}

// The base of a device, where it is one and a thread is its home.
fn base_if_here(
    alloc: Global,
    setup: &Setup,
    thread: u32,
    dev: DevId,
) -> Result<Option<Base>, OutOfMemory>
    ensures { IfOk result (λ b. b ≡ base_if_here setup.now [] thread dev (row_of setup.now dev)) }
{
    let Some(row) = row_of(setup, dev) else {
        return Ok(None);
    };
    if is_base_kind(row.kind) && home(setup, dev) == thread {
        let content = content_at_start(alloc, dev, row)?;
        Ok(Some(Base {
            dev,
            content,
            queue: Rows::new(alloc),
        }))
    } else {
        Ok(None)
    }
}

fn push_if_any(bases: &mut Rows<Base>, base: Option<Base>) -> Result<(), OutOfMemory>
    ensures { OnOk result (bases.new ≡ bases.old ++ option_to_list base) }
{
    if let Some(b) = base {
        bases.push(b)?;
    }
    Ok(())
}

// The base devices whose home a thread is. More devices than 32 bits count are out of memory.
#[tactic(auto, using(crate::proofs::Left::left_from, crate::proofs::Starting::next_base))]
fn bases_at_start(alloc: Global, setup: &Setup, thread: u32) -> Result<Rows<Base>, OutOfMemory>
    ensures { IfOk result (λ bs. bs ≡ bases_at_start setup.now [] thread) }
{
    let Ok(count) = u32::try_from(setup.devices.len()) else {
        return Err(OutOfMemory);
    };
    let mut bases = Rows::new(alloc);
    for n in 0..count {
        let base = base_if_here(alloc, setup, thread, DevId(n))?;
        push_if_any(&mut bases, base)?;
    }
    Ok(bases)
}

// A limited device at its home before any entry.
fn limited_at_start(alloc: Global, setup: &Setup, dev: DevId) -> Limited
    ensures { result ≡ limited_at_start setup.now dev }
{
    Limited {
        dev,
        left: one_quota(rates_of(setup, dev)),
        slices: 0,
        starts: None,
        waiting: Rows::new(alloc),
    }
}

// Whether it is limited, and a thread is its home.
fn is_limited_here(setup: &Setup, thread: u32, dev: DevId) -> bool
    ensures { result ≡ (is_limited setup.now dev && (home setup.now dev == thread)) }
{
    is_limited(setup, dev) && home(setup, dev) == thread
}

// The limited devices whose home a thread is. More devices than 32 bits count are out of memory.
fn all_limited_at_start(
    alloc: Global,
    setup: &Setup,
    thread: u32,
) -> Result<Rows<Limited>, OutOfMemory>
    ensures { IfOk result (λ ls. ls ≡ map (limited_at_start setup.now) (limited_devices setup.now thread)) }
{
    let Ok(count) = u32::try_from(setup.devices.len()) else {
        return Err(OutOfMemory);
    };
    let mut found = Rows::new(alloc);
    for n in 0..count {
        let dev = DevId(n);
        if is_limited_here(setup, thread, dev) {
            found.push(limited_at_start(alloc, setup, dev))?;
        }
    }
    Ok(found)
}

// A part with these devices at its home.
fn part_with(alloc: Global, bases: Rows<Base>, limited: Rows<Limited>) -> Part
    ensures { result ≡ record blank_part { bases = bases; limited = limited } }
{
    Part {
        next: 0,
        decided: None,
        bound: Rows::new(alloc),
        marks: Rows::new(alloc),
        gone: Rows::new(alloc),
        submitted: Rows::new(alloc),
        put: Rows::new(alloc),
        taken: Rows::new(alloc),
        next_request: 0,
        next_walk: 0,
        due: Rows::new(alloc),
        owed: Rows::new(alloc),
        requests: OpenList::new(alloc),
        marked: Rows::new(alloc),
        resets: Rows::new(alloc),
        moments: Moments {
            first: None,
            last: 0,
        },
        prior: None,
        sized: Rows::new(alloc),
        bases,
        limited,
        destructed: Rows::new(alloc),
        delayed: Rows::new(alloc),
    }
}

/// What is a thread's alone before any entry, with every disk untold.
pub fn part_at_start(alloc: Global, setup: &Setup, thread: u32) -> Result<Part, OutOfMemory>
    ensures { IfOk result (λ p. p ≡ part_at_start setup.now [] thread) }
{
    let bases = bases_at_start(alloc, setup, thread)?;
    let limited = all_limited_at_start(alloc, setup, thread)?;
    Ok(part_with(alloc, bases, limited))
}
