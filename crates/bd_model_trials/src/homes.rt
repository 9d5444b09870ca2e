//! What a home begins with, and what it serves of a device of blocks of 8 bytes.
use crate::words::{device, maybe, number, said, small, words};
use bd_base::{
    ApplyEnd, Decision, DevId, DevSet, Fill, HandleId, Op, OutOfMemory, Rows, Setup, Way,
};
use bd_blocks::{
    base_place, copy_of_piece, counts_way, digest_due, find_base, get_channel, is_digest_due,
    is_limited, new_piece, part_at_start, rates_of, references, registry_at_start, serve,
    set_count, size_of,
};
use bd_machine::{
    Base, Extent, Hold, Injected, Limited, OpenPiece, OpenRequest, Registry, Standing, Trip,
};
use std::alloc::Global;

const HOME: u32 = 1;

fn request(dev: DevId, op: Op) -> OpenRequest {
    OpenRequest {
        handle: HandleId(0),
        dev,
        op,
        lba: 0,
        count: 4,
        lets: 0,
        trip: Trip::Own,
        injected: Injected {
            asked: 0,
            count: 0,
            last: Decision::Pass,
            turned: true,
        },
        pended: false,
        aborted: None,
        pieces: None,
        hold: Hold::Before,
        late: DevSet::empty(),
    }
}

// A read, or a write with the pattern of seed 5 whose first byte is complemented.
fn op(word: &str) -> Op {
    match word {
        "read" => Op::Read,
        _ => Op::Write(Fill {
            seed: 5,
            flip: true,
        }),
    }
}

fn fill(op: &Op) -> &'static str {
    match op {
        Op::Write(Fill { flip: true, .. }) => "complemented",
        Op::Write(_) => "plain",
        _ => "no write",
    }
}

// A piece of a write, copied: where it lies, and whether a byte of it is complemented.
fn piece(alloc: Global, setup: &Setup, k: u32, extent: Extent) -> Result<String, OutOfMemory> {
    let piece = new_piece(setup, request(DevId(1), op("write")), k, extent)?;
    let piece = copy_of_piece(&piece)?;
    let (base, lba, count, fill) = (piece.base.0, piece.lba, piece.count, fill(&piece.op));
    Ok(format!(in alloc; "{count} blocks from {lba} of {base}, {fill}")?)
}

// What a piece that was served read.
fn read(alloc: Global, piece: &OpenPiece) -> Result<String, OutOfMemory> {
    let mut text = String::from_str(alloc, "served")?;
    if let Some(bytes) = piece.read.as_told() {
        for byte in bytes {
            write!(text, " {byte}")?;
        }
    }
    Ok(text)
}

// A piece of these blocks of device 1 is served.
fn served(
    alloc: Global,
    setup: &Setup,
    bases: &mut Rows<Base>,
    op: Op,
    extent: Extent,
) -> Result<String, OutOfMemory> {
    let dev = DevId(1);
    let piece = new_piece(setup, request(dev, op), 0, extent)?;
    match serve(
        alloc,
        bases,
        size_of(setup, dev),
        dev,
        ApplyEnd::Done,
        &piece,
    )? {
        Some(piece) => read(alloc, &piece),
        None => said(alloc, "not here"),
    }
}

fn digest(alloc: Global, setup: &Setup, bases: &[Base], dev: DevId) -> Result<String, OutOfMemory> {
    match digest_due(setup, bases, dev) {
        Some(Some(digest)) => {
            let [a, b, ..] = digest;
            Ok(format!(in alloc; "digest {a} {b}")?)
        }
        Some(None) => said(alloc, "no digest"),
        None => said(alloc, "not here"),
    }
}

fn place(alloc: Global, bases: &[Base], dev: DevId) -> Result<String, OutOfMemory> {
    if find_base(bases, dev).is_none() {
        return said(alloc, "not here");
    }
    match base_place(bases, dev) {
        Some(place) => Ok(format!(in alloc; "place {place}")?),
        None => said(alloc, "no place"),
    }
}

fn step(
    alloc: Global,
    setup: &Setup,
    bases: &mut Rows<Base>,
    words: &[&str],
) -> Result<String, OutOfMemory> {
    match words {
        ["digest", dev] => digest(alloc, setup, bases.as_slice(), device(dev)),
        ["place", dev] => place(alloc, bases.as_slice(), device(dev)),
        ["bare", dev] => {
            let is_due = is_digest_due(setup, bases.as_slice(), device(dev), &None);
            Ok(format!(in alloc; "no digest is due: {is_due}")?)
        }
        [verb, first, count] => {
            let extent = Extent {
                first: number(first),
                count: number(count),
            };
            served(alloc, setup, bases, op(verb), extent)
        }
        _ => said(alloc, "no such step"),
    }
}

// What thread 1 serves, step by step.
fn serves(
    alloc: Global,
    setup: &Setup,
    bases: &mut Rows<Base>,
    steps: &str,
) -> Result<String, OutOfMemory> {
    let mut told = String::new(alloc);
    for text in steps.split("; ") {
        if !told.is_empty() {
            told.push_str("; ")?;
        }
        let words = words(alloc, text)?;
        let answer = step(alloc, setup, bases, words.as_slice())?;
        told.push_str(answer.as_str())?;
    }
    Ok(told)
}

// What the limits of a device count.
fn counts(alloc: Global, setup: &Setup, dev: DevId) -> Result<String, OutOfMemory> {
    if !is_limited(setup, dev) {
        return said(alloc, "no limits");
    }
    let rates = rates_of(setup, dev);
    let (reads, writes) = (counts_way(Way::Read, rates), counts_way(Way::Write, rates));
    Ok(format!(in alloc; "reads {reads}, writes {writes}")?)
}

// What is left of the limits at a thread.
fn quotas(alloc: Global, limited: &[Limited]) -> Result<String, OutOfMemory> {
    let mut text = String::from_str(alloc, "left")?;
    for row in limited {
        let (dev, left) = (row.dev.0, row.left);
        let (all, bytes) = (left.rw_requests, left.rw_bytes);
        let (read, written) = (left.r_bytes, left.w_bytes);
        write!(text, "; {dev}: {all} {bytes} {read} {written}")?;
    }
    Ok(text)
}

// The devices that live, the next handle, and each handle with its device and thread.
fn handles(alloc: Global, registry: &Registry) -> Result<String, OutOfMemory> {
    let live = registry
        .devices
        .as_slice()
        .iter()
        .filter(|device| matches!(device.standing, Standing::Live))
        .count();
    let next = registry.next;
    let mut text = format!(in alloc; "{live} live, next {next}")?;
    for handle in registry.handles.as_slice() {
        let (dev, thread) = (handle.dev.0, handle.thread.0);
        write!(text, "; of {dev} on {thread}")?;
    }
    Ok(text)
}

// The channel's references before and after two gets of it by thread 0, and of the one below, which then goes.
fn got(alloc: Global, setup: &Setup, dev: DevId, lower: DevId) -> Result<String, OutOfMemory> {
    let mut registry = registry_at_start(alloc, setup)?;
    get_channel(alloc, setup, 0, dev, &mut registry)?;
    get_channel(alloc, setup, 0, dev, &mut registry)?;
    let upper = maybe(alloc, references(&registry, 0, dev))?;
    let below = maybe(alloc, references(&registry, 0, lower))?;
    set_count(&mut registry.channels, 0, lower, None)?;
    let after = maybe(alloc, references(&registry, 0, lower))?;
    Ok(format!(in alloc; "{upper} and {below}, then {after}")?)
}

/// What thread 1 has, and serves.
pub(crate) fn answer(alloc: Global, setup: &Setup, asked: &str) -> Result<String, OutOfMemory> {
    let words = words(alloc, asked)?;
    match words.as_slice() {
        ["piece", k, first, count] => {
            let extent = Extent {
                first: number(first),
                count: number(count),
            };
            piece(alloc, setup, small(k), extent)
        }
        ["counts", dev] => counts(alloc, setup, device(dev)),
        ["quotas"] => {
            let part = part_at_start(alloc, setup, HOME)?;
            quotas(alloc, part.limited.as_slice())
        }
        ["handles"] => {
            let registry = registry_at_start(alloc, setup)?;
            handles(alloc, &registry)
        }
        ["references", thread, dev] => {
            let registry = registry_at_start(alloc, setup)?;
            maybe(alloc, references(&registry, small(thread), device(dev)))
        }
        ["got", dev, lower] => got(alloc, setup, device(dev), device(lower)),
        ["serves", ..] => {
            let (_, steps) = crate::words::split(asked, " ");
            let mut part = part_at_start(alloc, setup, HOME)?;
            serves(alloc, setup, &mut part.bases, steps)
        }
        _ => said(alloc, "no such question"),
    }
}
