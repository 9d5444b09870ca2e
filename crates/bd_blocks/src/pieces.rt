//! Where a request is cut, and its pieces.
ghost use Rattle.std.specs.Prelude.{◌≡◌, ◌<◌, ◌+◌, ◌^◌, IfOk, suc};
ghost use Rattle.std.specs.List.{list_any};
ghost use Rattle.bd_blocks.specs.Cuts.{IsClear, extents_left, is_multiple};
ghost use Rattle.bd_machine.specs.BlockMap.{path_within};
ghost use Rattle.bd_machine.specs.Pieces.{extents, is_boundary, is_cut_at};
ghost use Rattle.bd_machine.specs.Requests.{new_piece, op_of_piece};

use bd_base::{DevId, Fill, Op, OutOfMemory, Rows, Setup};
use bd_machine::{Extent, OpenPiece, OpenRequest, Progress, ReadBytes};
use bd_stack::{at, boundary_of, under};
use std::alloc::Global;

// How many blocks follow from this one on, itself the first, before a multiple of the boundary, `most`
// at most.
fn clear_of(boundary: u64, block: u64, most: u64) -> u64
    requires { 0 < most }
    ensures { IsClear (λ k. is_multiple boundary (block + k)) most result }
{
    if boundary == 0 {
        return most;
    }
    most.min(boundary - block % boundary)
}

// How many blocks follow from this one on, itself the first, before a boundary of the device or of one
// of the `left` devices below, `most` at most.
fn clear_within(
    setup: &Setup,
    left: usize,
    dev: DevId,
    block: u64,
    most: u64,
) -> Result<u64, OutOfMemory>
    requires { 0 < most }
    ensures { IfOk result (IsClear (λ k. list_any (is_boundary setup.now) (path_within (suc left) setup.now dev (block + k))) most) }
{
    let run = clear_of(boundary_of(setup, dev), block, most);
    if left == 0 {
        return Ok(run);
    }
    match under(setup, dev, block)? {
        None => Ok(run),
        Some((base, lower)) => {
            let clear = clear_within(setup, left - 1, base, lower, run)?;
            Ok(clear)
        }
    }
}

// How many blocks of a range's first piece there are, of the `most` that are left of the range.
fn run_from(setup: &Setup, dev: DevId, block: u64, most: u64) -> Result<u64, OutOfMemory>
    requires { 0 < most }
    ensures { IfOk result (IsClear (λ k. is_cut_at setup.now dev (block + k)) most) }
{
    clear_within(setup, setup.devices.len(), dev, block, most)
}

// The pieces of a range that has blocks.
fn extents_of(
    alloc: Global,
    setup: &Setup,
    dev: DevId,
    lba: u64,
    count: u64,
) -> Result<Rows<Extent>, OutOfMemory>
    requires { lba + count < 2 ^ 64 }
    ensures { IfOk result (λ xs. xs ≡ extents_left setup.now dev lba count) }
{
    let mut found = Rows::new(alloc);
    let (mut first, mut left) = (lba, count);
    while left > 0 {
        let count = run_from(setup, dev, first, left)?;
        found.push(Extent { first, count })?;
        first += count;
        left -= count;
    }
    Ok(found)
}

/// The pieces of `count` blocks from `lba` on, as extents of the device, in order: they begin at the
/// first block and at each boundary of the device and of those below. A range that passes 64 bits, on
/// one of them, counts as out of memory: no request that was admitted has one.
pub fn extents(
    alloc: Global,
    setup: &Setup,
    dev: DevId,
    lba: u64,
    count: u64,
) -> Result<Rows<Extent>, OutOfMemory>
    ensures { IfOk result (λ xs. xs ≡ extents setup.now dev lba count) }
{
    if lba.checked_add(count).is_none() {
        return Err(OutOfMemory);
    }
    let mut found = extents_of(alloc, setup, dev, lba, count)?;
    if count == 0 {
        found.push(Extent { first: lba, count })?;
    }
    Ok(found)
}

// The type of a piece: a complemented byte belongs to piece 0 alone, where the request took an odd
// number of corruptions.
fn op_of_piece(k: u32, turned: bool, op: Op) -> Op
    ensures { result ≡ op_of_piece k turned op }
{
    match op {
        Op::Write(fill) => Op::Write(Fill {
            seed: fill.seed,
            flip: turned && k == 0,
        }),
        _ => op,
    }
}

/// Piece `k` of a request, as it is at the cut: the base's blocks under these blocks of the request's
/// device. A number that passes 64 bits counts as out of memory.
pub fn new_piece(
    setup: &Setup,
    r: OpenRequest,
    k: u32,
    extent: Extent,
) -> Result<OpenPiece, OutOfMemory>
    ensures { IfOk result (λ p. p ≡ new_piece setup.now r k extent) }
{
    let Extent { first, count } = extent;
    let (base, lba) = at(setup, r.dev, first)?;
    Ok(OpenPiece {
        base,
        lba,
        count,
        first,
        op: op_of_piece(k, r.injected.turned, r.op),
        progress: Progress::Held,
        end: None,
        read: ReadBytes::none(),
    })
}

/// An equal piece, or out of memory.
pub fn copy_of_piece(p: &OpenPiece) -> Result<OpenPiece, OutOfMemory>
    ensures { IfOk result (λ q. q ≡ p.now) }
{
    let read = p.read.copy()?;
    Ok(OpenPiece {
        base: p.base,
        lba: p.lba,
        count: p.count,
        first: p.first,
        op: p.op,
        progress: p.progress,
        end: p.end,
        read,
    })
}
