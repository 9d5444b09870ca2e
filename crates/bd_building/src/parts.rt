//! The parts of a split.
ghost use Rattle.std.specs.Prelude.{◌≡◌, IfOk};
ghost use Rattle.bd_building.specs.Rows.{part_at, part_blocks, part_name, parts_of, parts_that_fit, quotient, split_over};

use crate::base::Base;
use bd_base::{DevRow, Kind, Name, OutOfMemory};
use std::alloc::Global;

const MEGABYTE: u64 = 1_048_576;

// A quotient, rounded down; 0 where the divisor is.
fn quotient(n: u64, by: u64) -> u64
    ensures { result ≡ quotient n by }
{
    if by == 0 { 0 } else { n / by }
}

// How many blocks each part has. Megabytes whose bytes 64 bits don't count answer out of memory.
fn part_blocks(base: Base, count: u32, megabytes: u64) -> Result<u64, OutOfMemory>
    ensures { IfOk result (λ blocks. blocks ≡ part_blocks base count megabytes) }
{
    if megabytes == 0 {
        return Ok(quotient(base.blocks, u64::from(count)));
    }
    let Some(bytes) = megabytes.checked_mul(MEGABYTE) else {
        return Err(OutOfMemory);
    };
    Ok(quotient(bytes, u64::from(base.size)))
}

// How many parts of this number of blocks are made: as many as are asked for and fit.
fn parts_that_fit(base: Base, count: u32, blocks: u64) -> u64
    ensures { result ≡ parts_that_fit base count blocks }
{
    quotient(base.blocks, blocks).min(u64::from(count))
}

fn part_name(alloc: Global, base: &Name, i: u64) -> Result<Name, OutOfMemory>
    ensures { IfOk result (λ name. name ≡ part_name base.now i) }
{
    let mut name = Vec::from_slice(alloc, base.as_slice())?;
    let number = format!(in alloc; "p{i}")?;
    name.extend_from_slice(number.as_bytes())?;
    Ok(Name::from_vec(name))
}

// A part, which begins at so many times its blocks. A beginning past 64 bits answers out of memory.
fn part_at(
    alloc: Global,
    group: u32,
    name: &Name,
    base: Base,
    blocks: u64,
    i: u64,
) -> Result<DevRow, OutOfMemory>
    ensures { IfOk result (λ row. row ≡ part_at group name.now base blocks i) }
{
    let Some(shift) = i.checked_mul(blocks) else {
        return Err(OutOfMemory);
    };
    Ok(DevRow {
        name: part_name(alloc, name, i)?,
        kind: Kind::Part { shift },
        base: Some(base.dev),
        blocks,
        size: base.size,
        boundary: 0,
        depth: 0,
        file: None,
        group,
    })
}

// The first parts of this number of blocks.
#[tactic(auto, using(crate::proofs::Numbered::part_more))]
fn parts_of(
    alloc: Global,
    group: u32,
    name: &Name,
    base: Base,
    blocks: u64,
    parts: u64,
) -> Result<Vec<DevRow>, OutOfMemory>
    ensures { IfOk result (λ rows. rows.items ≡ parts_of group name.now base blocks parts) }
{
    let mut rows = Vec::new(alloc);
    for i in 0..parts {
        rows.push(part_at(alloc, group, name, base, blocks, i)?)?;
    }
    Ok(rows)
}

/// The parts of a device: so many of so many megabytes, or at 0 of an equal share each; fewer where
/// no more fit, and none where the device isn't there.
pub(crate) fn split_over(
    alloc: Global,
    group: u32,
    name: &Name,
    count: u32,
    megabytes: u64,
    base: Option<Base>,
) -> Result<Vec<DevRow>, OutOfMemory>
    ensures { IfOk result (λ rows. rows.items ≡ split_over group name.now count megabytes base) }
{
    let Some(base) = base else {
        return Ok(Vec::new(alloc));
    };
    let blocks = part_blocks(base, count, megabytes)?;
    let parts = parts_that_fit(base, count, blocks);
    parts_of(alloc, group, name, base, blocks, parts)
}
