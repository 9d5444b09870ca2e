//! The bytes that a piece writes.
ghost use Rattle.std.specs.Prelude.{◌≡◌, ◌+◌, ◌*◌, ◌<◌, ◌^◌, [], IfOk, length, replicate};
ghost use Rattle.std.specs.List.{concat};
ghost use Rattle.bd_base.specs.declared.request.Op.TheVariants as ops;
ghost use Rattle.bd_machine.specs.Effect.{patterned, rewritten, turned_block, zero_blocks};

use bd_base::{Bytes, Fill, OutOfMemory};
use std::alloc::Global;

// The pattern of a seed in `count` blocks of `size` bytes, of which the first has this number.
fn patterns(
    alloc: Global,
    seed: u64,
    number: u64,
    count: u64,
    size: u32,
) -> Result<Vec<u8>, OutOfMemory>
    requires numbered { number + count < 2 ^ 64 }
    requires amount { count * size < 2 ^ 64 }
    ensures { IfOk result (λ bytes. bytes.items ≡ concat (patterned seed number (zero_blocks size count))) }
{
    let mut block = Bytes::zeros(alloc, size as usize)?;
    let mut bytes = Vec::with_capacity(alloc, (count * size as u64) as usize)?;
    for k in 0..count {
        block.fill(seed, number + k);
        bytes.extend_from_slice(block.as_slice())?;
    }
    Ok(bytes)
}

// Makes byte 0 what 255 minus it is.
fn turn(bytes: &mut Vec<u8>)
    ensures { bytes.new.items ≡ turned_block bytes.old.items }
{
    if !bytes.is_empty() {
        bytes[0] = 255 - bytes[0];
    }
}

/// The bytes that a write puts into `count` blocks of `size` bytes, of which the first has this
/// number, in the device that the request was submitted on. Or out of memory.
pub(crate) fn written(
    alloc: Global,
    fill: Fill,
    number: u64,
    count: u64,
    size: u32,
) -> Result<Vec<u8>, OutOfMemory>
    requires some { 0 < size }
    requires numbered { number + count < 2 ^ 64 }
    requires amount { count * size < 2 ^ 64 }
    ensures { IfOk result (λ bytes. bytes.items ≡ concat (rewritten (ops.Write fill) number (zero_blocks size count))) }
{
    let mut bytes = patterns(alloc, fill.seed, number, count, size)?;
    if fill.flip {
        turn(&mut bytes);
    }
    Ok(bytes)
}

/// The zeros of `count` blocks of `size` bytes, or out of memory.
pub(crate) fn zeros(alloc: Global, count: u64, size: u32) -> Result<Vec<u8>, OutOfMemory>
    requires amount { count * size < 2 ^ 64 }
    ensures { IfOk result (λ bytes. bytes.items ≡ replicate (count * size) 0) }
{
    Ok(vec![in alloc; 0; (count * size as u64) as usize]?)
}
