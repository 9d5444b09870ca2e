//! The content of a base device: changed in place, and read.
ghost use Rattle.std.specs.Prelude.{◌≡◌, ◌+◌, ◌*◌, ◌≤◌, ◌++◌, IfOk, OnOk, OnErr, length, replicate, take, drop};
ghost use Rattle.std.specs.List.{concat};
ghost use Rattle.bd_base.specs.declared.request.Op.TheVariants as ops;
ghost use Rattle.bd_machine.specs.Effect.{blocks_after, bytes_at, bytes_read, content_after, rewritten};
ghost use Rattle.bd_machine.specs.Homes.{content_by, read_by};

use bd_base::{ApplyEnd, Bytes, Fill, Op, OutOfMemory};
use bd_machine::{Content, OpenPiece, ReadBytes};
use bd_pages::Blocks;
use std::alloc::Global;

// ---- blocks in place

// Writes `count` blocks from `first` on, of which the first has this number. Numbers that pass 64 bits
// count as out of memory: no block of a device has one.
fn write_blocks(
    alloc: Global,
    blocks: &mut Blocks,
    fill: Fill,
    number: u64,
    first: u64,
    count: u64,
) -> Result<(), OutOfMemory>
    requires inside { first + count ≤ length blocks.old }
    ensures ok { OnOk result (blocks.new ≡ take first blocks.old ++ rewritten (ops.Write fill) number (take count (drop first blocks.old)) ++ drop (first + count) blocks.old) }
    ensures err { OnErr result (blocks.new ≡ blocks.old) }
{
    if number.checked_add(count).is_none() {
        return Err(OutOfMemory);
    }
    blocks.fill(alloc, first, count, fill, number)
}

// Does what a type asks to `count` blocks from `first` on, of which the first has this number.
fn rewrite_at(
    alloc: Global,
    blocks: &mut Blocks,
    op: Op,
    number: u64,
    first: u64,
    count: u64,
) -> Result<(), OutOfMemory>
    requires inside { first + count ≤ length blocks.old }
    ensures ok { OnOk result (blocks.new ≡ take first blocks.old ++ rewritten op number (take count (drop first blocks.old)) ++ drop (first + count) blocks.old) }
    ensures err { OnErr result (blocks.new ≡ blocks.old) }
{
    match op {
        Op::Write(fill) => write_blocks(alloc, blocks, fill, number, first, count),
        Op::Zeroes | Op::Unmap => {
            blocks.zero(first, count);
            Ok(())
        }
        Op::Read | Op::Flush | Op::Reset(_) | Op::Abort(_) => Ok(()),
    }
}

// Does to the blocks what the piece asks, as far as they are there.
fn rewrite(alloc: Global, blocks: &mut Blocks, p: &OpenPiece) -> Result<(), OutOfMemory>
    ensures ok { OnOk result (blocks.new ≡ blocks_after p.now blocks.old) }
    ensures err { OnErr result (blocks.new ≡ blocks.old) }
{
    let len = blocks.len();
    let first = p.lba.min(len);
    let count = p.count.min(len - first);
    rewrite_at(alloc, blocks, p.op, p.first, first, count)
}

// ---- the content

// Does to the content what the piece asks.
fn change(alloc: Global, content: &mut Content, p: &OpenPiece) -> Result<(), OutOfMemory>
    ensures ok { OnOk result (content.new ≡ content_after content.old p.now) }
    ensures err { OnErr result (content.new ≡ content.old) }
{
    match content {
        Content::Blocks(blocks) => rewrite(alloc, blocks, p),
        Content::Zeros | Content::Untold => Ok(()),
    }
}

/// Does to the content what the piece asks that ends so: a fault leaves it. Out of memory, the content
/// is as it was.
pub(crate) fn change_by(
    alloc: Global,
    end: ApplyEnd,
    content: &mut Content,
    p: &OpenPiece,
) -> Result<(), OutOfMemory>
    ensures ok { OnOk result (content.new ≡ content_by end content.old p.now) }
    ensures err { OnErr result (content.new ≡ content.old) }
{
    match end {
        ApplyEnd::Done => change(alloc, content, p),
        ApplyEnd::Fault => Ok(()),
    }
}

// ---- the bytes

// The bytes of `count` blocks from `lba` on, as far as they are there.
fn read_blocks(alloc: Global, blocks: &Blocks, lba: u64, count: u64) -> Result<Bytes, OutOfMemory>
    ensures { IfOk result (λ b. b ≡ concat (take count (drop lba blocks.now))) }
{
    let len = blocks.len();
    let first = lba.min(len);
    let count = count.min(len - first);
    blocks.read(alloc, first, count)
}

// The zeros of `count` blocks of `size` bytes. More bytes than 64 bits count are out of memory.
fn zeros(alloc: Global, size: u32, count: u64) -> Result<Bytes, OutOfMemory>
    ensures { IfOk result (λ b. b ≡ replicate (count * size) 0) }
{
    match count.checked_mul(size as u64) {
        Some(n) => Bytes::zeros(alloc, n as usize),
        None => Err(OutOfMemory),
    }
}

fn bytes_at(
    alloc: Global,
    size: u32,
    content: &Content,
    lba: u64,
    count: u64,
) -> Result<ReadBytes, OutOfMemory>
    ensures { IfOk result (λ b. b ≡ bytes_at size content.now lba count) }
{
    match content {
        Content::Blocks(blocks) => Ok(ReadBytes::told(read_blocks(alloc, blocks, lba, count)?)),
        Content::Zeros => Ok(ReadBytes::told(zeros(alloc, size, count)?)),
        Content::Untold => Ok(ReadBytes::none()),
    }
}

fn bytes_read(
    alloc: Global,
    size: u32,
    content: &Content,
    p: &OpenPiece,
) -> Result<ReadBytes, OutOfMemory>
    ensures { IfOk result (λ b. b ≡ bytes_read size content.now p.now) }
{
    if matches!(p.op, Op::Read) {
        bytes_at(alloc, size, content, p.lba, p.count)
    } else {
        Ok(ReadBytes::told(Bytes::new(alloc)))
    }
}

/// What a piece reads of the content that ends so; after a fault nothing is told.
pub(crate) fn read_by(
    alloc: Global,
    end: ApplyEnd,
    size: u32,
    content: &Content,
    p: &OpenPiece,
) -> Result<ReadBytes, OutOfMemory>
    ensures { IfOk result (λ b. b ≡ read_by end size content.now p.now) }
{
    match end {
        ApplyEnd::Done => bytes_read(alloc, size, content, p),
        ApplyEnd::Fault => Ok(ReadBytes::none()),
    }
}
