//! What a piece asks, done to a disk.
ghost use Rattle.std.specs.Prelude.{◌≡◌, ◌<◌, ◌≤◌, ◌+◌, ◌*◌, ◌^◌, ◌↔◌, [], cond, is_some, length, IsTrue, IfOk, OnOk, OnErr};
ghost use Rattle.std.specs.List.{concat};
ghost use Rattle.bd_base.specs.declared.request.Op.TheVariants as ops;
ghost use Rattle.bd_base.specs.declared.act.ApplyEnd.TheVariants as ends;
ghost use Rattle.bd_machine.specs.Effect.{rewritten, zero_blocks};
ghost use Rattle.bd_outside.specs.Disk.{HasSameShape, HasWholeBlocks, IsInside, Reads};
ghost use Rattle.bd_outside.specs.Count.{Rises};
ghost use Rattle.bd_disks.specs.Serving.{IsInsideDisk, IsNoPiece, IsServed, IsWriting, IsZeroing};

use crate::image::{written, zeros};
use bd_base::{ApplyEnd, Bytes, Op, OutOfMemory};
use bd_home::Given;
use bd_machine::{OpenPiece, ReadBytes};
use bd_outside::{Disk, Failed};
use std::alloc::Global;

// A piece that was done.
fn done(read: ReadBytes) -> Given
    ensures end { result.end ≡ ends.Done }
    ensures read { result.read ≡ read }
{
    Given {
        end: ApplyEnd::Done,
        read,
    }
}

// A piece at which the disk failed.
fn fault() -> Given
    ensures end { result.end ≡ ends.Fault }
    ensures read { result.read ≡ None }
{
    Given {
        end: ApplyEnd::Fault,
        read: ReadBytes::none(),
    }
}

// What a piece reads that isn't a read: no bytes, which is told of every disk.
fn no_bytes(alloc: Global) -> ReadBytes
    ensures { result ≡ Some [] }
{
    ReadBytes::told(Bytes::new(alloc))
}

// Bytes of a disk: told where the disk tells them.
fn bytes_of(told: bool, bytes: Bytes) -> ReadBytes
    ensures { result ≡ cond told (Some bytes) None }
{
    if told {
        ReadBytes::told(bytes)
    } else {
        ReadBytes::untold(bytes)
    }
}

// Fills a vector from whole blocks inside the disk.
fn fill<D: Disk>(disk: &mut D, lba: u64, to: &mut Vec<u8>) -> Result<(), Failed>
    requires inside { IsInside lba (length to.old.items) (D.state disk.old).block_size (D.state disk.old).blocks }
    ensures given { OnOk result (Reads (D.state disk.old).content (lba * (D.state disk.old).block_size) to.new.items) }
    ensures len { length to.new.items ≡ length to.old.items }
    ensures same_content { (D.state disk.new).content ≡ (D.state disk.old).content }
    ensures fault_count { (D.state disk.old).faults ≤ (D.state disk.new).faults }
    ensures failed { OnErr result (Rises (D.state disk.old).faults (D.state disk.new).faults) }
    ensures flush_count { (D.state disk.new).flushes ≡ (D.state disk.old).flushes }
    ensures same_shape { HasSameShape (D.state disk.old) (D.state disk.new) }
{
    disk.read(lba, to.as_mut_slice())
}

// Reads the blocks of a piece, of a disk that tells its bytes or doesn't.
fn read<D: Disk>(
    alloc: Global,
    disk: &mut D,
    size: u32,
    piece: &OpenPiece,
    told: bool,
) -> Result<Given, OutOfMemory>
    requires inside { IsInsideDisk (D.state disk.old) size piece.now }
    requires read { piece.now.op ≡ ops.Read }
    requires told { told ≡ is_some (D.state disk.old).content }
    ensures served { IfOk result (λ s. IsServed size piece.now (D.state disk.old) (D.state disk.new) s.end s.read) }
    ensures same_shape { HasSameShape (D.state disk.old) (D.state disk.new) }
    ensures fault_count { (D.state disk.old).faults ≤ (D.state disk.new).faults }
    ensures out_of_memory { OnErr result (disk.new ≡ disk.old) }
{
    let mut bytes = zeros(alloc, piece.count, size)?;
    match fill(disk, piece.lba, &mut bytes) {
        Ok(()) => Ok(done(bytes_of(told, Bytes::from_vec(bytes)))),
        Err(Failed) => Ok(fault()),
    }
}

// Writes the bytes of a piece to its blocks.
fn write<D: Disk>(alloc: Global, disk: &mut D, size: u32, piece: &OpenPiece, from: &[u8]) -> Given
    requires inside { IsInsideDisk (D.state disk.old) size piece.now }
    requires writing { IsWriting piece.now.op }
    requires bytes { from.now ≡ concat (rewritten piece.now.op piece.now.first (zero_blocks size piece.now.count)) }
    ensures served { IsServed size piece.now (D.state disk.old) (D.state disk.new) result.end result.read }
    ensures same_shape { HasSameShape (D.state disk.old) (D.state disk.new) }
    ensures fault_count { (D.state disk.old).faults ≤ (D.state disk.new).faults }
{
    match disk.write(piece.lba, from) {
        Ok(()) => done(no_bytes(alloc)),
        Err(Failed) => fault(),
    }
}

// Puts zeros into the blocks of a piece.
fn clear<D: Disk>(
    alloc: Global,
    disk: &mut D,
    size: u32,
    piece: &OpenPiece,
) -> Result<Given, OutOfMemory>
    requires inside { IsInsideDisk (D.state disk.old) size piece.now }
    requires zeroing { IsZeroing piece.now.op }
    ensures served { IfOk result (λ s. IsServed size piece.now (D.state disk.old) (D.state disk.new) s.end s.read) }
    ensures same_shape { HasSameShape (D.state disk.old) (D.state disk.new) }
    ensures fault_count { (D.state disk.old).faults ≤ (D.state disk.new).faults }
    ensures out_of_memory { OnErr result (disk.new ≡ disk.old) }
{
    let bytes = zeros(alloc, piece.count, size)?;
    Ok(write(alloc, disk, size, piece, bytes.as_slice()))
}

// Ends what is never a piece, without a call of the disk.
fn pass<D: Disk>(alloc: Global, _disk: &D, _size: u32, _piece: &OpenPiece) -> Given
    requires inside { IsInsideDisk (D.state _disk.now) _size _piece.now }
    requires no_piece { IsNoPiece _piece.now.op }
    ensures { IsServed _size _piece.now (D.state _disk.now) (D.state _disk.now) result.end result.read }
{
    done(no_bytes(alloc))
}

// Flushes the disk.
fn flush<D: Disk>(alloc: Global, disk: &mut D, size: u32, piece: &OpenPiece) -> Given
    requires inside { IsInsideDisk (D.state disk.old) size piece.now }
    requires flush { piece.now.op ≡ ops.Flush }
    ensures served { IsServed size piece.now (D.state disk.old) (D.state disk.new) result.end result.read }
    ensures same_shape { HasSameShape (D.state disk.old) (D.state disk.new) }
    ensures fault_count { (D.state disk.old).faults ≤ (D.state disk.new).faults }
{
    match disk.flush() {
        Ok(()) => done(no_bytes(alloc)),
        Err(Failed) => fault(),
    }
}

// Whether this many blocks from block `lba` on are among the first `blocks`.
fn is_within(lba: u64, count: u64, blocks: u64) -> bool
    ensures { IsTrue result ↔ (lba + count ≤ blocks) }
{
    match lba.checked_add(count) {
        Some(end) => end <= blocks,
        None => false,
    }
}

// Whether the numbers of a piece's blocks and its length in bytes have 64 bits.
fn has_numbers(size: u32, piece: &OpenPiece) -> bool
    ensures { IsTrue result ↔ ((piece.now.first + piece.now.count < 2 ^ 64) × (piece.now.count * size < 2 ^ 64)) }
{
    piece.first.checked_add(piece.count).is_some() && piece.count.checked_mul(size as u64).is_some()
}

/// Whether `serve` may be asked to do what the piece asks: the disk has blocks of `size` bytes, at
/// least 1, and holds the piece's blocks, and the numbers of its blocks in the request's device and
/// its length in bytes have 64 bits.
pub fn can_serve<D: Disk>(disk: &D, size: u32, piece: &OpenPiece) -> bool
    ensures { IsTrue result ↔ IsInsideDisk (D.state disk.now) size piece.now }
{
    size == disk.block_size()
        && size >= 1
        && is_within(piece.lba, piece.count, disk.blocks())
        && has_numbers(size, piece)
}

/// Does to a disk what a piece asks, by one call of the disk. A read gives the bytes of its blocks;
/// a write puts the pattern of its seed, counted from the piece's first block in the numbers of the
/// request's device; zeroes put zeros, and so would an unmap, which no aio device supports; a flush
/// flushes. A reset or an abort, which is never a piece, ends as Done without a call.
///
/// What a read gives is told where the disk tells its bytes, and else not. The end is Fault only where
/// the disk failed in this call: then what it tells of its content is as it was, and nothing was read.
/// Out of memory leaves the disk as it was.
pub fn serve<D: Disk>(
    alloc: Global,
    disk: &mut D,
    size: u32,
    piece: &OpenPiece,
) -> Result<Given, OutOfMemory>
    requires { IsInsideDisk (D.state disk.old) size piece.now }
    ensures served { IfOk result (λ s. IsServed size piece.now (D.state disk.old) (D.state disk.new) s.end s.read) }
    ensures whole { HasWholeBlocks (D.state disk.old) }
    ensures same_shape { HasSameShape (D.state disk.old) (D.state disk.new) }
    ensures fault_count { (D.state disk.old).faults ≤ (D.state disk.new).faults }
    ensures out_of_memory { OnErr result (disk.new ≡ disk.old) }
{
    let told = disk.tells();
    match piece.op {
        Op::Read => read(alloc, disk, size, piece, told),
        Op::Write(fill) => {
            let bytes = written(alloc, fill, piece.first, piece.count, size)?;
            Ok(write(alloc, disk, size, piece, bytes.as_slice()))
        }
        Op::Zeroes | Op::Unmap => clear(alloc, disk, size, piece),
        Op::Flush => Ok(flush(alloc, disk, size, piece)),
        Op::Reset(_) | Op::Abort(_) => Ok(pass(alloc, disk, size, piece)),
    }
}
