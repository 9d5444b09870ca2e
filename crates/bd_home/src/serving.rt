//! Which piece waits first at a base device, and its serving, also by a disk; which waits last, and its leaving.
ghost use Rattle.std.specs.Prelude.{◌≡◌, IfOk, OnOk, OnErr, Some, find, true};
ghost use Rattle.std.specs.Option.{option_map};
ghost use Rattle.bd_base.specs.declared.act.ApplyEnd.TheVariants as ends;
ghost use Rattle.bd_machine.specs.Homes.{applied, is_base, served, without_last};
ghost use Rattle.bd_machine.specs.Table.{change_first};
ghost use Rattle.bd_home.specs.Fitting.{fits, is_inside};
ghost use Rattle.bd_home.specs.Serving.{can_serve, first_at, first_of, last_at, last_of, served_as};

use bd_base::{ApplyEnd, DevId, OutOfMemory, ReqId, Rows};
use bd_blocks::{base_place, find_base};
use bd_machine::{Base, Content, OpenPiece, ReadBytes};
use bd_pages::Blocks;
use std::alloc::Global;
use std::mem::replace;

// The first piece of a queue.
fn first(queue: &[(ReqId, u32)]) -> Option<(ReqId, u32)>
    ensures { result ≡ first_of queue.now }
{
    match queue {
        [] => None,
        [q, ..] => Some(*q),
    }
}

/// The piece that waits first at the device, by its request and its number there. None where no
/// piece waits, or the device isn't among the bases.
pub fn first_waiting(bases: &[Base], dev: DevId) -> Option<(ReqId, u32)>
    ensures { result ≡ first_at (find (is_base dev) bases.now) }
{
    let base = find_base(bases, dev)?;
    first(base.queue.as_slice())
}

// The last piece of a queue.
fn last(queue: &[(ReqId, u32)]) -> Option<(ReqId, u32)>
    ensures { result ≡ last_of queue.now }
{
    let n = queue.len();
    if n == 0 { None } else { Some(queue[n - 1]) }
}

/// The piece that came last to the device, of those that wait there, by its request and its number there.
/// None where no piece waits, or the device isn't among the bases.
pub fn last_waiting(bases: &[Base], dev: DevId) -> Option<(ReqId, u32)>
    ensures { result ≡ last_at (find (is_base dev) bases.now) }
{
    let base = find_base(bases, dev)?;
    last(base.queue.as_slice())
}

// A base's queue loses its last piece.
fn drop_last_of(alloc: Global, base: &mut Base)
    ensures { base.new ≡ without_last base.old }
{
    let mut queue = replace(&mut base.queue, Rows::new(alloc)).into_vec();
    let _ = queue.pop();
    base.queue = Rows::from_vec(queue);
}

/// The queue of a device among the bases loses its last piece; where the device isn't among them nothing
/// changes. It takes no memory.
pub fn drop_last(alloc: Global, bases: &mut Rows<Base>, dev: DevId)
    ensures { bases.new ≡ change_first (is_base dev) without_last bases.old }
{
    if let Some(place) = base_place(bases.as_slice(), dev) {
        drop_last_of(alloc, bases.at_mut(place));
    }
}

// One more than the greatest number of 64 bits.
const PAST: u128 = 18_446_744_073_709_551_616;

// Whether the blocks of a piece are among these, and their numbers are numbers of 64 bits.
fn is_inside(blocks: &Blocks, p: &OpenPiece) -> bool
    ensures { result ≡ is_inside p.now blocks.now }
{
    blocks.has(p.lba, p.count) && p.first.checked_add(p.count).is_some()
}

// Whether the piece can be served from the content.
fn fits(content: &Content, size: u32, p: &OpenPiece) -> bool
    ensures { result ≡ fits size content.now p.now }
{
    match content {
        Content::Blocks(blocks) => is_inside(blocks, p),
        Content::Zeros => (p.count as u128 * size as u128) < PAST,
        Content::Untold => false,
    }
}

/// Whether the device, with blocks of `size` bytes, can serve the piece: it is among the bases, the
/// piece is on it, and its content is told and has the piece's blocks. Blocks whose numbers pass 64
/// bits it can't serve, nor, of zeros, a piece of 2^64 bytes or more.
pub fn can_serve(bases: &[Base], size: u32, dev: DevId, p: &OpenPiece) -> bool
    ensures { result ≡ can_serve size dev (find (is_base dev) bases.now) p.now }
{
    match find_base(bases, dev) {
        Some(base) => fits(&base.content, size, p) && p.base.0 == dev.0,
        None => false,
    }
}

/// Serves the piece that waits first at the device, and gives the piece as it is then: its content
/// is changed in place, the piece is out of the queue, and its end is Done with the bytes that it
/// read. Out of memory, all bases are as they were.
pub fn serve(
    alloc: Global,
    bases: &mut Rows<Base>,
    size: u32,
    dev: DevId,
    p: &OpenPiece,
) -> Result<OpenPiece, OutOfMemory>
    requires { can_serve size dev (find (is_base dev) bases.old) p.now ≡ true }
    ensures bases { OnOk result (bases.new ≡ change_first (is_base dev) (applied ends.Done p.now) bases.old) }
    ensures piece { IfOk result (λ q. option_map (served ends.Done size p.now) (find (is_base dev) bases.old) ≡ Some q) }
    ensures err { OnErr result (bases.new ≡ bases.old) }
{
    let Some(piece) = bd_blocks::serve(alloc, bases, size, dev, ApplyEnd::Done, p)? else {
        unreachable!()
    };
    Ok(piece)
}

/// What the disk of an aio device did with a piece: how that ended, and what the piece read of the disk.
#[derive(Drop)]
pub struct Given {
    pub end: ApplyEnd,
    pub read: ReadBytes,
}

// The piece, which has read this.
fn with_read(piece: OpenPiece, read: ReadBytes) -> OpenPiece
    ensures { result ≡ record piece { read = read } }
{
    OpenPiece {
        base: piece.base,
        lba: piece.lba,
        count: piece.count,
        first: piece.first,
        op: piece.op,
        progress: piece.progress,
        end: piece.end,
        read,
    }
}

/// The piece that waits first at the device was served by the device's disk, which gave this: the piece is
/// out of the queue, and is given as it is then, with what the disk gave for what it read. Out of memory,
/// all bases are as they were. None, and nothing changes, where the device isn't among the bases.
pub fn serve_as_given(
    alloc: Global,
    bases: &mut Rows<Base>,
    size: u32,
    dev: DevId,
    p: &OpenPiece,
    given: Given,
) -> Result<Option<OpenPiece>, OutOfMemory>
    ensures bases { OnOk result (bases.new ≡ change_first (is_base dev) (applied given.end p.now) bases.old) }
    ensures piece { IfOk result (λ q. q ≡ option_map (λ b. served_as given.end given.read p.now) (find (is_base dev) bases.old)) }
    ensures err { OnErr result (bases.new ≡ bases.old) }
{
    let Given { end, read } = given;
    match bd_blocks::serve(alloc, bases, size, dev, end, p)? {
        Some(piece) => Ok(Some(with_read(piece, read))),
        None => Ok(None),
    }
}
