//! A base serves its first piece.
ghost use Rattle.std.specs.Prelude.{◌≡◌, IfOk, OnOk, OnErr, Some, find};
ghost use Rattle.std.specs.Option.{option_map};
ghost use Rattle.bd_machine.specs.Homes.{applied, is_base, served};
ghost use Rattle.bd_machine.specs.Table.{change_first};
ghost use Rattle.bd_machine.specs.declared.state.Progress.TheVariants.{Served};

use crate::bases::base_place;
use crate::store::{change_by, read_by};
use bd_base::{ApplyEnd, DevId, OutOfMemory, Rows};
use bd_machine::{Base, OpenPiece, Progress, ReadBytes};
use std::alloc::Global;

// The piece once it was served, with the bytes that it read.
fn ended(p: &OpenPiece, end: ApplyEnd, read: ReadBytes) -> OpenPiece
    ensures { result ≡ record p.now { progress = Served; end = Some end; read = read } }
{
    OpenPiece {
        base: p.base,
        lba: p.lba,
        count: p.count,
        first: p.first,
        op: p.op,
        progress: Progress::Served,
        end: Some(end),
        read,
    }
}

// A base serves its first piece.
fn serve_first(
    alloc: Global,
    base: &mut Base,
    size: u32,
    end: ApplyEnd,
    p: &OpenPiece,
) -> Result<OpenPiece, OutOfMemory>
    ensures base { OnOk result (base.new ≡ applied end p.now base.old) }
    ensures piece { IfOk result (λ q. q ≡ served end size p.now base.old) }
    ensures err { OnErr result (base.new ≡ base.old) }
{
    let read = read_by(alloc, end, size, &base.content, p)?;
    change_by(alloc, end, &mut base.content, p)?;
    if base.queue.len() != 0 {
        let _ = base.queue.remove(0);
    }
    Ok(ended(p, end, read))
}

/// The base of the device, with blocks of `size` bytes, serves a piece that ends so: its content is
/// changed in place, and its queue loses its first. The piece as it is then; none, and nothing
/// changes, where the device isn't among the bases. Out of memory, all bases are as they were.
pub fn serve(
    alloc: Global,
    bases: &mut Rows<Base>,
    size: u32,
    dev: DevId,
    end: ApplyEnd,
    p: &OpenPiece,
) -> Result<Option<OpenPiece>, OutOfMemory>
    ensures bases { OnOk result (bases.new ≡ change_first (is_base dev) (applied end p.now) bases.old) }
    ensures piece { IfOk result (λ q. q ≡ option_map (served end size p.now) (find (is_base dev) bases.old)) }
    ensures err { OnErr result (bases.new ≡ bases.old) }
{
    let Some(place) = base_place(bases.as_slice(), dev) else {
        return Ok(None);
    };
    let piece = serve_first(alloc, bases.at_mut(place), size, end, p)?;
    Ok(Some(piece))
}
