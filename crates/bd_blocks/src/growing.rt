//! A base device's content grows.
ghost use Rattle.std.specs.Prelude.{◌≡◌, OnOk, OnErr};
ghost use Rattle.bd_machine.specs.Homes.{base_grown, content_grown, is_base};
ghost use Rattle.bd_machine.specs.Table.{change_first};

use crate::bases::base_place;
use bd_base::{DevId, OutOfMemory, Rows};
use bd_machine::{Base, Content};
use std::alloc::Global;

// The blocks of a content stay, and zeros come after them up to this number of blocks.
fn grow_content(alloc: Global, content: &mut Content, blocks: u64) -> Result<(), OutOfMemory>
    ensures ok { OnOk result (content.new ≡ content_grown blocks content.old) }
    ensures err { OnErr result (content.new ≡ content.old) }
{
    match content {
        Content::Blocks(old) => old.grow(alloc, blocks),
        Content::Zeros | Content::Untold => Ok(()),
    }
}

fn grow_base(alloc: Global, base: &mut Base, blocks: u64) -> Result<(), OutOfMemory>
    ensures ok { OnOk result (base.new ≡ base_grown blocks base.old) }
    ensures err { OnErr result (base.new ≡ base.old) }
{
    grow_content(alloc, &mut base.content, blocks)
}

/// The content of the base of the device grows to this number of blocks: its blocks stay, and zeros come after them.
/// Nothing changes where the device isn't among the bases, and where it has as many blocks or more. Out of memory, all
/// bases are as they were.
pub fn grow(
    alloc: Global,
    bases: &mut Rows<Base>,
    dev: DevId,
    blocks: u64,
) -> Result<(), OutOfMemory>
    ensures ok { OnOk result (bases.new ≡ change_first (is_base dev) (base_grown blocks) bases.old) }
    ensures err { OnErr result (bases.new ≡ bases.old) }
{
    match base_place(bases.as_slice(), dev) {
        Some(place) => grow_base(alloc, bases.at_mut(place), blocks),
        None => Ok(()),
    }
}
