//! A device was destructed, or its content grew.
ghost use Rattle.std.specs.Prelude.{◌≡◌, ◌++◌, ◌∷◌, [], cond, OnOk};
ghost use Rattle.std.specs.List.{list_any};
ghost use Rattle.bd_machine.specs.Homes.{change_destruct, change_grow};
ghost use Rattle.bd_machine.specs.Same.{same_owed};
ghost use Rattle.bd_rule_effects.specs.Lone.{lone};

use crate::events::{owe, pay};
use bd_base::{DevId, OutOfMemory, Setup};
use bd_blocks::{grow, is_aio};
use bd_machine::{Owed, Part};
use bd_rule_view::same_owed;
use std::alloc::Global;

fn is_owed(all: &[Owed], owed: Owed) -> bool
    ensures { result ≡ list_any (same_owed owed) all.now }
{
    all.iter().any(|o| same_owed(owed, *o))
}

/// The home let a device's content grow to this number of blocks, more than it had, and is to tell the registry. Out
/// of memory leaves the part unspecified.
pub fn grown(
    alloc: Global,
    part: &mut Part,
    setup: &Setup,
    dev: DevId,
    blocks: u64,
) -> Result<(), OutOfMemory>
    ensures { OnOk result (part.new ≡ (change_grow setup.now (lone part.old) dev blocks).part) }
{
    if !is_aio(setup, dev) {
        grow(alloc, &mut part.bases, dev, blocks)?;
    }
    pay(part, Owed::Grow(dev, blocks));
    owe(part, Owed::EndResize(dev))
}

/// The thread destructed a device, and is to tell the registry where it was told to. Out of memory
/// leaves the part unspecified.
pub fn destructed(part: &mut Part, dev: DevId) -> Result<(), OutOfMemory>
    ensures { OnOk result (part.new ≡ (change_destruct (lone part.old) dev).part) }
{
    let told = is_owed(part.owed.as_slice(), Owed::Destruct(dev));
    part.destructed.push(dev)?;
    pay(part, Owed::Destruct(dev));
    if told {
        owe(part, Owed::Report(dev))?;
    }
    Ok(())
}
