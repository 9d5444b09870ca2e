//! The device that a command's devices stand on.
ghost use Rattle.std.specs.Prelude.{◌≡◌, option_copied, IfOk};
ghost use Rattle.bd_building.specs.Rows.{base_at, base_name_of, base_named};

use bd_base::{DevId, Name, OutOfMemory, Setup};
use bd_config::Command;
use bd_stack::{blocks_of, number_named, size_of};

/// A device as a base: its number, its blocks and the bytes of each.
#[derive(Clone, Copy, PartialEq, Eq)]
pub(crate) struct Base {
    pub(crate) dev: DevId,
    pub(crate) blocks: u64,
    pub(crate) size: u32,
}

/// The name of the device that a command's devices stand on; none where they stand on none.
pub(crate) fn base_name_of(command: &Command) -> Option<&Name>
    ensures { option_copied result ≡ base_name_of command.now }
{
    match command {
        Command::Passthru { base, .. } => Some(base),
        Command::Split { base, .. } => Some(base),
        Command::Delay { base, .. } => Some(base),
        Command::Error { base } => Some(base),
        _ => None,
    }
}

fn base_at(setup: &Setup, number: u32) -> Base
    ensures { result ≡ base_at setup.now number }
{
    let dev = DevId(number);
    Base {
        dev,
        blocks: blocks_of(setup, dev),
        size: size_of(setup, dev),
    }
}

/// The device of a name, as a base; none where there is no such device.
pub(crate) fn base_named(setup: &Setup, name: &Name) -> Result<Option<Base>, OutOfMemory>
    ensures { IfOk result (λ base. base ≡ base_named setup.now name.now) }
{
    match number_named(setup, name)? {
        Some(number) => Ok(Some(base_at(setup, number))),
        None => Ok(None),
    }
}
