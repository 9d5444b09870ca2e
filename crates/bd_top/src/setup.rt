//! What a run begins from.
ghost use Rattle.std.specs.Prelude.{◌≡◌, IfOk};
ghost use Rattle.bd_machine.specs.BlockMap.{StandsOnEarlier};
ghost use Rattle.bd_top.specs.Setup.{setup_of};

use bd_base::{OutOfMemory, Rows, Script, Setup};
use bd_building::Building;
use bd_disk_pool::OpenDisks;
use std::alloc::Global;

/// A setup, and the disks of its devices.
pub(crate) struct Ready<D> {
    pub setup: Setup,
    pub disks: OpenDisks<D>,
}

/// This number of threads with these scripts, over the devices of a configuration.
pub(crate) fn setup_of(
    alloc: Global,
    threads: u32,
    devices: Building,
    scripts: Rows<Script>,
) -> Result<Setup, OutOfMemory>
    ensures setup { IfOk result (λ setup. setup ≡ setup_of threads devices scripts) }
    ensures earlier { IfOk result StandsOnEarlier }
{
    let mut setup = devices.finish(alloc, scripts)?;
    setup.threads = threads;
    Ok(setup)
}
