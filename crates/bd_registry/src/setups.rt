//! The registry's own copy of a setup.
ghost use Rattle.std.specs.Prelude.{◌≡◌, IfOk};
ghost use Rattle.bd_registry.specs.State.{rows_of};

use bd_base::{OutOfMemory, Rows, Setup};
use bd_clones::duplicate_rows;
use std::alloc::Global;

/// The rows of a setup, without its scripts and what waits.
pub(crate) fn rows_of(alloc: Global, setup: &Setup) -> Result<Setup, OutOfMemory>
    ensures { IfOk result (λ s. s ≡ rows_of setup.now) }
{
    Ok(Setup {
        threads: setup.threads,
        devices: duplicate_rows(alloc, &setup.devices)?,
        rates: setup.rates.copy()?,
        injections: setup.injections.copy()?,
        waiting: Rows::new(alloc),
        scripts: Rows::new(alloc),
    })
}
