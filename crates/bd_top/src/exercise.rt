//! The built-in configuration, and the setup of an exercise.
ghost use Rattle.std.specs.Prelude.{◌≡◌, ◌<◌, ◌≤◌, [], length, Some, IfOk, All};
ghost use Rattle.bd_building.specs.AioDevices.{AreBasesAlone};
ghost use Rattle.bd_config.specs.Commands.{IsOpenable};
ghost use Rattle.bd_config.specs.Config.{IsConfig};
ghost use Rattle.bd_jobs.specs.Generated.{generated};
ghost use Rattle.bd_jobs.specs.ScriptGrammar.{scripts_of};
ghost use Rattle.bd_machine.specs.BlockMap.{StandsOnEarlier};
ghost use Rattle.bd_top.specs.Configure.{Configures};
ghost use Rattle.bd_top.specs.Exercise.{built_in, IsExercise};

use crate::configure::{ConfigureError, commands_of};
use crate::devices::{Opened, open_devices};
use crate::fault::Fault;
use crate::setup::{Ready, setup_of};
use bd_base::{OutOfMemory, Rows, Script};
use bd_config::Command;
use bd_disk_pool::close_all;
use bd_jobs::generated_scripts;
use bd_outside::Host;
use std::alloc::Global;

/// A malloc device `M` of 1,024 blocks of 512 bytes, and a passthru device `P` over it.
const BUILT_IN: &str =
    "{\"subsystems\":[{\"subsystem\":\"bdev\",\"config\":[{\"method\":\"bdev_malloc_create\",\"params\":{\"name\":\"M\",\"num_blocks\":1024,\"block_size\":512}},{\"method\":\"bdev_passthru_create\",\"params\":{\"base_bdev_name\":\"M\",\"name\":\"P\"}}]}]}";

// The commands of the built-in configuration.
#[tactic(auto, using(crate::proofs::BuiltIn::is_text, crate::proofs::BuiltIn::has_shape, crate::proofs::BuiltIn::has_commands))]
fn commands(alloc: Global) -> Result<Vec<Command>, OutOfMemory>
    ensures config { IfOk result (λ commands. IsConfig built_in commands.items) }
    ensures openable { IfOk result (λ commands. All IsOpenable commands.items) }
{
    match commands_of(alloc, BUILT_IN.as_bytes()) {
        Ok(commands) => Ok(commands),
        Err(ConfigureError::OutOfMemory) => Err(OutOfMemory),
        Err(ConfigureError::Text) => unreachable!(),
        Err(ConfigureError::Shape(_)) => unreachable!(),
        Err(ConfigureError::Method { .. }) => unreachable!(),
    }
}

// The devices of the built-in configuration, for this number of threads. It opens no file of the host.
#[tactic(auto, using(crate::proofs::BuiltIn::is_done, crate::proofs::BuiltIn::makes))]
fn devices<H: Host>(
    alloc: Global,
    host: &mut H,
    threads: u32,
) -> Result<Opened<H::Disk>, OutOfMemory>
    requires { 0 < threads }
    ensures devices { IfOk result (λ o. Configures threads built_in [] o.devices) }
    ensures threads { IfOk result (λ o. length o.disks.threads ≡ threads) }
    ensures alone { IfOk result (λ o. AreBasesAlone o.devices.setup) }
{
    let commands = commands(alloc)?;
    match open_devices(alloc, host, threads, commands) {
        Ok(opened) => Ok(opened),
        Err(Fault::OutOfMemory) => Err(OutOfMemory),
        Err(_) => unreachable!(),
    }
}

// The scripts of the generated text.
fn scripts(alloc: Global, numbers: u32, threads: u32) -> Result<Rows<Script>, OutOfMemory>
    requires numbers { numbers ≤ 500 }
    requires threads { threads ≤ 16 }
    ensures { IfOk result (λ scripts. scripts_of threads (generated numbers threads) ≡ Some scripts) }
{
    generated_scripts(alloc, numbers, threads)
}

/// The setup of the built-in configuration with the generated script of 1 to 500 numbers for each thread.
pub(crate) fn exercise_setup<H: Host>(
    alloc: Global,
    host: &mut H,
    numbers: u32,
    threads: u32,
) -> Result<Ready<H::Disk>, OutOfMemory>
    requires numbers { numbers ≤ 500 }
    requires some { 0 < threads }
    requires threads { threads ≤ 16 }
    ensures setup { IfOk result (λ r. IsExercise numbers threads r.setup) }
    ensures threads { IfOk result (λ r. r.setup.threads ≡ threads) }
    ensures disks { IfOk result (λ r. length r.disks.threads ≡ threads) }
    ensures alone { IfOk result (λ r. AreBasesAlone r.setup) }
    ensures earlier { IfOk result (λ r. StandsOnEarlier r.setup) }
{
    let scripts = scripts(alloc, numbers, threads)?;
    let Opened { devices, disks } = devices(alloc, host, threads)?;
    match setup_of(alloc, threads, devices, scripts) {
        Ok(setup) => Ok(Ready { setup, disks }),
        Err(OutOfMemory) => {
            close_all(host, disks);
            Err(OutOfMemory)
        }
    }
}
