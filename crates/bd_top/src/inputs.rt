//! The two files of a run, the disks that the configuration opens, and what they mean.
ghost use Rattle.std.specs.Prelude.{◌≡◌, ◌<◌, ℕ, List, length, IfOk, IfErr, OnErr, All};
ghost use Rattle.bd_config.specs.Commands.{IsOpenable};
ghost use Rattle.bd_outside.specs.Host.{IsLater};
ghost use Rattle.bd_building.specs.AioDevices.{aio_devices, AreBasesAlone};
ghost use Rattle.bd_machine.specs.BlockMap.{StandsOnEarlier};
ghost use Rattle.bd_disk_pool.specs.Covering.{AreClosed};
ghost use Rattle.bd_top.specs.DiskRows.{AreSetOut, StandOpen};
ghost use Rattle.bd_top.specs.Fault.{IsScriptFault, config_fault};
ghost use Rattle.bd_top.specs.Run.{AreCommands, IsDevices, IsScript, IsMeant, ScriptCause, FileCause};

use crate::configure::{ConfigureError, commands_of};
use crate::devices::{Opened, open_devices};
use crate::fault::Fault;
use crate::files::{ReadError, fault_of, read_file};
use crate::setup::{Ready, setup_of};
use bd_base::{OutOfMemory, Rows, Script};
use bd_config::Command;
use bd_disk_pool::close_all;
use bd_jobs::{JobError, read_jobs};
use bd_outside::Host;
use std::alloc::Global;

// The fault of a configuration whose bytes ask for no commands.
fn config_fault(error: ConfigureError) -> Fault
    ensures { result ≡ config_fault error }
{
    match error {
        ConfigureError::OutOfMemory => Fault::OutOfMemory,
        ConfigureError::Text => Fault::ConfigText,
        ConfigureError::Shape(place) => Fault::ConfigShape(place),
        ConfigureError::Method { index, code } => Fault::Method { index, code },
    }
}

// Reads the commands of a configuration.
#[tactic(auto, using(crate::proofs::FileCauses::of_bytes, crate::proofs::FileCauses::of_config))]
fn read_commands<H: Host>(alloc: Global, host: &mut H, name: &str) -> Result<Vec<Command>, Fault>
    ensures commands { IfOk result (λ commands. AreCommands ((H.state host.old).told name.now) commands.items) }
    ensures openable { IfOk result (λ commands. All IsOpenable commands.items) }
    ensures cause { (jobs : List ℕ) (threads : ℕ) → IfErr result (FileCause (H.state host.old) (H.state host.new) name.now jobs threads) }
    ensures later { IsLater (H.state host.old) (H.state host.new) }
    ensures openings { (H.state host.new).openings ≡ (H.state host.old).openings }
{
    let bytes = match read_file(alloc, host, name) {
        Ok(bytes) => bytes,
        Err(error) => return Err(fault_of(alloc, name, error)),
    };
    match commands_of(alloc, bytes.as_slice()) {
        Ok(commands) => Ok(commands),
        Err(error) => Err(config_fault(error)),
    }
}

// The devices that a configuration makes for this number of threads, with the disks that it opens.
#[tactic(auto, using(crate::proofs::FileCauses::of_doing, crate::proofs::FileCauses::devices_of, crate::proofs::FileLemmas::later_then))]
fn read_devices<H: Host>(
    alloc: Global,
    host: &mut H,
    name: &str,
    threads: u32,
) -> Result<Opened<H::Disk>, Fault>
    requires { 0 < threads }
    ensures devices { IfOk result (λ o. IsDevices threads (H.state host.old).told ((H.state host.old).told name.now) o.devices) }
    ensures threads { IfOk result (λ o. length o.disks.threads ≡ threads) }
    ensures cause { (jobs : List ℕ) → IfErr result (FileCause (H.state host.old) (H.state host.new) name.now jobs threads) }
    ensures later { IsLater (H.state host.old) (H.state host.new) }
    ensures opened { IfOk result (λ o. StandOpen H.Disk.state (H.state host.old).told (H.state host.old).openings o.devices o.disks (H.state host.new)) }
    ensures closed { OnErr result (AreClosed (H.state host.old).openings (H.state host.new).openings) }
{
    let commands = read_commands(alloc, host, name)?;
    open_devices(alloc, host, threads, commands)
}

/// Why a file gives no scripts.
#[derive(Clone, Copy, PartialEq, Eq)]
pub(crate) enum ScriptError {
    /// It wasn't read.
    File(ReadError),
    /// The line of this number is the first outside the grammar.
    Text(u32),
    OutOfMemory,
}

// The scripts of this number of threads.
fn scripts<H: Host>(
    alloc: Global,
    host: &mut H,
    name: &str,
    threads: u32,
) -> Result<Rows<Script>, ScriptError>
    ensures script { IfOk result (IsScript threads ((H.state host.old).told name.now)) }
    ensures cause { IfErr result (ScriptCause (H.state host.old) (H.state host.new) name.now threads) }
    ensures later { IsLater (H.state host.old) (H.state host.new) }
    ensures openings { (H.state host.new).openings ≡ (H.state host.old).openings }
{
    let bytes = match read_file(alloc, host, name) {
        Ok(bytes) => bytes,
        Err(error) => return Err(ScriptError::File(error)),
    };
    match read_jobs(alloc, bytes.as_slice(), threads) {
        Ok(scripts) => Ok(scripts),
        Err(JobError::Line(line)) => Err(ScriptError::Text(line)),
        Err(JobError::OutOfMemory) => Err(ScriptError::OutOfMemory),
    }
}

// The fault of a script's file that gives no scripts.
fn script_fault(alloc: Global, name: &str, error: ScriptError) -> Fault
    ensures { IsScriptFault name.now error result }
{
    match error {
        ScriptError::File(error) => fault_of(alloc, name, error),
        ScriptError::Text(line) => Fault::JobText(line),
        ScriptError::OutOfMemory => Fault::OutOfMemory,
    }
}

/// Reads the two files, the configuration first, whose disks are opened; the script is one of this
/// number of threads. They mean the setup that a run of them begins from. Any fault closes all disks.
#[tactic(auto, using(crate::proofs::FileCauses::of_script))]
pub(crate) fn read_setup<H: Host>(
    alloc: Global,
    host: &mut H,
    config: &str,
    jobs: &str,
    threads: u32,
) -> Result<Ready<H::Disk>, Fault>
    requires { 0 < threads }
    ensures setup { IfOk result (λ r. IsMeant threads (H.state host.old).told ((H.state host.old).told config.now)
        ((H.state host.old).told jobs.now) r.setup) }
    ensures threads { IfOk result (λ r. r.setup.threads ≡ threads) }
    ensures disks { IfOk result (λ r. length r.disks.threads ≡ threads) }
    ensures cause { IfErr result (FileCause (H.state host.old) (H.state host.new) config.now jobs.now threads) }
    ensures opened { IfOk result (λ r. AreSetOut H.Disk.state (H.state host.old).told (length r.setup.devices) (aio_devices r.setup) r.disks
        (H.state host.old).openings (H.state host.new).openings) }
    ensures alone { IfOk result (λ r. AreBasesAlone r.setup) }
    ensures earlier { IfOk result (λ r. StandsOnEarlier r.setup) }
    ensures closed { OnErr result (AreClosed (H.state host.old).openings (H.state host.new).openings) }
{
    let Opened { devices, disks } = read_devices(alloc, host, config, threads)?;
    let scripts = match scripts(alloc, host, jobs, threads) {
        Ok(scripts) => scripts,
        Err(error) => {
            close_all(host, disks);
            return Err(script_fault(alloc, jobs, error));
        }
    };
    match setup_of(alloc, threads, devices, scripts) {
        Ok(setup) => Ok(Ready { setup, disks }),
        Err(OutOfMemory) => {
            close_all(host, disks);
            Err(Fault::OutOfMemory)
        }
    }
}
