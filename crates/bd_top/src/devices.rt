//! The devices of a configuration's commands, and the disks that these open.
ghost use Rattle.std.specs.Prelude.{◌≡◌, ◌<◌, ℕ, List, length, Option, IfOk, IfErr, OnErr, All};
ghost use Rattle.bd_building.specs.Disks.{file_of};
ghost use Rattle.bd_config.specs.Commands.{IsOpenable};
ghost use Rattle.bd_disk_pool.specs.Covering.{AreClosed};
ghost use Rattle.bd_outside.specs.File.{Told};
ghost use Rattle.bd_outside.specs.Host.{IsLater};
ghost use Rattle.bd_outside.specs.declared.opening.Opening.{Opening};
ghost use Rattle.bd_top.specs.Configure.{IsRefused};
ghost use Rattle.bd_top.specs.DiskRows.{OpensFor, StandOpen, TellsSo};
ghost use Rattle.bd_top.specs.Disks.{IsNamed, MayGive, Opens};
ghost use Rattle.bd_top.specs.Opening.{AreDone, DoingCause, IsBuildFault, IsStep, IsStepRefused, NeverRefused};

use crate::configure::code_of;
use crate::fault::Fault;
use crate::files::{ReadError, fault_of};
use bd_base::DevId;
use bd_building::{BuildError, Building};
use bd_config::Command;
use bd_disk_pool::{OpenDisks, close_all};
use bd_outside::{Disk, Host, HostError};
use std::alloc::Global;
use std::str;

/// The devices that commands made, and the disks that they opened.
pub(crate) struct Opened<D> {
    pub devices: Building,
    pub disks: OpenDisks<D>,
}

// Opens the file that a command asks for as the disk of the device of this number, and says how many
// blocks it has; 0 where the command opens none. Any fault leaves no disk more open.
fn open_for<H: Host>(
    alloc: Global,
    host: &mut H,
    disks: &mut OpenDisks<H::Disk>,
    dev: usize,
    command: &Command,
) -> Result<u64, Fault>
    requires threads { 0 < length disks.old.threads }
    requires openable { IsOpenable command.now }
    ensures blocks { IfOk result (MayGive (H.state host.old).told (file_of command.now)) }
    ensures cause { IfErr result (DoingCause (H.state host.old) (H.state host.new) (IsNamed (file_of command.now)) NeverRefused) }
    ensures later { IsLater (H.state host.old) (H.state host.new) }
    ensures threads { length disks.new.threads ≡ length disks.old.threads }
    ensures opened { IfOk result (λ blocks. OpensFor H.Disk.state dev command.now blocks (H.state host.old) disks.old (H.state host.new) disks.new) }
    ensures unopened { OnErr result (disks.new ≡ disks.old) }
    ensures closed { OnErr result (AreClosed (H.state host.old).openings (H.state host.new).openings) }
{
    let Command::Aio { file, size, .. } = command else {
        return Ok(0);
    };
    let Ok(name) = str::from_utf8(file.as_slice()) else {
        unreachable!()
    };
    let Ok(dev) = u32::try_from(dev) else {
        return Err(Fault::OutOfMemory);
    };
    let Ok(kept) = String::from_str(alloc, name) else {
        return Err(Fault::OutOfMemory);
    };
    let disk = match host.open_disk(name, *size) {
        Ok(disk) => disk,
        Err(HostError::Absent) => return Err(fault_of(alloc, name, ReadError::Absent)),
        Err(HostError::Failed) => return Err(fault_of(alloc, name, ReadError::Failed)),
    };
    let blocks = disk.blocks();
    match disks.add(DevId(dev), kept, disk) {
        Ok(()) => Ok(blocks),
        Err(disk) => {
            host.close_disk(name, disk);
            Err(Fault::OutOfMemory)
        }
    }
}

// The fault of a command that is refused, or out of memory.
fn build_fault(error: BuildError) -> Fault
    ensures { IsBuildFault error result }
{
    match error {
        BuildError::OutOfMemory => Fault::OutOfMemory,
        BuildError::Refused { index, errno } => Fault::Method {
            index,
            code: code_of(errno),
        },
    }
}

// Opens the disk of a command, and does it. Any fault closes all disks.
fn do_command<H: Host>(
    alloc: Global,
    host: &mut H,
    opened: Opened<H::Disk>,
    index: u32,
    command: Command,
) -> Result<Opened<H::Disk>, Fault>
    requires threads { 0 < length opened.disks.threads }
    requires openable { IsOpenable command }
    ensures done { IfOk result (λ o. IsStep (H.state host.old).told opened.devices index command o.devices) }
    ensures cause { IfErr result (DoingCause (H.state host.old) (H.state host.new) (IsNamed (file_of command))
        (IsStepRefused (H.state host.old).told opened.devices index command)) }
    ensures later { IsLater (H.state host.old) (H.state host.new) }
    ensures threads { IfOk result (λ o. length o.disks.threads ≡ length opened.disks.threads) }
    ensures opened { (told : List ℕ → Told) (base : Option (List Opening))
        → StandOpen H.Disk.state told base opened.devices opened.disks (H.state host.old)
        → IfOk result (λ o. StandOpen H.Disk.state told base o.devices o.disks (H.state host.new)) }
    ensures closed { (told : List ℕ → Told) (base : Option (List Opening))
        → StandOpen H.Disk.state told base opened.devices opened.disks (H.state host.old)
        → OnErr result (AreClosed base (H.state host.new).openings) }
{
    let Opened { devices, disks } = opened;
    let mut disks = disks;
    let blocks = match open_for(alloc, host, &mut disks, devices.devices(), &command) {
        Ok(blocks) => blocks,
        Err(fault) => {
            close_all(host, disks);
            return Err(fault);
        }
    };
    match devices.step(alloc, index, command, blocks) {
        Ok(devices) => Ok(Opened { devices, disks }),
        Err(error) => {
            close_all(host, disks);
            Err(build_fault(error))
        }
    }
}

/// Does commands one after the other, the disk of each opened just before. Any fault closes all disks.
pub(crate) fn open_devices<H: Host>(
    alloc: Global,
    host: &mut H,
    threads: u32,
    commands: Vec<Command>,
) -> Result<Opened<H::Disk>, Fault>
    requires threads { 0 < threads }
    requires openable { All IsOpenable commands.items }
    ensures done { IfOk result (λ o. AreDone (H.state host.old).told threads commands.items o.devices) }
    ensures cause { IfErr result (DoingCause (H.state host.old) (H.state host.new) (Opens commands.items)
        (IsRefused threads (H.state host.old).told commands.items)) }
    ensures later { IsLater (H.state host.old) (H.state host.new) }
    ensures threads { IfOk result (λ o. length o.disks.threads ≡ threads) }
    ensures opened { (told : List ℕ → Told) → TellsSo (H.state host.old) told
        → IfOk result (λ o. StandOpen H.Disk.state told (H.state host.old).openings o.devices o.disks (H.state host.new)) }
    ensures closed { OnErr result (AreClosed (H.state host.old).openings (H.state host.new).openings) }
{
    let mut opened = Opened {
        devices: Building::new(alloc, threads),
        disks: OpenDisks::none(alloc, threads)?,
    };
    let mut index = 0u32;
    for command in commands {
        opened = do_command(alloc, host, opened, index, command)?;
        let Some(next) = index.checked_add(1) else {
            let Opened { devices: _, disks } = opened;
            close_all(host, disks);
            return Err(Fault::OutOfMemory);
        };
        index = next;
    }
    Ok(opened)
}
