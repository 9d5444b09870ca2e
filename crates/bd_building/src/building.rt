//! The commands of a configuration, done one after the other.
ghost use Rattle.std.specs.Prelude.{◌≡◌, ℕ, ◌+◌, ◌<◌, length, slice_get, IfOk, IfSome, OnOk, IsErrOf};
ghost use Rattle.bd_base.specs.declared.request.Errno.{Errno as Cause};
ghost use Rattle.bd_building.specs.Progress.{Progress, begun, finished, nothing_yet, ready, resumed, settled, stepped, with_setup};
ghost use Rattle.bd_building.specs.Made.{made};
ghost use Rattle.bd_devices.specs.Registered.{AreToldApart};
ghost use Rattle.bd_machine.specs.BlockMap.{StandsOnEarlier};

use crate::made::make;
use crate::waiter::{Waiter, all_waiting, must_wait};
use bd_base::{Errno, OutOfMemory, Rows, Script, Setup};
use bd_config::Command;
use bd_devices::{Devices, RegisterError};
use std::alloc::Global;
use std::error::Error;
use std::fmt;
use std::marker::Model;

/// Why commands weren't done.
#[derive(Clone, Copy, Debug, PartialEq, Eq)]
pub enum BuildError {
    /// There was no memory.
    OutOfMemory,
    /// The command of this index, from 0, is refused, with the first cause that holds: `Exists` where
    /// a device of its name stands; `NoDev` where a limit or an injection names no device; `Perm`
    /// where another device stands on its base; `Inval` where it is out of its bounds. The code is
    /// the errno's number below zero.
    Refused { index: u32, errno: Errno },
}

impl fmt::Display for BuildError {
    fn fmt<W: fmt::Write>(&self, f: &mut fmt::Formatter<W>) -> fmt::Result {
        match self {
            BuildError::OutOfMemory => write!(f, "out of memory"),
            BuildError::Refused { index, errno } => {
                write!(f, "command {index} refused with errno {}", errno.number())
            }
        }
    }
}

impl Error for BuildError {}

impl From<OutOfMemory> for BuildError {
    ghost use Rattle.std.specs.Prelude.{◌≡◌};
    ghost use Rattle.bd_building.specs.declared.building.BuildError.TheVariants as causes;

    ghost from_gives = { λ _ error. error ≡ causes.OutOfMemory };

    fn from(_e: OutOfMemory) -> BuildError {
        BuildError::OutOfMemory
    }
}

/// The devices that commands made so far, and the commands that wait for their base.
#[derive(Drop)]
pub struct Building {
    devices: Devices,
    waiting: Rows<Waiter>,
}

impl Model for Building {
    ghost use Rattle.bd_building.specs.Progress.{Progress};

    ghost Value = { Progress };

    ghost view = { λ b. record { setup = b.devices; waiting = b.waiting } };
}

impl Building {
    /// No devices yet, for this number of threads. It takes no memory.
    pub fn new(alloc: Global, threads: u32) -> Building
        ensures { result ≡ nothing_yet threads }
    {
        Building {
            devices: Devices::new(alloc, threads),
            waiting: Rows::new(alloc),
        }
    }

    /// How many devices stand: the number of the next one.
    pub fn devices(&self) -> usize
        ensures { result ≡ length self.now.setup.devices }
    {
        self.devices.as_setup().devices.len()
    }

    /// Does a command, whose place among the commands is this index, and then the commands that waited
    /// for what it made; a command whose base isn't there waits. A command that opens a file is given
    /// the blocks of its disk. A refusal ends the building; its index is that of the command refused,
    /// also where that one waited.
    pub fn step(
        self,
        alloc: Global,
        index: u32,
        command: Command,
        disk: u64,
    ) -> Result<Building, BuildError>
        ensures ok { IfOk result (λ b. stepped self index command disk ≡ Ok b) }
        ensures refused { (i : ℕ) (errno : Cause) → IsErrOf result (BuildError.Refused i errno) → stepped self index command disk ≡ Err (i, errno) }
        ensures threads { IfOk result (λ b. b.setup.threads ≡ self.setup.threads) }
    {
        let mut building = self;
        building.begin(alloc, index, command, disk)?;
        building.settle(alloc)?;
        Ok(building)
    }

    /// The setup of the devices with these scripts, and with the commands that still wait.
    pub fn finish(self, alloc: Global, scripts: Rows<Script>) -> Result<Setup, OutOfMemory>
        ensures setup { IfOk result (λ s. s ≡ finished self scripts) }
        ensures earlier { IfOk result StandsOnEarlier }
        ensures apart { IfOk result AreToldApart }
    {
        let Building { devices, waiting } = self;
        let rows = all_waiting(alloc, waiting.as_slice())?;
        let mut setup = devices.into_setup();
        setup.waiting = rows;
        setup.scripts = scripts;
        Ok(setup)
    }

    // Does a command, or puts it off.
    fn begin(
        &mut self,
        alloc: Global,
        index: u32,
        command: Command,
        disk: u64,
    ) -> Result<(), BuildError>
        ensures ok { OnOk result (begun self.old index command disk ≡ Ok self.new) }
        ensures refused { (i : ℕ) (errno : Cause) → IsErrOf result (BuildError.Refused i errno) → begun self.old index command disk ≡ Err (i, errno) }
    {
        if must_wait(self.devices.as_setup(), &command) {
            self.waiting.push(Waiter { index, command })?;
            return Ok(());
        }
        self.make(alloc, index, &command, disk)
    }

    fn make(
        &mut self,
        alloc: Global,
        index: u32,
        command: &Command,
        disk: u64,
    ) -> Result<(), BuildError>
        ensures ok { OnOk result (with_setup self.old index (made self.old.setup command.now disk) ≡ Ok self.new) }
        ensures refused { (i : ℕ) (errno : Cause) → IsErrOf result (BuildError.Refused i errno)
            → with_setup self.old index (made self.old.setup command.now disk) ≡ Err (i, errno) }
        ensures waiting { OnOk result (self.new.waiting ≡ self.old.waiting) }
    {
        match make(alloc, &mut self.devices, command, disk) {
            Ok(()) => Ok(()),
            Err(RegisterError::OutOfMemory) => Err(BuildError::OutOfMemory),
            Err(RegisterError::Refused(errno)) => Err(BuildError::Refused { index, errno }),
        }
    }

    // The place of the first command that waits and whose base stands.
    fn ready(&self) -> Option<usize>
        ensures first { result ≡ ready self.now }
        ensures within { IfSome result (λ place. place < length self.now.waiting) }
    {
        let setup = self.devices.as_setup();
        self.waiting
            .as_slice()
            .iter()
            .position(|waiter| !must_wait(setup, &waiter.command))
    }

    // Does a command that waits, which waits no longer.
    fn resume(&mut self, alloc: Global, place: usize) -> Result<(), BuildError>
        requires { place < length self.old.waiting }
        ensures ok { OnOk result (resumed self.old place (slice_get self.old.waiting place) ≡ Ok self.new) }
        ensures refused { (i : ℕ) (errno : Cause) → IsErrOf result (BuildError.Refused i errno)
            → resumed self.old place (slice_get self.old.waiting place) ≡ Err (i, errno) }
        ensures fewer { OnOk result (length self.new.waiting + 1 ≡ length self.old.waiting) }
    {
        let Waiter { index, command } = self.waiting.remove(place);
        self.make(alloc, index, &command, 0)
    }

    // Does the commands that wait, each once its base stands.
    fn settle(&mut self, alloc: Global) -> Result<(), BuildError>
        ensures ok { OnOk result (settled self.old ≡ Ok self.new) }
        ensures refused { (i : ℕ) (errno : Cause) → IsErrOf result (BuildError.Refused i errno) → settled self.old ≡ Err (i, errno) }
    {
        while let Some(place) = self.ready() {
            self.resume(alloc, place)?;
        }
        Ok(())
    }
}
