//! The devices of a registry before any event.
ghost use Rattle.std.specs.Prelude.{◌≡◌, ◌+◌, ◌++◌, ◌∷◌, [], ℕ, List, None, Some, length, IfOk, IfErr, OnOk, OnErr};
ghost use Rattle.bd_base.specs.declared.device.DevRow.{DevRow};
ghost use Rattle.bd_devices.specs.Devices.{IsCause, chosen, injected, injection_refusal, limit_refusal, limited, no_devices, register_refusal, with_device, with_limits};
ghost use Rattle.bd_devices.specs.Registered.{AreToldApart};
ghost use Rattle.bd_machine.specs.BlockMap.{StandsOnEarlier};
ghost use Rattle.bd_machine.specs.Limits.{no_limit};
ghost use Rattle.bd_machine.specs.Registry.{device_named};
ghost use Rattle.bd_machine.specs.Start.{no_injections};

use crate::names::Names;
use crate::refusals::refusal;
use bd_base::{
    DevId, DevRow, ErrKind, Errno, Injection, Injections, IoSet, Kind, Name, OutOfMemory, RateSet,
    Rates, Rows, Setup,
};
use bd_error::InjectionCalls;
use std::alloc::Global;
use std::error::Error;
use std::fmt;
use std::marker::Model;

const NO_LIMIT: Rates = Rates {
    rw_ios_per_sec: 0,
    rw_mbytes_per_sec: 0,
    r_mbytes_per_sec: 0,
    w_mbytes_per_sec: 0,
};

const NO_INJECTION: Injection = Injection {
    kind: ErrKind::Failure,
    left: 0,
};

const NO_INJECTIONS: Injections = Injections {
    read: NO_INJECTION,
    write: NO_INJECTION,
    zeroes: NO_INJECTION,
    unmap: NO_INJECTION,
    flush: NO_INJECTION,
};

/// Why a device wasn't registered.
#[derive(Clone, Copy, Debug, PartialEq, Eq)]
pub enum RegisterError {
    /// There was no memory.
    OutOfMemory,
    /// The first cause that holds: `Exists` where the name stands; `NoDev` where its base doesn't; `Perm`
    /// where its base is claimed by the base handle of another group; `Inval` where there are 256 devices,
    /// or 64 layers below it.
    Refused(Errno),
}

impl fmt::Display for RegisterError {
    fn fmt<W: fmt::Write>(&self, f: &mut fmt::Formatter<W>) -> fmt::Result {
        match self {
            RegisterError::OutOfMemory => write!(f, "out of memory"),
            RegisterError::Refused(errno) => write!(f, "refused with errno {}", errno.number()),
        }
    }
}

impl Error for RegisterError {}

impl From<OutOfMemory> for RegisterError {
    ghost use Rattle.std.specs.Prelude.{◌≡◌};
    ghost use Rattle.bd_devices.specs.declared.devices.RegisterError.TheVariants as causes;

    ghost from_gives = { λ _ error. error ≡ causes.OutOfMemory };

    fn from(_e: OutOfMemory) -> RegisterError {
        RegisterError::OutOfMemory
    }
}

/// The devices that were registered, seen as a setup without scripts: their rows by number, each with its
/// limits and injections.
#[derive(Drop)]
pub struct Devices {
    setup: Setup,
    names: Names,
}

impl Model for Devices {
    ghost use Rattle.std.specs.Prelude.{◌≡◌, length};
    ghost use Rattle.bd_base.specs.declared.setup.Setup.{Setup};
    ghost use Rattle.bd_devices.specs.Registered.{IsRegistered};

    ghost Value = { Setup };

    ghost view = { λ d. d.setup };

    ghost invariant = { λ d. IsRegistered d.names d.setup };
}

impl Devices {
    /// No devices yet, for this number of threads. It takes no memory.
    pub fn new(alloc: Global, threads: u32) -> Devices
        ensures { result ≡ no_devices threads }
    {
        Devices {
            setup: Setup {
                threads,
                devices: Rows::new(alloc),
                rates: Rows::new(alloc),
                injections: Rows::new(alloc),
                waiting: Rows::new(alloc),
                scripts: Rows::new(alloc),
            },
            names: Names::new(alloc),
        }
    }

    /// The setup that a registry of these devices begins from.
    pub fn as_setup(&self) -> &Setup
        ensures { result.now ≡ self.now }
    {
        &self.setup
    }

    /// The same, where no more devices are registered. It takes no memory.
    pub fn into_setup(self) -> Setup
        ensures setup { result ≡ self }
        ensures earlier { StandsOnEarlier result }
        ensures apart { AreToldApart result }
    {
        let Devices { setup, names: _ } = self;
        setup
    }

    /// Registers a device, without limits and injections, and gives its number. A refusal, and out of
    /// memory, change nothing.
    pub fn register(&mut self, alloc: Global, row: DevRow) -> Result<DevId, RegisterError>
        ensures number { IfOk result (λ dev. dev.0 ≡ length self.old.devices) }
        ensures free { OnOk result (register_refusal self.old row ≡ None) }
        ensures ok { OnOk result (self.new ≡ with_device self.old row) }
        ensures cause { IfErr result (λ error. IsCause error (register_refusal self.old row)) }
        ensures err { OnErr result (self.new ≡ self.old) }
    {
        let taken = self.names.find(&row.name).is_some();
        if let Some(errno) = refusal(&self.setup, &row, taken) {
            return Err(RegisterError::Refused(errno));
        }
        let place = self.setup.devices.len();
        let Ok(number) = u32::try_from(place) else {
            return Err(RegisterError::OutOfMemory);
        };
        self.add(alloc, row, place)?;
        Ok(DevId(number))
    }

    // Adds a device. Out of memory, nothing changes.
    fn add(&mut self, alloc: Global, row: DevRow, place: usize) -> Result<(), OutOfMemory>
        requires place { place ≡ length self.old.devices }
        requires free { register_refusal self.old row ≡ None }
        ensures ok { OnOk result (self.new ≡ with_device self.old row) }
        ensures err { OnErr result (self.new ≡ self.old) }
    {
        let rates = with_last(&self.setup.rates, NO_LIMIT)?;
        let injections = with_last(&self.setup.injections, NO_INJECTIONS)?;
        let name = row.name.copy()?;
        self.setup.devices.push(row)?;
        match self.names.add(alloc, &name, place) {
            Ok(()) => {
                self.setup.rates = rates;
                self.setup.injections = injections;
                Ok(())
            }
            Err(e) => {
                drop_last(&mut self.setup.devices, place);
                Err(e)
            }
        }
    }

    /// Sets limits of the device of a name; a limit that is none in the call stays as it was. `NoDev` where
    /// there is no such device, and then nothing changes.
    pub fn set_limit(&mut self, name: &Name, rates: RateSet) -> Result<(), Errno>
        ensures cause { IfErr result (λ e. limit_refusal (device_named self.old name.now) ≡ Some e) }
        ensures free { OnOk result (limit_refusal (device_named self.old name.now) ≡ None) }
        ensures ok { OnOk result ((n : ℕ) → device_named self.old name.now ≡ Some n → self.new ≡ limited rates n self.old) }
        ensures err { OnErr result (self.new ≡ self.old) }
    {
        let Some(place) = self.names.find(name) else {
            return Err(Errno::NoDev);
        };
        let old = self.setup.rates.as_slice()[place];
        self.setup.rates.set(place, with_limits(rates, old));
        Ok(())
    }

    /// Sets an injection of the device of a name for the next `num` requests of each named type. `NoDev`
    /// where there is no such device, `Inval` where it is no error device, and then nothing changes.
    pub fn set_injection(
        &mut self,
        name: &Name,
        io: IoSet,
        kind: ErrKind,
        num: u32,
    ) -> Result<(), Errno>
        ensures cause { IfErr result (λ e. injection_refusal self.old (device_named self.old name.now) ≡ Some e) }
        ensures free { OnOk result (injection_refusal self.old (device_named self.old name.now) ≡ None) }
        ensures ok { OnOk result ((n : ℕ) → device_named self.old name.now ≡ Some n → self.new ≡ injected io kind num n self.old) }
        ensures err { OnErr result (self.new ≡ self.old) }
    {
        let Some(place) = self.names.find(name) else {
            return Err(Errno::NoDev);
        };
        if !matches!(self.setup.devices.as_slice()[place].kind, Kind::Error) {
            return Err(Errno::Inval);
        }
        let mut injections = self.setup.injections.as_slice()[place];
        injections.set(io, kind, num);
        self.setup.injections.set(place, injections);
        Ok(())
    }
}

fn chosen(set: Option<u64>, old: u64) -> u64
    ensures { result ≡ chosen set old }
{
    match set {
        Some(n) => n,
        None => old,
    }
}

// The limits that are set, and of the others those that were there.
fn with_limits(set: RateSet, old: Rates) -> Rates
    ensures { result ≡ with_limits set old }
{
    Rates {
        rw_ios_per_sec: chosen(set.rw_ios_per_sec, old.rw_ios_per_sec),
        rw_mbytes_per_sec: chosen(set.rw_mbytes_per_sec, old.rw_mbytes_per_sec),
        r_mbytes_per_sec: chosen(set.r_mbytes_per_sec, old.r_mbytes_per_sec),
        w_mbytes_per_sec: chosen(set.w_mbytes_per_sec, old.w_mbytes_per_sec),
    }
}

// The rows with one more.
fn with_last<T: Copy + Drop>(rows: &Rows<T>, last: T) -> Result<Rows<T>, OutOfMemory>
    ensures { IfOk result (λ r. r ≡ rows.now ++ last ∷ []) }
{
    let mut more = rows.copy()?;
    more.push(last)?;
    Ok(more)
}

// Takes the last row out again, which has this place.
fn drop_last(devices: &mut Rows<DevRow>, place: usize)
    requires { length devices.old ≡ place + 1 }
    ensures { (rows : List DevRow) (row : DevRow) → place ≡ length rows → devices.old ≡ rows ++ row ∷ [] → devices.new ≡ rows }
{
    let _ = devices.remove(place);
}
