//! What a command makes of the devices that stand.
ghost use Rattle.std.specs.Prelude.{◌≡◌, OnOk, IsErrOf};
ghost use Rattle.bd_base.specs.declared.request.Errno.{Errno as Cause};
ghost use Rattle.bd_building.specs.Made.{made, registered, with_devices, with_injection_at, with_limits_at};
ghost use Rattle.bd_building.specs.Rows.{devices_of};
ghost use Rattle.bd_machine.specs.Registry.{device_named};

use crate::causes::cause_of;
use crate::rows::devices_of;
use bd_base::{DevRow, ErrKind, IoSet, Name, RateSet};
use bd_config::Command;
use bd_devices::{Devices, RegisterError};
use std::alloc::Global;

// Registers these devices one after the other, up to the first that is refused.
fn register(alloc: Global, devices: &mut Devices, rows: Vec<DevRow>) -> Result<(), RegisterError>
    ensures ok { OnOk result (registered devices.old rows.items ≡ Ok devices.new) }
    ensures refused { (errno : Cause) → IsErrOf result (RegisterError.Refused errno) → registered devices.old rows.items ≡ Err errno }
{
    for row in rows {
        let _ = devices.register(alloc, row)?;
    }
    Ok(())
}

// Makes the devices of a command.
fn make_devices(
    alloc: Global,
    devices: &mut Devices,
    command: &Command,
    disk: u64,
) -> Result<(), RegisterError>
    ensures ok { OnOk result (with_devices devices.old command.now disk (devices_of devices.old command.now disk) ≡ Ok devices.new) }
    ensures refused { (errno : Cause) → IsErrOf result (RegisterError.Refused errno)
        → with_devices devices.old command.now disk (devices_of devices.old command.now disk) ≡ Err errno }
{
    let rows = devices_of(alloc, devices.as_setup(), command, disk)?;
    if let Some(errno) = cause_of(devices.as_setup(), command, disk, rows.as_slice())? {
        return Err(RegisterError::Refused(errno));
    }
    register(alloc, devices, rows)
}

#[tactic(auto, using(crate::proofs::Settings::limits_set, crate::proofs::Settings::limits_refused))]
fn set_limits(devices: &mut Devices, name: &Name, rates: RateSet) -> Result<(), RegisterError>
    ensures ok { OnOk result (with_limits_at devices.old rates (device_named devices.old name.now) ≡ Ok devices.new) }
    ensures refused { (errno : Cause) → IsErrOf result (RegisterError.Refused errno)
        → with_limits_at devices.old rates (device_named devices.old name.now) ≡ Err errno }
{
    match devices.set_limit(name, rates) {
        Ok(()) => Ok(()),
        Err(errno) => Err(RegisterError::Refused(errno)),
    }
}

#[tactic(auto, using(crate::proofs::Settings::injection_set, crate::proofs::Settings::injection_refused))]
fn set_injection(
    devices: &mut Devices,
    name: &Name,
    types: IoSet,
    kind: ErrKind,
    count: u32,
) -> Result<(), RegisterError>
    ensures ok { OnOk result (with_injection_at devices.old types kind count (device_named devices.old name.now) ≡ Ok devices.new) }
    ensures refused { (errno : Cause) → IsErrOf result (RegisterError.Refused errno)
        → with_injection_at devices.old types kind count (device_named devices.old name.now) ≡ Err errno }
{
    match devices.set_injection(name, types, kind, count) {
        Ok(()) => Ok(()),
        Err(errno) => Err(RegisterError::Refused(errno)),
    }
}

/// Does a command, where the file that it opens has this number of blocks.
pub(crate) fn make(
    alloc: Global,
    devices: &mut Devices,
    command: &Command,
    disk: u64,
) -> Result<(), RegisterError>
    ensures ok { OnOk result (made devices.old command.now disk ≡ Ok devices.new) }
    ensures refused { (errno : Cause) → IsErrOf result (RegisterError.Refused errno) → made devices.old command.now disk ≡ Err errno }
{
    match command {
        Command::SetLimits { name, rates } => set_limits(devices, name, *rates),
        Command::InjectError {
            name,
            types,
            kind,
            count,
        } => set_injection(devices, name, *types, *kind, *count),
        _ => make_devices(alloc, devices, command, disk),
    }
}
