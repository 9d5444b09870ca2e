//! Why a device isn't registered.
ghost use Rattle.std.specs.Prelude.{◌≡◌, is_some, length, nat_le};
ghost use Rattle.bd_devices.specs.Devices.{has_base, is_claimed, is_claimed_by, layers_below, register_refusal, share_base};
ghost use Rattle.bd_machine.specs.BlockMap.{below};
ghost use Rattle.bd_machine.specs.Registry.{device_named};

use bd_base::{DevId, DevRow, Errno, Setup};
use bd_stack::{below, row_of};

fn has_base(setup: &Setup, base: Option<DevId>) -> bool
    ensures { result ≡ has_base setup.now base }
{
    match base {
        Some(base) => row_of(setup, base).is_some(),
        None => true,
    }
}

fn share_base(one: Option<DevId>, other: Option<DevId>) -> bool
    ensures { result ≡ share_base one other }
{
    match (one, other) {
        (Some(a), Some(b)) => a.0 == b.0,
        _ => false,
    }
}

// Whether the other's group has claimed the base of this row, which is of another group.
fn is_claimed_by(row: &DevRow, other: &DevRow) -> bool
    ensures { result ≡ is_claimed_by row.now other.now }
{
    share_base(row.base, other.base) && row.group != other.group
}

fn is_claimed(setup: &Setup, row: &DevRow) -> bool
    ensures { result ≡ is_claimed setup.now row.now }
{
    for other in setup.devices.as_slice() {
        if is_claimed_by(row, other) {
            return true;
        }
    }
    false
}

// Whether a device has 64 layers, itself among them.
fn is_high(setup: &Setup, dev: DevId) -> bool
    ensures { result ≡ nat_le 64 (length (below setup.now dev)) }
{
    let mut layers = 0u32;
    for _lower in below(setup, dev) {
        layers += 1;
        if layers == 64 {
            return true;
        }
    }
    false
}

// Whether there are 64 layers below.
fn is_too_high(setup: &Setup, base: Option<DevId>) -> bool
    ensures { result ≡ nat_le 64 (layers_below setup.now base) }
{
    match base {
        Some(base) => is_high(setup, base),
        None => false,
    }
}

/// Why a row isn't registered, where one knows whether its name is taken.
pub(crate) fn refusal(setup: &Setup, row: &DevRow, taken: bool) -> Option<Errno>
    requires { taken ≡ is_some (device_named setup.now row.now.name) }
    ensures { result ≡ register_refusal setup.now row.now }
{
    if taken {
        Some(Errno::Exists)
    } else if !has_base(setup, row.base) {
        Some(Errno::NoDev)
    } else if is_claimed(setup, row) {
        Some(Errno::Perm)
    } else if setup.devices.len() >= 256 || is_too_high(setup, row.base) {
        Some(Errno::Inval)
    } else {
        None
    }
}
