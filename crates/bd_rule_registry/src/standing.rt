//! Devices in the registry: live, being removed, or destructed.
ghost use Rattle.std.specs.Prelude.{◌≡◌};
ghost use Rattle.bd_machine.specs.Registry.{are_live, is_live, standing_of};

use bd_base::{DevId, Setup};
use bd_blocks::stands_on;
use bd_machine::Standing;
use bd_rule_view::Records;

/// What a device is in the registry. One that there isn't counts as destructed.
pub(crate) fn standing_of<R: Records>(registry: &R, dev: DevId) -> Standing
    ensures { result ≡ standing_of (R.registry_of registry.now) dev }
{
    match registry.device(dev) {
        Some(device) => device.standing,
        None => Standing::Destructed,
    }
}

/// Whether a device is neither being removed nor destructed.
pub fn is_live<R: Records>(registry: &R, dev: DevId) -> bool
    ensures { result ≡ is_live (R.registry_of registry.now) dev }
{
    matches!(standing_of(registry, dev), Standing::Live)
}

/// Whether a device and each one below it are live.
pub(crate) fn are_live<R: Records>(setup: &Setup, registry: &R, dev: DevId) -> bool
    ensures { result ≡ are_live setup.now (R.registry_of registry.now) dev }
{
    let mut lowest = dev;
    for _step in 0..setup.devices.len() {
        if !is_live(registry, lowest) {
            return false;
        }
        match stands_on(setup, lowest) {
            Some(lower) => lowest = lower,
            None => return true,
        }
    }
    is_live(registry, lowest)
}
