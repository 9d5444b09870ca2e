//! The sizes of devices in the registry.
ghost use Rattle.std.specs.Prelude.{◌≡◌};
ghost use Rattle.bd_machine.specs.Registry.{blocks_in, blocks_to_come, growing_of, is_growing, size_now};

use bd_base::{DevId, Setup};
use bd_blocks::{blocks_of, whole_base};
use bd_rule_view::Records;

/// How many blocks a device has in the registry, where a malloc or null device may have grown and no other
/// has; 0 where there is no such device.
pub(crate) fn blocks_in<R: Records>(registry: &R, dev: DevId) -> u64
    ensures { result ≡ blocks_in (R.registry_of registry.now) dev }
{
    match registry.device(dev) {
        Some(device) => device.blocks,
        None => 0,
    }
}

/// How many blocks a device has now: one that has each block of its base device grows with it, and a part of
/// a split keeps its size.
pub fn size_now<R: Records>(setup: &Setup, registry: &R, dev: DevId) -> u64
    ensures { result ≡ size_now setup.now (R.registry_of registry.now) dev }
{
    match whole_base(setup, dev) {
        Some(base) => blocks_in(registry, base),
        None => blocks_of(setup, dev),
    }
}

/// The number of blocks to which a device is growing, while a resize of it is under way.
pub(crate) fn growing_of<R: Records>(registry: &R, dev: DevId) -> Option<u64>
    ensures { result ≡ growing_of (R.registry_of registry.now) dev }
{
    match registry.device(dev) {
        Some(device) => device.growing,
        None => None,
    }
}

/// Whether a resize of a device is under way.
pub(crate) fn is_growing<R: Records>(registry: &R, dev: DevId) -> bool
    ensures { result ≡ is_growing (R.registry_of registry.now) dev }
{
    growing_of(registry, dev).is_some()
}

/// How many blocks a device has, or will have once its resize has ended.
pub(crate) fn blocks_to_come<R: Records>(registry: &R, dev: DevId) -> u64
    ensures { result ≡ blocks_to_come (R.registry_of registry.now) dev }
{
    match growing_of(registry, dev) {
        Some(blocks) => blocks,
        None => blocks_in(registry, dev),
    }
}
