//! Devices: their rows and kinds.
ghost use Rattle.std.specs.Prelude.{◌≡◌, option_copied, IfOk};
ghost use Rattle.bd_machine.specs.BlockMap.{
  blocks_of,
  boundary_of,
  depth_of,
  is_delay,
  is_error,
  is_malloc,
  is_null,
  is_whole_kind,
  row_of,
  shift_of_kind,
  shift_of_row,
  size_of,
  stands_on,
};
ghost use Rattle.bd_machine.specs.Registry.{device_named};

use bd_base::{DevId, DevRow, Kind, Name, OutOfMemory, Setup};

/// The row of a device; none where the setup doesn't have the device.
pub fn row_of(setup: &Setup, dev: DevId) -> Option<&DevRow>
    ensures { option_copied result ≡ row_of setup.now dev }
{
    setup.devices.as_slice().get(dev.0 as usize)
}

/// The place of the device of this name among the devices; none where there is no such device.
pub fn device_named(setup: &Setup, name: &Name) -> Option<usize>
    ensures { result ≡ device_named setup.now name.now }
{
    setup
        .devices
        .as_slice()
        .iter()
        .position(|row| row.name.is(name))
}

/// The number of the device of a name. More devices than 32 bits count answer out of memory.
pub fn number_named(setup: &Setup, name: &Name) -> Result<Option<u32>, OutOfMemory>
    ensures { IfOk result (λ n. n ≡ device_named setup.now name.now) }
{
    match device_named(setup, name) {
        Some(n) => match u32::try_from(n) {
            Ok(n) => Ok(Some(n)),
            Err(_) => Err(OutOfMemory),
        },
        None => Ok(None),
    }
}

/// How many blocks a device has; 0 where the setup doesn't have the device.
pub fn blocks_of(setup: &Setup, dev: DevId) -> u64
    ensures { result ≡ blocks_of setup.now dev }
{
    match row_of(setup, dev) {
        Some(row) => row.blocks,
        None => 0,
    }
}

/// How many bytes a block of a device has; 0 where the setup doesn't have the device.
pub fn size_of(setup: &Setup, dev: DevId) -> u32
    ensures { result ≡ size_of setup.now dev }
{
    match row_of(setup, dev) {
        Some(row) => row.size,
        None => 0,
    }
}

/// The boundary of a device in blocks: its requests are cut at the multiples of it; 0 for no cut.
pub fn boundary_of(setup: &Setup, dev: DevId) -> u64
    ensures { result ≡ boundary_of setup.now dev }
{
    match row_of(setup, dev) {
        Some(row) => row.boundary,
        None => 0,
    }
}

/// How many pieces the work queue of a device takes; 0 where the setup doesn't have the device.
pub fn depth_of(setup: &Setup, dev: DevId) -> u32
    ensures { result ≡ depth_of setup.now dev }
{
    match row_of(setup, dev) {
        Some(row) => row.depth,
        None => 0,
    }
}

/// The device that a device stands on; none for a base device, and where the setup doesn't have it.
pub fn stands_on(setup: &Setup, dev: DevId) -> Option<DevId>
    ensures { result ≡ stands_on setup.now dev }
{
    row_of(setup, dev)?.base
}

// The block of its base at which a device of this kind begins.
fn shift_of_kind(kind: Kind) -> u64
    ensures { result ≡ shift_of_kind kind }
{
    match kind {
        Kind::Part { shift } => shift,
        _ => 0,
    }
}

/// The block at which a device begins on the one that it stands on.
pub(crate) fn shift_of(setup: &Setup, dev: DevId) -> u64
    ensures { result ≡ shift_of_row (row_of setup.now dev) }
{
    match row_of(setup, dev) {
        Some(row) => shift_of_kind(row.kind),
        None => 0,
    }
}

/// Whether it is a malloc device of the setup.
pub fn is_malloc(setup: &Setup, dev: DevId) -> bool
    ensures { result ≡ is_malloc setup.now dev }
{
    match row_of(setup, dev) {
        Some(row) => matches!(row.kind, Kind::Malloc),
        None => false,
    }
}

/// Whether it is a null device of the setup.
pub fn is_null(setup: &Setup, dev: DevId) -> bool
    ensures { result ≡ is_null setup.now dev }
{
    match row_of(setup, dev) {
        Some(row) => matches!(row.kind, Kind::Null),
        None => false,
    }
}

/// Whether a device of this kind has just the blocks of the one that it stands on.
pub(crate) fn is_whole_kind(kind: Kind) -> bool
    ensures { result ≡ is_whole_kind kind }
{
    matches!(kind, Kind::Passthru | Kind::Delay { .. } | Kind::Error)
}

/// Whether requests on it take injected errors.
pub fn is_error(setup: &Setup, dev: DevId) -> bool
    ensures { result ≡ is_error setup.now dev }
{
    match row_of(setup, dev) {
        Some(row) => matches!(row.kind, Kind::Error),
        None => false,
    }
}

/// Whether reads and writes on it wait a latency.
pub fn is_delay(setup: &Setup, dev: DevId) -> bool
    ensures { result ≡ is_delay setup.now dev }
{
    match row_of(setup, dev) {
        Some(row) => matches!(row.kind, Kind::Delay { .. }),
        None => false,
    }
}
