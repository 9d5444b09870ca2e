//! Why a command's devices aren't made.
ghost use Rattle.std.specs.Prelude.{◌≡◌, ◌||◌, ◌+◌, ◌*◌, ◌^◌, nat_lt, Some, option_copied, IfOk};
ghost use Rattle.std.specs.List.{list_any};
ghost use Rattle.bd_devices.specs.Devices.{share_base};
ghost use Rattle.bd_machine.specs.Users.{dev_of};
ghost use Rattle.bd_building.specs.Made.{cause_of, content_bytes, has_long_name, is_base_used, is_out_of_bounds, is_used, malloc_bytes, stands};
ghost use Rattle.bd_building.specs.Rows.{base_name_of};

use crate::base::base_name_of;
use bd_base::{DevRow, Errno, Kind, Name, OutOfMemory, Setup};
use bd_config::Command;
use bd_stack::device_named;

/// The most bytes that all malloc devices have: 1 GiB.
const MAX_MALLOC: u64 = 1 << 30;

/// The most blocks of a file's device.
const MAX_BLOCKS: u64 = 1 << 40;

/// The most bytes of a device's name, one that is made too.
const MAX_NAME: usize = 255;

fn stands(setup: &Setup, row: &DevRow) -> bool
    ensures { result ≡ stands setup.now row.now }
{
    device_named(setup, &row.name).is_some()
}

fn any_stands(setup: &Setup, rows: &[DevRow]) -> bool
    ensures { result ≡ list_any (stands setup.now) rows.now }
{
    rows.iter().any(|row| stands(setup, row))
}

// Whether this row stands on the device of this number.
fn is_on(number: usize, row: &DevRow) -> bool
    ensures { result ≡ share_base (Some (dev_of number)) row.now.base }
{
    match row.base {
        Some(base) => base.0 as usize == number,
        None => false,
    }
}

fn is_used(setup: &Setup, number: usize) -> bool
    ensures { result ≡ is_used setup.now (Some number) }
{
    setup
        .devices
        .as_slice()
        .iter()
        .any(|row| is_on(number, row))
}

fn is_base_used(setup: &Setup, base: Option<&Name>) -> bool
    ensures { result ≡ is_base_used setup.now (option_copied base.entry) }
{
    let Some(base) = base else {
        return false;
    };
    match device_named(setup, base) {
        Some(number) => is_used(setup, number),
        None => false,
    }
}

// How many bytes of memory a device has. More than 64 bits count answers out of memory.
fn content_bytes(row: &DevRow) -> Result<u64, OutOfMemory>
    ensures { IfOk result (λ bytes. bytes ≡ content_bytes row.now) }
{
    if !matches!(row.kind, Kind::Malloc) {
        return Ok(0);
    }
    match row.blocks.checked_mul(u64::from(row.size)) {
        Some(bytes) => Ok(bytes),
        None => Err(OutOfMemory),
    }
}

// How many bytes all malloc devices have. More than 64 bits count answers out of memory.
fn malloc_bytes(rows: &[DevRow]) -> Result<u64, OutOfMemory>
    ensures { IfOk result (λ bytes. bytes ≡ malloc_bytes rows.now) }
{
    let mut bytes = 0u64;
    for row in rows {
        let Some(more) = bytes.checked_add(content_bytes(row)?) else {
            return Err(OutOfMemory);
        };
        bytes = more;
    }
    Ok(bytes)
}

// Whether this number of blocks more, of this number of bytes each, passes the memory of malloc devices.
fn passes_memory(setup: &Setup, blocks: u64, size: u32) -> Result<bool, OutOfMemory>
    ensures { IfOk result (λ passes. passes ≡ nat_lt (2 ^ 30) (malloc_bytes setup.now.devices + blocks * size)) }
{
    let Some(more) = blocks.checked_mul(u64::from(size)) else {
        return Err(OutOfMemory);
    };
    match malloc_bytes(setup.devices.as_slice())?.checked_add(more) {
        Some(bytes) => Ok(bytes > MAX_MALLOC),
        None => Err(OutOfMemory),
    }
}

fn is_out_of_bounds(
    setup: &Setup,
    command: &Command,
    disk: u64,
    rows: &[DevRow],
) -> Result<bool, OutOfMemory>
    ensures { IfOk result (λ is. is ≡ is_out_of_bounds setup.now command.now disk rows.now) }
{
    match command {
        Command::Malloc { blocks, size, .. } => passes_memory(setup, *blocks, *size),
        Command::Aio { .. } => Ok(!(1 <= disk && disk <= MAX_BLOCKS)),
        Command::Delay {
            average_read,
            p99_read,
            average_write,
            p99_write,
            ..
        } => Ok(*p99_read < *average_read || *p99_write < *average_write),
        Command::Split { .. } => Ok(rows.is_empty()),
        _ => Ok(false),
    }
}

fn has_long_name(row: &DevRow) -> bool
    ensures { result ≡ has_long_name row.now }
{
    row.name.as_slice().len() > MAX_NAME
}

fn any_long_name(rows: &[DevRow]) -> bool
    ensures { result ≡ list_any has_long_name rows.now }
{
    rows.iter().any(|row| has_long_name(row))
}

// Whether they are out of their bounds, or have too long a name.
fn is_invalid(
    setup: &Setup,
    command: &Command,
    disk: u64,
    rows: &[DevRow],
) -> Result<bool, OutOfMemory>
    ensures { IfOk result (λ is. is ≡ (is_out_of_bounds setup.now command.now disk rows.now || list_any has_long_name rows.now)) }
{
    if is_out_of_bounds(setup, command, disk, rows)? {
        return Ok(true);
    }
    Ok(any_long_name(rows))
}

/// Why a command's devices aren't made, the first cause that holds: `Exists` where a device of one of
/// their names stands; `Perm` where another device stands on their base; `Inval` where they are out of
/// their bounds.
pub(crate) fn cause_of(
    setup: &Setup,
    command: &Command,
    disk: u64,
    rows: &[DevRow],
) -> Result<Option<Errno>, OutOfMemory>
    ensures { IfOk result (λ cause. cause ≡ cause_of setup.now command.now disk rows.now) }
{
    if any_stands(setup, rows) {
        return Ok(Some(Errno::Exists));
    }
    if is_base_used(setup, base_name_of(command)) {
        return Ok(Some(Errno::Perm));
    }
    if is_invalid(setup, command, disk, rows)? {
        return Ok(Some(Errno::Inval));
    }
    Ok(None)
}
