//! Base handles: each group of devices that stand on another has one, numbered from 0 by the group's
//! first device.
ghost use Rattle.std.specs.Prelude.{◌≡◌, ◌≤◌, count_by, is_some, true, IfOk, Some, length, slice_get};
ghost use Rattle.std.specs.List.{list_any};
ghost use Rattle.std.specs.Option.{option_map};
ghost use Rattle.bd_machine.specs.Users.{base_handle, dev_of, devices, firsts, is_base_handle, is_first, is_of_group, shares_handle, sharing, users};

use bd_base::{DevId, DevRow, HandleId, OutOfMemory, Rows, Setup};
use std::alloc::Global;

// Whether both stand on another device and are of one group.
fn is_of_group(one: &DevRow, other: &DevRow) -> bool
    ensures { result ≡ is_of_group (Some one.now) (Some other.now) }
{
    one.base.is_some() && other.base.is_some() && one.group == other.group
}

// Whether the devices of these numbers share a base handle.
fn are_of_group(setup: &Setup, one: usize, other: usize) -> bool
    ensures { result ≡ shares_handle setup.now (dev_of one) (dev_of other) }
{
    let rows = setup.devices.as_slice();
    match (rows.get(one), rows.get(other)) {
        (Some(a), Some(b)) => is_of_group(a, b),
        _ => false,
    }
}

// Whether an earlier device shares its base handle.
fn is_joined(setup: &Setup, number: usize) -> bool
    ensures { result ≡ list_any (shares_handle setup.now (dev_of number)) (devices number) }
{
    for earlier in 0..number {
        if are_of_group(setup, number, earlier) {
            return true;
        }
    }
    false
}

// Whether the device of this number stands on another one, and is the first of its group.
fn is_first(setup: &Setup, number: usize) -> bool
    ensures { result ≡ is_first setup.now (dev_of number) }
{
    are_of_group(setup, number, number) && !is_joined(setup, number)
}

/// How many base handles there are.
fn count_firsts(setup: &Setup) -> usize
    ensures { result ≡ length (firsts setup.now) }
{
    let mut count = 0;
    for number in 0..setup.devices.len() {
        if is_first(setup, number) {
            count += 1;
        }
    }
    count
}

// How many devices stand on another.
fn count_standing(setup: &Setup) -> usize
    ensures { result ≡ count_by (λ row. is_some row.base) setup.now.devices }
{
    setup
        .devices
        .as_slice()
        .iter()
        .filter(|row| row.base.is_some())
        .count()
}

// Whether the number of the handle isn't below the number of devices that stand on another. So it is of nearly every
// handle that is no base handle, and of none that is.
fn is_later(setup: &Setup, handle: HandleId) -> bool
    ensures { result ≡ true → length (firsts setup.now) ≤ handle.0 }
{
    handle.0 >= count_standing(setup) as u128
}

/// Whether it is the base handle of some device.
pub fn is_base_handle(setup: &Setup, handle: HandleId) -> bool
    ensures { result ≡ is_base_handle setup.now handle }
{
    !is_later(setup, handle) && handle.0 < count_firsts(setup) as u128
}

// The number of the first device that has this base handle.
fn first_of(setup: &Setup, handle: HandleId) -> Option<usize>
    ensures { option_map dev_of result ≡ slice_get (firsts setup.now) handle.0 }
{
    if is_later(setup, handle) {
        return None;
    }
    let mut before = handle.0;
    for number in 0..setup.devices.len() {
        if is_first(setup, number) {
            if before == 0 {
                return Some(number);
            }
            before -= 1;
        }
    }
    None
}

/// The base handle of a device; none for a device that stands on no other.
pub fn base_handle(setup: &Setup, dev: DevId) -> Option<HandleId>
    ensures { result ≡ base_handle setup.now dev }
{
    let mut handle = 0;
    for number in 0..setup.devices.len() {
        if is_first(setup, number) {
            if are_of_group(setup, dev.0 as usize, number) {
                return Some(HandleId(handle));
            }
            handle += 1;
        }
    }
    None
}

/// The first devices of the groups, by the number of their base handle. More devices than 32 bits
/// count are out of memory.
pub fn firsts(alloc: Global, setup: &Setup) -> Result<Rows<DevId>, OutOfMemory>
    ensures { IfOk result (λ devs. devs ≡ firsts setup.now) }
{
    let Ok(count) = u32::try_from(setup.devices.len()) else {
        return Err(OutOfMemory);
    };
    let mut found = Rows::new(alloc);
    for number in 0..count {
        if is_first(setup, number as usize) {
            found.push(DevId(number))?;
        }
    }
    Ok(found)
}

// The devices that share the base handle of the device of this number.
fn sharing(alloc: Global, setup: &Setup, first: usize) -> Result<Rows<DevId>, OutOfMemory>
    ensures { IfOk result (λ devs. devs ≡ sharing setup.now (Some (dev_of first))) }
{
    let Ok(count) = u32::try_from(setup.devices.len()) else {
        return Err(OutOfMemory);
    };
    let mut found = Rows::new(alloc);
    for number in 0..count {
        if are_of_group(setup, first, number as usize) {
            found.push(DevId(number))?;
        }
    }
    Ok(found)
}

/// The devices whose base handle this is, by number; none for any other handle. More devices than 32
/// bits count are out of memory.
pub fn users(alloc: Global, setup: &Setup, handle: HandleId) -> Result<Rows<DevId>, OutOfMemory>
    ensures { IfOk result (λ devs. devs ≡ users setup.now handle) }
{
    match first_of(setup, handle) {
        Some(first) => sharing(alloc, setup, first),
        None => Ok(Rows::new(alloc)),
    }
}
