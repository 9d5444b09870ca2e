//! The way from a device down to its base device.
ghost use Rattle.std.specs.Prelude.{◌≡◌, ◌+◌, ◌&&◌, ◌==◌, cond, IfOk, IfSome, None, Some, suc};
ghost use Rattle.std.specs.Option.{option_map};
ghost use Rattle.std.specs.Iterator.{YieldsFirst, item_count};
ghost use Rattle.bd_machine.specs.Aborts.{is_below};
ghost use Rattle.bd_machine.specs.BlockMap.{at, base_of, below, home, is_aio, is_over, is_whole_or, last_of, path_within, row_of, shift_of_row, stands_on};
ghost use Rattle.bd_machine.specs.Homes.{is_home};

use crate::devices::{is_whole_kind, row_of, shift_of, stands_on};
use bd_base::{DevId, Kind, OutOfMemory, Setup};
use std::marker::Model;

/// The devices from one down to its base device that are left, seen as their list.
#[derive(Drop)]
pub struct Descent<'a> {
    setup: &'a Setup,
    next: Option<DevId>,
    // How many devices follow the next one at most.
    left: usize,
}

impl<'a> Model for Descent<'a> {
    ghost use Rattle.std.specs.Prelude.{List};
    ghost use Rattle.bd_base.specs.declared.id.DevId.{DevId};
    ghost use Rattle.bd_stack.specs.Walks.{devices_left};

    ghost Value = { List DevId };

    ghost view = { λ b. devices_left b.setup.now b.left b.next };
}

impl<'a> Iterator for Descent<'a> {
    type Item = DevId;

    ghost next_gives = { YieldsFirst (λ left. left) };

    ghost remaining = { item_count (λ left. left) };

    fn next(&mut self) -> Option<DevId> {
        let dev = self.next?;
        if self.left == 0 {
            self.next = None;
        } else {
            self.left -= 1;
            self.next = stands_on(self.setup, dev);
        }
        Some(dev)
    }
}

/// A device, the one that it stands on, and so on down to its base device. It takes no memory.
pub fn below(setup: &Setup, dev: DevId) -> Descent<'_>
    ensures { result ≡ below setup.now dev }
{
    Descent {
        setup,
        next: Some(dev),
        left: setup.devices.len(),
    }
}

/// Whether a device is the other one or lies below it.
pub fn is_below(setup: &Setup, dev: DevId, lower: DevId) -> bool
    ensures { result ≡ is_below setup.now dev lower }
{
    for d in below(setup, dev) {
        if lower.0 == d.0 {
            return true;
        }
    }
    false
}

/// The base device under a device.
pub fn base_of(setup: &Setup, dev: DevId) -> DevId
    ensures { result ≡ base_of setup.now dev }
{
    let mut base = dev;
    for _step in 0..setup.devices.len() {
        match stands_on(setup, base) {
            Some(lower) => base = lower,
            None => break,
        }
    }
    base
}

/// The number of the thread that alone touches the content under a device.
pub fn home(setup: &Setup, dev: DevId) -> u32
    ensures { result ≡ home setup.now dev }
{
    let base = base_of(setup, dev);
    if setup.threads == 0 {
        base.0
    } else {
        base.0 % setup.threads
    }
}

/// Whether it is a device of the setup whose home this thread is.
pub fn is_home(setup: &Setup, thread: u32, dev: DevId) -> bool
    ensures { result ≡ is_home setup.now thread dev }
{
    row_of(setup, dev).is_some() && home(setup, dev) == thread
}

/// Whether the base of a device is a file.
pub fn is_aio(setup: &Setup, dev: DevId) -> bool
    ensures { result ≡ is_aio setup.now dev }
{
    match row_of(setup, base_of(setup, dev)) {
        Some(row) => matches!(row.kind, Kind::Aio),
        None => false,
    }
}

// Whether it is this base device, or has just the blocks of the one that it stands on.
fn is_whole_or(setup: &Setup, base: DevId, dev: DevId) -> bool
    ensures { result ≡ is_whole_or setup.now base dev }
{
    match row_of(setup, dev) {
        Some(row) => dev.0 == base.0 || is_whole_kind(row.kind),
        None => dev.0 == base.0,
    }
}

/// Whether a device is this base device, or has just its blocks: each device on the way down to it is a passthru, a
/// delay or an error device.
pub fn is_over(setup: &Setup, base: DevId, dev: DevId) -> bool
    ensures { result ≡ is_over setup.now base dev }
{
    if base_of(setup, dev).0 != base.0 {
        return false;
    }
    for d in below(setup, dev) {
        if !is_whole_or(setup, base, d) {
            return false;
        }
    }
    true
}

// The base device under a device that has just its blocks, where this part lies between them.
fn base_if_over(setup: &Setup, dev: DevId, part: DevId) -> Option<DevId>
    ensures { result ≡ cond ((part.0 == (base_of setup.now dev).0) && is_over setup.now (base_of setup.now dev) dev)
        (Some (base_of setup.now dev)) None }
{
    let base = base_of(setup, dev);
    // In a circle of devices the part may be the base itself.
    if part.0 == base.0 && is_over(setup, base, dev) {
        Some(base)
    } else {
        None
    }
}

/// The base device under a device that has just its blocks; none under one that is a part, or stands on a part.
pub fn whole_base(setup: &Setup, dev: DevId) -> Option<DevId>
    ensures { result ≡ cond (is_over setup.now (base_of setup.now dev) dev) (Some (base_of setup.now dev)) None }
{
    let mut base = dev;
    for _step in 0..setup.devices.len() {
        let Some(row) = row_of(setup, base) else {
            break;
        };
        let Some(lower) = row.base else {
            break;
        };
        if !is_whole_kind(row.kind) {
            return base_if_over(setup, dev, base);
        }
        base = lower;
    }
    Some(base)
}

/// The block under a block of a device that stands on another; none for a base device. A number that
/// passes 64 bits counts as out of memory.
pub fn under(setup: &Setup, dev: DevId, block: u64) -> Result<Option<(DevId, u64)>, OutOfMemory>
    ensures base { IfOk result (λ o. option_map (λ p. p.0) o ≡ stands_on setup.now dev) }
    ensures number { IfOk result (λ o. IfSome o (λ p. p.1 ≡ shift_of_row (row_of setup.now dev) + block)) }
{
    let Some(base) = stands_on(setup, dev) else {
        return Ok(None);
    };
    match shift_of(setup, dev).checked_add(block) {
        Some(number) => Ok(Some((base, number))),
        None => Err(OutOfMemory),
    }
}

// The lowest block under a block of a device, `left` devices further down at most.
fn at_within(
    setup: &Setup,
    left: usize,
    dev: DevId,
    block: u64,
) -> Result<(DevId, u64), OutOfMemory>
    ensures { IfOk result (λ p. record { dev = p.0; number = p.1 } ≡ last_of (record { dev = dev; number = block }) (path_within (suc left) setup.now dev block)) }
{
    if left == 0 {
        return Ok((dev, block));
    }
    match under(setup, dev, block)? {
        None => Ok((dev, block)),
        Some((base, lower)) => {
            let lowest = at_within(setup, left - 1, base, lower)?;
            Ok(lowest)
        }
    }
}

/// The base device and its block that lie under a block of a device. A number that passes 64 bits
/// counts as out of memory: no request that was admitted has one.
pub fn at(setup: &Setup, dev: DevId, block: u64) -> Result<(DevId, u64), OutOfMemory>
    ensures { IfOk result (λ p. record { dev = p.0; number = p.1 } ≡ at setup.now dev block) }
{
    at_within(setup, setup.devices.len(), dev, block)
}
