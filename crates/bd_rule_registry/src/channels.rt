//! Answers about channels: a get, a put and a drop.
ghost use Rattle.std.specs.Prelude.{◌≡◌, ◌==◌, IfOk, slice_get};
ghost use Rattle.bd_machine.specs.BlockMap.{below};
ghost use Rattle.bd_machine.specs.Registry.{drop_answer, get_answer, is_born_frozen, is_count, made, put_answer, references, zero_by_drop};
ghost use Rattle.bd_rule_registry.specs.Born.{born_frozen};

use crate::bare::{freed_by_drop, has_no_other_channel, if_so};
use crate::standing::are_live;
use bd_base::{Answer, DevId, DevList, Dropped, Errno, OutOfMemory, Rows, Setup};
use bd_blocks::{below, stands_on};
use bd_machine::ResetState;
use bd_rule_view::Records;
use std::alloc::Global;

// Whether a new channel of the device is born frozen: a reset of it runs.
fn is_born_frozen<R: Records>(registry: &R, dev: DevId) -> bool
    ensures { result ≡ is_born_frozen (slice_get (R.registry_of registry.now).devices dev.0) }
{
    match registry.device(dev) {
        Some(device) => matches!(device.reset, ResetState::Running),
        None => false,
    }
}

/// The devices, from the top down, whose channels a get of the device's channel by a thread makes:
/// those down to the first that has one.
pub fn made<R: Records>(
    alloc: Global,
    setup: &Setup,
    registry: &R,
    thread: u32,
    dev: DevId,
) -> Result<DevList, OutOfMemory>
    ensures { IfOk result (λ devs. devs ≡ made (references (R.registry_of registry.now) thread) (below setup.now dev)) }
{
    let mut devs = Rows::new(alloc);
    for d in below(setup, dev) {
        if registry.references(thread, d).is_some() {
            break;
        }
        devs.push(d)?;
    }
    Ok(devs)
}

// Those that are born frozen of the channels that a get of the device's channel by a thread makes.
fn born_frozen<R: Records>(
    alloc: Global,
    setup: &Setup,
    registry: &R,
    thread: u32,
    dev: DevId,
) -> Result<DevList, OutOfMemory>
    ensures { IfOk result (λ frozen. frozen ≡ born_frozen (R.registry_of registry.now) thread (below setup.now dev)) }
{
    let mut frozen = Rows::new(alloc);
    for d in below(setup, dev) {
        if registry.references(thread, d).is_some() {
            break;
        }
        if is_born_frozen(registry, d) {
            frozen.push(d)?;
        }
    }
    Ok(frozen)
}

/// The answer to a get of the device's channel by a thread.
pub(crate) fn get_answer<R: Records>(
    alloc: Global,
    setup: &Setup,
    registry: &R,
    thread: u32,
    dev: DevId,
) -> Result<Answer, OutOfMemory>
    ensures { IfOk result (λ a. a ≡ get_answer setup.now (R.registry_of registry.now) thread dev) }
{
    if !are_live(setup, registry, dev) {
        return Ok(Answer::Refused(Errno::NoDev));
    }
    let fresh = registry.references(thread, dev).is_none();
    let frozen = born_frozen(alloc, setup, registry, thread, dev)?;
    Ok(Answer::Got { fresh, frozen })
}

/// The answer to a put of a channel with this number of references.
pub(crate) fn put_answer(references: Option<u128>) -> Answer
    ensures { result ≡ put_answer references }
{
    match references {
        None | Some(0) => Answer::Refused(Errno::NoDev),
        Some(n) => Answer::PutDown { left: n - 1 },
    }
}

// The base whose references by the thread come to zero where a channel above it goes.
fn zero_by_drop<R: Records>(registry: &R, thread: u32, base: Option<DevId>) -> Option<DevId>
    ensures { result ≡ zero_by_drop (R.registry_of registry.now) thread base }
{
    let base = base?;
    if_so(is_count(1, registry.references(thread, base)), base)
}

fn is_count(n: u128, count: Option<u128>) -> bool
    ensures { result ≡ is_count n count }
{
    match count {
        Some(c) => c == n,
        None => false,
    }
}

/// The answer to a drop of the device's channel by a thread: one without references is dropped.
pub(crate) fn drop_answer<R: Records>(
    setup: &Setup,
    registry: &R,
    thread: u32,
    dev: DevId,
) -> Answer
    ensures { result ≡ drop_answer setup.now (R.registry_of registry.now) thread dev }
{
    if !is_count(0, registry.references(thread, dev)) {
        return Answer::Dropped {
            what: Dropped::Kept,
            zero: None,
            destruct: None,
        };
    }
    let what = if has_no_other_channel(setup, registry, thread, dev) {
        Dropped::Last
    } else {
        Dropped::Gone
    };
    Answer::Dropped {
        what,
        zero: zero_by_drop(registry, thread, stands_on(setup, dev)),
        destruct: freed_by_drop(setup, registry, thread, dev),
    }
}
