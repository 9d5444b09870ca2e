//! Answers about devices: a removal, resets, an injection and the end of a device.
ghost use Rattle.std.specs.Prelude.{◌≡◌, map, option_copied, IfOk};
ghost use Rattle.bd_machine.specs.Registry.{begin_reset_answer, destructed_answer, end_reset_answer, finish_reset_answer, handles_on, injection_answer, is_destructed_standing, is_last_user, left_open, next_reset, opener_of, remove_answer, remove_answer_at, standing_of};
ghost use Rattle.bd_machine.specs.Users.{base_handle};
ghost use Rattle.bd_machine.specs.declared.state.Standing.TheVariants as standings;

use crate::bare::{if_so, is_free, is_unused, threads_of};
use crate::sizes::is_growing;
use crate::standing::standing_of;
use bd_base::{
    Answer, DevId, Errno, HandleId, HandleList, Op, OutOfMemory, ReqId, Rows, Setup, ThreadSet,
};
use bd_blocks::{base_handle, is_error, users};
use bd_error::InjectionCalls;
use bd_machine::{Device, ResetState, Standing};
use bd_rule_view::Records;
use std::alloc::Global;

// The open handles of a device, with their threads.
fn openers_of<R: Records>(
    alloc: Global,
    registry: &R,
    dev: DevId,
) -> Result<HandleList, OutOfMemory>
    ensures { IfOk result (λ hs. hs ≡ map opener_of (handles_on (R.registry_of registry.now) dev)) }
{
    let mut openers = Rows::new(alloc);
    for h in registry.handles_of(dev) {
        if h.dev.0 == dev.0 {
            openers.push((h.id, h.thread))?;
        }
    }
    Ok(openers)
}

// The answer to a removal of a live device.
fn removing<R: Records>(
    alloc: Global,
    setup: &Setup,
    registry: &R,
    dev: DevId,
) -> Result<Answer, OutOfMemory>
    ensures { IfOk result (λ a. a ≡ remove_answer_at setup.now (R.registry_of registry.now) dev standings.Live) }
{
    let threads = threads_of(setup, registry, dev)?;
    let handles = openers_of(alloc, registry, dev)?;
    let is_bare = is_unused(setup, registry, dev) && !is_growing(registry, dev);
    Ok(Answer::Removing {
        dev,
        threads,
        handles,
        destruct: if_so(is_bare, dev),
    })
}

/// The answer to a removal of the device at this place, or of none. A place that passes 32 bits
/// counts as out of memory.
pub(crate) fn remove_answer<R: Records>(
    alloc: Global,
    setup: &Setup,
    registry: &R,
    place: Option<usize>,
) -> Result<Answer, OutOfMemory>
    ensures { IfOk result (λ a. a ≡ remove_answer setup.now (R.registry_of registry.now) place) }
{
    let Some(place) = place else {
        return Ok(Answer::Refused(Errno::NoDev));
    };
    let Ok(number) = u32::try_from(place) else {
        return Err(OutOfMemory);
    };
    let dev = DevId(number);
    match standing_of(registry, dev) {
        Standing::Live => removing(alloc, setup, registry, dev),
        Standing::Removing => Ok(Answer::Refused(Errno::Busy)),
        Standing::Destructed => Ok(Answer::Refused(Errno::NoDev)),
    }
}

/// The answer to the beginning of a reset of a device over these threads.
pub(crate) fn begin_reset_answer(threads: ThreadSet, device: Option<&Device>) -> Answer
    ensures { result ≡ begin_reset_answer threads (option_copied device.entry) }
{
    let Some(device) = device else {
        return Answer::Refused(Errno::NoDev);
    };
    if matches!(device.standing, Standing::Destructed) {
        Answer::Refused(Errno::NoDev)
    } else if matches!(device.reset, ResetState::Idle) {
        Answer::ResetStarted { threads }
    } else {
        Answer::ResetQueued
    }
}

/// The answer to the end of a reset of a device, which thaws over these threads.
pub(crate) fn end_reset_answer(threads: ThreadSet, device: Option<&Device>) -> Answer
    ensures { result ≡ end_reset_answer threads (option_copied device.entry) }
{
    match device {
        Some(device) if matches!(device.reset, ResetState::Running) => {
            Answer::ResetEnded { threads }
        }
        _ => Answer::Refused(Errno::Inval),
    }
}

// The next reset that waits, with the threads that have a channel.
fn next_reset(threads: ThreadSet, waiting: &[ReqId]) -> Option<(ReqId, ThreadSet)>
    ensures { result ≡ next_reset threads waiting.now }
{
    match waiting {
        [] => None,
        [req, ..] => Some((*req, threads)),
    }
}

/// The answer to the finish of a reset of a device; these threads have a channel of it.
pub(crate) fn finish_reset_answer(threads: ThreadSet, device: Option<&Device>) -> Answer
    ensures { result ≡ finish_reset_answer threads (option_copied device.entry) }
{
    match device {
        Some(device) if matches!(device.reset, ResetState::Thawing) => Answer::ResetFinished {
            next: next_reset(threads, device.waiting.as_slice()),
        },
        _ => Answer::Refused(Errno::Inval),
    }
}

/// The answer to a request of this type that asks a device what it injects.
pub(crate) fn injection_answer(setup: &Setup, dev: DevId, op: Op, device: Option<&Device>) -> Answer
    ensures { result ≡ injection_answer setup.now dev op (option_copied device.entry) }
{
    let Some(device) = device else {
        return Answer::Refused(Errno::Inval);
    };
    if !is_error(setup, dev) {
        return Answer::Refused(Errno::Inval);
    }
    let mut injections = device.injections;
    Answer::Injected {
        decision: injections.take(&op),
    }
}

fn is_destructed<R: Records>(registry: &R, dev: DevId) -> bool
    ensures { result ≡ is_destructed_standing (standing_of (R.registry_of registry.now) dev) }
{
    matches!(standing_of(registry, dev), Standing::Destructed)
}

// Whether every user of a base handle but this one was destructed.
fn is_last_user<R: Records>(
    alloc: Global,
    setup: &Setup,
    registry: &R,
    dev: DevId,
    handle: HandleId,
) -> Result<bool, OutOfMemory>
    ensures { IfOk result (λ last. last ≡ is_last_user setup.now (R.registry_of registry.now) dev handle) }
{
    let users = users(alloc, setup, handle)?;
    for user in users.as_slice() {
        if user.0 != dev.0 && !is_destructed(registry, *user) {
            return Ok(false);
        }
    }
    Ok(true)
}

// The base handle of a device, where it is open and the device is its last user.
fn left_open<R: Records>(
    alloc: Global,
    setup: &Setup,
    registry: &R,
    dev: DevId,
) -> Result<Option<HandleId>, OutOfMemory>
    ensures { IfOk result (λ h. h ≡ left_open setup.now (R.registry_of registry.now) dev (base_handle setup.now dev)) }
{
    let Some(handle) = base_handle(setup, dev) else {
        return Ok(None);
    };
    if registry.handle(handle).is_none() {
        return Ok(None);
    }
    if is_last_user(alloc, setup, registry, dev, handle)? {
        Ok(Some(handle))
    } else {
        Ok(None)
    }
}

/// The answer to the report that a device was destructed.
pub(crate) fn destructed_answer<R: Records>(
    alloc: Global,
    setup: &Setup,
    registry: &R,
    dev: DevId,
) -> Result<Answer, OutOfMemory>
    ensures { IfOk result (λ a. a ≡ destructed_answer setup.now (R.registry_of registry.now) dev) }
{
    if !is_free(setup, registry, dev) {
        return Ok(Answer::Refused(Errno::Inval));
    }
    Ok(Answer::Freed {
        close: left_open(alloc, setup, registry, dev)?,
    })
}
