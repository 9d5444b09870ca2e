//! What stands against a destruction: open handles and channels.
ghost use Rattle.std.specs.Prelude.{◌≡◌, ◌==◌, filter, length, not, IfOk};
ghost use Rattle.bd_machine.specs.Registry.{freed_by_close, freed_by_resize, handles_on, if_so, is_bare, is_free, is_own, is_removing_standing, is_unused, other_threads_of, standing_of, threads_of};
ghost use Rattle.bd_machine.specs.Threads.{is_nobody};

use crate::sizes::is_growing;
use crate::standing::standing_of;
use bd_base::{DevId, HandleId, OutOfMemory, Setup, ThreadSet};
use bd_blocks::with_thread;
use bd_machine::Standing;
use bd_rule_view::Records;

/// The threads that have a channel of the device. A thread of 16 or more among them counts as out of
/// memory.
pub fn threads_of<R: Records>(
    setup: &Setup,
    registry: &R,
    dev: DevId,
) -> Result<ThreadSet, OutOfMemory>
    ensures { IfOk result (λ threads. threads ≡ threads_of setup.now (R.registry_of registry.now) dev) }
{
    let mut threads = ThreadSet::empty();
    for t in 0..setup.threads {
        threads = with_thread(threads, t, registry.references(t, dev).is_some())?;
    }
    Ok(threads)
}

/// The threads but this one that have a channel of the device. A thread of 16 or more among them
/// counts as out of memory.
pub(crate) fn other_threads_of<R: Records>(
    setup: &Setup,
    registry: &R,
    thread: u32,
    dev: DevId,
) -> Result<ThreadSet, OutOfMemory>
    ensures { IfOk result (λ threads. threads ≡ other_threads_of setup.now (R.registry_of registry.now) thread dev) }
{
    let mut threads = ThreadSet::empty();
    for t in 0..setup.threads {
        let has_one = thread != t && registry.references(t, dev).is_some();
        threads = with_thread(threads, t, has_one)?;
    }
    Ok(threads)
}

/// Whether no thread has a channel of the device.
pub(crate) fn has_no_channel<R: Records>(setup: &Setup, registry: &R, dev: DevId) -> bool
    ensures { result ≡ is_nobody (threads_of setup.now (R.registry_of registry.now) dev) }
{
    for t in (0..setup.threads).rev() {
        if registry.references(t, dev).is_some() {
            return false;
        }
    }
    true
}

/// Whether no thread but this one has a channel of the device.
pub(crate) fn has_no_other_channel<R: Records>(
    setup: &Setup,
    registry: &R,
    thread: u32,
    dev: DevId,
) -> bool
    ensures { result ≡ is_nobody (other_threads_of setup.now (R.registry_of registry.now) thread dev) }
{
    for t in (0..setup.threads).rev() {
        if thread != t && registry.references(t, dev).is_some() {
            return false;
        }
    }
    true
}

/// Whether no handle of the device is open.
pub(crate) fn has_no_handle<R: Records>(registry: &R, dev: DevId) -> bool
    ensures { result ≡ (length (handles_on (R.registry_of registry.now) dev) == 0) }
{
    for h in registry.handles_of(dev) {
        if h.dev.0 == dev.0 {
            return false;
        }
    }
    true
}

// Whether no handle of the device is open but this thread's of this number.
fn has_no_other_handle<R: Records>(registry: &R, thread: u32, id: HandleId, dev: DevId) -> bool
    ensures { result ≡ (length (filter (λ h. not (is_own thread id h)) (handles_on (R.registry_of registry.now) dev)) == 0) }
{
    for h in registry.handles_of(dev) {
        let is_own = h.id.0 == id.0 && h.thread.0 == thread;
        if h.dev.0 == dev.0 && !is_own {
            return false;
        }
    }
    true
}

fn is_removing<R: Records>(registry: &R, dev: DevId) -> bool
    ensures { result ≡ is_removing_standing (standing_of (R.registry_of registry.now) dev) }
{
    matches!(standing_of(registry, dev), Standing::Removing)
}

/// Whether the device has neither handle nor channel.
pub(crate) fn is_unused<R: Records>(setup: &Setup, registry: &R, dev: DevId) -> bool
    ensures { result ≡ is_unused (handles_on (R.registry_of registry.now) dev) (threads_of setup.now (R.registry_of registry.now) dev) }
{
    has_no_handle(registry, dev) && has_no_channel(setup, registry, dev)
}

/// Whether the device may be destructed: it is being removed, with neither handle nor channel, and no resize
/// of it is under way.
pub fn is_free<R: Records>(setup: &Setup, registry: &R, dev: DevId) -> bool
    ensures { result ≡ is_free setup.now (R.registry_of registry.now) dev }
{
    is_removing(registry, dev) && is_unused(setup, registry, dev) && !is_growing(registry, dev)
}

/// The device, where the close of this thread's handle of it leaves it to be destructed.
pub(crate) fn freed_by_close<R: Records>(
    setup: &Setup,
    registry: &R,
    thread: u32,
    id: HandleId,
    dev: DevId,
) -> Option<DevId>
    ensures { result ≡ freed_by_close setup.now (R.registry_of registry.now) thread id dev }
{
    let is_bare = is_removing(registry, dev)
        && has_no_other_handle(registry, thread, id, dev)
        && has_no_channel(setup, registry, dev)
        && !is_growing(registry, dev);
    if_so(is_bare, dev)
}

/// The device, where the drop of this thread's channel of it leaves it to be destructed.
pub(crate) fn freed_by_drop<R: Records>(
    setup: &Setup,
    registry: &R,
    thread: u32,
    dev: DevId,
) -> Option<DevId>
    ensures { result ≡ if_so (is_bare (R.registry_of registry.now) dev (handles_on (R.registry_of registry.now) dev) (other_threads_of setup.now (R.registry_of registry.now) thread dev)) dev }
{
    let is_bare = is_removing(registry, dev)
        && has_no_handle(registry, dev)
        && has_no_other_channel(setup, registry, thread, dev)
        && !is_growing(registry, dev);
    if_so(is_bare, dev)
}

/// The device, where the end of its resize leaves it to be destructed.
pub(crate) fn freed_by_resize<R: Records>(setup: &Setup, registry: &R, dev: DevId) -> Option<DevId>
    ensures { result ≡ freed_by_resize setup.now (R.registry_of registry.now) dev }
{
    if_so(
        is_removing(registry, dev) && is_unused(setup, registry, dev),
        dev,
    )
}

pub(crate) fn if_so(so: bool, dev: DevId) -> Option<DevId>
    ensures { result ≡ if_so so dev }
{
    if so { Some(dev) } else { None }
}
