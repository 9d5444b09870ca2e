//! Answers about resizes: a beginning and an end.
ghost use Rattle.std.specs.Prelude.{◌≡◌, filter, map, nat_lt, IfOk};
ghost use Rattle.bd_machine.specs.Registry.{can_grow, end_resize_answer, growing_of, is_bad_size, is_resized, malloc_bytes, malloc_bytes_at, most_blocks, opener_of, resize_answer, resize_refusal};

use crate::bare::freed_by_resize;
use crate::handles::refused_or;
use crate::sizes::{blocks_in, blocks_to_come, growing_of, is_growing};
use crate::standing::is_live;
use bd_base::{Answer, DevId, Errno, HandleList, OutOfMemory, Rows, Setup, ThreadId};
use bd_blocks::{home, is_base_handle, is_malloc, is_null, is_over, size_of};
use bd_machine::Handle;
use bd_rule_view::Records;
use std::alloc::Global;

/// The most blocks of a malloc device, 2^21, and of a null device, 2^40.
const MOST_OF_MALLOC: u64 = 2097152;

const MOST_OF_NULL: u64 = 1099511627776;

/// The most bytes of all malloc devices together: 1 GiB.
const MOST_BYTES: u128 = 1073741824;

fn can_grow(setup: &Setup, dev: DevId) -> bool
    ensures { result ≡ can_grow setup.now dev }
{
    is_malloc(setup, dev) || is_null(setup, dev)
}

fn most_blocks(setup: &Setup, dev: DevId) -> u64
    ensures { result ≡ most_blocks setup.now dev }
{
    if is_malloc(setup, dev) {
        MOST_OF_MALLOC
    } else {
        MOST_OF_NULL
    }
}

// The bytes of device d, if it is a malloc device, where `dev` were to have this many blocks.
fn malloc_bytes_at<R: Records>(
    setup: &Setup,
    registry: &R,
    dev: DevId,
    blocks: u64,
    d: DevId,
) -> u128
    ensures { result ≡ malloc_bytes_at setup.now (R.registry_of registry.now) dev blocks d }
{
    if !is_malloc(setup, d) {
        return 0;
    }
    let counted = if d.0 == dev.0 {
        blocks
    } else {
        blocks_to_come(registry, d)
    };
    counted as u128 * size_of(setup, d) as u128
}

// Whether the malloc devices, destructed ones too, would have more than 1 GiB together, where this device were to
// have this many blocks. More devices than 32 bits count answer out of memory.
#[tactic(auto, using(crate::proofs::Sums::passes, crate::proofs::Sums::fits, crate::proofs::Sums::leaves))]
fn passes_memory<R: Records>(
    setup: &Setup,
    registry: &R,
    dev: DevId,
    blocks: u64,
) -> Result<bool, OutOfMemory>
    ensures { IfOk result (λ passes. passes ≡ nat_lt 1073741824 (malloc_bytes setup.now (R.registry_of registry.now) dev blocks)) }
{
    let Ok(count) = u32::try_from(setup.devices.len()) else {
        return Err(OutOfMemory);
    };
    let mut left = MOST_BYTES;
    for n in 0..count {
        let bytes = malloc_bytes_at(setup, registry, dev, blocks, DevId(n));
        if left < bytes {
            return Ok(true);
        }
        left -= bytes;
    }
    Ok(false)
}

// Whether the device can't grow to this number of blocks.
fn is_bad_size<R: Records>(
    setup: &Setup,
    registry: &R,
    dev: DevId,
    blocks: u64,
) -> Result<bool, OutOfMemory>
    ensures { IfOk result (λ bad. bad ≡ is_bad_size setup.now (R.registry_of registry.now) dev blocks) }
{
    let is_larger = can_grow(setup, dev)
        && blocks_in(registry, dev) < blocks
        && blocks <= most_blocks(setup, dev);
    if !is_larger {
        return Ok(true);
    }
    if !is_malloc(setup, dev) {
        return Ok(false);
    }
    passes_memory(setup, registry, dev, blocks)
}

fn resize_refusal<R: Records>(
    setup: &Setup,
    registry: &R,
    dev: DevId,
    blocks: u64,
) -> Result<Option<Errno>, OutOfMemory>
    ensures { IfOk result (λ errno. errno ≡ resize_refusal setup.now (R.registry_of registry.now) dev blocks) }
{
    if !is_live(registry, dev) {
        return Ok(Some(Errno::NoDev));
    }
    if is_growing(registry, dev) {
        return Ok(Some(Errno::Busy));
    }
    if is_bad_size(setup, registry, dev, blocks)? {
        Ok(Some(Errno::Inval))
    } else {
        Ok(None)
    }
}

/// The answer to a resize to this many blocks of the device at this place, or of none. A place that passes 32
/// bits, and more devices than 32 bits count, answer out of memory.
pub(crate) fn resize_answer<R: Records>(
    setup: &Setup,
    registry: &R,
    blocks: u64,
    place: Option<usize>,
) -> Result<Answer, OutOfMemory>
    ensures { IfOk result (λ a. a ≡ resize_answer setup.now (R.registry_of registry.now) blocks place) }
{
    let Some(place) = place else {
        return Ok(Answer::Refused(Errno::NoDev));
    };
    let Ok(number) = u32::try_from(place) else {
        return Err(OutOfMemory);
    };
    let dev = DevId(number);
    let refusal = resize_refusal(setup, registry, dev, blocks)?;
    let home = ThreadId(home(setup, dev));
    Ok(refused_or(refusal, Answer::Resizing { dev, home }))
}

// Whether it is a script's handle whose device takes the size of this one.
fn is_resized(setup: &Setup, dev: DevId, handle: &Handle) -> bool
    ensures { result ≡ is_resized setup.now dev handle.now }
{
    !is_base_handle(setup, handle.id) && is_over(setup, dev, handle.dev)
}

// Those of the handles whose devices take the size of this one, with their threads.
fn resized(
    alloc: Global,
    setup: &Setup,
    dev: DevId,
    handles: &[Handle],
) -> Result<HandleList, OutOfMemory>
    ensures { IfOk result (λ hs. hs ≡ map opener_of (filter (is_resized setup.now dev) handles.now)) }
{
    let mut openers = Rows::new(alloc);
    for h in handles {
        if is_resized(setup, dev, h) {
            openers.push((h.id, h.thread))?;
        }
    }
    Ok(openers)
}

/// The answer to the end of a resize of a device.
pub(crate) fn end_resize_answer<R: Records>(
    alloc: Global,
    setup: &Setup,
    registry: &R,
    dev: DevId,
) -> Result<Answer, OutOfMemory>
    ensures { IfOk result (λ a. a ≡ end_resize_answer setup.now (R.registry_of registry.now) dev (growing_of (R.registry_of registry.now) dev)) }
{
    let Some(blocks) = growing_of(registry, dev) else {
        return Ok(Answer::Refused(Errno::Inval));
    };
    let handles = registry.open_handles(alloc)?;
    Ok(Answer::Resized {
        handles: resized(alloc, setup, dev, handles.as_slice())?,
        blocks,
        destruct: freed_by_resize(setup, registry, dev),
    })
}
