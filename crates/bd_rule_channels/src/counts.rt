//! The counts that an answer changes, of the thread that asked.
ghost use Rattle.std.specs.Prelude.{◌≡◌, ◌++◌, ◌∷◌, [], None, Some, map, IfOk};
ghost use Rattle.bd_rule_channels.specs.Counts.{count_for};
ghost use Rattle.bd_machine.specs.BlockMap.{below, stands_on};
ghost use Rattle.bd_machine.specs.Changes.{base_put, counts_after, counts_got, one_less};
ghost use Rattle.bd_machine.specs.Registry.{references};

use bd_base::{Answer, DevId, Dropped, OutOfMemory, RegEvent, Rows, Setup};
use bd_blocks::{below, stands_on};
use bd_rule_view::Records;
use std::alloc::Global;

// A get: a channel that is there gains a reference, else one is made, and the one below it is got
// likewise.
fn counts_got<R: Records>(
    alloc: Global,
    setup: &Setup,
    registry: &R,
    thread: u32,
    dev: DevId,
) -> Result<Rows<(DevId, Option<u128>)>, OutOfMemory>
    ensures { IfOk result (λ cs. map count_for cs ≡ counts_got (references (R.registry_of registry.now) thread) (below setup.now dev)) }
{
    let mut counts = Rows::new(alloc);
    for lower in below(setup, dev) {
        match registry.references(thread, lower) {
            None => counts.push((lower, Some(1)))?,
            Some(n) => {
                let more = n.checked_add(1).ok_or(OutOfMemory)?;
                counts.push((lower, Some(more)))?;
                return Ok(counts);
            }
        }
    }
    Ok(counts)
}

// A put of this device's channel.
fn counts_put(
    alloc: Global,
    dev: DevId,
    left: u128,
) -> Result<Rows<(DevId, Option<u128>)>, OutOfMemory>
    ensures { IfOk result (λ cs. cs ≡ (dev, Some left) ∷ []) }
{
    let mut counts = Rows::new(alloc);
    counts.push((dev, Some(left)))?;
    Ok(counts)
}

fn one_less(count: Option<u128>) -> Option<u128>
    ensures { result ≡ one_less count }
{
    match count {
        Some(n) => Some(n.saturating_sub(1)),
        None => None,
    }
}

// A drop: the channel is gone, and the device below has one reference less.
fn counts_dropped<R: Records>(
    alloc: Global,
    setup: &Setup,
    registry: &R,
    thread: u32,
    dev: DevId,
) -> Result<Rows<(DevId, Option<u128>)>, OutOfMemory>
    ensures { IfOk result (λ cs. map count_for cs ≡ base_put (references (R.registry_of registry.now) thread) (stands_on setup.now dev) ++ record { dev = dev; count = None } ∷ []) }
{
    let mut counts = Rows::new(alloc);
    if let Some(base) = stands_on(setup, dev) {
        counts.push((base, one_less(registry.references(thread, base))))?;
    }
    counts.push((dev, None))?;
    Ok(counts)
}

/// The counts of a thread that the answer to its event changes, as they are from then on, in the order
/// in which they are set; none is for no channel. A count that passes 128 bits is out of memory: it
/// takes more events than there are stamps.
pub fn counts_after<R: Records>(
    alloc: Global,
    setup: &Setup,
    registry: &R,
    thread: u32,
    event: &RegEvent,
    answer: &Answer,
) -> Result<Rows<(DevId, Option<u128>)>, OutOfMemory>
    ensures { IfOk result (λ cs. map count_for cs ≡ counts_after setup.now (references (R.registry_of registry.now) thread) event.now answer.now) }
{
    match (event, answer) {
        (RegEvent::GetChannel { dev }, Answer::Got { .. }) => {
            counts_got(alloc, setup, registry, thread, *dev)
        }
        (RegEvent::PutChannel { dev, .. }, Answer::PutDown { left }) => {
            counts_put(alloc, *dev, *left)
        }
        (
            RegEvent::DropChannel { .. },
            Answer::Dropped {
                what: Dropped::Kept,
                ..
            },
        ) => Ok(Rows::new(alloc)),
        (RegEvent::DropChannel { dev }, Answer::Dropped { .. }) => {
            counts_dropped(alloc, setup, registry, thread, *dev)
        }
        _ => Ok(Rows::new(alloc)),
    }
}
