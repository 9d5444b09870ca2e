//! Channels: how many references each thread has to each device.
ghost use Rattle.std.specs.Prelude.{◌≡◌, IfOk, OnOk, map, position};
ghost use Rattle.std.specs.Option.{option_flatten};
ghost use Rattle.bd_blocks.specs.Counts.{count_of};
ghost use Rattle.bd_machine.specs.BlockMap.{below};
ghost use Rattle.bd_machine.specs.Changes.{counts_got, counts_set};
ghost use Rattle.bd_machine.specs.Registry.{references};
ghost use Rattle.bd_machine.specs.Same.{same_channel};
ghost use Rattle.bd_machine.specs.Table.{look_up, write};

use bd_base::{DevId, OutOfMemory, Rows, Setup};
use bd_machine::{Channel, Registry};
use bd_stack::below;
use std::alloc::Global;

// The place of a channel in the table.
fn place_of(channels: &[(Channel, Option<u128>)], thread: u32, dev: DevId) -> Option<usize>
    ensures { result ≡ position (λ e. same_channel e.0 (record { dev = dev; thread = thread })) channels.now }
{
    channels
        .iter()
        .position(|(c, _)| c.dev.0 == dev.0 && c.thread == thread)
}

/// How many references a thread has to a device; none where it has no channel.
pub fn references(registry: &Registry, thread: u32, dev: DevId) -> Option<u128>
    ensures { result ≡ references registry.now thread dev }
{
    match place_of(registry.channels.as_slice(), thread, dev) {
        Some(place) => registry.channels.as_slice()[place].1,
        None => None,
    }
}

/// Sets how many references a thread has to a device; none for no channel.
pub fn set_count(
    channels: &mut Rows<(Channel, Option<u128>)>,
    thread: u32,
    dev: DevId,
    count: Option<u128>,
) -> Result<(), OutOfMemory>
    ensures { OnOk result (channels.new ≡ write same_channel channels.old (record { dev = dev; thread = thread }) count) }
{
    let channel = Channel { dev, thread };
    match place_of(channels.as_slice(), thread, dev) {
        Some(place) => {
            channels.set(place, (channel, count));
            Ok(())
        }
        None => {
            channels.push((channel, count))?;
            Ok(())
        }
    }
}

// The references that a get changes, as they are from then on.
fn counts_got(
    alloc: Global,
    setup: &Setup,
    thread: u32,
    dev: DevId,
    registry: &Registry,
) -> Result<Rows<(DevId, u128)>, OutOfMemory>
    ensures { IfOk result (λ cs. map count_of cs ≡ counts_got (references registry.now thread) (below setup.now dev)) }
{
    let mut counts = Rows::new(alloc);
    for lower in below(setup, dev) {
        match references(registry, thread, lower) {
            None => counts.push((lower, 1))?,
            Some(n) => {
                let more = n.checked_add(1).ok_or(OutOfMemory)?;
                counts.push((lower, more))?;
                return Ok(counts);
            }
        }
    }
    Ok(counts)
}

// Sets these counts of a thread, one after the other.
fn set_counts(
    channels: &mut Rows<(Channel, Option<u128>)>,
    thread: u32,
    counts: &[(DevId, u128)],
) -> Result<(), OutOfMemory>
    ensures { OnOk result (channels.new ≡ counts_set thread (map count_of counts.now) channels.old) }
{
    for got in counts {
        let (dev, count) = *got;
        set_count(channels, thread, dev, Some(count))?;
    }
    Ok(())
}

/// A thread gets a channel of a device: one that is there gains a reference, else one is made and the
/// one below it is got likewise. A count that passes 128 bits is out of memory.
pub fn get_channel(
    alloc: Global,
    setup: &Setup,
    thread: u32,
    dev: DevId,
    registry: &mut Registry,
) -> Result<(), OutOfMemory>
    ensures { OnOk result (registry.new ≡ record registry.old {
      channels = counts_set thread (counts_got (references registry.old thread) (below setup.now dev)) registry.old.channels;
    }) }
{
    let counts = counts_got(alloc, setup, thread, dev, registry)?;
    set_counts(&mut registry.channels, thread, counts.as_slice())?;
    Ok(())
}
