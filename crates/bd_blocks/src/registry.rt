//! What the registry has before any entry.
ghost use Rattle.std.specs.Prelude.{◌≡◌, [], ◌∷◌, map, IfOk};
ghost use Rattle.bd_machine.specs.Start.{bare_registry, device_at_start, handles_from, registry_at_start};
ghost use Rattle.bd_machine.specs.Users.{all_devices, firsts};

use crate::channels::get_channel;
use crate::limits::is_limited;
use bd_base::{
    ClaimKind, DevId, ErrKind, HandleId, Injection, Injections, OutOfMemory, Rows, Setup, ThreadId,
};
use bd_machine::{Device, Handle, Registry, ResetState, Standing};
use bd_stack::{blocks_of, firsts, home, stands_on};
use std::alloc::Global;

const NO_INJECTION: Injection = Injection {
    kind: ErrKind::Failure,
    left: 0,
};

const NO_INJECTIONS: Injections = Injections {
    read: NO_INJECTION,
    write: NO_INJECTION,
    zeroes: NO_INJECTION,
    unmap: NO_INJECTION,
    flush: NO_INJECTION,
};

fn device_at_start(alloc: Global, setup: &Setup, dev: DevId) -> Device
    ensures { result ≡ device_at_start setup.now dev }
{
    let injections = match setup.injections.as_slice().get(dev.0 as usize) {
        Some(injections) => *injections,
        None => NO_INJECTIONS,
    };
    Device {
        standing: Standing::Live,
        reset: ResetState::Idle,
        waiting: Rows::new(alloc),
        injections,
        blocks: blocks_of(setup, dev),
        growing: None,
    }
}

// The devices by number. More than 32 bits count are out of memory.
fn devices_at_start(alloc: Global, setup: &Setup) -> Result<Rows<Device>, OutOfMemory>
    ensures { IfOk result (λ ds. ds ≡ map (device_at_start setup.now) (all_devices setup.now)) }
{
    let Ok(count) = u32::try_from(setup.devices.len()) else {
        return Err(OutOfMemory);
    };
    let mut devices = Rows::new(alloc);
    for n in 0..count {
        devices.push(device_at_start(alloc, setup, DevId(n)))?;
    }
    Ok(devices)
}

// The base handle of this number, which the first device of a group has open.
fn base_handle(setup: &Setup, number: u128, first: DevId) -> Handle
    ensures { handles_from setup.now number (first ∷ []) ≡ result ∷ [] }
{
    let dev = stands_on(setup, first).unwrap_or(first);
    Handle {
        id: HandleId(number),
        dev,
        thread: ThreadId(home(setup, first)),
        write: true,
        claim: Some(ClaimKind::Exclusive),
        blocks: blocks_of(setup, dev),
    }
}

// The base handles, which are open from the start.
fn base_handles(alloc: Global, setup: &Setup, firsts: &[DevId]) -> Result<Rows<Handle>, OutOfMemory>
    ensures { IfOk result (λ hs. hs ≡ handles_from setup.now 0 firsts.now) }
{
    let mut handles = Rows::new(alloc);
    for (number, first) in firsts.iter().enumerate() {
        handles.push(base_handle(setup, number as u128, *first))?;
    }
    Ok(handles)
}

// The registry before any thread has a channel.
fn bare_registry(alloc: Global, setup: &Setup) -> Result<Registry, OutOfMemory>
    ensures { IfOk result (λ r. r ≡ bare_registry setup.now) }
{
    let firsts = firsts(alloc, setup)?;
    Ok(Registry {
        handles: base_handles(alloc, setup, firsts.as_slice())?,
        next: firsts.len() as u128,
        devices: devices_at_start(alloc, setup)?,
        channels: Rows::new(alloc),
        between: None,
    })
}

/// What the registry has before any entry: every device, live; the base handles, each open on the home
/// of the first device that has it; and a channel of each limited device on its home.
pub fn registry_at_start(alloc: Global, setup: &Setup) -> Result<Registry, OutOfMemory>
    ensures { IfOk result (λ r. r ≡ registry_at_start setup.now) }
{
    let Ok(count) = u32::try_from(setup.devices.len()) else {
        return Err(OutOfMemory);
    };
    let mut registry = bare_registry(alloc, setup)?;
    for n in 0..count {
        let dev = DevId(n);
        if is_limited(setup, dev) {
            get_channel(alloc, setup, home(setup, dev), dev, &mut registry)?;
        }
    }
    Ok(registry)
}
