//! The devices in the registry after an event and its answer.
ghost use Rattle.std.specs.Prelude.{◌≡◌, OnOk, OnErr};
ghost use Rattle.bd_machine.specs.Changes.{begun_growing, devices_after, grown_to, less_injection, with_reset, with_standing, with_waiting, without_next};
ghost use Rattle.bd_machine.specs.Table.{change_at};

use bd_base::{Answer, DevId, Op, OutOfMemory, RegEvent, ReqId, Rows};
use bd_error::InjectionCalls;
use bd_machine::{Device, ResetState, Standing};

#[tactic(auto, using(crate::proofs::Places::set_at, crate::proofs::Places::none_at))]
fn set_standing(devices: &mut Rows<Device>, dev: DevId, standing: Standing)
    ensures { devices.new ≡ change_at dev.0 (with_standing standing) devices.old }
{
    let place = dev.0 as usize;
    if place < devices.len() {
        devices.at_mut(place).standing = standing;
    }
}

#[tactic(auto, using(crate::proofs::Places::set_at, crate::proofs::Places::none_at))]
fn set_reset(devices: &mut Rows<Device>, dev: DevId, reset: ResetState)
    ensures { devices.new ≡ change_at dev.0 (with_reset reset) devices.old }
{
    let place = dev.0 as usize;
    if place < devices.len() {
        devices.at_mut(place).reset = reset;
    }
}

// A reset waits for those before it.
#[tactic(auto, using(crate::proofs::Places::set_at, crate::proofs::Places::none_at))]
fn wait_for_reset(devices: &mut Rows<Device>, dev: DevId, req: ReqId) -> Result<(), OutOfMemory>
    ensures ok { OnOk result (devices.new ≡ change_at dev.0 (with_waiting req) devices.old) }
    ensures err { OnErr result (devices.new ≡ devices.old) }
{
    let place = dev.0 as usize;
    if place < devices.len() {
        devices.at_mut(place).waiting.push(req)?;
    }
    Ok(())
}

fn start_next(device: &mut Device)
    ensures { device.new ≡ without_next device.old }
{
    device.reset = ResetState::Running;
    if device.waiting.len() != 0 {
        let _ = device.waiting.remove(0);
    }
}

// The next reset of a device runs.
#[tactic(auto, using(crate::proofs::Places::set_at, crate::proofs::Places::none_at))]
fn start_next_reset(devices: &mut Rows<Device>, dev: DevId)
    ensures { devices.new ≡ change_at dev.0 without_next devices.old }
{
    let place = dev.0 as usize;
    if place < devices.len() {
        start_next(devices.at_mut(place));
    }
}

// A request of this type took what a device injects.
#[tactic(auto, using(crate::proofs::Places::set_at, crate::proofs::Places::none_at))]
fn take_injection(devices: &mut Rows<Device>, dev: DevId, op: Op)
    ensures { devices.new ≡ change_at dev.0 (less_injection op) devices.old }
{
    let place = dev.0 as usize;
    if place < devices.len() {
        let _ = devices.at_mut(place).injections.take(&op);
    }
}

// A device is growing to this number of blocks.
#[tactic(auto, using(crate::proofs::Places::set_at, crate::proofs::Places::none_at))]
fn begin_growing(devices: &mut Rows<Device>, dev: DevId, blocks: u64)
    ensures { devices.new ≡ change_at dev.0 (begun_growing blocks) devices.old }
{
    let place = dev.0 as usize;
    if place < devices.len() {
        devices.at_mut(place).growing = Some(blocks);
    }
}

fn grow_one(device: &mut Device, blocks: u64)
    ensures { device.new ≡ grown_to blocks device.old }
{
    device.blocks = blocks;
    device.growing = None;
}

// A device has this number of blocks from now on.
#[tactic(auto, using(crate::proofs::Places::set_at, crate::proofs::Places::none_at))]
fn end_growing(devices: &mut Rows<Device>, dev: DevId, blocks: u64)
    ensures { devices.new ≡ change_at dev.0 (grown_to blocks) devices.old }
{
    let place = dev.0 as usize;
    if place < devices.len() {
        grow_one(devices.at_mut(place), blocks);
    }
}

/// The devices after an event and its answer. Out of memory leaves them as they were.
pub fn change_devices(
    devices: &mut Rows<Device>,
    event: &RegEvent,
    answer: &Answer,
) -> Result<(), OutOfMemory>
    ensures ok { OnOk result (devices.new ≡ devices_after devices.old event.now answer.now) }
    ensures err { OnErr result (devices.new ≡ devices.old) }
{
    match (event, answer) {
        (_, Answer::Removing { dev, .. }) => set_standing(devices, *dev, Standing::Removing),
        (RegEvent::Destructed { dev }, Answer::Freed { .. }) => {
            set_standing(devices, *dev, Standing::Destructed)
        }
        (RegEvent::BeginReset { dev, .. }, Answer::ResetStarted { .. }) => {
            set_reset(devices, *dev, ResetState::Running)
        }
        (RegEvent::BeginReset { dev, req }, Answer::ResetQueued) => {
            return wait_for_reset(devices, *dev, *req);
        }
        (RegEvent::EndReset { dev }, Answer::ResetEnded { .. }) => {
            set_reset(devices, *dev, ResetState::Thawing)
        }
        (RegEvent::FinishReset { dev }, Answer::ResetFinished { next: Some(_) }) => {
            start_next_reset(devices, *dev)
        }
        (RegEvent::FinishReset { dev }, Answer::ResetFinished { next: None }) => {
            set_reset(devices, *dev, ResetState::Idle)
        }
        (RegEvent::TakeInjection { dev, op, .. }, Answer::Injected { .. }) => {
            take_injection(devices, *dev, *op)
        }
        (RegEvent::BeginResize { blocks, .. }, Answer::Resizing { dev, .. }) => {
            begin_growing(devices, *dev, *blocks)
        }
        (RegEvent::EndResize { dev }, Answer::Resized { blocks, .. }) => {
            end_growing(devices, *dev, *blocks)
        }
        _ => {}
    }
    Ok(())
}
