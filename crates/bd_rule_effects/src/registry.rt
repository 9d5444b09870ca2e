//! The registry after an event and its answer.
ghost use Rattle.std.specs.Prelude.{◌≡◌, Some, filter, map, not, cond, IfOk, OnOk, OnErr};
ghost use Rattle.bd_rule_channels.specs.Counts.{count_for};
ghost use Rattle.bd_machine.specs.Changes.{between_after, counts_after, counts_set, handles_after, next_after, registry_after, with_claim};
ghost use Rattle.bd_machine.specs.Claims.{makes_writing};
ghost use Rattle.bd_machine.specs.Registry.{is_own, references};

use crate::devices::change_devices;
use bd_base::{Answer, ClaimKind, DevId, HandleId, OutOfMemory, RegEvent, Rows, Setup, ThreadId};
use bd_blocks::set_count;
use bd_machine::{Between, Channel, Handle, Registry};
use bd_rule_channels::counts_after;
use std::alloc::Global;
use std::mem::replace;

// ---- handles

fn is_own(thread: u32, id: HandleId, h: &Handle) -> bool
    ensures { result ≡ is_own thread id h.now }
{
    h.id.0 == id.0 && h.thread.0 == thread
}

// The handle of a thread is open no more.
fn release(alloc: Global, handles: &mut Rows<Handle>, thread: u32, id: HandleId)
    ensures { handles.new ≡ filter (λ h. not (is_own thread id h)) handles.old }
{
    let mut left = replace(handles, Rows::new(alloc)).into_vec();
    left.retain(|h| !is_own(thread, id, h));
    *handles = Rows::from_vec(left);
}

fn makes_writing(kind: ClaimKind) -> bool
    ensures { result ≡ makes_writing kind }
{
    !matches!(kind, ClaimKind::WriteNone)
}

fn claim_one(h: &mut Handle, thread: u32, id: HandleId, kind: ClaimKind)
    ensures { h.new ≡ cond (is_own thread id h.old) (with_claim kind h.old) h.old }
{
    if is_own(thread, id, h) {
        h.write = h.write || makes_writing(kind);
        h.claim = Some(kind);
    }
}

// The handle of a thread holds a claim of this kind.
#[tactic(auto, using(crate::proofs::Each::each_next, crate::proofs::Each::each_end, crate::proofs::Each::each_length))]
fn claim(handles: &mut Rows<Handle>, thread: u32, id: HandleId, kind: ClaimKind)
    ensures { handles.new ≡ map (λ h. cond (is_own thread id h) (with_claim kind h) h) handles.old }
{
    for i in 0..handles.len() {
        claim_one(handles.at_mut(i), thread, id, kind);
    }
}

/// The handles after an event and its answer; those of other devices than the handle's may be missing.
/// Out of memory leaves them as they were.
pub fn change_handles(
    alloc: Global,
    handles: &mut Rows<Handle>,
    thread: u32,
    event: &RegEvent,
    answer: &Answer,
) -> Result<(), OutOfMemory>
    ensures ok { OnOk result (handles.new ≡ handles_after thread handles.old event.now answer.now) }
    ensures err { OnErr result (handles.new ≡ handles.old) }
{
    match (event, answer) {
        (
            RegEvent::Open { write, .. },
            Answer::Opened {
                handle,
                dev,
                blocks,
            },
        ) => handles.push(Handle {
            id: *handle,
            dev: *dev,
            thread: ThreadId(thread),
            write: *write,
            claim: None,
            blocks: *blocks,
        }),
        (RegEvent::Close { handle }, Answer::Closed { .. }) => {
            release(alloc, handles, thread, *handle);
            Ok(())
        }
        (RegEvent::Claim { handle, kind }, Answer::Claimed) => {
            claim(handles, thread, *handle, *kind);
            Ok(())
        }
        _ => Ok(()),
    }
}

// The number of the next handle; it goes on with each open that was granted.
fn next_after(next: u128, answer: &Answer) -> Result<u128, OutOfMemory>
    ensures { IfOk result (λ n. n ≡ next_after next answer.now) }
{
    match answer {
        Answer::Opened { .. } => next.checked_add(1).ok_or(OutOfMemory),
        _ => Ok(next),
    }
}

// ---- channels

// Sets these counts of a thread, one after another.
fn set_counts(
    channels: &mut Rows<(Channel, Option<u128>)>,
    thread: u32,
    counts: &[(DevId, Option<u128>)],
) -> Result<(), OutOfMemory>
    ensures { OnOk result (channels.new ≡ counts_set thread (map count_for counts.now) channels.old) }
{
    for count in counts {
        set_count(channels, thread, count.0, count.1)?;
    }
    Ok(())
}

fn change_channels(
    alloc: Global,
    setup: &Setup,
    registry: &mut Registry,
    thread: u32,
    event: &RegEvent,
    answer: &Answer,
) -> Result<(), OutOfMemory>
    ensures { OnOk result (registry.new ≡ record registry.old {
      channels = counts_set thread (counts_after setup.now (references registry.old thread) event.now answer.now) registry.old.channels;
    }) }
{
    let counts = counts_after(alloc, setup, registry, thread, event, answer)?;
    set_counts(&mut registry.channels, thread, counts.as_slice())?;
    Ok(())
}

// ---- what has to follow

/// What has to follow an event and its answer at once.
pub fn between_after(thread: u32, event: &RegEvent, answer: &Answer) -> Option<Between>
    ensures { result ≡ between_after thread event.now answer.now }
{
    match (event, answer) {
        (RegEvent::Open { .. }, Answer::Opened { dev, .. }) => {
            Some(Between::Opening { thread, dev: *dev })
        }
        (RegEvent::PutChannel { dev, closing: true }, Answer::PutDown { .. }) => {
            Some(Between::Closing { thread, dev: *dev })
        }
        _ => None,
    }
}

/// The registry after an event of a thread and its answer: handles, channels, devices, and what has to
/// follow. A number past its type's range counts as out of memory: it takes more entries than there are
/// stamps. Out of memory leaves the registry unspecified.
pub fn register(
    alloc: Global,
    setup: &Setup,
    registry: &mut Registry,
    thread: u32,
    event: &RegEvent,
    answer: &Answer,
) -> Result<(), OutOfMemory>
    ensures { OnOk result (registry.new ≡ registry_after setup.now registry.old thread (Some (record { event = event.now; answer = answer.now }))) }
{
    change_channels(alloc, setup, registry, thread, event, answer)?;
    change_handles(alloc, &mut registry.handles, thread, event, answer)?;
    change_devices(&mut registry.devices, event, answer)?;
    registry.next = next_after(registry.next, answer)?;
    registry.between = between_after(thread, event, answer);
    Ok(())
}
