//! Which events are asked of the registry.
ghost use Rattle.std.specs.Prelude.{◌≡◌, ◌&&◌, ◌==◌, is_some, not};
ghost use Rattle.std.specs.List.{list_any};
ghost use Rattle.bd_machine.specs.Asked.{asks_between, asks_event, asks_freely, has_grown, has_reset_at, is_asked_remove, is_close_on, is_get_of, is_handle_on, is_new_reset, may_close, may_close_on, open_on, owes_it, owes_removal};
ghost use Rattle.bd_machine.specs.Registry.{handle_of};
ghost use Rattle.bd_machine.specs.Same.{same_dev, same_owed, same_request};
ghost use Rattle.bd_machine.specs.Users.{is_base_handle};
ghost use Rattle.bd_machine.specs.Walks.{is_reset};
ghost use Rattle.bd_machine.specs.declared.state.Owed.TheVariants as owes;
ghost use Rattle.bd_rule_view.specs.Came.{came_between, came_shut};

use crate::jobs::{claims, closes, opens, removes, resizes};
use crate::lines::{job_now, open_on};
use bd_base::{DevId, HandleId, Name, RegEvent, ReqId, Setup};
use bd_blocks::{device_named, is_base_handle};
use bd_machine::{Between, OpenList, Owed, Part, Prior, Stage};
use bd_rule_requests::{asks_injection, is_gone, is_reset, reset_of};
use bd_rule_view::{Sees, same_owed, same_request, same_stage};

/// Whether the thread still has to do this once.
pub fn owes_it(part: &Part, owed: Owed) -> bool
    ensures { result ≡ owes_it part.now owed }
{
    part.owed.as_slice().iter().any(|o| same_owed(owed, *o))
}

// Whether the handle may be closed at all: a script's, open here, without open requests.
fn is_closable<S: Sees>(seen: &S, setup: &Setup, id: HandleId) -> bool
    ensures { result ≡ (not (is_base_handle setup.now id) && is_some (handle_of (S.view_of seen.now).handles id)
        && (open_on (S.view_of seen.now).part id == 0)) }
{
    !is_base_handle(setup, id) && seen.handle(id).is_some() && open_on(seen.part(), id) == 0
}

/// Whether a thread may close a script's handle: it has no open requests, and the next line closes it
/// or its remove event was taken.
pub fn may_close<S: Sees>(seen: &S, setup: &Setup, thread: u32, shut: bool, id: HandleId) -> bool
    ensures { result ≡ may_close setup.now thread (S.view_of seen.now) (came_shut shut) id }
{
    if !is_closable(seen, setup, id) {
        return false;
    }
    let part = seen.part();
    is_gone(part, id) || closes(part, id, job_now(seen, setup, thread, shut))
}

// Whether a thread may close some handle of the device so.
fn may_close_on<S: Sees>(seen: &S, setup: &Setup, thread: u32, shut: bool, dev: DevId) -> bool
    ensures { result ≡ may_close_on setup.now thread (S.view_of seen.now) (came_shut shut) dev }
{
    for h in seen.handles_of(dev) {
        if h.thread.0 == seen.thread()
            && h.dev.0 == dev.0
            && may_close(seen, setup, thread, shut, h.id)
        {
            return true;
        }
    }
    false
}

// Whether it is the removal of the device at this place.
fn is_removal(owed: Owed, place: usize) -> bool
    ensures { result ≡ same_owed (owes.Remove (record { 0 = place })) owed }
{
    match owed {
        Owed::Remove(dev) => dev.0 as usize == place,
        _ => false,
    }
}

fn owes_removal_at(owed: &[Owed], place: usize) -> bool
    ensures { result ≡ list_any (same_owed (owes.Remove (record { 0 = place }))) owed.now }
{
    owed.iter().any(|o| is_removal(*o, place))
}

// Whether the thread still has to remove the device at this place.
fn owes_removal(part: &Part, place: Option<usize>) -> bool
    ensures { result ≡ owes_removal part.now place }
{
    match place {
        Some(n) => owes_removal_at(part.owed.as_slice(), n),
        None => false,
    }
}

// Whether the removal of the device of this name is asked: since its base is being removed, by the
// next line, or by thread 0 after the Shutdown.
fn is_asked_remove<S: Sees>(seen: &S, setup: &Setup, thread: u32, shut: bool, name: &Name) -> bool
    ensures { result ≡ is_asked_remove setup.now thread (S.view_of seen.now) (came_shut shut) name.now }
{
    owes_removal(seen.part(), device_named(setup, name))
        || removes(name, job_now(seen, setup, thread, shut))
        || (thread == 0 && shut)
}

// Whether it is an open reset of the device by this thread.
fn is_open_reset(requests: &OpenList, dev: DevId, req: ReqId) -> bool
    ensures { result ≡ list_any (λ o. same_request o.id req && same_dev o.dev dev && is_reset o.op) requests.now }
{
    requests.iter().any(|o| same_request(o.id, req) && o.dev.0 == dev.0 && is_reset(o.op))
}

// Whether it is an open reset of the device by this thread that didn't begin yet.
fn is_new_reset(part: &Part, dev: DevId, req: ReqId) -> bool
    ensures { result ≡ is_new_reset part.now dev req }
{
    let is_here = is_open_reset(&part.requests, dev, req);
    is_here && reset_of(part, req).is_none()
}

// Whether a reset of the device by this thread is at this stage.
fn has_reset_at(part: &Part, dev: DevId, stage: Stage) -> bool
    ensures { result ≡ has_reset_at part.now dev stage }
{
    part.resets
        .as_slice()
        .iter()
        .any(|r| r.dev.0 == dev.0 && same_stage(r.stage, stage))
}

// Whether the thread's entry before let the content of this device grow.
fn has_grown(part: &Part, dev: DevId) -> bool
    ensures { result ≡ has_grown dev part.now.prior }
{
    match part.prior {
        Some(Prior::Growth(grown)) => grown.0 == dev.0,
        _ => false,
    }
}

// Whether an event is asked where nothing else has to follow.
fn asks_freely<S: Sees>(seen: &S, setup: &Setup, thread: u32, shut: bool, event: &RegEvent) -> bool
    ensures { result ≡ asks_freely setup.now thread (S.view_of seen.now) (came_shut shut) event.now }
{
    let part = seen.part();
    match event {
        RegEvent::Open { name, write } => {
            opens(seen, name, *write, job_now(seen, setup, thread, shut))
        }
        RegEvent::Claim { handle, kind } => {
            seen.handle(*handle).is_some()
                && claims(part, *handle, *kind, job_now(seen, setup, thread, shut))
        }
        RegEvent::GetChannel { .. } => false,
        RegEvent::PutChannel { dev, closing } => {
            if *closing {
                may_close_on(seen, setup, thread, shut, *dev)
            } else {
                owes_it(part, Owed::Put(*dev))
            }
        }
        RegEvent::Close { handle } => owes_it(part, Owed::Close(*handle)),
        RegEvent::DropChannel { dev } => owes_it(part, Owed::Drop(*dev)),
        RegEvent::BeginRemove { name } => is_asked_remove(seen, setup, thread, shut, name),
        RegEvent::BeginReset { dev, req } => is_new_reset(part, *dev, *req),
        RegEvent::EndReset { dev } => has_reset_at(part, *dev, Stage::Drained),
        RegEvent::FinishReset { dev } => has_reset_at(part, *dev, Stage::Thawed),
        RegEvent::TakeInjection { dev, req, op } => {
            asks_injection(seen, setup, thread, *dev, *req, *op)
        }
        RegEvent::Destructed { dev } => owes_it(part, Owed::Report(*dev)),
        RegEvent::BeginResize { name, blocks } => {
            resizes(name, *blocks, job_now(seen, setup, thread, shut))
        }
        RegEvent::EndResize { dev } => {
            has_grown(part, *dev) && owes_it(part, Owed::EndResize(*dev))
        }
    }
}

// Whether the event gets a channel of the device.
fn is_get_of(dev: DevId, event: &RegEvent) -> bool
    ensures { result ≡ is_get_of dev event.now }
{
    match event {
        RegEvent::GetChannel { dev: d } => d.0 == dev.0,
        _ => false,
    }
}

fn is_handle_on<S: Sees>(seen: &S, dev: DevId, id: HandleId) -> bool
    ensures { result ≡ is_handle_on dev (handle_of (S.view_of seen.now).handles id) }
{
    match seen.handle(id) {
        Some(h) => h.dev.0 == dev.0,
        None => false,
    }
}

// Whether the event closes a handle of the device that the thread may close.
fn is_close_on<S: Sees>(
    seen: &S,
    setup: &Setup,
    thread: u32,
    shut: bool,
    dev: DevId,
    event: &RegEvent,
) -> bool
    ensures { result ≡ is_close_on setup.now thread (S.view_of seen.now) (came_shut shut) dev event.now }
{
    match event {
        RegEvent::Close { handle } => {
            is_handle_on(seen, dev, *handle) && may_close(seen, setup, thread, shut, *handle)
        }
        _ => false,
    }
}

// Whether an event is asked, by what has to follow: an open is followed by its channel, and the put of
// a handle's channel by its close.
fn asks_between<S: Sees>(
    seen: &S,
    setup: &Setup,
    thread: u32,
    shut: bool,
    between: Option<Between>,
    event: &RegEvent,
) -> bool
    ensures { result ≡ asks_between setup.now thread (S.view_of seen.now) (came_shut shut) event.now between }
{
    match between {
        None => asks_freely(seen, setup, thread, shut, event),
        Some(Between::Opening { thread: u, dev }) => u == thread && is_get_of(dev, event),
        Some(Between::Closing { thread: u, dev }) => {
            u == thread && is_close_on(seen, setup, thread, shut, dev, event)
        }
    }
}

/// Whether an event is asked of the registry, where this has to follow there (`between`) and it is
/// after the Shutdown or not (`shut`).
pub fn asks_event<S: Sees>(
    seen: &S,
    setup: &Setup,
    thread: u32,
    shut: bool,
    between: Option<Between>,
    event: &RegEvent,
) -> bool
    ensures { result ≡ asks_event setup.now thread (S.view_of seen.now) (came_between between shut) event.now }
{
    asks_between(seen, setup, thread, shut, between, event)
}
