//! Let, Tick, Inject, Pend, Hold, Release and Abort: the state with what each changes.
ghost use Rattle.std.specs.Prelude.{◌≡◌, IfOk, OnOk};
ghost use Rattle.bd_machine.specs.Aborts.{change_abort};
ghost use Rattle.bd_machine.specs.Delays.{change_hold, change_release};
ghost use Rattle.bd_machine.specs.Injections.{change_inject, change_pend};
ghost use Rattle.bd_machine.specs.Kept.{edited};
ghost use Rattle.bd_machine.specs.Limits.{change_let, change_tick, departed, passed};
ghost use Rattle.bd_machine.specs.Same.{same_id};
ghost use Rattle.bd_machine.specs.Step.{moved};
ghost use Rattle.bd_machine.specs.Table.{write};
ghost use Rattle.bd_machine.specs.declared.state.Id.TheVariants as ids;
ghost use Rattle.bd_machine.specs.declared.state.Kept.TheVariants as keeps;
ghost use Rattle.bd_machine.specs.declared.state.Place.TheVariants.{At};
ghost use Rattle.bd_play.specs.Words.{changed, charged_for, seen};

use crate::side::Side;
use bd_base::{AbortCause, Decision, DevId, OutOfMemory, ReqId, Rows};
use bd_clones::Duplicate;
use bd_machine::{Id, Kept, Limited, OpenRequest, Part, Place, State, Tracked};
use bd_rule_faults::{
    aborted, charge, counted, depart, held, injected, passed, pended, released, seen_at, waits_at,
};
use bd_rule_requests::request_here;
use bd_rule_view::Sees;
use bd_state::put_in;
use std::alloc::Global;

/// A request that is on the thread stays there, changed. Out of memory leaves the tokens unspecified.
pub fn stays(
    tokens: &mut Rows<(Id, Tracked)>,
    side: &Side,
    req: ReqId,
    r: OpenRequest,
) -> Result<(), OutOfMemory>
    ensures { OnOk result (tokens.new ≡ write same_id tokens.old (ids.Request req) (record { place = At side.now.thread; kept = keeps.Request r })) }
{
    let place = Place::At(side.thread);
    let kept = Kept::Request(r);
    put_in(tokens, Id::Request(req), Tracked { place, kept })
}

// ---- limits

// A request, if it is on the thread, has passed a limited device. Out of memory leaves the tokens
// unspecified.
fn pass(
    tokens: &mut Rows<(Id, Tracked)>,
    side: &Side,
    req: ReqId,
    here: Option<OpenRequest>,
) -> Result<(), OutOfMemory>
    ensures { OnOk result (tokens.new ≡ moved side.now.thread (edited req passed here) tokens.old) }
{
    match here {
        Some(r) => stays(tokens, side, req, passed(r)?),
        None => Ok(()),
    }
}

// A limited device lets this request go, which its budget pays. Out of memory leaves the rows
// unspecified.
fn charge_for(
    side: &Side,
    limited: &mut Rows<Limited>,
    dev: DevId,
    req: ReqId,
) -> Result<(), OutOfMemory>
    ensures { OnOk result (limited.new ≡ charged_for side.now req dev limited.old) }
{
    charge(side.setup, limited, dev, req, request_here(side, req))
}

/// The state with what a Let changes.
pub fn let_pass(
    alloc: Global,
    side: &Side,
    req: ReqId,
    dev: DevId,
    now: u64,
) -> Result<State, OutOfMemory>
    ensures { IfOk result (λ s. s ≡ changed side.now (change_let side.now.setup.now (seen side.now) req dev now)) }
{
    let mut next = side.state.duplicate(alloc)?;
    pass(&mut next.tokens, side, req, request_here(side, req))?;
    let part = next.parts.at_mut(side.thread as usize);
    charge_for(side, &mut part.limited, dev, req)?;
    part.moments = seen_at(now, part.moments);
    Ok(next)
}

/// The state with what a Tick changes.
pub fn tick(
    alloc: Global,
    side: &Side,
    dev: DevId,
    now: u64,
    slices: u64,
) -> Result<State, OutOfMemory>
    ensures { IfOk result (λ s. s ≡ changed side.now (change_tick side.now.setup.now (seen side.now) dev now slices)) }
{
    let mut next = side.state.duplicate(alloc)?;
    let part = next.parts.at_mut(side.thread as usize);
    bd_rule_faults::tick(part, side.setup, dev, now, slices)?;
    Ok(next)
}

// ---- injections

/// The state with what an Inject changes.
pub fn inject(
    alloc: Global,
    side: &Side,
    req: ReqId,
    decision: Decision,
) -> Result<State, OutOfMemory>
    ensures { IfOk result (λ s. s ≡ changed side.now (change_inject (seen side.now) req decision)) }
{
    let mut next = side.state.duplicate(alloc)?;
    if let Some(r) = request_here(side, req) {
        stays(&mut next.tokens, side, req, injected(decision, r)?)?;
    }
    Ok(next)
}

/// The state with what a Pend changes.
pub fn pend(alloc: Global, side: &Side, req: ReqId) -> Result<State, OutOfMemory>
    ensures { IfOk result (λ s. s ≡ changed side.now (change_pend (seen side.now) req)) }
{
    let mut next = side.state.duplicate(alloc)?;
    if let Some(r) = request_here(side, req) {
        stays(&mut next.tokens, side, req, pended(r))?;
    }
    Ok(next)
}

// ---- delays

/// The state with what a Hold changes.
pub fn hold(alloc: Global, side: &Side, req: ReqId, until: u64) -> Result<State, OutOfMemory>
    ensures { IfOk result (λ s. s ≡ changed side.now (change_hold side.now.setup.now (seen side.now) req until)) }
{
    let mut next = side.state.duplicate(alloc)?;
    let here = request_here(side, req);
    if let Some(r) = here {
        stays(
            &mut next.tokens,
            side,
            req,
            held(side.setup, side.part(), until, r)?,
        )?;
    }
    let part = next.parts.at_mut(side.thread as usize);
    part.delayed = counted(side.setup, side.part(), here)?;
    Ok(next)
}

/// The state with what a Release changes.
pub fn release(alloc: Global, side: &Side, req: ReqId, now: u64) -> Result<State, OutOfMemory>
    ensures { IfOk result (λ s. s ≡ changed side.now (change_release (seen side.now) req now)) }
{
    let mut next = side.state.duplicate(alloc)?;
    if let Some(r) = request_here(side, req) {
        stays(&mut next.tokens, side, req, released(r))?;
    }
    let part = next.parts.at_mut(side.thread as usize);
    part.moments = seen_at(now, part.moments);
    Ok(next)
}

// ---- aborts

// A request that waits at this limited device waits no longer.
fn leave(part: &mut Part, req: ReqId, limited: Option<DevId>)
    ensures { part.new ≡ departed part.old req limited }
{
    match limited {
        Some(dev) => depart(&mut part.limited, req, dev),
        None => {}
    }
}

/// The state with what an Abort changes.
pub fn abort(
    alloc: Global,
    side: &Side,
    req: ReqId,
    cause: AbortCause,
) -> Result<State, OutOfMemory>
    ensures { IfOk result (λ s. s ≡ changed side.now (change_abort side.now.setup.now (seen side.now) req cause)) }
{
    let mut next = side.state.duplicate(alloc)?;
    let Some(r) = request_here(side, req) else {
        return Ok(next);
    };
    stays(&mut next.tokens, side, req, aborted(cause, r))?;
    let limited = waits_at(side.setup, r);
    leave(next.parts.at_mut(side.thread as usize), req, limited);
    Ok(next)
}
