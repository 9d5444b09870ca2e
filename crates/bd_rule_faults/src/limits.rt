//! Let and Tick: a request passes a device's limits, and timeslices bring quotas.
ghost use Rattle.std.specs.Prelude.{◌≡◌, find, option_copied, IfOk, OnOk};
ghost use Rattle.std.specs.List.{position};
ghost use Rattle.bd_machine.specs.Limits.{bytes_if_any, charged_by_way, first_moment, guards_let, guards_tick, is_head, is_limit, is_next_in_line, is_tick_due, left_by, limited_here, may_pass_by, passed, seen, starts_left, ticked, waiting_for, waits_at, way_if_any};
ghost use Rattle.bd_machine.specs.Same.{same_request};
ghost use Rattle.bd_machine.specs.Step.{first_failing};
ghost use Rattle.bd_machine.specs.Table.{change_first, without_first};

use bd_base::{DevId, OutOfMemory, ReqId, Rows, Setup, Way};
use bd_blocks::{home, rates_of, size_of, way_of};
use bd_machine::guard::{FIRST_IN_LINE, TICK_DUE, WITHIN_LIMITS};
use bd_machine::{Limited, Moments, OpenRequest, Part, Starts, Trip};
use bd_qos::{charged, may_have_passed, may_pass, renewed, starts_before};
use bd_rule_requests::{is_marked, next_limited, request_here};
use bd_rule_view::{Sees, same_request};

// ---- the limited devices of a home

fn limited_place(rows: &[Limited], dev: DevId) -> Option<usize>
    ensures { result ≡ position (is_limit dev) rows.now }
{
    rows.iter().position(|l| l.dev.0 == dev.0)
}

fn find_limited(rows: &[Limited], dev: DevId) -> Option<&Limited>
    ensures { option_copied result ≡ find (is_limit dev) rows.now }
{
    rows.iter().find(|l| l.dev.0 == dev.0)
}

/// The row of a limited device whose home this is.
pub fn limited_here(part: &Part, dev: DevId) -> Option<&Limited>
    ensures { option_copied result ≡ limited_here part.now dev }
{
    find_limited(part.limited.as_slice(), dev)
}

fn is_head(req: ReqId, waiting: &[ReqId]) -> bool
    ensures { result ≡ is_head req waiting.now }
{
    match waiting.first() {
        Some(r) => same_request(*r, req),
        None => false,
    }
}

/// The requests that wait here for a limited device, in order of arrival.
pub fn waiting_for(part: &Part, dev: DevId) -> &[ReqId]
    ensures { result.now ≡ waiting_for part.now dev }
{
    match limited_here(part, dev) {
        Some(l) => l.waiting.as_slice(),
        None => &[],
    }
}

fn place_in_line(waiting: &[ReqId], req: ReqId) -> Option<usize>
    ensures { result ≡ position (λ r. same_request r req) waiting.now }
{
    waiting.iter().position(|r| same_request(*r, req))
}

// Takes a request out of those that wait. The first in line is found at once.
#[tactic(auto, using(bd_blocks::proofs::Places::found_below, bd_blocks::proofs::Places::remove_found, bd_blocks::proofs::Places::none_to_remove,))]
fn remove_waiting(waiting: &mut Rows<ReqId>, req: ReqId)
    ensures { waiting.new ≡ without_first (λ r. same_request r req) waiting.old }
{
    if let Some(place) = place_in_line(waiting.as_slice(), req) {
        let _ = waiting.remove(place);
    }
}

// A request waits no longer at this device.
fn leave(l: &mut Limited, req: ReqId)
    ensures { l.new ≡ left_by req l.old }
{
    remove_waiting(&mut l.waiting, req);
}

/// A request waits no longer at the home of a limited device.
pub fn depart(limited: &mut Rows<Limited>, req: ReqId, dev: DevId)
    ensures { limited.new ≡ change_first (is_limit dev) (left_by req) limited.old }
{
    if let Some(place) = limited_place(limited.as_slice(), dev) {
        leave(limited.at_mut(place), req);
    }
}

/// The limited device at whose home a request is, if it went out to one.
pub fn waits_at(setup: &Setup, r: OpenRequest) -> Option<DevId>
    ensures { result ≡ waits_at setup.now r }
{
    match r.trip {
        Trip::Out => next_limited(setup, r),
        _ => None,
    }
}

// ---- moments

fn first_moment(moments: Moments, now: u64) -> u64
    ensures { result ≡ first_moment moments now }
{
    moments.first.unwrap_or(now)
}

/// The least and the last moment that a thread's entries named, with one more (microseconds).
pub fn seen_at(now: u64, moments: Moments) -> Moments
    ensures { result ≡ seen now moments }
{
    Moments {
        first: Some(first_moment(moments, now)),
        last: now,
    }
}

// ---- Let

// Whether the request is the next that the device lets pass.
fn is_next_in_line<S: Sees>(
    seen: &S,
    setup: &Setup,
    req: ReqId,
    dev: DevId,
    here: Option<OpenRequest>,
) -> bool
    ensures { result ≡ is_next_in_line setup.now (S.view_of seen.now) req dev here }
{
    let Some(r) = here else {
        return false;
    };
    let waits = matches!(r.trip, Trip::Out) && r.aborted.is_none();
    let is_next = match next_limited(setup, r) {
        Some(next) => dev.0 == next.0,
        None => false,
    };
    let part = seen.part();
    waits && is_next && is_head(req, waiting_for(part, dev)) && !is_marked(setup, part, &r)
}

// Whether each limit that counts the request lets it through.
fn may_pass_by(setup: &Setup, dev: DevId, way: Option<Way>, limited: Option<&Limited>) -> bool
    ensures { result ≡ may_pass_by setup.now dev way (option_copied limited.entry) }
{
    match (way, limited) {
        (Some(way), Some(l)) => may_pass(rates_of(setup, dev), l.left, way),
        _ => false,
    }
}

fn way_if_any(here: Option<OpenRequest>) -> Option<Way>
    ensures { result ≡ way_if_any here }
{
    match here {
        Some(r) => way_of(r.op),
        None => None,
    }
}

/// Why a Let isn't allowed.
pub fn refused_let<S: Sees>(
    seen: &S,
    setup: &Setup,
    thread: u32,
    req: ReqId,
    dev: DevId,
    now: u64,
) -> Option<u32>
    ensures { result ≡ first_failing (guards_let setup.now thread (S.view_of seen.now) req dev now) }
{
    let here = request_here(seen, req);
    if home(setup, dev) != thread || !is_next_in_line(seen, setup, req, dev, here) {
        return Some(FIRST_IN_LINE);
    }
    let part = seen.part();
    let limited = limited_here(part, dev);
    if may_pass_by(setup, dev, way_if_any(here), limited) && part.moments.last <= now {
        None
    } else {
        Some(WITHIN_LIMITS)
    }
}

// The bytes of a request. More than 64 bits count answer out of memory.
fn bytes_if_any(setup: &Setup, here: Option<OpenRequest>) -> Result<u64, OutOfMemory>
    ensures { IfOk result (λ n. n ≡ bytes_if_any setup.now here) }
{
    match here {
        Some(r) => match r.count.checked_mul(u64::from(size_of(setup, r.dev))) {
            Some(n) => Ok(n),
            None => Err(OutOfMemory),
        },
        None => Ok(0),
    }
}

// A request is charged to a device's limits, and waits there no longer.
fn let_one(
    setup: &Setup,
    l: &mut Limited,
    dev: DevId,
    req: ReqId,
    here: Option<OpenRequest>,
) -> Result<(), OutOfMemory>
    ensures { OnOk result (l.new ≡ left_by req (charged_by_way setup.now dev (bytes_if_any setup.now here) (way_if_any here) l.old)) }
{
    let bytes = bytes_if_any(setup, here)?;
    if let Some(way) = way_if_any(here) {
        l.left = charged(rates_of(setup, dev), way, bytes, l.left)?;
    }
    leave(l, req);
    Ok(())
}

/// A request that is here passes a device's limits: it is charged there, and waits no longer. Out of
/// memory leaves the rows unspecified.
pub fn charge(
    setup: &Setup,
    limited: &mut Rows<Limited>,
    dev: DevId,
    req: ReqId,
    here: Option<OpenRequest>,
) -> Result<(), OutOfMemory>
    ensures { OnOk result (limited.new ≡ change_first (is_limit dev)
        (λ l. left_by req (charged_by_way setup.now dev (bytes_if_any setup.now here) (way_if_any here) l)) limited.old) }
{
    match limited_place(limited.as_slice(), dev) {
        Some(place) => {
            let_one(setup, limited.at_mut(place), dev, req, here)?;
            Ok(())
        }
        None => Ok(()),
    }
}

/// A request with one Let more. More than 32 bits count answer out of memory.
pub fn passed(r: OpenRequest) -> Result<OpenRequest, OutOfMemory>
    ensures { IfOk result (λ q. q ≡ passed r) }
{
    let Some(lets) = r.lets.checked_add(1) else {
        return Err(OutOfMemory);
    };
    let mut passed = r;
    passed.lets = lets;
    passed.trip = Trip::Passed;
    Ok(passed)
}

// ---- Tick

fn starts_left(moments: Moments, now: u64, starts: Option<Starts>) -> Starts
    ensures { result ≡ starts_left moments now starts }
{
    match starts {
        Some(starts) => starts,
        None => Starts {
            earliest: 0,
            latest: first_moment(moments, now),
        },
    }
}

// Whether so many timeslices more may have passed, and a request waits.
fn is_tick_due(
    moments: Moments,
    now: u64,
    slices: u64,
    limited: Option<&Limited>,
) -> Result<bool, OutOfMemory>
    ensures { IfOk result (λ b. b ≡ is_tick_due moments now slices (option_copied limited.entry)) }
{
    let Some(l) = limited else {
        return Ok(false);
    };
    let Some(all) = l.slices.checked_add(u128::from(slices)) else {
        return Err(OutOfMemory);
    };
    let starts = starts_left(moments, now, l.starts);
    Ok(0 < slices && l.waiting.len() != 0 && may_have_passed(now, all, starts))
}

/// Why a Tick isn't allowed. More timeslices than 128 bits count answer out of memory.
pub fn refused_tick<S: Sees>(
    seen: &S,
    setup: &Setup,
    thread: u32,
    dev: DevId,
    now: u64,
    slices: u64,
) -> Result<Option<u32>, OutOfMemory>
    ensures { IfOk result (λ r. r ≡ first_failing (guards_tick setup.now thread (S.view_of seen.now) dev now slices)) }
{
    let part = seen.part();
    let due = is_tick_due(part.moments, now, slices, limited_here(part, dev))?;
    if home(setup, dev) == thread && part.moments.last <= now && due {
        Ok(None)
    } else {
        Ok(Some(TICK_DUE))
    }
}

// Timeslices that passed by a moment (microseconds).
#[derive(Clone, Copy)]
struct Passing {
    now: u64,
    slices: u64,
}

// Timeslices pass at a limited device.
fn tick_one(
    setup: &Setup,
    moments: Moments,
    by: Passing,
    l: &mut Limited,
) -> Result<(), OutOfMemory>
    ensures { OnOk result (l.new ≡ ticked setup.now moments by.now by.slices l.old) }
{
    let Some(all) = l.slices.checked_add(u128::from(by.slices)) else {
        return Err(OutOfMemory);
    };
    l.left = renewed(rates_of(setup, l.dev), by.slices, l.left)?;
    let starts = starts_left(moments, by.now, l.starts);
    l.starts = Some(starts_before(by.now, all, starts)?);
    l.slices = all;
    Ok(())
}

// Timeslices pass at the device among these rows.
fn tick_rows(
    limited: &mut Rows<Limited>,
    setup: &Setup,
    moments: Moments,
    dev: DevId,
    by: Passing,
) -> Result<(), OutOfMemory>
    ensures { OnOk result (limited.new ≡ change_first (is_limit dev) (ticked setup.now moments by.now by.slices) limited.old) }
{
    match limited_place(limited.as_slice(), dev) {
        Some(place) => {
            tick_one(setup, moments, by, limited.at_mut(place))?;
            Ok(())
        }
        None => Ok(()),
    }
}

/// Timeslices pass at a limited device of this part, where it is one of its home's. Out of memory
/// leaves the part unspecified.
pub fn tick(
    part: &mut Part,
    setup: &Setup,
    dev: DevId,
    now: u64,
    slices: u64,
) -> Result<(), OutOfMemory>
    ensures { OnOk result (part.new ≡ record part.old {
      limited = change_first (is_limit dev) (ticked setup.now part.old.moments now slices) part.old.limited;
      moments = seen now part.old.moments;
    }) }
{
    let moments = part.moments;
    tick_rows(
        &mut part.limited,
        setup,
        moments,
        dev,
        Passing { now, slices },
    )?;
    part.moments = seen_at(now, moments);
    Ok(())
}
