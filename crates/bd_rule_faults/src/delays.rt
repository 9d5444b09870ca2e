//! Hold and Release: a delay device holds a request that was served.
ghost use Rattle.std.specs.Prelude.{◌≡◌, ◌+◌, min, nat_le, IfOk};
ghost use Rattle.bd_machine.specs.Limits.{way_of};
ghost use Rattle.bd_machine.specs.BlockMap.{below};
ghost use Rattle.bd_machine.specs.Delays.{guards_hold, guards_release, held, is_hold_over, latency, last_moment, may_hold, released};
ghost use Rattle.bd_machine.specs.Kept.{request_here};
ghost use Rattle.bd_machine.specs.Marks.{times_marked};
ghost use Rattle.bd_machine.specs.Step.{first_failing};

use bd_base::{DevId, OutOfMemory, ReqId, Setup};
use bd_blocks::{below, way_of};
use bd_delay::held_until;
use bd_machine::guard::{HOLD_OVER, MAY_HOLD};
use bd_machine::{Hold, OpenRequest, Part};
use bd_rule_requests::{
    all_back, all_ended, any_faulted, is_at_own, is_delayed, marking_of, request_here,
};
use bd_rule_view::Sees;

// ---- marks

// How often visits set a mark of a device below. More than 128 bits count answer out of memory.
fn times_marked(setup: &Setup, part: &Part, dev: DevId) -> Result<u128, OutOfMemory>
    ensures { IfOk result (λ n. n ≡ times_marked setup.now part.now dev) }
{
    let mut sum: u128 = 0;
    for d in below(setup, dev) {
        let Some(more) = sum.checked_add(marking_of(part, d).times) else {
            return Err(OutOfMemory);
        };
        sum = more;
    }
    Ok(sum)
}

// ---- Hold

// Whether the hold ends at its time or later: at the last moment named, with all latencies, or at the
// greatest moment.
fn is_long_enough<S: Sees>(
    seen: &S,
    setup: &Setup,
    until: u64,
    r: OpenRequest,
) -> Result<bool, OutOfMemory>
    ensures { let part = (S.view_of seen.now).part in
        IfOk result (λ b. b ≡ nat_le (min (part.moments.last + latency setup.now part r.dev (way_of r.op)) last_moment) until) }
{
    let part = seen.part();
    Ok(held_until(setup, part, r.dev, way_of(r.op), part.moments.last)? <= until)
}

fn may_hold<S: Sees>(
    seen: &S,
    setup: &Setup,
    thread: u32,
    req: ReqId,
    until: u64,
) -> Result<bool, OutOfMemory>
    ensures { IfOk result (λ b. b ≡ may_hold setup.now thread (S.view_of seen.now) req until (request_here (S.view_of seen.now) req)) }
{
    let Some(r) = request_here(seen, req) else {
        return Ok(false);
    };
    let is_long = is_long_enough(seen, setup, until, r)?;
    let is_here = is_at_own(thread, req, r) && is_delayed(setup, r) && r.pieces.is_some();
    let n = r.pieces.unwrap_or(0);
    let is_served = all_ended(seen, req, n) || any_faulted(seen, req, n);
    Ok(
        is_here
            && r.aborted.is_none()
            && matches!(r.hold, Hold::Before)
            && all_back(seen, req, n)
            && is_served
            && is_long,
    )
}

/// Why a Hold isn't allowed.
pub fn refused_hold<S: Sees>(
    seen: &S,
    setup: &Setup,
    thread: u32,
    req: ReqId,
    until: u64,
) -> Result<Option<u32>, OutOfMemory>
    ensures { IfOk result (λ r. r ≡ first_failing (guards_hold setup.now thread (S.view_of seen.now) req until)) }
{
    if may_hold(seen, setup, thread, req, until)? {
        Ok(None)
    } else {
        Ok(Some(MAY_HOLD))
    }
}

/// A request that is held until a moment (microseconds).
pub fn held(
    setup: &Setup,
    part: &Part,
    until: u64,
    r: OpenRequest,
) -> Result<OpenRequest, OutOfMemory>
    ensures { IfOk result (λ q. q ≡ held setup.now part.now until r) }
{
    let marked = times_marked(setup, part, r.dev)?;
    let mut held = r;
    held.hold = Hold::Until {
        moment: until,
        marked,
    };
    Ok(held)
}

// ---- Release

fn is_hold_over(now: u64, times: u128, hold: Hold) -> bool
    ensures { result ≡ is_hold_over now times hold }
{
    match hold {
        Hold::Until { moment, marked } => moment <= now && marked == times,
        _ => false,
    }
}

/// Why a Release isn't allowed.
pub fn refused_release<S: Sees>(
    seen: &S,
    setup: &Setup,
    thread: u32,
    req: ReqId,
    now: u64,
) -> Result<Option<u32>, OutOfMemory>
    ensures { IfOk result (λ r. r ≡ first_failing (guards_release setup.now thread (S.view_of seen.now) req now)) }
{
    let Some(r) = request_here(seen, req) else {
        return Ok(Some(HOLD_OVER));
    };
    let part = seen.part();
    let times = times_marked(setup, part, r.dev)?;
    let is_here = is_at_own(thread, req, r) && r.aborted.is_none();
    if is_here && part.moments.last <= now && is_hold_over(now, times, r.hold) {
        Ok(None)
    } else {
        Ok(Some(HOLD_OVER))
    }
}

/// A request that is held no longer.
pub fn released(r: OpenRequest) -> OpenRequest
    ensures { result ≡ released r }
{
    let mut over = r;
    over.hold = Hold::Over;
    over
}
