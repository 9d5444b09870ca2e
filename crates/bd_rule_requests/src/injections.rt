//! What a request takes of the error devices below it, and whether it goes on.
ghost use Rattle.std.specs.Prelude.{◌≡◌, ◌==◌, filter, length, slice_get};
ghost use Rattle.bd_machine.specs.BlockMap.{below, is_error};
ghost use Rattle.bd_machine.specs.Injections.{asks_injection, errors_below, goes_on, has_every_decision, is_fail, is_under_way};
ghost use Rattle.bd_machine.specs.Kept.{is_at_own, request_here};
ghost use Rattle.bd_machine.specs.Same.{is_the, same_dev};

use crate::admission::has_range;
use crate::kept::request_here;
use crate::limits::next_limited;
use crate::marks::is_marked;
use bd_base::{Decision, DevId, Op, ReqId, Setup};
use bd_blocks::{below, is_error};
use bd_machine::{OpenRequest, Trip};
use bd_rule_view::{Sees, same_op};

/// Whether the decision fails the request.
pub fn is_fail(decision: Decision) -> bool
    ensures { result ≡ is_fail decision }
{
    matches!(decision, Decision::Fail)
}

fn goes_on(decision: Decision) -> bool
    ensures { result ≡ goes_on decision }
{
    match decision {
        Decision::Pass => true,
        Decision::Corrupt => true,
        Decision::Pend => false,
        Decision::Fail => false,
    }
}

/// Whether the request is its own thread's, and not at the home of a limited device.
pub fn is_at_own(thread: u32, req: ReqId, r: OpenRequest) -> bool
    ensures { result ≡ is_at_own thread req r }
{
    req.thread == thread && matches!(r.trip, Trip::Own)
}

/// Whether a request of a type with a range goes on to its cut: it is on its own thread, neither cut nor
/// aborted nor stopped by a mark, has every Let, and no decision so far stops it.
pub fn is_under_way<S: Sees>(
    seen: &S,
    setup: &Setup,
    thread: u32,
    req: ReqId,
    r: OpenRequest,
) -> bool
    ensures { result ≡ is_under_way setup.now thread (S.view_of seen.now) req r }
{
    let is_whole = is_at_own(thread, req, r) && has_range(r.op) && r.pieces.is_none();
    let is_free = r.aborted.is_none() && !is_marked(setup, seen.part(), &r);
    is_whole && is_free && next_limited(setup, r).is_none() && goes_on(r.injected.last)
}

// Whether this is how many error devices are below.
#[tactic(auto, using(crate::proofs::Chosen::counts, crate::proofs::Chosen::counts_more, crate::proofs::Chosen::passes_by))]
fn counts_errors(setup: &Setup, dev: DevId, count: u32) -> bool
    ensures { result ≡ (count == length (errors_below setup.now dev)) }
{
    let mut left = count;
    for d in below(setup, dev) {
        if is_error(setup, d) {
            if left == 0 {
                return false;
            }
            left -= 1;
        }
    }
    left == 0
}

/// Whether the request has a decision of every error device below it.
pub fn has_every_decision(setup: &Setup, r: OpenRequest) -> bool
    ensures { result ≡ has_every_decision setup.now r }
{
    counts_errors(setup, r.dev, r.injected.count)
}

// Whether this is the error device of this place, from 0, among those below.
#[tactic(auto, using(crate::proofs::Chosen::passes, crate::proofs::Chosen::skips, crate::proofs::Chosen::finds))]
fn is_error_at(setup: &Setup, dev: DevId, place: u32, error: DevId) -> bool
    ensures { result ≡ is_the same_dev error (slice_get (errors_below setup.now dev) place) }
{
    let mut before = place;
    for d in below(setup, dev) {
        if is_error(setup, d) {
            if before == 0 {
                return error.0 == d.0;
            }
            before -= 1;
        }
    }
    false
}

/// Whether a request that is on the thread asks this error device next for a decision on its type.
pub fn asks_injection<S: Sees>(
    seen: &S,
    setup: &Setup,
    thread: u32,
    dev: DevId,
    req: ReqId,
    op: Op,
) -> bool
    ensures { result ≡ asks_injection setup.now thread (S.view_of seen.now) dev req op (request_here (S.view_of seen.now) req) }
{
    let Some(r) = request_here(seen, req) else {
        return false;
    };
    let is_unasked = same_op(r.op, op) && r.injected.asked == r.injected.count;
    let is_next = is_error_at(setup, r.dev, r.injected.count, dev);
    is_under_way(seen, setup, thread, req, r) && is_unasked && is_next
}
