//! Which mark aborts a request that isn't cut.
ghost use Rattle.std.specs.Prelude.{◌≡◌, Some};
ghost use Rattle.bd_machine.specs.Kept.{request_here};
ghost use Rattle.bd_flight.specs.Due.{abort_due, cause_at, mark_below, may_stop};

use bd_base::{AbortCause, DevId, ReqId, Setup};
use bd_blocks::below;
use bd_machine::{OpenRequest, Part};
use bd_rule_faults::refused_abort;
use bd_rule_requests::{is_removed, request_here, stops_here};
use bd_rule_view::Sees;

// The mark of a device as the cause of an abort; that of a removal where both stand.
fn cause_at(part: &Part, dev: DevId) -> AbortCause
    ensures { result ≡ cause_at part.now dev }
{
    if is_removed(part, dev) {
        AbortCause::Removed(dev)
    } else {
        AbortCause::Frozen(dev)
    }
}

// The cause that the first device gives whose mark stops the request, from the top down.
fn mark_below(setup: &Setup, part: &Part, r: &OpenRequest) -> Option<AbortCause>
    ensures { result ≡ mark_below setup.now part.now r.now }
{
    for d in below(setup, r.dev) {
        if stops_here(part, r.late, d) {
            return Some(cause_at(part, d));
        }
    }
    None
}

// Whether the rules let the request be aborted for this cause.
fn may_stop<S: Sees>(seen: &S, setup: &Setup, me: u32, req: ReqId, cause: AbortCause) -> bool
    ensures { result ≡ may_stop setup.now me (S.view_of seen.now) req (request_here (S.view_of seen.now) req) cause }
{
    refused_abort(seen, setup, me, req, cause).is_none()
}

/// The mark by which this request, which is here, is aborted: it isn't cut, and the rules let it be aborted.
pub(crate) fn abort_due<S: Sees>(
    seen: &S,
    setup: &Setup,
    me: u32,
    req: ReqId,
    r: OpenRequest,
) -> Option<AbortCause>
    requires { request_here (S.view_of seen.now) req ≡ Some r }
    ensures { result ≡ abort_due setup.now me (S.view_of seen.now) req r }
{
    if r.pieces.is_some() {
        return None;
    }
    let cause = mark_below(setup, seen.part(), &r)?;
    if may_stop(seen, setup, me, req, cause) {
        Some(cause)
    } else {
        None
    }
}
