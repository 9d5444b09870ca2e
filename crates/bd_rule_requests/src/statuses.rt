//! The status of a completion.
ghost use Rattle.std.specs.Prelude.{◌≡◌, false, true, IfNone, IfSome};
ghost use Rattle.bd_base.specs.declared.request.Status.{Status};
ghost use Rattle.bd_machine.specs.Completion.{pieces_of};
ghost use Rattle.bd_machine.specs.Kept.{request_here};
ghost use Rattle.bd_machine.specs.Requests.{is_status_due};
ghost use Rattle.bd_machine.specs.Statuses.{has_stopped, is_failed, is_left_alone, is_status, is_success_due, may_be_status};

use crate::admission::has_range;
use crate::delays::is_delay_left;
use crate::injections::is_fail;
use crate::kept::request_here;
use crate::pieces::{all_back, all_done, any_faulted, any_unsent};
use crate::resets::{is_finished, reset_of};
use bd_base::{Op, ReqId, Setup, Status};
use bd_machine::{OpenRequest, Trip};
use bd_rule_view::Sees;

fn is_failed<S: Sees>(seen: &S, req: ReqId, r: OpenRequest) -> bool
    ensures { result ≡ is_failed r (pieces_of (S.view_of seen.now) req r) }
{
    is_fail(r.injected.last) || any_faulted(seen, req, r.pieces.unwrap_or(0))
}

fn is_left_alone<S: Sees>(seen: &S, req: ReqId, r: OpenRequest) -> bool
    ensures { result ≡ is_left_alone (S.view_of seen.now) req r }
{
    let n = r.pieces.unwrap_or(0);
    let is_all_sent = !all_back(seen, req, n) && !any_unsent(seen, req, n);
    !has_range(r.op) || !matches!(r.trip, Trip::Own) || is_all_sent
}

// Whether an abort that names the request has nothing left to do.
fn has_stopped<S: Sees>(seen: &S, req: ReqId) -> bool
    ensures { result ≡ has_stopped (S.view_of seen.now) req (request_here (S.view_of seen.now) req) }
{
    match request_here(seen, req) {
        Some(r) => r.aborted.is_some() || is_left_alone(seen, req, r),
        None => true,
    }
}

fn is_success_due<S: Sees>(seen: &S, req: ReqId, r: OpenRequest) -> bool
    ensures { result ≡ is_success_due (S.view_of seen.now) req r r.op }
{
    match r.op {
        Op::Reset(_) => is_finished(reset_of(seen.part(), req)),
        Op::Abort(seq) => has_stopped(
            seen,
            ReqId {
                thread: req.thread,
                seq,
            },
        ),
        _ => r.pieces.is_some() && all_done(seen, req, r.pieces.unwrap_or(0)),
    }
}

/// The one status that a request may complete with now: failed where a failure was injected or a piece
/// has a fault; else aborted where it was aborted; else success where it succeeded. None while delays
/// hold it, and while none of the three holds.
pub fn status_due<S: Sees>(seen: &S, setup: &Setup, req: ReqId, r: OpenRequest) -> Option<Status>
    ensures some { IfSome result (λ status. may_be_status setup.now (S.view_of seen.now) req r status ≡ true) }
    ensures none { IfNone result ((status : Status) → may_be_status setup.now (S.view_of seen.now) req r status ≡ false) }
{
    if is_delay_left(setup, r) {
        None
    } else if is_failed(seen, req, r) {
        Some(Status::Failed)
    } else if r.aborted.is_some() {
        Some(Status::Aborted)
    } else if is_success_due(seen, req, r) {
        Some(Status::Success)
    } else {
        None
    }
}

fn is_status<S: Sees>(seen: &S, req: ReqId, r: OpenRequest, status: Status) -> bool
    ensures { result ≡ is_status (S.view_of seen.now) req r status }
{
    let failed = is_failed(seen, req, r);
    match status {
        Status::Failed => failed,
        Status::Aborted => !failed && r.aborted.is_some(),
        Status::Success => !failed && r.aborted.is_none() && is_success_due(seen, req, r),
    }
}

/// Whether a request may complete with this status.
pub fn may_be_status<S: Sees>(
    seen: &S,
    setup: &Setup,
    req: ReqId,
    r: OpenRequest,
    status: Status,
) -> bool
    ensures { result ≡ may_be_status setup.now (S.view_of seen.now) req r status }
{
    !is_delay_left(setup, r) && is_status(seen, req, r, status)
}

/// Whether a request that is on the thread may complete with this status.
pub fn is_status_due<S: Sees>(seen: &S, setup: &Setup, req: ReqId, status: Status) -> bool
    ensures { result ≡ is_status_due setup.now (S.view_of seen.now) req status (request_here (S.view_of seen.now) req) }
{
    match request_here(seen, req) {
        Some(r) => may_be_status(seen, setup, req, r, status),
        None => false,
    }
}
