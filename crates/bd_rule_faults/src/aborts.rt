//! Abort: a mark, or an abort that names it, stops a request.
ghost use Rattle.std.specs.Prelude.{◌≡◌};
ghost use Rattle.std.specs.List.{list_any};
ghost use Rattle.bd_machine.specs.Aborts.{aborted, guards_abort, is_cause, is_cause_if_any, is_held, is_named_by, is_stoppable, may_abort, names};
ghost use Rattle.bd_machine.specs.Step.{first_failing};

use bd_base::{AbortCause, DevId, Op, ReqId, Setup};
use bd_blocks::is_below;
use bd_machine::guard::{ABORT_CAUSE, MAY_ABORT};
use bd_machine::{Hold, Open, OpenList, OpenRequest};
use bd_rule_requests::{any_unsent, freezes_here, has_range, is_fail, is_removed, request_here};
use bd_rule_view::{Sees, same_request};

fn is_held(hold: Hold) -> bool
    ensures { result ≡ is_held hold }
{
    matches!(hold, Hold::Until { .. })
}

// Whether not all of a request is sent, or it is held.
fn is_stoppable<S: Sees>(seen: &S, req: ReqId, r: OpenRequest) -> bool
    ensures { result ≡ is_stoppable (S.view_of seen.now) req r }
{
    r.pieces.is_none() || any_unsent(seen, req, r.pieces.unwrap_or(0)) || is_held(r.hold)
}

fn may_abort<S: Sees>(seen: &S, req: ReqId, here: Option<OpenRequest>) -> bool
    ensures { result ≡ may_abort (S.view_of seen.now) req here }
{
    match here {
        Some(r) => {
            has_range(r.op)
                && r.aborted.is_none()
                && !is_fail(r.injected.last)
                && is_stoppable(seen, req, r)
        }
        None => false,
    }
}

fn names(req: ReqId, op: Op) -> bool
    ensures { result ≡ names req op }
{
    match op {
        Op::Abort(seq) => seq == req.seq,
        _ => false,
    }
}

// Whether this open request is the abort `by`, on the same handle, that names the request.
fn is_named_by(thread: u32, req: ReqId, r: OpenRequest, by: ReqId, o: &Open) -> bool
    ensures { result ≡ is_named_by thread req r by o.now }
{
    same_request(o.id, by) && o.handle.0 == r.handle.0 && req.thread == thread && names(req, o.op)
}

// Whether the abort `by` is open, and names the request.
fn is_named(thread: u32, req: ReqId, r: OpenRequest, by: ReqId, requests: &OpenList) -> bool
    ensures { result ≡ list_any (is_named_by thread req r by) requests.now }
{
    requests.iter().any(|o| is_named_by(thread, req, r, by, o))
}

// Whether this is a cause to abort a request.
fn is_cause<S: Sees>(
    seen: &S,
    setup: &Setup,
    thread: u32,
    req: ReqId,
    r: OpenRequest,
    cause: AbortCause,
) -> bool
    ensures { result ≡ is_cause setup.now thread (S.view_of seen.now) req r cause }
{
    let part = seen.part();
    match cause {
        AbortCause::Frozen(dev) => {
            is_below(setup, r.dev, dev) && freezes_here(part, r.late, dev)
        }
        AbortCause::Removed(dev) => is_below(setup, r.dev, dev) && is_removed(part, dev),
        AbortCause::Named(by) => is_named(thread, req, r, by, &part.requests),
    }
}

fn is_cause_if_any<S: Sees>(
    seen: &S,
    setup: &Setup,
    thread: u32,
    req: ReqId,
    here: Option<OpenRequest>,
    cause: AbortCause,
) -> bool
    ensures { result ≡ is_cause_if_any setup.now thread (S.view_of seen.now) req cause here }
{
    match here {
        Some(r) => is_cause(seen, setup, thread, req, r, cause),
        None => false,
    }
}

/// Why an Abort isn't allowed.
pub fn refused_abort<S: Sees>(
    seen: &S,
    setup: &Setup,
    thread: u32,
    req: ReqId,
    cause: AbortCause,
) -> Option<u32>
    ensures { result ≡ first_failing (guards_abort setup.now thread (S.view_of seen.now) req cause) }
{
    let here = request_here(seen, req);
    if !may_abort(seen, req, here) {
        return Some(MAY_ABORT);
    }
    if is_cause_if_any(seen, setup, thread, req, here, cause) {
        None
    } else {
        Some(ABORT_CAUSE)
    }
}

/// A request that is aborted, and held no longer.
pub fn aborted(cause: AbortCause, r: OpenRequest) -> OpenRequest
    ensures { result ≡ aborted cause r }
{
    let mut stopped = r;
    stopped.aborted = Some(cause);
    stopped.hold = Hold::Over;
    stopped
}
