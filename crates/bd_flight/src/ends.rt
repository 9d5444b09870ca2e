//! Whether a request completes, and whether delays hold it first.
ghost use Rattle.std.specs.Prelude.{◌≡◌, ◌&&◌, ◌||◌, false, true, IfNone, IfSome, Some, option_copied};
ghost use Rattle.std.specs.List.{list_all, list_any};
ghost use Rattle.bd_base.specs.declared.request.Status.{Status};
ghost use Rattle.bd_machine.specs.Admission.{has_range};
ghost use Rattle.bd_machine.specs.Completion.{is_back, is_done, is_faulted, pieces_of};
ghost use Rattle.bd_machine.specs.Kept.{pieces_here, request_here};
ghost use Rattle.bd_machine.specs.Requests.{is_walking};
ghost use Rattle.bd_machine.specs.Statuses.{is_status, may_be_status};
ghost use Rattle.bd_machine.specs.Walks.{reset_of};
ghost use Rattle.bd_flight.specs.Due.{end_due, may_be_held};

use bd_base::{ApplyEnd, ReqId, Setup, Status};
use bd_machine::{Hold, OpenPiece, OpenRequest, Progress};
use bd_rule_requests::{
    all_back, all_ended, any_faulted, has_range, is_at_own, is_delay_left, is_delayed, is_fail,
    is_walking, may_complete, piece_here, reset_of, status_due,
};
use bd_rule_view::{PieceId, Sees};

/// What the pieces of a request come to, while none of them is out.
#[derive(Clone, Copy)]
struct PieceEnds {
    all_done: bool,
    any_faulted: bool,
}

// With one more piece; none where that piece isn't here or is out.
fn with_piece(ends: PieceEnds, piece: Option<&OpenPiece>) -> Option<PieceEnds>
    ensures back { IfSome result (λ e. is_back (option_copied piece.entry) ≡ true) }
    ensures done { IfSome result (λ e. e.all_done ≡ ends.all_done && is_done (option_copied piece.entry)) }
    ensures faulted { IfSome result (λ e. e.any_faulted ≡ ends.any_faulted || is_faulted (option_copied piece.entry)) }
    ensures out { IfNone result (is_back (option_copied piece.entry) ≡ false) }
{
    let p = piece?;
    if !matches!(p.progress, Progress::Held) {
        return None;
    }
    Some(PieceEnds {
        all_done: ends.all_done && matches!(p.end, Some(ApplyEnd::Done)),
        any_faulted: ends.any_faulted || matches!(p.end, Some(ApplyEnd::Fault)),
    })
}

// What the first n pieces of a request come to, where each is here and not out. Each piece is looked up once.
fn piece_ends<S: Sees>(seen: &S, req: ReqId, n: u32) -> Option<PieceEnds>
    ensures back { IfSome result (λ e. list_all is_back (pieces_here (S.view_of seen.now) req n) ≡ true) }
    ensures done { IfSome result (λ e. e.all_done ≡ list_all is_done (pieces_here (S.view_of seen.now) req n)) }
    ensures faulted { IfSome result (λ e. e.any_faulted ≡ list_any is_faulted (pieces_here (S.view_of seen.now) req n)) }
    ensures out { IfNone result (list_all is_back (pieces_here (S.view_of seen.now) req n) ≡ false) }
{
    let mut ends = PieceEnds {
        all_done: true,
        any_faulted: false,
    };
    for k in 0..n {
        match with_piece(ends, piece_here(seen, PieceId { req, k })) {
            Some(e) => ends = e,
            None => return None,
        }
    }
    Some(ends)
}

// The status that the ends of its pieces give a request that has a range, whether delays hold it or not.
fn status_by<S: Sees>(seen: &S, req: ReqId, r: OpenRequest, ends: PieceEnds) -> Option<Status>
    requires range { has_range r.op ≡ true }
    requires done { ends.all_done ≡ list_all is_done (pieces_of (S.view_of seen.now) req r) }
    requires faulted { ends.any_faulted ≡ list_any is_faulted (pieces_of (S.view_of seen.now) req r) }
    ensures some { IfSome result (λ status. is_status (S.view_of seen.now) req r status ≡ true) }
    ensures none { IfNone result ((status : Status) → is_status (S.view_of seen.now) req r status ≡ false) }
{
    if is_fail(r.injected.last) || ends.any_faulted {
        Some(Status::Failed)
    } else if r.aborted.is_some() {
        Some(Status::Aborted)
    } else if r.pieces.is_some() && ends.all_done {
        Some(Status::Success)
    } else {
        None
    }
}

// The same, and none while delays hold it. The devices below are asked for delays only where there is a status.
fn status_now<S: Sees>(
    seen: &S,
    setup: &Setup,
    req: ReqId,
    r: OpenRequest,
    ends: PieceEnds,
) -> Option<Status>
    requires range { has_range r.op ≡ true }
    requires done { ends.all_done ≡ list_all is_done (pieces_of (S.view_of seen.now) req r) }
    requires faulted { ends.any_faulted ≡ list_any is_faulted (pieces_of (S.view_of seen.now) req r) }
    ensures some { IfSome result (λ status. may_be_status setup.now (S.view_of seen.now) req r status ≡ true) }
    ensures none { IfNone result ((status : Status) → may_be_status setup.now (S.view_of seen.now) req r status ≡ false) }
{
    let status = status_by(seen, req, r, ends)?;
    if is_delay_left(setup, r) {
        None
    } else {
        Some(status)
    }
}

// Whether a walk of the request, a reset, is under way.
fn is_walked<S: Sees>(seen: &S, req: ReqId) -> bool
    ensures { result ≡ is_walking (reset_of (S.view_of seen.now).part req) }
{
    is_walking(reset_of(seen.part(), req))
}

// The same as `end_due`, by the rules' own tests, which look at each piece several times.
fn end_by_rules<S: Sees>(
    seen: &S,
    setup: &Setup,
    me: u32,
    req: ReqId,
    r: OpenRequest,
) -> Option<Status>
    requires { request_here (S.view_of seen.now) req ≡ Some r }
    ensures { result ≡ end_due setup.now me (S.view_of seen.now) req r }
{
    if may_complete(seen, me, req) {
        status_due(seen, setup, req, r)
    } else {
        None
    }
}

/// The status with which this request, which is here, completes, where the rules let it: none of its pieces is
/// out, and the request failed, was aborted, or each piece was served. None where they let it not.
pub fn end_due<S: Sees>(
    seen: &S,
    setup: &Setup,
    me: u32,
    req: ReqId,
    r: OpenRequest,
) -> Option<Status>
    requires { request_here (S.view_of seen.now) req ≡ Some r }
    ensures { result ≡ end_due setup.now me (S.view_of seen.now) req r }
{
    if !has_range(r.op) {
        return end_by_rules(seen, setup, me, req, r);
    }
    if !is_at_own(me, req, r) {
        return None;
    }
    let Some(ends) = piece_ends(seen, req, r.pieces.unwrap_or(0)) else {
        return None;
    };
    if is_walked(seen, req) {
        return None;
    }
    status_now(seen, setup, req, r, ends)
}

/// Whether the rules let this request be held: it is a read or a write over a delay device, on its own thread,
/// cut, not aborted and not held before, none of its pieces is out, and each has its end or one a fault.
pub(crate) fn may_be_held<S: Sees>(
    seen: &S,
    setup: &Setup,
    me: u32,
    req: ReqId,
    r: OpenRequest,
) -> bool
    ensures { result ≡ may_be_held setup.now me (S.view_of seen.now) req (Some r) }
{
    let n = r.pieces.unwrap_or(0);
    let is_first = r.aborted.is_none() && matches!(r.hold, Hold::Before);
    is_at_own(me, req, r)
        && is_delayed(setup, r)
        && r.pieces.is_some()
        && is_first
        && all_back(seen, req, n)
        && (all_ended(seen, req, n) || any_faulted(seen, req, n))
}
