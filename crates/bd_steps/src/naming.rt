//! Which request an abort stops that names one by its number.
ghost use Rattle.std.specs.Prelude.{◌≡◌};
ghost use Rattle.bd_base.specs.declared.request.AbortCause.TheVariants.{Named};
ghost use Rattle.bd_steps.specs.Naming.{has_own_trip, named_by, named_here, number_in};
ghost use Rattle.bd_steps.specs.Stopping.{may_stop};

use bd_base::{AbortCause, Op, ReqId, Setup};
use bd_machine::{OpenRequest, Trip};
use bd_rule_faults::refused_abort;
use bd_rule_requests::request_here;
use bd_rule_view::Sees;

// The number that an abort names; none where it isn't here, or where it is no abort.
fn number_in(here: Option<OpenRequest>) -> Option<u64>
    ensures { result ≡ number_in here }
{
    match here?.op {
        Op::Abort(seq) => Some(seq),
        _ => None,
    }
}

// Whether the request is here, and neither on its way to the home of a limited device nor there, nor on its way back.
fn has_own_trip(here: Option<OpenRequest>) -> bool
    ensures { result ≡ has_own_trip here }
{
    match here {
        Some(r) => matches!(r.trip, Trip::Own),
        None => false,
    }
}

// Whether the rules let the abort `by` stop the request.
fn may_stop<S: Sees>(seen: &S, setup: &Setup, me: u32, req: ReqId, by: ReqId) -> bool
    ensures { result ≡ may_stop setup.now me (S.view_of seen.now) req (Named by) }
{
    refused_abort(seen, setup, me, req, AbortCause::Named(by)).is_none()
}

// The thread's request of this number, where it is here for no limit and the rules let the abort `by` stop it.
fn named_here<S: Sees>(seen: &S, setup: &Setup, me: u32, by: ReqId, seq: u64) -> Option<ReqId>
    ensures { result ≡ named_here setup.now me (S.view_of seen.now) by seq }
{
    let req = ReqId { thread: me, seq };
    if has_own_trip(request_here(seen, req)) && may_stop(seen, setup, me, req, by) {
        Some(req)
    } else {
        None
    }
}

/// The request that the abort `by` stops, where that is here: the one that it names, where that is here too, neither
/// at the home of a limited device nor on its way to or from one, and the rules let the abort stop it (on the same
/// handle, neither aborted nor to fail, and not all of it is sent, or it is held).
pub fn named_by<S: Sees>(seen: &S, setup: &Setup, me: u32, by: ReqId) -> Option<ReqId>
    ensures { result ≡ named_by setup.now me (S.view_of seen.now) by }
{
    let seq = number_in(request_here(seen, by))?;
    named_here(seen, setup, me, by, seq)
}
