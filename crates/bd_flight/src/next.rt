//! The next step of an open request.
ghost use Rattle.std.specs.Prelude.{◌≡◌, true, Some};
ghost use Rattle.bd_base.specs.declared.request.AbortCause.{AbortCause};
ghost use Rattle.bd_base.specs.declared.request.Status.{Status};
ghost use Rattle.bd_machine.specs.Kept.{request_here};
ghost use Rattle.bd_flight.specs.declared.next.Step.{Step};
ghost use Rattle.bd_flight.specs.declared.next.Step.TheVariants.{Abort, Complete, Cut, Wait};
ghost use Rattle.bd_flight.specs.Next.{first_step, is_abort, may_take, next_step, steps_due, way_due};

use crate::aborts::abort_due;
use crate::ends::{end_due, may_be_held};
use crate::limits::{decision_due, limit_due};
use bd_base::{AbortCause, Decision, DevId, ReqId, Setup, Status};
use bd_machine::OpenRequest;
use bd_rule_faults::refused_pend;
use bd_rule_requests::{may_cut, request_here};
use bd_rule_view::Sees;

/// What an open request does next.
#[derive(Clone, Copy, PartialEq, Eq)]
pub enum Step {
    /// It goes to the home of this device, whose limits count it.
    Limit(DevId),
    /// It asks this error device for a decision.
    Inject(DevId),
    /// It is kept without an answer, by the decision that it took.
    Pend,
    /// It is cut into pieces.
    Cut,
    /// It is held by the delays below it.
    Hold,
    /// It is aborted by this mark.
    Abort(AbortCause),
    /// It completes with this status.
    Complete(Status),
    /// It can do nothing by itself.
    Wait,
}

// What this request, which is here, does on its way to the cut.
fn step_on_way<S: Sees>(seen: &S, setup: &Setup, me: u32, req: ReqId, r: OpenRequest) -> Step
    requires { request_here (S.view_of seen.now) req ≡ Some r }
    ensures { result ≡ first_step (way_due setup.now me (S.view_of seen.now) req r) }
{
    if let Some(dev) = limit_due(seen, setup, me, req, r) {
        return Step::Limit(dev);
    }
    if let Some(dev) = decision_due(seen, setup, me, req, r) {
        return Step::Inject(dev);
    }
    if matches!(r.injected.last, Decision::Pend) && refused_pend(seen, me, req).is_none() {
        Step::Pend
    } else {
        Step::Wait
    }
}

// What this request, which is here, does next.
fn step_here<S: Sees>(seen: &S, setup: &Setup, me: u32, req: ReqId, r: OpenRequest) -> Step
    requires { request_here (S.view_of seen.now) req ≡ Some r }
    ensures { result ≡ first_step (steps_due setup.now me (S.view_of seen.now) req r) }
{
    if let Some(cause) = abort_due(seen, setup, me, req, r) {
        return Step::Abort(cause);
    }
    if let Some(status) = end_due(seen, setup, me, req, r) {
        return Step::Complete(status);
    }
    if r.pieces.is_none() && may_cut(seen, setup, me, req) {
        return Step::Cut;
    }
    if may_be_held(seen, setup, me, req, r) {
        return Step::Hold;
    }
    step_on_way(seen, setup, me, req, r)
}

// What a request does next; one that isn't here waits.
fn step_now<S: Sees>(seen: &S, setup: &Setup, me: u32, req: ReqId) -> Step
    ensures { result ≡ next_step setup.now me (S.view_of seen.now) req }
{
    match request_here(seen, req) {
        Some(r) => step_here(seen, setup, me, req, r),
        None => Step::Wait,
    }
}

/// What a request does next, by the rules over what thread `me` sees. Whatever the answer, the rules let it do
/// that. It is an abort where a mark below it aborts it before its cut, the completion where they let it
/// complete, and the cut where they let it be cut; and it waits only where they let it do nothing.
pub fn next_step<S: Sees>(seen: &S, setup: &Setup, me: u32, req: ReqId) -> Step
    ensures step { result ≡ next_step setup.now me (S.view_of seen.now) req }
    ensures allowed { may_take setup.now me (S.view_of seen.now) req result ≡ true }
    ensures abort { (cause : AbortCause) → may_take setup.now me (S.view_of seen.now) req (Abort cause) ≡ true → is_abort result ≡ true }
    ensures complete { (status : Status) → may_take setup.now me (S.view_of seen.now) req (Complete status) ≡ true → result ≡ Complete status }
    ensures cut { may_take setup.now me (S.view_of seen.now) req Cut ≡ true → result ≡ Cut }
    ensures wait { result ≡ Wait → (step : Step) → may_take setup.now me (S.view_of seen.now) req step ≡ true → step ≡ Wait }
{
    step_now(seen, setup, me, req)
}
