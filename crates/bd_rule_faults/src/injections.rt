//! Inject and Pend: what a request takes of the error devices below it.
ghost use Rattle.std.specs.Prelude.{◌≡◌, IfOk};
ghost use Rattle.bd_machine.specs.Injections.{asked_once_more, guards_inject, guards_pend, injected, is_pend, is_taken, may_pend, pended, turned_by};
ghost use Rattle.bd_machine.specs.Step.{first_failing};

use bd_base::{Decision, DevId, OutOfMemory, ReqId};
use bd_machine::guard::{INJECTION_TAKEN, MAY_PEND};
use bd_machine::{Injected, OpenRequest, Prior};
use bd_rule_requests::{is_at_own, request_here};
use bd_rule_view::{Sees, same_decision, same_request};

// ---- Inject

fn is_taken(req: ReqId, dev: DevId, decision: Decision, prior: Option<Prior>) -> bool
    ensures { result ≡ is_taken req dev decision prior }
{
    match prior {
        Some(Prior::Injection(taken)) => {
            same_request(taken.req, req)
                && taken.dev.0 == dev.0
                && same_decision(taken.decision, decision)
        }
        _ => false,
    }
}

/// Why an Inject isn't allowed.
pub fn refused_inject<S: Sees>(seen: &S, req: ReqId, dev: DevId, decision: Decision) -> Option<u32>
    ensures { result ≡ first_failing (guards_inject (S.view_of seen.now) req dev decision) }
{
    if is_taken(req, dev, decision, seen.part().prior) {
        None
    } else {
        Some(INJECTION_TAKEN)
    }
}

fn turned_by(decision: Decision, turned: bool) -> bool
    ensures { result ≡ turned_by decision turned }
{
    match decision {
        Decision::Corrupt => !turned,
        _ => turned,
    }
}

/// A request with a decision more. More than 32 bits count answer out of memory.
pub fn injected(decision: Decision, r: OpenRequest) -> Result<OpenRequest, OutOfMemory>
    ensures { IfOk result (λ q. q ≡ injected decision r) }
{
    let Some(count) = r.injected.count.checked_add(1) else {
        return Err(OutOfMemory);
    };
    let mut decided = r;
    decided.injected = Injected {
        asked: r.injected.asked,
        count,
        last: decision,
        turned: turned_by(decision, r.injected.turned),
    };
    Ok(decided)
}

/// A request for which the registry was asked once more. More than 32 bits count answer out of memory.
pub fn asked_once_more(r: OpenRequest) -> Result<OpenRequest, OutOfMemory>
    ensures { IfOk result (λ q. q ≡ asked_once_more r) }
{
    let Some(asked) = r.injected.asked.checked_add(1) else {
        return Err(OutOfMemory);
    };
    let mut once_more = r;
    once_more.injected = Injected {
        asked,
        count: r.injected.count,
        last: r.injected.last,
        turned: r.injected.turned,
    };
    Ok(once_more)
}

// ---- Pend

fn is_pend(decision: Decision) -> bool
    ensures { result ≡ is_pend decision }
{
    matches!(decision, Decision::Pend)
}

fn may_pend(thread: u32, req: ReqId, here: Option<OpenRequest>) -> bool
    ensures { result ≡ may_pend thread req here }
{
    match here {
        Some(r) => {
            is_at_own(thread, req, r)
                && r.aborted.is_none()
                && is_pend(r.injected.last)
                && !r.pended
        }
        None => false,
    }
}

/// Why a Pend isn't allowed.
pub fn refused_pend<S: Sees>(seen: &S, thread: u32, req: ReqId) -> Option<u32>
    ensures { result ≡ first_failing (guards_pend thread (S.view_of seen.now) req) }
{
    if may_pend(thread, req, request_here(seen, req)) {
        None
    } else {
        Some(MAY_PEND)
    }
}

/// A request that is kept without an answer.
pub fn pended(r: OpenRequest) -> OpenRequest
    ensures { result ≡ pended r }
{
    let mut kept = r;
    kept.pended = true;
    kept
}
