//! The devices that a request goes to or asks before it is cut: limited ones, and error devices.
ghost use Rattle.std.specs.Prelude.{◌≡◌, slice_get, Some};
ghost use Rattle.bd_machine.specs.BlockMap.{is_error};
ghost use Rattle.bd_machine.specs.Injections.{errors_below};
ghost use Rattle.bd_machine.specs.Kept.{request_here};
ghost use Rattle.bd_flight.specs.Due.{decision_due, limit_due};

use bd_base::{DevId, ReqId, Setup, Token};
use bd_blocks::{below, home, is_error};
use bd_machine::OpenRequest;
use bd_rule_requests::{asks_injection, is_at_own, may_go, next_limited};
use bd_rule_view::Sees;

/// The next device whose limits count this request, which is here, where the rules let it go there.
pub(crate) fn limit_due<S: Sees>(
    seen: &S,
    setup: &Setup,
    me: u32,
    req: ReqId,
    r: OpenRequest,
) -> Option<DevId>
    requires { request_here (S.view_of seen.now) req ≡ Some r }
    ensures { result ≡ limit_due setup.now me req r }
{
    let dev = next_limited(setup, r)?;
    let to = home(setup, dev);
    if is_at_own(me, req, r) && may_go(seen, setup, me, to, &Token::Request(req)) {
        Some(dev)
    } else {
        None
    }
}

// The error device of this place, from 0, among those below.
#[tactic(auto, using(bd_rule_requests::proofs::Chosen::passes, bd_rule_requests::proofs::Chosen::skips, bd_rule_requests::proofs::Chosen::finds))]
fn error_at(setup: &Setup, dev: DevId, place: u32) -> Option<DevId>
    ensures { result ≡ slice_get (errors_below setup.now dev) place }
{
    let mut before = place;
    for d in below(setup, dev) {
        if is_error(setup, d) {
            if before == 0 {
                return Some(d);
            }
            before -= 1;
        }
    }
    None
}

/// The next error device that this request, which is here, asks for a decision, where the rules let it.
pub(crate) fn decision_due<S: Sees>(
    seen: &S,
    setup: &Setup,
    me: u32,
    req: ReqId,
    r: OpenRequest,
) -> Option<DevId>
    requires { request_here (S.view_of seen.now) req ≡ Some r }
    ensures { result ≡ decision_due setup.now me (S.view_of seen.now) req r }
{
    let dev = error_at(setup, r.dev, r.injected.count)?;
    if asks_injection(seen, setup, me, dev, req, r.op) {
        Some(dev)
    } else {
        None
    }
}
