//! Which open requests rest.
ghost use Rattle.std.specs.Prelude.{◌≡◌, ◌≤◌, true, length, not, List, Some};
ghost use Rattle.bd_machine.specs.Kept.{request_here};
ghost use Rattle.bd_flight.specs.Next.{is_wait};
ghost use Rattle.bd_machine.specs.Requests.{is_walking};
ghost use Rattle.bd_machine.specs.Walks.{reset_of};
ghost use Rattle.bd_touched.specs.Rests.{is_on_own, may_rest, RestsById};
ghost use Rattle.bd_held.specs.Holds.{HoldKey};
ghost use Rattle.bd_touched.specs.Reach.{holds_on};

use crate::touched::Touched;
use bd_base::{ReqId, Setup};
use bd_flight::{Step, next_step};
use bd_machine::{Open, OpenList, OpenRequest};
use bd_rule_requests::{has_range, is_reset, is_walking, request_here, reset_of};
use bd_rule_view::{Sees, same_request};

// Whether no walk of the request, a reset, is under way.
fn is_still<S: Sees>(seen: &S, req: ReqId) -> bool
    ensures { result ≡ not (is_walking (reset_of (S.view_of seen.now).part req)) }
{
    !is_walking(reset_of(seen.part(), req))
}

// Whether the step is to wait.
fn is_wait(step: Step) -> bool
    ensures { result ≡ is_wait step }
{
    matches!(step, Step::Wait)
}

// Whether the open request is no reset, and is on the device that it is open on.
fn is_on_own(request: &Open, r: OpenRequest) -> bool
    ensures { result ≡ is_on_own request.now r }
{
    !is_reset(request.op) && r.dev.0 == request.dev.0
}

// Whether a request that is here has a range, and waits by its tokens and the marks of its devices alone.
fn may_rest<S: Sees>(seen: &S, setup: &Setup, me: u32, req: ReqId, r: OpenRequest) -> bool
    requires { request_here (S.view_of seen.now) req ≡ Some r }
    ensures { result ≡ true → (keys : List HoldKey) → holds_on keys req r.hold ≡ true → may_rest setup.now me (S.view_of seen.now) keys req r ≡ true }
{
    if !has_range(r.op) {
        return false;
    }
    if !is_still(seen, req) {
        return false;
    }
    is_wait(next_step(seen, setup, me, req))
}

// Whether there is an open request at this place, of a lower number.
fn is_lower(requests: &OpenList, place: usize, seq: u64) -> bool {
    match requests.get(place) {
        Some(open) => open.id.seq < seq,
        None => false,
    }
}

// The place of the request among open ones, where they stand by rising numbers.
fn place_of(requests: &OpenList, req: ReqId) -> usize
    ensures { result ≤ length requests.now }
{
    let mut low = 0;
    let mut high = requests.len();
    for _round in 0..64 {
        if low >= high {
            break;
        }
        let middle = low + (high - low) / 2;
        if is_lower(requests, middle, req.seq) {
            low = middle + 1;
        } else {
            high = middle;
        }
    }
    low
}

/// Whether the open request of this id rests: it isn't here, or it is a read, write, zeroes, unmap or flush that can do
/// nothing, whatever the thread does, until an act names it or changes the marks of its devices, or until its hold ends,
/// where it is held.
pub fn rests<S: Sees>(seen: &S, setup: &Setup, me: u32, req: ReqId, touched: &Touched) -> bool
    ensures { result ≡ true → RestsById setup.now me (S.view_of seen.now) (S.view_of seen.now).part.requests req touched.now.holds }
{
    let requests = &seen.part().requests;
    let Some(open) = requests.get(place_of(requests, req)) else {
        return false;
    };
    if !same_request(open.id, req) {
        return false;
    }
    let Some(r) = request_here(seen, req) else {
        return true;
    };
    if !touched.holds_on(req, r.hold) {
        return false;
    }
    if !is_on_own(open, r) {
        return false;
    }
    may_rest(seen, setup, me, req, r)
}
