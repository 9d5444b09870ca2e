//! When a thread has nothing under way.
ghost use Rattle.std.specs.Prelude.{◌≡◌, ◌&&◌, Some, is_none};
ghost use Rattle.std.specs.List.{list_all, list_any};
ghost use Rattle.bd_machine.specs.declared.state.Id.TheVariants as ids;
ghost use Rattle.bd_machine.specs.declared.state.Open.{Open};
ghost use Rattle.bd_machine.specs.Kept.{as_request};
ghost use Rattle.bd_machine.specs.Walks.{is_reset};
ghost use Rattle.bd_steps.specs.Resetting.{reset_event};
ghost use Rattle.bd_tokens.specs.Tokens.{here_in};
ghost use Rattle.bd_thread.specs.Resting.{goes_on, has_destructed_all, has_going, is_among, is_blocked, is_done, is_held, is_kept, is_line_empty, is_moving, is_own, limited_for, rests, rests_but_for_time};

use crate::links::Links;
use crate::thread::Thread;
use bd_base::ReqId;
use bd_held::Held;
use bd_machine::{Hold, Id, Kept, Limited, OpenRequest, Part};
use bd_rule_requests::{is_at_own, is_marked, is_reset};
use bd_rule_script::is_script_blocked;
use bd_steps::{are_done_with, are_settled, reset_event};

// Whether no request waits in the line.
fn is_line_empty(l: &Limited) -> bool
    ensures { result ≡ is_line_empty l.now }
{
    l.waiting.len() == 0
}

// Whether no request waits in any of these lines.
fn are_lines_empty(limited: &[Limited]) -> bool
    ensures { result ≡ list_all is_line_empty limited.now }
{
    limited.iter().all(|l| is_line_empty(l))
}

// Whether it is a reset that asks the registry for nothing: a walk of it is under way, or it waits for others.
fn is_under_way(part: &Part, req: ReqId, r: OpenRequest) -> bool
    ensures { result ≡ is_reset r.op && is_none (reset_event part.now req (Some r)) }
{
    is_reset(r.op) && reset_event(part, req, Some(r)).is_none()
}

// Whether the request is held, and its hold is one of these.
fn is_among(holds: &Held, req: ReqId, hold: Hold) -> bool
    ensures { result ≡ is_among holds.now req hold }
{
    match hold {
        Hold::Until { moment, .. } => holds.has(req, moment),
        Hold::Before | Hold::Over => false,
    }
}

impl<'a> Thread<'a> {
    /// Whether nothing goes on by itself here, but by its script: of tokens there are only its own requests that are
    /// kept without an answer, and that nothing stops; nothing is still to be sent, put or done, each handle whose
    /// remove event it took is closed (but for base handles), and its last entry asks for none directly after it.
    pub fn rests(&self, links: &Links) -> bool
        ensures { result ≡ rests self.now links.now }
    {
        self.outbox.len() == 0
            && self.part.due.len() == 0
            && self.part.owed.len() == 0
            && self.part.prior.is_none()
            && self.held.are_all_pended(self.setup, &self.part, self.me)
            && are_settled(&self.seen(links), self.setup)
    }

    /// Whether nothing is left: no token is on the thread, not even a request without an answer, nothing is still to be
    /// put or done, and its last entry asks for none directly after it.
    pub fn is_done(&self) -> bool
        ensures { result ≡ is_done self.now }
    {
        self.held.len() == 0
            && self.part.due.len() == 0
            && self.part.owed.len() == 0
            && self.part.prior.is_none()
    }

    /// Whether the request is here on its own thread, and in no line of a limited device.
    pub(crate) fn is_own(&self, req: ReqId) -> bool
        ensures { result ≡ is_own self.now req (as_request (here_in self.now.held.items (ids.Request req))) }
    {
        match self.held.get(Id::Request(req)) {
            Some(Kept::Request(r)) => is_at_own(self.me, req, *r),
            _ => false,
        }
    }

    // Whether the request is kept without an answer, wasn't aborted, and no mark stops it here: a soft one may yet.
    fn is_kept(&self, r: &OpenRequest) -> bool
        ensures { result ≡ is_kept self.now (Some r.now) }
    {
        r.pended && r.aborted.is_none() && !is_marked(self.setup, &self.part, r)
    }

    // Whether the request is here on its own thread, isn't kept without an answer, and is no reset under way.
    fn is_moving(&self, req: ReqId) -> bool
        ensures { result ≡ is_moving self.now req }
    {
        let Some(Kept::Request(r)) = self.held.get(Id::Request(req)) else {
            return false;
        };
        if !is_at_own(self.me, req, *r) || is_under_way(&self.part, req, *r) {
            return false;
        }
        !self.is_kept(r)
    }

    // Whether the request is here, and the thread holds it.
    fn is_held(&self, req: ReqId) -> bool
        ensures { result ≡ is_held self.now req (as_request (here_in self.now.held.items (ids.Request req))) }
    {
        match self.held.get(Id::Request(req)) {
            Some(Kept::Request(r)) => is_among(&self.holds, req, r.hold),
            _ => false,
        }
    }

    // Whether the request moves, and isn't held.
    fn goes_on(&self, req: ReqId) -> bool
        ensures { result ≡ goes_on self.now req }
    {
        self.is_moving(req) && !self.is_held(req)
    }

    // Whether one of all its open requests goes on.
    fn has_open_going(&self) -> bool
        ensures { result ≡ list_any (λ (o : Open). goes_on self.now o.id) self.now.part.requests }
    {
        self.part.requests.iter().any(|open| self.goes_on(open.id))
    }

    // Whether one of the requests goes on that are named as those that the thread has to look at.
    fn has_named_going(&self) -> bool
        ensures { result ≡ list_any (goes_on self.now) self.now.touched.reqs }
    {
        self.touched.iter().any(|req| self.goes_on(*req))
    }

    // Whether one of the open requests goes on that the thread has to look at.
    fn has_going(&self) -> bool
        ensures { result ≡ has_going self.now }
    {
        if self.touched.is_all() {
            self.has_open_going()
        } else {
            self.has_named_going()
        }
    }

    /// Whether nothing is still to be put or done, no piece of its requests is in flight or waits to be sent again, and
    /// of the open requests that it has to look at each is held, kept without an answer, away at the home of a limited
    /// device, or a reset under way: nothing goes on by itself here but its holds, its lines, walks that wait for
    /// these, and its script. It doesn't look at requests that rest (`law::each_rests`).
    pub fn rests_but_for_time(&self, links: &Links) -> bool
        ensures { result ≡ rests_but_for_time self.now links.now }
    {
        self.outbox.len() == 0
            && self.part.due.len() == 0
            && self.part.owed.len() == 0
            && self.part.prior.is_none()
            && self.retries.are_idle()
            && (self.is_bare() || !self.has_going())
            && are_settled(&self.seen(links), self.setup)
    }

    /// For how many microseconds from the moment of its turn on the timeslice lasts, at whose end those that wait here
    /// in the lines of limited devices get further quotas; none where no request waits in one.
    pub fn limited_for(&self) -> Option<u64>
        ensures { result ≡ limited_for self.now }
    {
        if are_lines_empty(self.part.limited.as_slice()) {
            return None;
        }
        let passed = self.time.moment().saturating_sub(self.time.start());
        Some(1000 - passed % 1000)
    }

    /// Whether its script is at its end, or the next line waits for a mark, for a remove event, for its
    /// open requests, or for room.
    pub fn is_blocked(&self, links: &Links) -> bool
        ensures { result ≡ is_blocked self.now links.now }
    {
        is_script_blocked(&self.seen(links), self.setup, self.me)
    }

    /// Whether each device whose home it is was destructed.
    pub fn has_destructed_all(&self) -> bool
        ensures { result ≡ has_destructed_all self.now }
    {
        let Ok(count) = u32::try_from(self.setup.devices.len()) else {
            return false;
        };
        are_done_with(self.setup, self.me, self.part.destructed.as_slice(), count)
    }
}
