//! Limits: requests that wait here for the thread's limited devices, the timeslices that bring quotas, and the way
//! there and back.
ghost use Rattle.std.specs.Prelude.{◌≡◌, ◌<◌, true, is_some, vec_len, IfOk, IfSome, OnOk};
ghost use Rattle.bd_thread.specs.Aborts.{abort_due};
ghost use Rattle.bd_thread.specs.Acted.{Acted};
ghost use Rattle.bd_thread.specs.Begins.{SetsOut};
ghost use Rattle.bd_thread.specs.Limits.{head_of, head_stop, let_due, line_at, tick_due, with_id, Lets, NoLimit, NoLimitAt, NoLimitOn, NoMarkedHead, NoWayOut, Ticks};
ghost use Rattle.bd_thread.specs.Moves.{ComesRequest};
ghost use Rattle.bd_thread.specs.Requests.{KeepsTickets};
ghost use Rattle.bd_thread.specs.Waits.{Idles, Progresses};
ghost use Rattle.bd_thread.specs.Work.{AsksNothing};

use crate::links::Links;
use crate::thread::Thread;
use bd_base::{AbortCause, Act, DevId, OutOfMemory, ReqId, Token};
use bd_blocks::home;
use bd_flight::{Step, next_step};
use bd_machine::{Id, Kept, OpenRequest};
use bd_qos::slices_due;
use bd_rule_faults::{
    charge, limited_here, passed, refused_let, refused_tick, seen_at, waiting_for,
};
use bd_rule_requests::request_here;

// How many requests of a device's line a turn stops or lets pass, and timeslices it tells, at most.
const LINE_BATCH: u32 = 64;

// The first in a line.
fn head_of(waiting: &[ReqId]) -> Option<ReqId>
    ensures { result ≡ head_of waiting.now }
{
    match waiting.first() {
        Some(req) => Some(*req),
        None => None,
    }
}

// A request that is here, with its id.
fn with_id(req: ReqId, here: Option<OpenRequest>) -> Option<(ReqId, OpenRequest)>
    ensures { result ≡ with_id req here }
{
    match here {
        Some(r) => Some((req, r)),
        None => None,
    }
}

impl<'a> Thread<'a> {
    // The first in the device's line, where a mark here aborts it, and that mark.
    fn head_stop(&self, links: &Links, dev: DevId) -> Option<(ReqId, AbortCause)>
        ensures due { result ≡ head_stop self.now links.now dev }
        ensures allowed { IfSome result (λ due. is_some (abort_due self.now links.now due.0 due.1) ≡ true) }
    {
        let Some(req) = head_of(waiting_for(&self.part, dev)) else {
            return None;
        };
        let step = next_step(&self.seen(links), self.setup, self.me, req);
        let Step::Abort(cause) = step else {
            return None;
        };
        Some((req, cause))
    }

    // Stops the first in the device's line, where a mark here aborts it: true. Else nothing changes.
    fn stop_head(&mut self, links: &mut Links, dev: DevId) -> Result<bool, OutOfMemory>
        requires { self.old.me < vec_len links.old.queues }
        ensures acted { OnOk result (Acted self.old links.old self.new links.new) }
        ensures tickets { OnOk result (KeepsTickets self.old → KeepsTickets self.new) }
        ensures progresses { IfOk result (Progresses (NoMarkedHead dev) self.old links.old self.new links.new) }
        ensures alone { OnOk result (AsksNothing links.old links.new) }
    {
        let Some((req, cause)) = self.head_stop(links, dev) else {
            return Ok(false);
        };
        self.stop(links, req, cause)?;
        Ok(true)
    }

    // How many timeslices passed at the device by the turn's moment, where the rules let them be told.
    fn tick_due(&self, links: &Links, dev: DevId) -> Result<Option<u64>, OutOfMemory>
        ensures { IfOk result (λ due. due ≡ tick_due self.now links.now dev) }
    {
        let Some(limited) = limited_here(&self.part, dev) else {
            return Ok(None);
        };
        let now = self.time.moment();
        let slices = slices_due(self.time.start(), now, limited.slices);
        let seen = self.seen(links);
        match refused_tick(&seen, self.setup, self.me, dev, now, slices)? {
            None => Ok(Some(slices)),
            Some(_) => Ok(None),
        }
    }

    // Tells the timeslices that passed at the device by the turn's moment, where some did and a request waits: true,
    // and they brought their quotas. Else nothing changes.
    fn tick(&mut self, links: &mut Links, dev: DevId) -> Result<bool, OutOfMemory>
        ensures acted { OnOk result (Acted self.old links.old self.new links.new) }
        ensures tickets { OnOk result (KeepsTickets self.old → KeepsTickets self.new) }
        ensures ticks { IfOk result (Ticks dev self.old links.old self.new links.new) }
    {
        let Some(slices) = self.tick_due(links, dev)? else {
            return Ok(false);
        };
        let now = self.time.moment();
        bd_rule_faults::tick(&mut self.part, self.setup, dev, now, slices)?;
        self.note(links, Act::Tick { dev, now, slices })?;
        Ok(true)
    }

    // The first in the device's line, where the rules let it pass at the turn's moment.
    fn let_due(&self, links: &Links, dev: DevId) -> Option<(ReqId, OpenRequest)>
        ensures { result ≡ let_due self.now links.now dev }
    {
        let Some(req) = head_of(waiting_for(&self.part, dev)) else {
            return None;
        };
        let seen = self.seen(links);
        let now = self.time.moment();
        match refused_let(&seen, self.setup, self.me, req, dev, now) {
            None => with_id(req, request_here(&seen, req)),
            Some(_) => None,
        }
    }

    // Lets the first in the device's line pass, where the rules let it: true, and it is charged to each limit that
    // counts it, waits no longer, and is to be put back to its own thread. Else nothing changes.
    fn let_pass(&mut self, links: &mut Links, dev: DevId) -> Result<bool, OutOfMemory>
        ensures acted { OnOk result (Acted self.old links.old self.new links.new) }
        ensures tickets { OnOk result (KeepsTickets self.old → KeepsTickets self.new) }
        ensures lets { IfOk result (Lets dev self.old links.old self.new links.new) }
    {
        let Some((req, r)) = self.let_due(links, dev) else {
            return Ok(false);
        };
        let now = self.time.moment();
        let kept = Kept::Request(passed(r)?);
        charge(self.setup, &mut self.part.limited, dev, req, Some(r))?;
        self.part.moments = seen_at(now, self.part.moments);
        self.held.hold(Id::Request(req), kept)?;
        self.outbox.push_back((req.thread, Token::Request(req)))?;
        self.note(links, Act::Let { req, dev, now })?;
        Ok(true)
    }

    // Stops the first in the device's line, or tells timeslices, or lets the first pass: true. Else nothing changes.
    fn limit_once(&mut self, links: &mut Links, dev: DevId) -> Result<bool, OutOfMemory>
        requires { self.old.me < vec_len links.old.queues }
        ensures acted { OnOk result (Acted self.old links.old self.new links.new) }
        ensures tickets { OnOk result (KeepsTickets self.old → KeepsTickets self.new) }
        ensures quiet { OnOk result (Idles (NoLimitOn dev) self.old links.old self.new links.new) }
        ensures alone { OnOk result (AsksNothing links.old links.new) }
    {
        let stopped = self.stop_head(links, dev)?;
        if stopped {
            return Ok(true);
        }
        let ticked = self.tick(links, dev)?;
        if ticked {
            return Ok(true);
        }
        let passed = self.let_pass(links, dev)?;
        Ok(passed)
    }

    // Serves a device's line.
    fn limit(&mut self, links: &mut Links, dev: DevId) -> Result<(), OutOfMemory>
        requires { self.old.me < vec_len links.old.queues }
        ensures acted { OnOk result (Acted self.old links.old self.new links.new) }
        ensures tickets { OnOk result (KeepsTickets self.old → KeepsTickets self.new) }
        ensures quiet { OnOk result (Idles (NoLimitOn dev) self.old links.old self.new links.new) }
        ensures alone { OnOk result (AsksNothing links.old links.new) }
    {
        for _round in 0..LINE_BATCH {
            if !self.limit_once(links, dev)? {
                break;
            }
        }
        Ok(())
    }

    // The thread's limited device at this place, where a request waits in its line.
    fn line_at(&self, place: usize) -> Option<DevId>
        ensures { result ≡ line_at place self.now }
    {
        let limited = self.part.limited.as_slice().get(place)?;
        if limited.waiting.len() == 0 {
            None
        } else {
            Some(limited.dev)
        }
    }

    // Serves the line of the limited device at this place, where a request waits in it.
    #[tactic(auto, using(crate::proofs::Alone::alone_none))]
    fn limit_at(&mut self, links: &mut Links, place: usize) -> Result<(), OutOfMemory>
        requires { self.old.me < vec_len links.old.queues }
        ensures acted { OnOk result (Acted self.old links.old self.new links.new) }
        ensures tickets { OnOk result (KeepsTickets self.old → KeepsTickets self.new) }
        ensures quiet { OnOk result (Idles (NoLimitAt place) self.old links.old self.new links.new) }
        ensures alone { OnOk result (AsksNothing links.old links.new) }
    {
        let Some(dev) = self.line_at(place) else {
            return Ok(());
        };
        self.limit(links, dev)
    }

    /// Serves the lines of the thread's limited devices: the first of each is sent back aborted where a mark here
    /// aborts it; else timeslices that passed bring their quotas; else it passes, where something is left of each limit
    /// that counts it, and is sent back.
    pub(crate) fn limit_all(&mut self, links: &mut Links) -> Result<(), OutOfMemory>
        requires { self.old.me < vec_len links.old.queues }
        ensures acted { OnOk result (Acted self.old links.old self.new links.new) }
        ensures tickets { OnOk result (KeepsTickets self.old → KeepsTickets self.new) }
        ensures quiet { OnOk result (Idles NoLimit self.old links.old self.new links.new) }
        ensures alone { OnOk result (AsksNothing links.old links.new) }
    {
        for place in 0..self.part.limited.len() {
            self.limit_at(links, place)?;
        }
        Ok(())
    }

    /// A request that isn't cut as it comes is to be put, after all else, to the home of the device whose limits count
    /// it next, where that is its next step; and it is noted, where that is the decision of an error device. Whether it
    /// was one of these.
    pub(crate) fn set_out(&mut self, links: &Links, req: ReqId) -> Result<bool, OutOfMemory>
        ensures { IfOk result (SetsOut req self.old links.now self.new links.now) }
    {
        match next_step(&self.seen(links), self.setup, self.me, req) {
            Step::Limit(dev) => {
                let to = home(self.setup, dev);
                self.outbox.push_back((to, Token::Request(req)))?;
                Ok(true)
            }
            Step::Inject(_) => {
                self.note_call(req)?;
                Ok(true)
            }
            _ => Ok(false),
        }
    }

    /// Puts a request whose next step this is on its way to the home of the device whose limits count it, where nothing
    /// else is still to be put and there is room. Else nothing changes.
    pub(crate) fn go_out(
        &mut self,
        links: &mut Links,
        req: ReqId,
        step: Step,
    ) -> Result<(), OutOfMemory>
        requires { self.old.me < vec_len links.old.queues }
        ensures acted { OnOk result (Acted self.old links.old self.new links.new) }
        ensures tickets { OnOk result (KeepsTickets self.old → KeepsTickets self.new) }
        ensures quiet { OnOk result (Idles (NoWayOut req step) self.old links.old self.new links.new) }
        ensures noted { OnOk result (self.new.calls ≡ self.old.calls) }
        ensures alone { OnOk result (AsksNothing links.old links.new) }
    {
        let Step::Limit(dev) = step else {
            return Ok(());
        };
        if self.outbox.len() != 0 {
            return Ok(());
        }
        let to = home(self.setup, dev);
        let what = Token::Request(req);
        if !self.may_leave(links, to, &what) {
            return Ok(());
        }
        self.put(links, to, what)?;
        Ok(())
    }

    /// A request that came: it waits here in a device's line, unless a mark aborts it; or it is back on its own thread,
    /// and takes its next step.
    pub(crate) fn request_came(&mut self, links: &mut Links, req: ReqId) -> Result<(), OutOfMemory>
        requires { self.old.me < vec_len links.old.queues }
        ensures acted { OnOk result (Acted self.old links.old self.new links.new) }
        ensures tickets { OnOk result (KeepsTickets self.old → KeepsTickets self.new) }
        ensures came { OnOk result (ComesRequest req self.old links.old self.new links.new) }
    {
        let is_set_out = self.set_out(links, req)?;
        if is_set_out {
            return Ok(());
        }
        let _asks = self.carry(links, req)?;
        Ok(())
    }
}
