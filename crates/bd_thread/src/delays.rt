//! Requests that delay devices hold: once their pieces are back, until the moment that their latencies give.
ghost use Rattle.std.specs.Prelude.{◌≡◌, ◌<◌, vec_len, IfOk, OnOk};
ghost use Rattle.bd_thread.specs.Acted.{Acted};
ghost use Rattle.bd_thread.specs.Delays.{held_for, hold_due, release_due, EndsHold, Holds, HoldsOrCompletes, NoFirstRelease, Releases, StandsStill};
ghost use Rattle.bd_thread.specs.Requests.{KeepsTickets};
ghost use Rattle.bd_thread.specs.Waits.{Idles};
ghost use Rattle.bd_thread.specs.Work.{AsksNothing};

use crate::links::Links;
use crate::thread::Thread;
use bd_base::{Act, OutOfMemory, ReqId};
use bd_blocks::way_of;
use bd_delay::{counted, held_until};
use bd_machine::{Id, Kept, OpenRequest};
use bd_rule_faults::{held, refused_hold, refused_release, released, seen_at};
use bd_rule_requests::{is_delayed, request_here};
use bd_steps::drop_unsent;

impl<'a> Thread<'a> {
    // The request, where the rules let it be held until the turn's moment with its latencies, and that moment.
    fn hold_due(&self, links: &Links, req: ReqId) -> Result<Option<(OpenRequest, u64)>, OutOfMemory>
        ensures { IfOk result (λ due. due ≡ hold_due self.now links.now req) }
    {
        let seen = self.seen(links);
        let Some(r) = request_here(&seen, req) else {
            return Ok(None);
        };
        if !is_delayed(self.setup, r) {
            return Ok(None);
        }
        let now = self.time.moment();
        let until = held_until(self.setup, &self.part, r.dev, way_of(r.op), now)?;
        match refused_hold(&seen, self.setup, self.me, req, until)? {
            None => Ok(Some((r, until))),
            Some(_) => Ok(None),
        }
    }

    // The request, where it is held and the rules let it be released at the turn's moment.
    fn release_due(&self, links: &Links, req: ReqId) -> Result<Option<OpenRequest>, OutOfMemory>
        ensures { IfOk result (λ due. due ≡ release_due self.now links.now req) }
    {
        let seen = self.seen(links);
        match refused_release(&seen, self.setup, self.me, req, self.time.moment())? {
            None => Ok(request_here(&seen, req)),
            Some(_) => Ok(None),
        }
    }

    /// Holds a request where the rules let it: it is a read or a write over delay devices, here on its own thread, cut,
    /// not aborted and not held before, none of its pieces is out, and each was served, or one has a fault. It is held
    /// until the turn's moment with the latencies of all delay devices below it, which count it, and its pieces that
    /// wait unsent are no longer to be put, nor to be sent again: true. Else the answer is false, and nothing changed.
    pub(crate) fn hold(&mut self, links: &mut Links, req: ReqId) -> Result<bool, OutOfMemory>
        ensures acted { OnOk result (Acted self.old links.old self.new links.new) }
        ensures tickets { OnOk result (KeepsTickets self.old → KeepsTickets self.new) }
        ensures holds { IfOk result (Holds req self.old links.old self.new links.new) }
    {
        let Some((r, until)) = self.hold_due(links, req)? else {
            return Ok(false);
        };
        let delayed = counted(self.setup, &self.part, Some(r))?;
        let kept = held(self.setup, &self.part, until, r)?;
        drop_unsent(
            &mut self.outbox,
            &mut self.retries,
            &self.held,
            self.setup,
            req,
        );
        self.part.delayed = delayed;
        self.holds.insert(req, until)?;
        self.held.hold(Id::Request(req), Kept::Request(kept))?;
        self.note(links, Act::Hold { req, until })?;
        Ok(true)
    }

    /// Releases a held request where the rules let it at the turn's moment, which the entry names: it is held until
    /// then or before, is neither aborted nor marked since, and no entry of the thread named a later moment: true. Else
    /// the answer is false, and nothing changed.
    pub(crate) fn release(&mut self, links: &mut Links, req: ReqId) -> Result<bool, OutOfMemory>
        ensures acted { OnOk result (Acted self.old links.old self.new links.new) }
        ensures tickets { OnOk result (KeepsTickets self.old → KeepsTickets self.new) }
        ensures releases { IfOk result (Releases req self.old links.old self.new links.new) }
    {
        let Some(r) = self.release_due(links, req)? else {
            return Ok(false);
        };
        let now = self.time.moment();
        self.part.moments = seen_at(now, self.part.moments);
        self.holds.remove(req, r.hold);
        self.held
            .hold(Id::Request(req), Kept::Request(released(r)))?;
        self.note(links, Act::Release { req, now })?;
        Ok(true)
    }

    /// Releases a held request where the rules let it at the turn's moment, and then completes it: true. Else the
    /// answer is false, and nothing changed.
    fn end_hold(&mut self, links: &mut Links, req: ReqId) -> Result<bool, OutOfMemory>
        requires { self.old.me < vec_len links.old.queues }
        ensures acted { OnOk result (Acted self.old links.old self.new links.new) }
        ensures tickets { OnOk result (KeepsTickets self.old → KeepsTickets self.new) }
        ensures ends { IfOk result (EndsHold req self.old links.old self.new links.new) }
    {
        let is_released = self.release(links, req)?;
        if !is_released {
            return Ok(false);
        }
        let _completed = self.complete(links, req)?;
        Ok(true)
    }

    /// Holds a request where the rules let it; else completes it, where they let it.
    pub(crate) fn hold_or_complete(
        &mut self,
        links: &mut Links,
        req: ReqId,
    ) -> Result<(), OutOfMemory>
        requires { self.old.me < vec_len links.old.queues }
        ensures acted { OnOk result (Acted self.old links.old self.new links.new) }
        ensures tickets { OnOk result (KeepsTickets self.old → KeepsTickets self.new) }
        ensures carried { OnOk result (HoldsOrCompletes req self.old links.old self.new links.new) }
    {
        let is_held = self.hold(links, req)?;
        if is_held {
            return Ok(());
        }
        let _completed = self.complete(links, req)?;
        Ok(())
    }

    /// Releases a request and completes it, or holds it, or completes it, where the rules let it.
    pub(crate) fn go_on(&mut self, links: &mut Links, req: ReqId) -> Result<(), OutOfMemory>
        requires { self.old.me < vec_len links.old.queues }
        ensures acted { OnOk result (Acted self.old links.old self.new links.new) }
        ensures tickets { OnOk result (KeepsTickets self.old → KeepsTickets self.new) }
        ensures quiet { OnOk result (Idles (StandsStill req) self.old links.old self.new links.new) }
        ensures noted { OnOk result (self.new.calls ≡ self.old.calls) }
        ensures alone { OnOk result (AsksNothing links.old links.new) }
    {
        if !self.is_own(req) {
            return Ok(());
        }
        let ended = self.end_hold(links, req)?;
        if ended {
            return Ok(());
        }
        self.hold_or_complete(links, req)?;
        Ok(())
    }

    // Releases the request whose hold ends first, where the turn's moment is there, and completes it.
    #[tactic(auto, using(crate::proofs::Alone::alone_none))]
    fn release_next(&mut self, links: &mut Links) -> Result<bool, OutOfMemory>
        requires { self.old.me < vec_len links.old.queues }
        ensures acted { OnOk result (Acted self.old links.old self.new links.new) }
        ensures tickets { OnOk result (KeepsTickets self.old → KeepsTickets self.new) }
        ensures quiet { OnOk result (Idles NoFirstRelease self.old links.old self.new links.new) }
        ensures alone { OnOk result (AsksNothing links.old links.new) }
    {
        let Some(first) = self.holds.first() else {
            return Ok(false);
        };
        if first.until > self.time.moment() {
            return Ok(false);
        }
        let ended = self.end_hold(links, first.req)?;
        Ok(ended)
    }

    /// Releases all held requests whose moment is there at the turn's, in the order in which their holds end, and
    /// completes them.
    pub(crate) fn release_all(&mut self, links: &mut Links) -> Result<(), OutOfMemory>
        requires { self.old.me < vec_len links.old.queues }
        ensures acted { OnOk result (Acted self.old links.old self.new links.new) }
        ensures tickets { OnOk result (KeepsTickets self.old → KeepsTickets self.new) }
        ensures quiet { OnOk result (Idles NoFirstRelease self.old links.old self.new links.new) }
        ensures alone { OnOk result (AsksNothing links.old links.new) }
    {
        for _round in 0..self.holds.len() {
            if !self.release_next(links)? {
                break;
            }
        }
        Ok(())
    }

    /// For how many microseconds from the moment of its turn on the first of its holds lasts; none where it holds no
    /// request.
    pub fn held_for(&self) -> Option<u64>
        ensures { result ≡ held_for self.now }
    {
        let first = self.holds.first()?;
        Some(first.until.saturating_sub(self.time.moment()))
    }
}
