//! The next step of open requests: where a turn did nothing else, each that can take one takes it.
ghost use Rattle.std.specs.Prelude.{◌≡◌, ◌==◌, ◌<◌, ◌||◌, is_some, length, vec_len, IfOk, OnOk};
ghost use Rattle.bd_machine.specs.declared.state.Id.TheVariants as ids;
ghost use Rattle.bd_tokens.specs.Tokens.{here_in};
ghost use Rattle.bd_thread.specs.Acted.{Acted};
ghost use Rattle.bd_thread.specs.Requests.{KeepsTickets};
ghost use Rattle.bd_thread.specs.Calls.{next_found};
ghost use Rattle.bd_thread.specs.Injections.{is_inject};
ghost use Rattle.bd_thread.specs.Looking.{KeepsLooking, LooksAgain, LooksAt, Settles};
ghost use Rattle.bd_thread.specs.Waits.{Idles, StandsBut, StandsNamed, StandsOf};
ghost use Rattle.bd_thread.specs.Work.{AsksNothing};

use crate::links::Links;
use crate::thread::Thread;
use bd_base::{OutOfMemory, ReqId};
use bd_flight::{Step, next_step};
use bd_machine::Id;
use bd_touched::{Touched, rests};

// Whether this step asks the registry, a decision of an error device, or the request is a reset that does.
fn asks(step: Step, as_reset: bool) -> bool
    ensures { result ≡ is_inject step || as_reset }
{
    matches!(step, Step::Inject(_)) || as_reset
}

// The first that was found, or else this one, where it asks.
fn next_found(asks: bool, req: ReqId, found: Option<ReqId>) -> Option<ReqId>
    ensures { result ≡ next_found asks req found }
{
    match found {
        Some(first) => Some(first),
        None => { if asks { Some(req) } else { None } }
    }
}

impl<'a> Thread<'a> {
    // Whether no request is open, or no token is on this thread.
    pub(crate) fn is_bare(&self) -> bool
        ensures { result ≡ (length self.now.part.requests == 0) || (length self.now.held.items == 0) }
    {
        self.part.requests.len() == 0 || self.held.len() == 0
    }

    // Whether the request is on this thread, and not at the home of a limited device or on its way.
    fn is_here(&self, req: ReqId) -> bool
        ensures { result ≡ is_some (here_in self.now.held.items (ids.Request req)) }
    {
        self.held.get(Id::Request(req)).is_some()
    }

    /// Takes the next step of the request, where that is one that threads take as yet and that asks the registry for
    /// nothing: it is aborted by a mark, cut, kept without an answer, released, held, completed, or put on its way to
    /// the home of a limited device. Whether it asks the registry next: for a decision of an error device, or as a reset.
    pub(crate) fn carry(&mut self, links: &mut Links, req: ReqId) -> Result<bool, OutOfMemory>
        requires { self.old.me < vec_len links.old.queues }
        ensures acted { OnOk result (Acted self.old links.old self.new links.new) }
        ensures tickets { OnOk result (KeepsTickets self.old → KeepsTickets self.new) }
        ensures quiet { IfOk result (λ asks. Idles (StandsOf asks req) self.old links.old self.new links.new) }
        ensures noted { OnOk result (self.new.calls ≡ self.old.calls) }
        ensures alone { OnOk result (AsksNothing links.old links.new) }
    {
        if !self.is_here(req) {
            return Ok(false);
        }
        let step = next_step(&self.seen(links), self.setup, self.me, req);
        match step {
            Step::Abort(cause) => {
                self.stop(links, req, cause)?;
                Ok(false)
            }
            Step::Cut => {
                self.cut(links, req)?;
                Ok(false)
            }
            Step::Pend => {
                self.pend(links, req)?;
                Ok(false)
            }
            _ => {
                self.stop_named(links, req)?;
                self.go_on(links, req)?;
                self.go_out(links, req, step)?;
                let as_reset = self.asks_reset(links, req);
                Ok(asks(step, as_reset))
            }
        }
    }

    // Carries those on that are to be looked at, one after another, up to the first that can take a step.
    fn carry_named(
        &mut self,
        links: &mut Links,
        entries: usize,
        touched: &Touched,
    ) -> Result<Option<ReqId>, OutOfMemory>
        requires { self.old.me < vec_len links.old.queues }
        ensures acted { OnOk result (Acted self.old links.old self.new links.new) }
        ensures tickets { OnOk result (KeepsTickets self.old → KeepsTickets self.new) }
        ensures quiet { IfOk result (λ found. entries ≡ length links.old.entries → Idles (StandsNamed found touched.now.reqs) self.old links.old self.new links.new) }
        ensures alone { OnOk result (AsksNothing links.old links.new) }
    {
        let mut found = None;
        for place in 0..touched.len() {
            if entries != links.entries.len() {
                break;
            }
            let Some(req) = touched.get(place) else {
                break;
            };
            let asks = self.carry(links, req)?;
            found = next_found(asks, req, found);
        }
        Ok(found)
    }

    // It is to be looked at again, unless it rests.
    fn look_again(&self, links: &Links, req: ReqId, touched: &mut Touched)
        ensures { LooksAgain req self.now touched.old touched.new }
    {
        if rests(&self.seen(links), self.setup, self.me, req, touched) {
            return;
        }
        touched.add(req);
    }

    // Where no act was made, those that rest are no longer to be looked at, until an act reaches them.
    fn settle(&self, links: &Links, entries: usize, touched: &mut Touched)
        ensures { Settles entries self.now links.now touched.old touched.new }
    {
        if entries != links.entries.len() {
            return;
        }
        for _round in 0..touched.len() {
            let Some(req) = touched.take_first() else {
                return;
            };
            self.look_again(links, req, touched);
        }
    }

    /// Carries the open requests on that are to be looked at, up to the first that can take a step, and only where there
    /// are still as many entries as there were: in a turn that did nothing else. A request is cut as it is accepted,
    /// aborted as the mark comes, held or completed as its last piece comes back, and released in the turn whose moment
    /// it is held until, so there is hardly ever one. Those of them that rest then aren't looked at again before an act
    /// reaches them or their hold ends. The first of them that asks the registry for something next.
    pub(crate) fn carry_all(
        &mut self,
        links: &mut Links,
        entries: usize,
        touched: &mut Touched,
    ) -> Result<Option<ReqId>, OutOfMemory>
        requires { self.old.me < vec_len links.old.queues }
        ensures acted { OnOk result (Acted self.old links.old self.new links.new) }
        ensures tickets { OnOk result (KeepsTickets self.old → KeepsTickets self.new) }
        ensures scanned { OnOk result (KeepsLooking entries touched.old self.old links.old touched.new self.new links.new) }
        ensures quiet { IfOk result (λ found. entries ≡ length links.old.entries → Idles (StandsBut (LooksAt touched.old) found) self.old links.old self.new links.new) }
        ensures alone { OnOk result (AsksNothing links.old links.new) }
    {
        if entries != links.entries.len() {
            return Ok(None);
        }
        if self.is_bare() {
            return Ok(None);
        }
        touched.expire(self.time.moment());
        touched.name_all(&self.part.requests)?;
        let found = self.carry_named(links, entries, touched)?;
        self.settle(links, entries, touched);
        Ok(found)
    }
}
