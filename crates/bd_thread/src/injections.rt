//! Requests over error devices: the decisions that they take of the registry, and those that are kept without an
//! answer.
ghost use Rattle.std.specs.Prelude.{◌≡◌, ◌++◌, ◌∷◌, [], ◌<◌, true, length, vec_len, IfOk, None, OnOk, Some};
ghost use Rattle.bd_base.specs.declared.act.Act.TheVariants as acts;
ghost use Rattle.bd_links.specs.Entries.{longer};
ghost use Rattle.bd_machine.specs.Kept.{request_here};
ghost use Rattle.bd_registry.specs.State.{rows_of};
ghost use Rattle.bd_thread.specs.Acted.{Acted};
ghost use Rattle.bd_thread.specs.Calls.{NoCallOf, StandsAsked};
ghost use Rattle.bd_thread.specs.Injections.{asked_of, decision_asked, pend_due, Decides, NoDecisionOf, Pends, TakesDecision};
ghost use Rattle.bd_thread.specs.Limits.{head_of};
ghost use Rattle.bd_thread.specs.Lines.{may_ask};
ghost use Rattle.bd_thread.specs.Noted.{CallsAll, CallsFirst, CallsNoted, CallsRest};
ghost use Rattle.bd_thread.specs.Requests.{KeepsTickets};
ghost use Rattle.bd_thread.specs.Seen.{untaken, view_of};
ghost use Rattle.bd_thread.specs.Waits.{Idles};
ghost use Rattle.bd_thread.specs.Work.{AsksNothing};

use crate::links::Links;
use crate::thread::Thread;
use bd_base::{Act, Answer, Boxed, DevId, OutOfMemory, RegEvent, ReqId};
use bd_flight::{Step, next_step};
use bd_links::next_stamp;
use bd_machine::{Id, Kept, OpenRequest};
use bd_rule_faults::{asked_once_more, injected, pended, refused_pend};
use bd_rule_requests::request_here;
use std::collections::VecDeque;

// How many devices stand over each other at most, so how many error devices decide on a request.
const LAYERS: u32 = 64;

// What a request asks of an error device.
fn asked_of(req: ReqId, dev: DevId, r: OpenRequest) -> RegEvent
    ensures { result ≡ asked_of req dev r }
{
    RegEvent::TakeInjection { dev, req, op: r.op }
}

// The first of these requests.
fn first_of(calls: &VecDeque<ReqId>) -> Option<ReqId>
    ensures { result ≡ head_of calls.now.items }
{
    match calls.front() {
        Some(req) => Some(*req),
        None => None,
    }
}

impl<'a> Thread<'a> {
    // The error device that decides next on the request, where the rules let it ask, and the request.
    fn decision_asked(&self, links: &Links, req: ReqId) -> Option<(DevId, OpenRequest)>
        ensures { result ≡ decision_asked self.now links.now req }
    {
        let seen = self.seen(links);
        let Step::Inject(dev) = next_step(&seen, self.setup, self.me, req) else {
            return None;
        };
        let Some(r) = request_here(&seen, req) else {
            return None;
        };
        if self.may_ask(links, &asked_of(req, dev, r)) {
            Some((dev, r))
        } else {
            None
        }
    }

    // An entry has what the registry answered.
    fn note_answer(
        &mut self,
        links: &mut Links,
        event: RegEvent,
        answer: Answer,
    ) -> Result<(), OutOfMemory>
        ensures thread { OnOk result (self.new ≡ record self.old { part = untaken self.old.part }) }
        ensures links { OnOk result (links.new ≡ record links.old { entries = longer self.old.me links.old.entries (acts.Reg event answer) }) }
    {
        let boxed = Boxed::new(self.alloc, answer)?;
        self.note(
            links,
            Act::Reg {
                event,
                answer: boxed,
            },
        )
    }

    // The registry tells the error device's decision on the request, and the request has it at once: two entries with
    // nothing between them. Where it refuses (which the rules never let come about), nothing else changes. Where stamps
    // run out it answers out of memory.
    fn tell_decision(
        &mut self,
        links: &mut Links,
        req: ReqId,
        dev: DevId,
        r: OpenRequest,
    ) -> Result<(), OutOfMemory>
        requires { links.old.registry.setup ≡ rows_of self.old.setup.now }
        ensures { OnOk result (TakesDecision req dev r self.old links.old self.new links.new) }
    {
        let event = asked_of(req, dev, r);
        let Some(stamp) = next_stamp(&links.entries, links.registry.last_stamp()) else {
            return Err(OutOfMemory);
        };
        let asked = asked_once_more(r)?;
        match links.registry.event(self.alloc, self.me, stamp, &event)? {
            Answer::Injected { decision } => {
                let kept = Kept::Request(injected(decision, asked)?);
                self.held.hold(Id::Request(req), kept)?;
                self.note_answer(links, event, Answer::Injected { decision })?;
                self.note(links, Act::Inject { req, dev, decision })?;
                Ok(())
            }
            refused => {
                self.note_answer(links, event, refused)?;
                Ok(())
            }
        }
    }

    // The request has the error device's decision, as the registry tells it.
    fn take_decision(
        &mut self,
        links: &mut Links,
        req: ReqId,
        dev: DevId,
        r: OpenRequest,
    ) -> Result<(), OutOfMemory>
        requires here { request_here (view_of self.old links.old) req ≡ Some r }
        requires asked { may_ask self.old links.old (asked_of req dev r) ≡ true }
        requires rows { links.old.registry.setup ≡ rows_of self.old.setup.now }
        ensures acted { OnOk result (Acted self.old links.old self.new links.new) }
        ensures tickets { OnOk result (KeepsTickets self.old → KeepsTickets self.new) }
        ensures takes { OnOk result (TakesDecision req dev r self.old links.old self.new links.new) }
    {
        self.tell_decision(links, req, dev, r)?;
        Ok(())
    }

    /// Takes the decision of the next error device below the request, where the rules let it ask: it is here on its own
    /// thread, neither cut nor aborted nor marked, each decision so far lets it go on, and nothing has to follow at the
    /// registry: true. Else the answer is false, and nothing changed.
    fn decide(&mut self, links: &mut Links, req: ReqId) -> Result<bool, OutOfMemory>
        requires { links.old.registry.setup ≡ rows_of self.old.setup.now }
        ensures acted { OnOk result (Acted self.old links.old self.new links.new) }
        ensures tickets { OnOk result (KeepsTickets self.old → KeepsTickets self.new) }
        ensures decides { IfOk result (Decides req self.old links.old self.new links.new) }
    {
        let Some((dev, r)) = self.decision_asked(links, req) else {
            return Ok(false);
        };
        self.take_decision(links, req, dev, r)?;
        Ok(true)
    }

    // The request, where it is here and the rules let it be kept without an answer.
    fn pend_due(&self, links: &Links, req: ReqId) -> Option<OpenRequest>
        ensures { result ≡ pend_due self.now links.now req }
    {
        let seen = self.seen(links);
        match refused_pend(&seen, self.me, req) {
            None => request_here(&seen, req),
            Some(_) => None,
        }
    }

    /// Keeps a request without an answer, where the last decision on it says so and the rules let it: it is here on its
    /// own thread, not aborted, and not kept so before: true. Else the answer is false, and nothing changed.
    pub(crate) fn pend(&mut self, links: &mut Links, req: ReqId) -> Result<bool, OutOfMemory>
        ensures acted { OnOk result (Acted self.old links.old self.new links.new) }
        ensures tickets { OnOk result (KeepsTickets self.old → KeepsTickets self.new) }
        ensures pends { IfOk result (Pends req self.old links.old self.new links.new) }
    {
        let Some(r) = self.pend_due(links, req) else {
            return Ok(false);
        };
        self.held.hold(Id::Request(req), Kept::Request(pended(r)))?;
        self.note(links, Act::Pend { req })?;
        Ok(true)
    }

    /// Notes a request, which is to be carried on in a turn that has the registry.
    pub(crate) fn note_call(&mut self, req: ReqId) -> Result<(), OutOfMemory>
        ensures thread { OnOk result (self.new ≡ record self.old { calls = self.new.calls }) }
        ensures noted { OnOk result (self.new.calls.items ≡ self.old.calls.items ++ req ∷ []) }
    {
        self.calls.push_back(req)?;
        Ok(())
    }

    // Takes the decisions of the error devices below the request, from the top down, as far as they let it go on.
    fn decide_all(&mut self, links: &mut Links, req: ReqId) -> Result<(), OutOfMemory>
        requires { links.old.registry.setup ≡ rows_of self.old.setup.now }
        ensures acted { OnOk result (Acted self.old links.old self.new links.new) }
        ensures tickets { OnOk result (KeepsTickets self.old → KeepsTickets self.new) }
        ensures quiet { OnOk result (Idles (NoDecisionOf req) self.old links.old self.new links.new) }
        ensures noted { OnOk result (self.new.calls ≡ self.old.calls) }
    {
        for _round in 0..LAYERS {
            if !self.decide(links, req)? {
                break;
            }
        }
        Ok(())
    }

    // Asks the registry for what the request waits for, decisions or what a reset asks, and then carries it on.
    fn call(&mut self, links: &mut Links, req: ReqId) -> Result<(), OutOfMemory>
        requires me { self.old.me < vec_len links.old.queues }
        requires rows { links.old.registry.setup ≡ rows_of self.old.setup.now }
        ensures acted { OnOk result (Acted self.old links.old self.new links.new) }
        ensures tickets { OnOk result (KeepsTickets self.old → KeepsTickets self.new) }
        ensures quiet { OnOk result (Idles (NoCallOf req) self.old links.old self.new links.new) }
        ensures noted { OnOk result (self.new.calls ≡ self.old.calls) }
    {
        self.decide_all(links, req)?;
        self.reset(links, req)?;
        self.carry(links, req)?;
        Ok(())
    }

    // Asks the registry for what the noted requests wait for, in the order in which they were noted.
    fn call_all(&mut self, links: &mut Links) -> Result<(), OutOfMemory>
        requires me { self.old.me < vec_len links.old.queues }
        requires rows { links.old.registry.setup ≡ rows_of self.old.setup.now }
        ensures acted { OnOk result (Acted self.old links.old self.new links.new) }
        ensures tickets { OnOk result (KeepsTickets self.old → KeepsTickets self.new) }
        ensures calls { OnOk result (CallsAll self.old links.old self.new links.new) }
    {
        for _round in 0..self.calls.len() {
            let Some(req) = self.calls.pop_front() else {
                break;
            };
            self.call(links, req)?;
        }
        Ok(())
    }

    // Asks the registry for what the first noted request waits for, in a turn that added no entry since there were this
    // many. It stays noted.
    fn call_first(&mut self, links: &mut Links, entries: usize) -> Result<(), OutOfMemory>
        requires me { self.old.me < vec_len links.old.queues }
        requires rows { links.old.registry.setup ≡ rows_of self.old.setup.now }
        ensures acted { OnOk result (Acted self.old links.old self.new links.new) }
        ensures tickets { OnOk result (KeepsTickets self.old → KeepsTickets self.new) }
        ensures quiet { OnOk result (Idles (StandsAsked None) self.old links.old self.new links.new) }
        ensures first { OnOk result (CallsFirst entries self.old links.old self.new links.new) }
    {
        if entries != links.entries.len() {
            return Ok(());
        }
        let Some(req) = first_of(&self.calls) else {
            return Ok(());
        };
        self.call(links, req)?;
        Ok(())
    }

    // Asks the registry for what all noted requests wait for, in a turn that added entries since there were this many.
    fn call_rest(&mut self, links: &mut Links, entries: usize) -> Result<(), OutOfMemory>
        requires me { self.old.me < vec_len links.old.queues }
        requires rows { links.old.registry.setup ≡ rows_of self.old.setup.now }
        ensures acted { OnOk result (Acted self.old links.old self.new links.new) }
        ensures tickets { OnOk result (KeepsTickets self.old → KeepsTickets self.new) }
        ensures quiet { OnOk result (entries ≡ length links.old.entries → Idles (StandsAsked None) self.old links.old self.new links.new) }
        ensures rest { OnOk result (CallsRest entries self.old links.old self.new links.new) }
    {
        if entries != links.entries.len() {
            self.call_all(links)?;
        }
        Ok(())
    }

    /// Asks the registry for what the first noted request waits for, where the turn added no entry since there were this
    /// many, and for what all of them do once it added some.
    pub(crate) fn call_noted(
        &mut self,
        links: &mut Links,
        entries: usize,
    ) -> Result<(), OutOfMemory>
        requires me { self.old.me < vec_len links.old.queues }
        requires rows { links.old.registry.setup ≡ rows_of self.old.setup.now }
        ensures acted { OnOk result (Acted self.old links.old self.new links.new) }
        ensures tickets { OnOk result (KeepsTickets self.old → KeepsTickets self.new) }
        ensures quiet { OnOk result (entries ≡ length links.old.entries → Idles (StandsAsked None) self.old links.old self.new links.new) }
        ensures noted { OnOk result (CallsNoted entries self.old links.old self.new links.new) }
    {
        self.call_first(links, entries)?;
        self.call_rest(links, entries)?;
        Ok(())
    }

    /// Asks the registry for what this request waits for, where there is one, and then for what the noted ones do, in a
    /// turn that added no entry since there were this many.
    pub(crate) fn call_found(
        &mut self,
        links: &mut Links,
        entries: usize,
        found: Option<ReqId>,
    ) -> Result<(), OutOfMemory>
        requires me { self.old.me < vec_len links.old.queues }
        requires rows { links.old.registry.setup ≡ rows_of self.old.setup.now }
        ensures acted { OnOk result (Acted self.old links.old self.new links.new) }
        ensures tickets { OnOk result (KeepsTickets self.old → KeepsTickets self.new) }
        ensures quiet { OnOk result (entries ≡ length links.old.entries → Idles (StandsAsked found) self.old links.old self.new links.new) }
    {
        let Some(req) = found else {
            return Ok(());
        };
        if entries != links.entries.len() {
            return Ok(());
        }
        self.call(links, req)?;
        self.call_noted(links, entries)?;
        Ok(())
    }
}
