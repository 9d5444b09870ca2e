//! Resets: what each asks of the registry next, and those that are noted for a turn that has it.
ghost use Rattle.std.specs.Prelude.{◌≡◌, IfOk, OnOk};
ghost use Rattle.bd_registry.specs.State.{rows_of};
ghost use Rattle.bd_thread.specs.Acted.{Acted};
ghost use Rattle.bd_thread.specs.Calls.{asks_reset, event_due, reset_asked, AsksReset, NoResetOf, NotesResets};
ghost use Rattle.bd_thread.specs.Requests.{KeepsTickets};
ghost use Rattle.bd_thread.specs.Waits.{Idles};

use crate::links::Links;
use crate::thread::Thread;
use bd_base::{OutOfMemory, RegEvent, ReqId};
use bd_rule_requests::request_here;
use bd_steps::{note_resets, reset_event};

// How many events a reset asks for: that it begins, that new channels aren't frozen any more, and that it ends.
const EVENTS: u32 = 3;

impl<'a> Thread<'a> {
    // What the request asks of the registry next, where it is a reset and is here.
    fn event_due(&self, links: &Links, req: ReqId) -> Option<RegEvent>
        ensures { result ≡ event_due self.now links.now req }
    {
        let here = request_here(&self.seen(links), req);
        reset_event(&self.part, req, here)
    }

    /// Whether the request is a reset that may ask the registry for something, where nothing has to follow there.
    pub(crate) fn asks_reset(&self, links: &Links, req: ReqId) -> bool
        ensures { result ≡ asks_reset self.now links.now req }
    {
        match self.event_due(links, req) {
            Some(event) => self.may_ask_after(links, None, &event),
            None => false,
        }
    }

    // What the request asks of the registry next, where it is a reset and the rules let it ask.
    fn reset_asked(&self, links: &Links, req: ReqId) -> Option<RegEvent>
        ensures { result ≡ reset_asked self.now links.now req }
    {
        let Some(event) = self.event_due(links, req) else {
            return None;
        };
        if self.may_ask(links, &event) {
            Some(event)
        } else {
            None
        }
    }

    // The request asks the registry for what it does next, where it is a reset and the rules let it: true. Else nothing
    // changes.
    fn ask_reset(&mut self, links: &mut Links, req: ReqId) -> Result<bool, OutOfMemory>
        requires { links.old.registry.setup ≡ rows_of self.old.setup.now }
        ensures acted { OnOk result (Acted self.old links.old self.new links.new) }
        ensures tickets { OnOk result (KeepsTickets self.old → KeepsTickets self.new) }
        ensures asks { IfOk result (AsksReset req self.old links.old self.new links.new) }
    {
        let Some(event) = self.reset_asked(links, req) else {
            return Ok(false);
        };
        self.ask(links, event)?;
        Ok(true)
    }

    /// The request, where it is a reset, asks the registry for what it does next, as far as that goes on: a reset over
    /// a device of which no thread has a channel begins and ends at once.
    pub(crate) fn reset(&mut self, links: &mut Links, req: ReqId) -> Result<(), OutOfMemory>
        requires { links.old.registry.setup ≡ rows_of self.old.setup.now }
        ensures acted { OnOk result (Acted self.old links.old self.new links.new) }
        ensures tickets { OnOk result (KeepsTickets self.old → KeepsTickets self.new) }
        ensures quiet { OnOk result (Idles (NoResetOf req) self.old links.old self.new links.new) }
        ensures noted { OnOk result (self.new.calls ≡ self.old.calls) }
    {
        for _round in 0..EVENTS {
            if !self.ask_reset(links, req)? {
                break;
            }
        }
        Ok(())
    }

    /// Notes those of the thread's resets that began and ask the registry for something next.
    pub(crate) fn note_resets(&mut self) -> Result<(), OutOfMemory>
        ensures { OnOk result (NotesResets self.old self.new) }
    {
        note_resets(&mut self.calls, self.part.resets.as_slice())?;
        Ok(())
    }
}
