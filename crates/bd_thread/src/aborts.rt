//! Aborts: a request of the thread that a mark stops, all that a mark stops, and the one that an abort names.
ghost use Rattle.std.specs.Prelude.{◌<◌, vec_len, IfOk, OnOk};
ghost use Rattle.bd_thread.specs.Aborts.{Aborts, EndsAbort, Stops, StopsAll, StopsNamed};
ghost use Rattle.bd_thread.specs.Acted.{Acted};
ghost use Rattle.bd_thread.specs.Requests.{KeepsTickets};
ghost use Rattle.bd_thread.specs.Work.{AsksNothing};

use crate::links::Links;
use crate::thread::Thread;
use bd_base::{AbortCause, Act, DevId, OutOfMemory, ReqId};
use bd_machine::{Id, Kept};
use bd_rule_faults::aborted;
use bd_steps::{abortable, drop_unsent, named_by, stop_waiting, stoppable, turn_back};

impl<'a> Thread<'a> {
    /// Aborts a request that is here, where the rules let it for this cause (it has a range, is neither aborted nor to
    /// fail, and isn't cut, or a piece of it waits here unsent, or it is held): true, and its pieces that wait unsent
    /// are no longer to be put, nor to be sent again, and nothing holds it any more; from its own thread it no longer
    /// goes to a limited device's home, and from a line here it is to be put back. Else the answer is false, and
    /// nothing changed.
    pub(crate) fn abort(
        &mut self,
        links: &mut Links,
        req: ReqId,
        cause: AbortCause,
    ) -> Result<bool, OutOfMemory>
        ensures acted { OnOk result (Acted self.old links.old self.new links.new) }
        ensures tickets { OnOk result (KeepsTickets self.old → KeepsTickets self.new) }
        ensures aborts { IfOk result (Aborts req cause self.old links.old self.new links.new) }
    {
        let Some(r) = abortable(&self.seen(links), self.setup, self.me, req, cause) else {
            return Ok(false);
        };
        drop_unsent(
            &mut self.outbox,
            &mut self.retries,
            &self.held,
            self.setup,
            req,
        );
        turn_back(&mut self.outbox, req, r.trip)?;
        stop_waiting(&mut self.part, self.setup, req, r);
        self.holds.remove(req, r.hold);
        let kept = Kept::Request(aborted(cause, r));
        self.held.hold(Id::Request(req), kept)?;
        self.note(links, Act::Abort { req, cause })?;
        Ok(true)
    }

    /// Aborts a request where the rules let it, and completes it where it is on its own thread and none of its pieces
    /// is out.
    pub(crate) fn stop(
        &mut self,
        links: &mut Links,
        req: ReqId,
        cause: AbortCause,
    ) -> Result<(), OutOfMemory>
        requires { self.old.me < vec_len links.old.queues }
        ensures acted { OnOk result (Acted self.old links.old self.new links.new) }
        ensures tickets { OnOk result (KeepsTickets self.old → KeepsTickets self.new) }
        ensures stops { OnOk result (Stops req cause self.old links.old self.new links.new) }
    {
        let stopped = self.abort(links, req, cause)?;
        if !stopped {
            return Ok(());
        }
        let _completed = self.complete(links, req)?;
        Ok(())
    }

    /// Stops each open request of the thread that has the device below and is no reset, in order of acceptance, and
    /// then each that waits here at a limited device, where it may be aborted for this cause.
    pub(crate) fn stop_all(
        &mut self,
        links: &mut Links,
        dev: DevId,
        cause: AbortCause,
    ) -> Result<(), OutOfMemory>
        requires { self.old.me < vec_len links.old.queues }
        ensures acted { OnOk result (Acted self.old links.old self.new links.new) }
        ensures tickets { OnOk result (KeepsTickets self.old → KeepsTickets self.new) }
        ensures stops { OnOk result (StopsAll dev cause self.old links.old self.new links.new) }
    {
        let reqs = stoppable(self.alloc, self.setup, dev, &self.part)?;
        for req in reqs.as_slice() {
            self.stop(links, *req, cause)?;
        }
        Ok(())
    }

    /// Stops the request that the open abort `by` names, where the rules let it: it is here on its own thread for no
    /// limited device, on the abort's handle, neither aborted nor to fail, and not all of it is sent, or it is held.
    /// Else, as where `by` is no abort that is here, nothing changes.
    pub(crate) fn stop_named(&mut self, links: &mut Links, by: ReqId) -> Result<(), OutOfMemory>
        requires { self.old.me < vec_len links.old.queues }
        ensures acted { OnOk result (Acted self.old links.old self.new links.new) }
        ensures tickets { OnOk result (KeepsTickets self.old → KeepsTickets self.new) }
        ensures stops { OnOk result (StopsNamed by self.old links.old self.new links.new) }
    {
        let Some(req) = named_by(&self.seen(links), self.setup, self.me, by) else {
            return Ok(());
        };
        self.stop(links, req, AbortCause::Named(by))?;
        Ok(())
    }

    /// An open abort stops the request that it names, where it may, and then completes.
    pub(crate) fn end_abort(&mut self, links: &mut Links, by: ReqId) -> Result<(), OutOfMemory>
        requires { self.old.me < vec_len links.old.queues }
        ensures acted { OnOk result (Acted self.old links.old self.new links.new) }
        ensures tickets { OnOk result (KeepsTickets self.old → KeepsTickets self.new) }
        ensures ends { OnOk result (EndsAbort by self.old links.old self.new links.new) }
        ensures alone { OnOk result (AsksNothing links.old links.new) }
    {
        self.stop_named(links, by)?;
        let _completed = self.complete(links, by)?;
        Ok(())
    }
}
