//! A thread's own requests: submitted, cut and completed.
ghost use Rattle.std.specs.Prelude.{◌≡◌, ◌<◌, length, vec_len, Some, None, IfOk, IfErr, OnErr, OnOk, true, false};
ghost use Rattle.bd_machine.specs.Asked.{is_handle_on};
ghost use Rattle.bd_machine.specs.Kept.{request_here};
ghost use Rattle.bd_machine.specs.Registry.{handle_of};
ghost use Rattle.bd_machine.specs.Requests.{may_cut};
ghost use Rattle.bd_thread.specs.Acted.{Acted};
ghost use Rattle.bd_steps.specs.Completions.{ending_of, Shows};
ghost use Rattle.bd_thread.specs.Completions.{Completes, IsCompleted};
ghost use Rattle.bd_thread.specs.Cuts.{Cuts, IsCut};
ghost use Rattle.bd_thread.specs.Requests.{refusal, IsAccepted, IsAsked, IsFresh, IsHeldAsBefore, IsOpened, IsRefused, KeepsTickets, Refuses};
ghost use Rattle.bd_thread.specs.Seen.{number_of, view_of};

use crate::links::Links;
use crate::thread::Thread;
use bd_base::{Act, DevId, Errno, HandleId, OutOfMemory, ReqId, Shown};
use bd_blocks::extents;
use bd_machine::{Decided, Id, Kept, Open, OpenRequest};
use bd_msg::Ticket;
use bd_rule_effects::{accepted, completed};
use bd_rule_lines::has_room;
use bd_rule_requests::{admit, new_request, uncut};
use bd_rule_script::next_line;
use bd_rule_view::Submission;
use bd_steps::{
    Ending, drop_left, drop_request, ending_of, hold_pieces, piece_count, send_cut, shown_now,
    spend,
};

/// Why a submission isn't accepted.
#[derive(Clone, Copy, PartialEq, Eq)]
pub enum Refused {
    /// It can't be done: `NoDev` where the handle's device is being removed here; then `BadDesc`
    /// where the handle isn't open, or for a write, zeroes, unmap or flush where it is open for
    /// reading; then `NotSup` for an unmap of an aio device; then `Inval` for no block, more than
    /// 262,144 bytes, or a range past the device's end.
    Errno(Errno),
    /// As many requests are open as a thread may have. Nothing changed.
    Full,
    /// Memory ran out, and the run halts: the tokens that are on the thread, its tickets and its
    /// entries are as they were, and of its part nothing is said.
    OutOfMemory,
}

impl<'a> Thread<'a> {
    /// Submits what the next line asks for, under the id of a ticket. A refusal gives the ticket back.
    pub fn submit(
        &mut self,
        links: &mut Links,
        handle: HandleId,
        asked: Submission,
        ticket: Ticket,
    ) -> Result<ReqId, (Refused, Ticket)>
        requires me { number_of self.old < vec_len links.old.queues }
        requires asked { IsAsked self.old links.old (Some handle) asked }
        requires fresh { IsFresh self.old ticket }
        ensures acted { OnOk result (Acted self.old links.old self.new links.new) }
        ensures accepted { IfOk result (λ req. (req ≡ ticket) × IsAccepted req handle asked self.old links.old self.new links.new) }
        ensures refused { IfErr result (λ e. (e.1 ≡ ticket) × Refuses e.0 handle asked self.old links.old self.new links.new) }
        ensures tickets { OnOk result (KeepsTickets self.old → KeepsTickets self.new) }
    {
        match admit(&self.seen(links), self.setup, handle, asked) {
            Ok(dev) => self.accept(links, dev, handle, asked, ticket),
            Err(errno) => match self.refuse(links, Some(handle), asked, errno) {
                Ok(()) => Err((Refused::Errno(errno), ticket)),
                Err(OutOfMemory) => Err((Refused::OutOfMemory, ticket)),
            },
        }
    }

    /// Refuses what the next line asks for; a name that isn't bound gives no handle.
    pub(crate) fn refuse(
        &mut self,
        links: &mut Links,
        handle: Option<HandleId>,
        asked: Submission,
        errno: Errno,
    ) -> Result<(), OutOfMemory>
        requires me { self.old.me < vec_len links.old.queues }
        requires asked { IsAsked self.old links.old handle asked }
        requires due { refusal self.old links.old handle asked ≡ Some errno }
        ensures ok { OnOk result (IsRefused errno handle asked self.old links.old self.new links.new) }
        ensures err { OnErr result (IsHeldAsBefore self.old links.old self.new links.new) }
    {
        let Submission { op, lba, count } = asked;
        self.part.decided = Some(Decided::Refused(errno));
        self.note(
            links,
            Act::Refuse {
                handle,
                op,
                lba,
                count,
                errno,
            },
        )?;
        Ok(())
    }

    // Accepts what the next line asks for, which no cause refuses, where there is room.
    fn accept(
        &mut self,
        links: &mut Links,
        dev: DevId,
        handle: HandleId,
        asked: Submission,
        ticket: Ticket,
    ) -> Result<ReqId, (Refused, Ticket)>
        requires me { self.old.me < vec_len links.old.queues }
        requires asked { IsAsked self.old links.old (Some handle) asked }
        requires fresh { IsFresh self.old ticket }
        requires admitted { refusal self.old links.old (Some handle) asked ≡ None }
        requires on { is_handle_on dev (handle_of (view_of self.old links.old).handles handle) ≡ true }
        ensures acted { OnOk result (Acted self.old links.old self.new links.new) }
        ensures accepted { IfOk result (λ req. (req ≡ ticket) × IsAccepted req handle asked self.old links.old self.new links.new) }
        ensures refused { IfErr result (λ e. (e.1 ≡ ticket) × Refuses e.0 handle asked self.old links.old self.new links.new) }
        ensures tickets { OnOk result (KeepsTickets self.old → KeepsTickets self.new) }
    {
        if !has_room(self.part.requests.len()) {
            return Err((Refused::Full, ticket));
        }
        let req = ticket.id();
        match self.open_request(links, req, dev, handle, asked) {
            Ok(()) => {
                self.purse.keep(ticket);
                Ok(req)
            }
            Err(OutOfMemory) => Err((Refused::OutOfMemory, ticket)),
        }
    }

    // Opens a request, with a place for its ticket. The memory for its token is taken before its entry.
    fn open_request(
        &mut self,
        links: &mut Links,
        req: ReqId,
        dev: DevId,
        handle: HandleId,
        asked: Submission,
    ) -> Result<(), OutOfMemory>
        requires { req.seq < u64.MAX }
        ensures opened { OnOk result (IsOpened req dev handle asked self.old links.old self.new links.new) }
        ensures tickets { OnOk result (self.new.purse.ids ≡ self.old.purse.ids) }
        ensures room { OnOk result (length self.old.purse.ids < self.new.purse.capacity) }
        ensures err { OnErr result (IsHeldAsBefore self.old links.old self.new links.new) }
    {
        self.purse.reserve(1)?;
        self.held.reserve(1)?;
        let kept = Kept::Request(new_request(self.setup, &self.part, handle, dev, asked));
        let Submission { op, lba, count } = asked;
        let request = Open {
            id: req,
            handle,
            dev,
            op,
        };
        let line = next_line(self.setup, self.me, &self.part);
        accepted(&mut self.part, line, request)?;
        self.note(
            links,
            Act::Accept {
                req,
                dev,
                handle,
                op,
                lba,
                count,
            },
        )?;
        // there is room for it since it was reserved
        self.held.hold(Id::Request(req), kept)?;
        Ok(())
    }

    /// Cuts a request that may be cut (it is here on its own thread, has a range, every Let and every
    /// decision, and is neither cut nor aborted nor marked), and answers into how many pieces: they are
    /// here, to be put to their home in order, or, where pieces wait to be sent again to their base device,
    /// to wait after those. 0 where there is no such request, and then nothing changed.
    pub fn cut(&mut self, links: &mut Links, req: ReqId) -> Result<u32, OutOfMemory>
        requires me { number_of self.old < vec_len links.old.queues }
        ensures acted { OnOk result (Acted self.old links.old self.new links.new) }
        ensures cut { IfOk result (Cuts req self.old links.old self.new links.new) }
        ensures tickets { OnOk result (KeepsTickets self.old → KeepsTickets self.new) }
    {
        let Some(r) = uncut(&self.seen(links), self.setup, self.me, req) else {
            return Ok(0);
        };
        self.cut_into(links, req, r)
    }

    // Cuts a request that may be cut.
    fn cut_into(
        &mut self,
        links: &mut Links,
        req: ReqId,
        r: OpenRequest,
    ) -> Result<u32, OutOfMemory>
        requires here { request_here (view_of self.old links.old) req ≡ Some r }
        requires may { may_cut self.old.setup.now self.old.me (view_of self.old links.old) req (Some r) ≡ true }
        ensures acted { OnOk result (Acted self.old links.old self.new links.new) }
        ensures cut { IfOk result (λ n. IsCut req r n self.old links.old self.new links.new) }
        ensures tickets { OnOk result (KeepsTickets self.old → KeepsTickets self.new) }
    {
        let setup = self.setup;
        let found = extents(self.alloc, setup, r.dev, r.lba, r.count)?;
        let n = piece_count(&found)?;
        let kept = Kept::Request(OpenRequest {
            pieces: Some(n),
            ..r
        });
        self.held.hold(Id::Request(req), kept)?;
        hold_pieces(&mut self.held, setup, req, r, found.as_slice())?;
        send_cut(&mut self.outbox, &mut self.retries, setup, r.dev, req, n)?;
        self.note(links, Act::Cut { req, pieces: n })?;
        Ok(n)
    }

    /// Completes a request that is here, where the rules let it: on its own thread, with none of its pieces out, with
    /// no walk of its reset under way and no delay left. It fails where a piece has a fault or a failure was injected,
    /// is aborted where an abort reached it, and succeeds where every piece was served. Its pieces that wait unsent,
    /// where it doesn't succeed, are no longer to be put, nor to be sent again. A read that succeeds shows the first 8
    /// bytes and the digest of its data, and completes only where there are as many; of data that isn't told, what its
    /// disk gave. Its ticket is spent. Else the answer is false, and nothing changed. Out of memory, the
    /// tokens that are on the thread, its tickets and its entries are as they were.
    pub fn complete(&mut self, links: &mut Links, req: ReqId) -> Result<bool, OutOfMemory>
        requires me { number_of self.old < vec_len links.old.queues }
        ensures acted { OnOk result (Acted self.old links.old self.new links.new) }
        ensures completes { IfOk result (Completes req self.old links.old self.new links.new) }
        ensures tickets { OnOk result (KeepsTickets self.old → KeepsTickets self.new) }
        ensures err { OnErr result (IsHeldAsBefore self.old links.old self.new links.new) }
    {
        let Some(ending) = ending_of(self.alloc, &self.seen(links), self.setup, self.me, req)?
        else {
            return Ok(false);
        };
        let shown = shown_now(self.alloc, &self.seen(links), req, ending.showing)?;
        self.end(links, req, ending, shown)?;
        Ok(true)
    }

    // The request completes so, and shows this. Its entry, which alone takes memory, comes first.
    fn end(
        &mut self,
        links: &mut Links,
        req: ReqId,
        ending: Ending,
        shown: Option<Shown>,
    ) -> Result<(), OutOfMemory>
        requires due { ending_of self.old.setup.now self.old.me (view_of self.old links.old) req ≡ Some ending }
        requires shows { Shows ending.showing shown }
        ensures acted { OnOk result (Acted self.old links.old self.new links.new) }
        ensures completed { OnOk result (IsCompleted req ending self.old links.old self.new links.new) }
        ensures tickets { OnOk result (KeepsTickets self.old → KeepsTickets self.new) }
        ensures err { OnErr result (IsHeldAsBefore self.old links.old self.new links.new) }
    {
        let Ending {
            pieces,
            status,
            showing: _,
        } = ending;
        self.note(links, Act::Complete { req, status, shown })?;
        drop_left(
            &mut self.outbox,
            &mut self.retries,
            &self.held,
            self.setup,
            req,
            status,
        );
        drop_request(&mut self.held, req, pieces);
        completed(self.alloc, &mut self.part, req);
        spend(&mut self.purse, req, status);
        Ok(())
    }
}
