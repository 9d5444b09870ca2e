//! A thread's turn: messages, pieces that are sent again, the work of its stores, the script, and what is
//! still to be put.
ghost use Rattle.std.specs.Prelude.{◌≡◌, ◌<◌, ◌≤◌, Some, true, false, drop, length, vec_len, IfOk, OnOk};
ghost use Rattle.bd_thread.specs.Acted.{Acted};
ghost use Rattle.bd_thread.specs.Begins.{Begins, CutsOrSetsOut, Submits, SubmitsThrough};
ghost use Rattle.bd_thread.specs.Seen.{number_of, setup_of};
ghost use Rattle.bd_thread.specs.Looking.{IsLookedAfter, KeepsOwn, LooksBut};
ghost use Rattle.bd_thread.specs.Requests.{IsAsked, IsFresh, KeepsTickets};
ghost use Rattle.bd_machine.specs.declared.state.Id.TheVariants as ids;
ghost use Rattle.bd_machine.specs.Kept.{as_piece};
ghost use Rattle.bd_tokens.specs.Tokens.{here_in};
ghost use Rattle.bd_thread.specs.Moves.{turned_of, AddsMore, Comes, ComesPiece, Receives, SendsFirst, Serves};
ghost use Rattle.bd_thread.specs.Noted.{Forgets};
ghost use Rattle.bd_thread.specs.Sent.{may_send};
ghost use Rattle.bd_thread.specs.Waits.{Idles, IsFilled, NoLine, NoMessage, NoPiece, NoPieceAt, NoPieceOn, NoSubmission, NothingToPost, NothingToSend, Quiets};
ghost use Rattle.bd_thread.specs.Work.{has_calls, AsksNothing};
ghost use Rattle.bd_registry.specs.State.{rows_of};

use crate::links::Links;
use crate::requests::Refused;
use crate::thread::Thread;
use bd_base::{DevId, Errno, HandleId, Job, Op, OutOfMemory, ReqId, Token};
use bd_machine::{Id, Progress};
use bd_rule_lines::has_room;
use bd_rule_script::{bound_to, op_asked, undecided_job};
use bd_rule_view::{Submission, as_piece};
use bd_steps::{first_due, next_ticket};
use bd_touched::Touched;
use std::mem::replace;

/// How many messages a turn takes, pieces of a store it serves, and lines it does, at most (SPDK's
/// batch of messages).
pub(crate) const BATCH: u32 = 8;

/// The outcome of a turn.
#[derive(Clone, Copy, PartialEq, Eq)]
pub enum Turned {
    /// This number of acts was made.
    Moved(usize),
    /// No act was made, and nothing changed: the thread waits for others.
    Quiet,
}

// What a turn answers, by the number of entries before it and after it.
pub(crate) fn tell(before: usize, after: usize) -> Turned
    requires { before ≤ after }
    ensures { result ≡ turned_of before after }
{
    if before == after {
        Turned::Quiet
    } else {
        Turned::Moved(after - before)
    }
}

impl<'a> Thread<'a> {
    // Cuts a request that was accepted; where it can't be cut yet, it is to be put to the home of the device whose
    // limits count it, or noted.
    fn cut_or_note(&mut self, links: &mut Links, req: ReqId) -> Result<(), OutOfMemory>
        requires { self.old.me < vec_len links.old.queues }
        ensures acted { OnOk result (Acted self.old links.old self.new links.new) }
        ensures tickets { OnOk result (KeepsTickets self.old → KeepsTickets self.new) }
        ensures begins { OnOk result (CutsOrSetsOut req self.old links.old self.new links.new) }
        ensures alone { OnOk result (AsksNothing links.old links.new) }
    {
        let pieces = self.cut(links, req)?;
        if pieces == 0 {
            self.set_out(links, req)?;
        }
        Ok(())
    }

    // Begins a request that was accepted: one on a range is cut, set out or noted; an abort stops the request that it
    // names, and completes; and a reset is noted.
    fn begin_request(&mut self, links: &mut Links, req: ReqId, op: Op) -> Result<(), OutOfMemory>
        requires { self.old.me < vec_len links.old.queues }
        ensures acted { OnOk result (Acted self.old links.old self.new links.new) }
        ensures tickets { OnOk result (KeepsTickets self.old → KeepsTickets self.new) }
        ensures begins { OnOk result (Begins op req self.old links.old self.new links.new) }
        ensures alone { OnOk result (AsksNothing links.old links.new) }
    {
        match op {
            Op::Abort(_) => self.end_abort(links, req),
            Op::Reset(_) => self.note_call(req),
            _ => self.cut_or_note(links, req),
        }
    }

    // Submits through a handle, and begins what was accepted.
    #[tactic(auto, using(crate::proofs::Alone::alone_none))]
    fn submit_through(
        &mut self,
        links: &mut Links,
        handle: HandleId,
        asked: Submission,
    ) -> Result<bool, OutOfMemory>
        requires me { self.old.me < vec_len links.old.queues }
        requires asked { IsAsked self.old links.old (Some handle) asked }
        ensures acted { OnOk result (Acted self.old links.old self.new links.new) }
        ensures tickets { OnOk result (KeepsTickets self.old → KeepsTickets self.new) }
        ensures quiet { OnOk result (Idles IsFilled self.old links.old self.new links.new) }
        ensures submits { IfOk result (SubmitsThrough handle asked self.old links.old self.new links.new) }
        ensures alone { OnOk result (AsksNothing links.old links.new) }
    {
        let Some(ticket) = next_ticket(self.me, self.part.next_request) else {
            return Err(OutOfMemory);
        };
        match self.submit(links, handle, asked, ticket) {
            Ok(req) => {
                self.begin_request(links, req, asked.op)?;
                Ok(true)
            }
            Err((refused, ticket)) => {
                ticket.abandon();
                match refused {
                    Refused::Errno(_) => Ok(true),
                    Refused::Full => Ok(false),
                    Refused::OutOfMemory => Err(OutOfMemory),
                }
            }
        }
    }

    // Submits what the next line asks for, where it asks for that and there is room.
    #[tactic(auto, using(crate::proofs::Alone::alone_none))]
    pub(crate) fn submit_line(&mut self, links: &mut Links) -> Result<bool, OutOfMemory>
        requires me { self.old.me < vec_len links.old.queues }
        ensures acted { OnOk result (Acted self.old links.old self.new links.new) }
        ensures tickets { OnOk result (KeepsTickets self.old → KeepsTickets self.new) }
        ensures quiet { OnOk result (Idles NoSubmission self.old links.old self.new links.new) }
        ensures submits { IfOk result (Submits self.old links.old self.new links.new) }
        ensures alone { OnOk result (AsksNothing links.old links.new) }
    {
        if links.shut || !has_room(self.part.requests.len()) {
            return Ok(false);
        }
        let Some(
            Job::Submit {
                handle,
                op,
                lba,
                count,
            },
        ) = undecided_job(self.setup, self.me, &self.part)
        else {
            return Ok(false);
        };
        let bound = bound_to(&self.part, handle);
        let asked = Submission {
            op: op_asked(&self.part, bound, *op),
            lba: *lba,
            count: *count,
        };
        match bound {
            Some(id) => self.submit_through(links, id, asked),
            None => {
                self.refuse(links, None, asked, Errno::BadDesc)?;
                Ok(true)
            }
        }
    }

    // What a piece that came brings about: at its home it goes back where it is one too many; on its own
    // thread it is back.
    fn piece_came(&mut self, links: &mut Links, req: ReqId, k: u32) -> Result<(), OutOfMemory>
        requires { self.old.me < vec_len links.old.queues }
        ensures acted { OnOk result (Acted self.old links.old self.new links.new) }
        ensures tickets { OnOk result (KeepsTickets self.old → KeepsTickets self.new) }
        ensures came { OnOk result (ComesPiece (as_piece (here_in self.old.held.items (ids.Piece req k))) req k self.old links.old self.new links.new) }
    {
        let Some(piece) = as_piece(self.held.get(Id::Piece(req, k))) else {
            return Ok(());
        };
        let base = piece.base;
        match piece.progress {
            Progress::Out => {
                self.refuse_last(links, base)?;
                Ok(())
            }
            _ => self.take_back(links, req, k),
        }
    }

    // What a token that came brings about: a request waits in a device's line, or is back and goes on; a piece goes
    // back from a full home, or is back and completes its request where it was the last of its pieces; and a walk
    // visits this thread, where the mark of a removal or of a reset stops what waits. What a walk's end or the news that
    // a reset may begin lets resets ask of the registry is noted.
    fn came(&mut self, links: &mut Links, id: Id) -> Result<(), OutOfMemory>
        requires { self.old.me < vec_len links.old.queues }
        ensures acted { OnOk result (Acted self.old links.old self.new links.new) }
        ensures tickets { OnOk result (KeepsTickets self.old → KeepsTickets self.new) }
        ensures came { OnOk result (Comes id self.old links.old self.new links.new) }
    {
        match id {
            Id::Request(req) => self.request_came(links, req),
            Id::Piece(req, k) => self.piece_came(links, req, k),
            Id::Walk(walk) => {
                self.visit(links, walk)?;
                self.note_resets()?;
                Ok(())
            }
            Id::Notice { .. } => {
                self.note_resets()?;
                Ok(())
            }
        }
    }

    // Takes a message, and does what its token brings about.
    fn receive(&mut self, links: &mut Links) -> Result<bool, OutOfMemory>
        requires { self.old.me < vec_len links.old.queues }
        ensures acted { OnOk result (Acted self.old links.old self.new links.new) }
        ensures tickets { OnOk result (KeepsTickets self.old → KeepsTickets self.new) }
        ensures quiet { OnOk result (Idles NoMessage self.old links.old self.new links.new) }
        ensures receives { IfOk result (Receives self.old links.old self.new links.new) }
        ensures alone { OnOk result (AsksNothing links.old links.new) }
    {
        let Some(id) = self.take(links)? else {
            return Ok(false);
        };
        self.came(links, id)?;
        Ok(true)
    }

    pub(crate) fn receive_all(&mut self, links: &mut Links) -> Result<(), OutOfMemory>
        requires { self.old.me < vec_len links.old.queues }
        ensures acted { OnOk result (Acted self.old links.old self.new links.new) }
        ensures tickets { OnOk result (KeepsTickets self.old → KeepsTickets self.new) }
        ensures quiet { OnOk result (Idles NoMessage self.old links.old self.new links.new) }
        ensures alone { OnOk result (AsksNothing links.old links.new) }
    {
        for _round in 0..BATCH {
            if !self.receive(links)? {
                break;
            }
        }
        Ok(())
    }

    // Serves the first piece of a store, and asks for it to be sent back.
    #[tactic(auto, using(crate::proofs::Alone::alone_none))]
    fn serve(&mut self, links: &mut Links, dev: DevId) -> Result<bool, OutOfMemory>
        requires { self.old.me < vec_len links.old.queues }
        ensures acted { OnOk result (Acted self.old links.old self.new links.new) }
        ensures tickets { OnOk result (KeepsTickets self.old → KeepsTickets self.new) }
        ensures quiet { OnOk result (Idles (NoPieceOn dev) self.old links.old self.new links.new) }
        ensures serves { IfOk result (Serves self.old links.old self.new links.new dev) }
        ensures alone { OnOk result (AsksNothing links.old links.new) }
    {
        let Some(id) = self.apply(links, dev)? else {
            return Ok(false);
        };
        if let Id::Piece(req, k) = id {
            self.outbox.push_back((req.thread, Token::Piece(req, k)))?;
        }
        Ok(true)
    }

    fn serve_store(&mut self, links: &mut Links, dev: DevId) -> Result<(), OutOfMemory>
        requires { self.old.me < vec_len links.old.queues }
        ensures acted { OnOk result (Acted self.old links.old self.new links.new) }
        ensures tickets { OnOk result (KeepsTickets self.old → KeepsTickets self.new) }
        ensures quiet { OnOk result (Idles (NoPieceOn dev) self.old links.old self.new links.new) }
        ensures alone { OnOk result (AsksNothing links.old links.new) }
    {
        for _round in 0..BATCH {
            if !self.serve(links, dev)? {
                break;
            }
        }
        Ok(())
    }

    // Serves pieces of the base device at this place, where one waits there.
    #[tactic(auto, using(crate::proofs::Alone::alone_none))]
    fn serve_at(&mut self, links: &mut Links, place: usize) -> Result<(), OutOfMemory>
        requires { self.old.me < vec_len links.old.queues }
        ensures acted { OnOk result (Acted self.old links.old self.new links.new) }
        ensures tickets { OnOk result (KeepsTickets self.old → KeepsTickets self.new) }
        ensures quiet { OnOk result (Idles (NoPieceAt place) self.old links.old self.new links.new) }
        ensures alone { OnOk result (AsksNothing links.old links.new) }
    {
        let Some(dev) = self.waits_at(place) else {
            return Ok(());
        };
        self.serve_store(links, dev)
    }

    /// Serves pieces of each of the thread's base devices that is no aio device, at most 8 of each.
    pub(crate) fn serve_all(&mut self, links: &mut Links) -> Result<(), OutOfMemory>
        requires { self.old.me < vec_len links.old.queues }
        ensures acted { OnOk result (Acted self.old links.old self.new links.new) }
        ensures tickets { OnOk result (KeepsTickets self.old → KeepsTickets self.new) }
        ensures quiet { OnOk result (Idles NoPiece self.old links.old self.new links.new) }
        ensures alone { OnOk result (AsksNothing links.old links.new) }
    {
        for place in 0..self.part.bases.len() {
            self.serve_at(links, place)?;
        }
        Ok(())
    }

    // Does the next line, as far as it goes on.
    fn command(&mut self, links: &mut Links) -> Result<bool, OutOfMemory>
        requires me { self.old.me < vec_len links.old.queues }
        requires rows { links.old.registry.setup ≡ rows_of self.old.setup.now }
        ensures acted { OnOk result (Acted self.old links.old self.new links.new) }
        ensures tickets { OnOk result (KeepsTickets self.old → KeepsTickets self.new) }
        ensures quiet { OnOk result (Idles NoLine self.old links.old self.new links.new) }
    {
        self.open(links)?;
        self.close(links)?;
        self.claim(links)?;
        self.change_device(links)?;
        self.submit_line(links)?;
        self.end_line(links)
    }

    fn command_all(&mut self, links: &mut Links) -> Result<(), OutOfMemory>
        requires me { self.old.me < vec_len links.old.queues }
        requires rows { links.old.registry.setup ≡ rows_of self.old.setup.now }
        ensures acted { OnOk result (Acted self.old links.old self.new links.new) }
        ensures tickets { OnOk result (KeepsTickets self.old → KeepsTickets self.new) }
        ensures quiet { OnOk result (Idles NoLine self.old links.old self.new links.new) }
    {
        for _round in 0..BATCH {
            if !self.command(links)? {
                break;
            }
        }
        Ok(())
    }

    // Whether the first of the outbox may go where it is to go, and there is room.
    fn may_send(&self, links: &Links) -> bool
        ensures { result ≡ may_send self.now links.now self.now.outbox.items }
    {
        match self.outbox.front() {
            Some((to, what)) => { self.may_leave(links, *to, what) }
            None => false,
        }
    }

    // Puts the first of the outbox on its way, where it may go and there is room. Else it stays
    // there.
    #[tactic(auto, using(crate::proofs::Alone::alone_none))]
    fn put_next(&mut self, links: &mut Links) -> Result<bool, OutOfMemory>
        requires { self.old.me < vec_len links.old.queues }
        ensures acted { OnOk result (Acted self.old links.old self.new links.new) }
        ensures tickets { OnOk result (KeepsTickets self.old → KeepsTickets self.new) }
        ensures quiet { OnOk result (Idles NothingToSend self.old links.old self.new links.new) }
        ensures sends { IfOk result (SendsFirst self.old links.old self.new links.new) }
        ensures alone { OnOk result (AsksNothing links.old links.new) }
    {
        if !self.may_send(links) {
            return Ok(false);
        }
        match self.outbox.pop_front() {
            Some((to, what)) => {
                self.put_allowed(links, to, what)?;
                Ok(true)
            }
            None => Ok(false),
        }
    }

    // Puts the first message that is due on its way, where it is one that threads put, unless the queue
    // that it goes to is full; then it takes no memory.
    #[tactic(auto, using(crate::proofs::Alone::alone_none))]
    fn put_due(&mut self, links: &mut Links) -> Result<bool, OutOfMemory>
        requires { self.old.me < vec_len links.old.queues }
        ensures acted { OnOk result (Acted self.old links.old self.new links.new) }
        ensures tickets { OnOk result (KeepsTickets self.old → KeepsTickets self.new) }
        ensures quiet { OnOk result (Idles NothingToPost self.old links.old self.new links.new) }
        ensures alone { OnOk result (AsksNothing links.old links.new) }
    {
        let queues = links.queues.as_slice();
        let Some((to, what)) = first_due(self.part.due.as_slice(), queues)? else {
            return Ok(false);
        };
        self.put(links, to, what)
    }

    pub(crate) fn put_outbox(&mut self, links: &mut Links) -> Result<(), OutOfMemory>
        requires { self.old.me < vec_len links.old.queues }
        ensures acted { OnOk result (Acted self.old links.old self.new links.new) }
        ensures tickets { OnOk result (KeepsTickets self.old → KeepsTickets self.new) }
        ensures quiet { OnOk result (Idles NothingToSend self.old links.old self.new links.new) }
        ensures alone { OnOk result (AsksNothing links.old links.new) }
    {
        for _round in 0..self.outbox.len() {
            if !self.put_next(links)? {
                break;
            }
        }
        Ok(())
    }

    pub(crate) fn put_all_due(&mut self, links: &mut Links) -> Result<(), OutOfMemory>
        requires { self.old.me < vec_len links.old.queues }
        ensures acted { OnOk result (Acted self.old links.old self.new links.new) }
        ensures tickets { OnOk result (KeepsTickets self.old → KeepsTickets self.new) }
        ensures quiet { OnOk result (Idles NothingToPost self.old links.old self.new links.new) }
        ensures alone { OnOk result (AsksNothing links.old links.new) }
    {
        for _round in 0..self.part.due.len() {
            if !self.put_due(links)? {
                break;
            }
        }
        Ok(())
    }

    // After a quiet turn nothing is left to be asked.
    fn forget_calls(&mut self, turned: Turned)
        ensures { Forgets turned self.old self.new }
    {
        if turned == Turned::Quiet {
            self.calls.clear();
        }
    }

    // What it has to look at, for a turn.
    pub(crate) fn take_touched(&mut self) -> Touched
        ensures result { result ≡ self.old.touched }
        ensures rest { self.new ≡ record self.old { touched = self.new.touched } }
    {
        replace(&mut self.touched, Touched::new(self.alloc))
    }

    // After a turn it has to look at this, and at what the turn's acts reached: those from this number on.
    pub(crate) fn look_at(
        &mut self,
        links: &Links,
        before: usize,
        touched: Touched,
    ) -> Result<(), OutOfMemory>
        requires { before ≤ length links.now.entries }
        ensures rest { OnOk result (self.new ≡ record self.old { touched = self.new.touched }) }
        ensures looks { OnOk result (LooksBut (drop before links.now.entries) touched self.old → IsLookedAfter self.new) }
    {
        let mut looks = touched;
        let entries = &links.entries.as_slice()[before..];
        looks.take_in(self.setup, self.me, &self.part.requests, entries)?;
        self.touched = looks;
        Ok(())
    }

    /// A turn: at most 8 messages, at most 8 pieces of each base device that are sent again, the pending actions, at
    /// most 8 pieces of each base device whose home it is and that is no aio device, at most 64 steps for the line of
    /// each limited device whose home it is, the releases of held requests that are due, at most 8 lines of the script,
    /// the decisions of error devices that requests wait for, the closes of handles whose device is being removed
    /// (after Shutdown of all) and the destructs that are due, and what is still to be put, until the queue that it
    /// goes to is full; where it did none of this, it cuts, holds or completes the first open request that can be or
    /// takes a decision on it, or sends back a piece that is one too many at a device. `Quiet` only where nothing could
    /// be done. It answers out of memory also where a number runs out: after 2^62 requests of the thread, or where a
    /// count of messages, handles, pieces or lines would pass its type.
    pub fn turn(&mut self, links: &mut Links) -> Result<Turned, OutOfMemory>
        requires me { number_of self.old < vec_len links.old.queues }
        requires rows { links.old.registry.setup ≡ rows_of (setup_of self.old) }
        ensures acted { OnOk result (Acted self.old links.old self.new links.new) }
        ensures tickets { OnOk result (KeepsOwn self.old → KeepsOwn self.new) }
        ensures turned { IfOk result (AddsMore links.old links.new) }
        ensures quiet { IfOk result (Quiets self.old links.old self.new links.new) }
        ensures forgets { IfOk result (λ turned. turned ≡ Turned.Quiet → has_calls self.new ≡ false) }
    {
        let before = links.entries.len();
        let mut touched = self.take_touched();
        self.receive_all(links)?;
        self.retry_all(links)?;
        self.discharge_all(links)?;
        self.serve_all(links)?;
        self.harden_all(links)?;
        self.limit_all(links)?;
        self.release_all(links)?;
        self.walk_all(links)?;
        self.command_all(links)?;
        self.call_noted(links, before)?;
        self.end_all(links)?;
        self.put_outbox(links)?;
        self.put_all_due(links)?;
        let found = self.carry_all(links, before, &mut touched)?;
        self.call_found(links, before, found)?;
        self.refuse_all(links, before)?;
        let turned = tell(before, links.entries.len());
        self.look_at(links, before, touched)?;
        self.forget_calls(turned);
        Ok(turned)
    }
}
