//! What a home does: it applies pieces to its base devices, sends back those that are too many, and
//! destructs its devices.
ghost use Rattle.std.specs.Prelude.{◌≡◌, ◌<◌, length, IfOk, OnOk, Some, vec_len};
ghost use Rattle.bd_thread.specs.Acted.{Acted};
ghost use Rattle.bd_thread.specs.Destructs.{Destructs};
ghost use Rattle.bd_thread.specs.Refusals.{refusal_now, IsSentBack, SendsBack};
ghost use Rattle.bd_thread.specs.Requests.{KeepsTickets};
ghost use Rattle.bd_thread.specs.Sent.{KeepsRequests};
ghost use Rattle.bd_thread.specs.Served.{Applies};
ghost use Rattle.bd_thread.specs.Waits.{waits_at, Idles, NoRefusal, NoRefusalAt, NoRefusalOn};
ghost use Rattle.bd_thread.specs.Work.{AsksNothing};

use crate::links::Links;
use crate::thread::Thread;
use bd_base::{Act, ApplyEnd, DevId, OutOfMemory, ReqId, Token};
use bd_blocks::{digest_due, is_aio, size_of};
use bd_home::{drop_last, serve};
use bd_machine::{Id, Kept};
use bd_rule_effects::destructed;
use bd_rule_requests::may_destruct;
use bd_steps::{next_due, refusal_due, refuse};

impl<'a> Thread<'a> {
    /// The thread's base device at this place, where a piece waits there.
    pub(crate) fn waits_at(&self, place: usize) -> Option<DevId>
        ensures { result ≡ waits_at place self.now }
    {
        let base = self.part.bases.as_slice().get(place)?;
        if base.queue.len() == 0 {
            None
        } else {
            Some(base.dev)
        }
    }

    /// Serves the first piece in the device's queue, and gives its id. None, and nothing changes,
    /// where this thread isn't the device's home, no piece waits there, it isn't here or isn't on
    /// this device, the content doesn't have its blocks, or the queue holds too many; and on an aio
    /// device, whose disk serves its pieces.
    pub(crate) fn apply(&mut self, links: &mut Links, dev: DevId) -> Result<Option<Id>, OutOfMemory>
        requires { self.old.me < vec_len links.old.queues }
        ensures acted { OnOk result (Acted self.old links.old self.new links.new) }
        ensures tickets { OnOk result (KeepsTickets self.old → KeepsTickets self.new) }
        ensures keeps { OnOk result (KeepsRequests self.old links.old self.new links.new) }
        ensures applied { IfOk result (Applies self.old links.old self.new links.new dev) }
    {
        let setup = self.setup;
        let bases = self.part.bases.as_slice();
        let Some(next) = next_due(bases, &self.held, setup, self.me, dev) else {
            return Ok(None);
        };
        if is_aio(setup, dev) {
            return Ok(None);
        }
        let size = size_of(setup, dev);
        let req = next.req;
        let k = next.k;
        let piece = serve(self.alloc, &mut self.part.bases, size, dev, next.piece)?;
        self.held.hold(Id::Piece(req, k), Kept::Piece(piece))?;
        self.note(
            links,
            Act::Apply {
                req,
                k,
                dev,
                end: ApplyEnd::Done,
            },
        )?;
        Ok(Some(Id::Piece(req, k)))
    }

    // Sends the last piece of a device's queue back, without an end.
    fn send_back(
        &mut self,
        links: &mut Links,
        dev: DevId,
        req: ReqId,
        k: u32,
    ) -> Result<(), OutOfMemory>
        requires { refusal_now dev self.old links.old ≡ Some (req, k) }
        ensures acted { OnOk result (Acted self.old links.old self.new links.new) }
        ensures tickets { OnOk result (KeepsTickets self.old → KeepsTickets self.new) }
        ensures sent { OnOk result (IsSentBack req k dev self.old links.old self.new links.new) }
    {
        drop_last(self.alloc, &mut self.part.bases, dev);
        refuse(&mut self.held, req, k)?;
        self.outbox.push_back((req.thread, Token::Piece(req, k)))?;
        self.note(links, Act::NoMem { req, k, dev })?;
        Ok(())
    }

    /// Sends the last piece of a device's queue back to its own thread, where it is one more than the queue
    /// takes: true, and it goes without an end. False, and nothing changes, where this thread isn't the
    /// device's home, the queue takes all that it holds or holds more than one too many, or the last piece
    /// isn't here or isn't on this device.
    #[tactic(auto, using(crate::proofs::Alone::alone_none))]
    pub(crate) fn refuse_last(&mut self, links: &mut Links, dev: DevId) -> Result<bool, OutOfMemory>
        requires { self.old.me < vec_len links.old.queues }
        ensures acted { OnOk result (Acted self.old links.old self.new links.new) }
        ensures tickets { OnOk result (KeepsTickets self.old → KeepsTickets self.new) }
        ensures quiet { OnOk result (Idles (NoRefusalOn dev) self.old links.old self.new links.new) }
        ensures sends { IfOk result (SendsBack dev self.old links.old self.new links.new) }
        ensures alone { OnOk result (AsksNothing links.old links.new) }
    {
        let Some((req, k)) = refusal_due(&self.seen(links), self.setup, self.me, dev) else {
            return Ok(false);
        };
        self.send_back(links, dev, req, k)?;
        Ok(true)
    }

    // Sends the last piece of the base device at this place back, where one waits there and it is one too many.
    #[tactic(auto, using(crate::proofs::Alone::alone_none))]
    fn refuse_at(&mut self, links: &mut Links, place: usize) -> Result<(), OutOfMemory>
        requires { self.old.me < vec_len links.old.queues }
        ensures acted { OnOk result (Acted self.old links.old self.new links.new) }
        ensures tickets { OnOk result (KeepsTickets self.old → KeepsTickets self.new) }
        ensures quiet { OnOk result (Idles (NoRefusalAt place) self.old links.old self.new links.new) }
        ensures alone { OnOk result (AsksNothing links.old links.new) }
    {
        let Some(dev) = self.waits_at(place) else {
            return Ok(());
        };
        self.refuse_last(links, dev)?;
        Ok(())
    }

    /// Sends the last piece of each of the thread's base devices back, where it is one too many, and only
    /// where there are still as many entries as there were: in a turn that did nothing else. A piece that is
    /// too many goes back as it comes, so there is hardly ever one.
    pub(crate) fn refuse_all(
        &mut self,
        links: &mut Links,
        entries: usize,
    ) -> Result<(), OutOfMemory>
        requires { self.old.me < vec_len links.old.queues }
        ensures acted { OnOk result (Acted self.old links.old self.new links.new) }
        ensures tickets { OnOk result (KeepsTickets self.old → KeepsTickets self.new) }
        ensures quiet { OnOk result (entries ≡ length links.old.entries → Idles NoRefusal self.old links.old self.new links.new) }
        ensures alone { OnOk result (AsksNothing links.old links.new) }
    {
        for place in 0..self.part.bases.len() {
            if entries != links.entries.len() {
                return Ok(());
            }
            self.refuse_at(links, place)?;
        }
        Ok(())
    }

    /// Destructs a device whose home this is, once, where the thread was told to. The entry shows for
    /// malloc the digest of its blocks, and for another device none. False, and nothing changes, where
    /// the device may not go, or it is malloc and its blocks aren't here.
    pub(crate) fn destruct(&mut self, links: &mut Links, dev: DevId) -> Result<bool, OutOfMemory>
        requires { self.old.me < vec_len links.old.queues }
        ensures acted { OnOk result (Acted self.old links.old self.new links.new) }
        ensures tickets { OnOk result (KeepsTickets self.old → KeepsTickets self.new) }
        ensures keeps { OnOk result (KeepsRequests self.old links.old self.new links.new) }
        ensures destructed { IfOk result (Destructs self.old links.old self.new links.new dev) }
    {
        let setup = self.setup;
        if !may_destruct(&self.seen(links), setup, self.me, true, dev) {
            return Ok(false);
        }
        let Some(digest) = digest_due(setup, self.part.bases.as_slice(), dev) else {
            return Ok(false);
        };
        destructed(&mut self.part, dev)?;
        self.note(links, Act::Destruct { dev, digest })?;
        Ok(true)
    }
}
