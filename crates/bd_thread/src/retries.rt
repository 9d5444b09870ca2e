//! Pieces of the thread that were refused: they come back, wait, and are sent again.
ghost use Rattle.std.specs.Prelude.{◌≡◌, ◌==◌, ◌<◌, ◌∷◌, [], vec_len, IfOk, OnOk};
ghost use Rattle.bd_thread.specs.Acted.{Acted};
ghost use Rattle.bd_thread.specs.Requests.{KeepsTickets};
ghost use Rattle.bd_thread.specs.Moves.{ComesOwn};
ghost use Rattle.bd_thread.specs.Retries.{Retries};
ghost use Rattle.bd_thread.specs.Sent.{may_send};
ghost use Rattle.bd_thread.specs.Waits.{Idles, NoRetry, NoRetryAt};
ghost use Rattle.bd_thread.specs.Work.{AsksNothing};

use crate::links::Links;
use crate::thread::Thread;
use crate::turn::BATCH;
use bd_base::{OutOfMemory, ReqId, Token};
use bd_blocks::home;
use bd_links::is_full;
use bd_steps::piece_back;

impl<'a> Thread<'a> {
    /// A piece that isn't out came: where it is this thread's it is back. Its channel has one fewer in flight,
    /// a refused one waits to be sent again, and its request is held or completes, where the rules let it.
    pub(crate) fn take_back(
        &mut self,
        links: &mut Links,
        req: ReqId,
        k: u32,
    ) -> Result<(), OutOfMemory>
        requires { self.old.me < vec_len links.old.queues }
        ensures acted { OnOk result (Acted self.old links.old self.new links.new) }
        ensures tickets { OnOk result (KeepsTickets self.old → KeepsTickets self.new) }
        ensures back { OnOk result (ComesOwn (req.thread == self.old.me) req k self.old links.old self.new links.new) }
    {
        if req.thread != self.me {
            return Ok(());
        }
        piece_back(&mut self.retries, &self.held, req, k)?;
        self.hold_or_complete(links, req)?;
        Ok(())
    }

    /// Whether the token may be put to the thread, and there is room in the queue.
    pub(crate) fn may_leave(&self, links: &Links, to: u32, what: &Token) -> bool
        ensures { result ≡ may_send self.now links.now ((to, what.now) ∷ []) }
    {
        !is_full(links.queues.as_slice(), to) && self.may_put(links, to, what)
    }

    // Sends the first piece that waits of the channel at this place, where no more of it are in flight than
    // its threshold, the piece may go to its home, and there is room.
    #[tactic(auto, using(crate::proofs::Alone::alone_none))]
    fn retry(&mut self, links: &mut Links, place: usize) -> Result<bool, OutOfMemory>
        requires { self.old.me < vec_len links.old.queues }
        ensures acted { OnOk result (Acted self.old links.old self.new links.new) }
        ensures tickets { OnOk result (KeepsTickets self.old → KeepsTickets self.new) }
        ensures quiet { OnOk result (Idles (NoRetryAt place) self.old links.old self.new links.new) }
        ensures retries { IfOk result (Retries place self.old links.old self.new links.new) }
        ensures alone { OnOk result (AsksNothing links.old links.new) }
    {
        let Some(next) = self.retries.next_at(place) else {
            return Ok(false);
        };
        let to = home(self.setup, next.base);
        let what = Token::Piece(next.req, next.k);
        if !self.may_leave(links, to, &what) {
            return Ok(false);
        }
        self.retries.retried(next.base)?;
        self.put(links, to, what)
    }

    fn retry_channel(&mut self, links: &mut Links, place: usize) -> Result<(), OutOfMemory>
        requires { self.old.me < vec_len links.old.queues }
        ensures acted { OnOk result (Acted self.old links.old self.new links.new) }
        ensures tickets { OnOk result (KeepsTickets self.old → KeepsTickets self.new) }
        ensures quiet { OnOk result (Idles (NoRetryAt place) self.old links.old self.new links.new) }
        ensures alone { OnOk result (AsksNothing links.old links.new) }
    {
        for _round in 0..BATCH {
            if !self.retry(links, place)? {
                break;
            }
        }
        Ok(())
    }

    /// Sends pieces again that wait, of each base device in order and at most 8, as far as the threshold of
    /// its last refusal lets them go.
    pub(crate) fn retry_all(&mut self, links: &mut Links) -> Result<(), OutOfMemory>
        requires { self.old.me < vec_len links.old.queues }
        ensures acted { OnOk result (Acted self.old links.old self.new links.new) }
        ensures tickets { OnOk result (KeepsTickets self.old → KeepsTickets self.new) }
        ensures quiet { OnOk result (Idles NoRetry self.old links.old self.new links.new) }
        ensures alone { OnOk result (AsksNothing links.old links.new) }
    {
        for place in 0..self.retries.len() {
            self.retry_channel(links, place)?;
        }
        Ok(())
    }
}
