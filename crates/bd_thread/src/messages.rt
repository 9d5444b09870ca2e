//! Messages of a thread: those that it takes, and those that it puts.
ghost use Rattle.std.specs.Prelude.{◌≡◌, ◌<◌, true, vec_len, IfOk, OnOk};
ghost use Rattle.bd_thread.specs.Acted.{Acted};
ghost use Rattle.bd_thread.specs.Requests.{KeepsTickets};
ghost use Rattle.bd_thread.specs.Sent.{may_put, KeepsRequests, Puts, Takes};

use crate::links::Links;
use crate::thread::Thread;
use bd_base::{Act, OutOfMemory, Token};
use bd_links::{pop, push};
use bd_machine::Id;
use bd_rule_effects::{arrived, took};
use bd_rule_requests::{count_at, id_of, may_go};
use bd_steps::{begin_walk, copy_of, leave, may_take};
use bd_turns::Message;

impl<'a> Thread<'a> {
    /// Takes the first message, where it brings the token that it names. A walk that is back on the thread that began it
    /// ends; one that begins then, or by news that a reset may begin, is here and to be put, after all else. None, and
    /// nothing changes, where the message doesn't bring its token, or there is none.
    pub(crate) fn take(&mut self, links: &mut Links) -> Result<Option<Id>, OutOfMemory>
        requires { self.old.me < vec_len links.old.queues }
        ensures acted { OnOk result (Acted self.old links.old self.new links.new) }
        ensures tickets { OnOk result (KeepsTickets self.old → KeepsTickets self.new) }
        ensures takes { IfOk result (Takes self.old links.old self.new links.new) }
    {
        let me = self.me as usize;
        if !may_take(links.queues.as_slice(), me) {
            return Ok(None);
        }
        let Some(message) = pop(&mut links.queues, me) else {
            return Ok(None);
        };
        let Message { sender, what, kept } = message;
        let number = count_at(self.part.taken.as_slice(), sender);
        took(&mut self.part, sender, number)?;
        let begun = arrived(
            self.alloc,
            &mut self.part,
            self.setup,
            self.me,
            &what,
            Some(kept.get()),
        )?;
        let id = id_of(sender, self.me, number, &what);
        self.held.land(self.me, id, &what, kept)?;
        begin_walk(&mut self.held, &mut self.outbox, begun)?;
        self.note(
            links,
            Act::Took {
                source: sender,
                number,
                what,
            },
        )?;
        Ok(Some(id))
    }

    /// Whether there is a queue to the thread, and the token may go there.
    pub(crate) fn may_put(&self, links: &Links, to: u32, what: &Token) -> bool
        ensures { result ≡ may_put self.now links.now to what.now }
    {
        (to as usize) < links.queues.len()
            && may_go(&self.seen(links), self.setup, self.me, to, what)
    }

    /// Puts a token last in the queue to the thread, where it may go there: a piece or a walk that is
    /// here, or news that are due to that thread. Else nothing changes.
    pub(crate) fn put(
        &mut self,
        links: &mut Links,
        to: u32,
        what: Token,
    ) -> Result<bool, OutOfMemory>
        ensures acted { OnOk result (Acted self.old links.old self.new links.new) }
        ensures tickets { OnOk result (KeepsTickets self.old → KeepsTickets self.new) }
        ensures keeps { OnOk result (KeepsRequests self.old links.old self.new links.new) }
        ensures puts { IfOk result (Puts self.old links.old self.new links.new to what) }
    {
        if !self.may_put(links, to, &what) {
            return Ok(false);
        }
        self.put_allowed(links, to, what)?;
        Ok(true)
    }

    /// Puts a token that may go to the thread last in the queue there.
    pub(crate) fn put_allowed(
        &mut self,
        links: &mut Links,
        to: u32,
        what: Token,
    ) -> Result<(), OutOfMemory>
        requires { may_put self.old links.old to what ≡ true }
        ensures acted { OnOk result (Acted self.old links.old self.new links.new) }
        ensures tickets { OnOk result (KeepsTickets self.old → KeepsTickets self.new) }
        ensures keeps { OnOk result (KeepsRequests self.old links.old self.new links.new) }
        ensures puts { OnOk result (Puts self.old links.old self.new links.new to what true) }
    {
        let number = count_at(self.part.put.as_slice(), to);
        bd_rule_effects::put(&mut self.part, to, number, &what)?;
        let id = id_of(self.me, to, number, &what);
        let kept = leave(self.alloc, &mut self.held, id, &what)?;
        let told = copy_of(&what)?;
        push(
            &mut links.queues,
            to as usize,
            Message {
                sender: self.me,
                what: told,
                kept,
            },
        )?;
        self.note(links, Act::Put { to, number, what })?;
        Ok(())
    }
}
