//! A thread: what it holds.
ghost use Rattle.std.specs.Prelude.{◌≡◌, IfOk, OnErr, OnOk};
ghost use Rattle.bd_links.specs.Entries.{longer};
ghost use Rattle.bd_thread.specs.Looking.{KeepsOwn};
ghost use Rattle.bd_thread.specs.Seen.{left_by, untaken};
ghost use Rattle.bd_thread.specs.Starts.{IsNew};

use crate::links::Links;
use bd_base::{Act, OutOfMemory, ReqId, Setup, Token};
use bd_blocks::part_at_start;
use bd_held::Held;
use bd_links::add;
use bd_machine::{Part, Prior};
use bd_moment::Time;
use bd_msg::Purse;
use bd_retries::Retries;
use bd_tokens::Tokens;
use bd_touched::Touched;
use std::alloc::Global;
use std::collections::VecDeque;

/// A thread, by what it holds.
pub struct Thread<'a> {
    pub(crate) alloc: Global,
    pub(crate) me: u32,
    pub(crate) setup: &'a Setup,
    pub(crate) part: Part,
    // what is kept of the tokens that are on this thread
    pub(crate) held: Tokens,
    // what is still to be put, and to which thread, in this order
    pub(crate) outbox: VecDeque<(u32, Token)>,
    // for each base device, its pieces in flight, and those that wait to be sent again
    pub(crate) retries: Retries,
    // the tickets of its open requests
    pub(crate) purse: Purse,
    // the moment of its turn, and when the next line was first met
    pub(crate) time: Time,
    // its requests that delay devices hold, in the order in which their holds end
    pub(crate) holds: Held,
    // requests that needed a decision of the registry as they were accepted or came back, or that were found waiting for
    // one: what is to be asked next, also some for which there is nothing to ask any more
    pub(crate) calls: VecDeque<ReqId>,
    // its open requests that it still has to look at for a step
    pub(crate) touched: Touched,
}

impl<'a> Thread<'a> {
    /// Thread number `me` before any entry: the malloc devices whose home it is have zeros, and of
    /// its disks nothing is told.
    pub fn new(alloc: Global, me: u32, setup: &'a Setup) -> Result<Thread<'a>, OutOfMemory>
        ensures new { IfOk result (IsNew me setup.now) }
        ensures tickets { IfOk result (λ t. KeepsOwn t) }
    {
        let part = part_at_start(alloc, setup, me)?;
        Ok(Thread {
            alloc,
            me,
            setup,
            part,
            held: Tokens::new(alloc),
            outbox: VecDeque::new(alloc),
            retries: Retries::new(alloc),
            purse: Purse::new(alloc),
            time: Time::new(),
            holds: Held::new(alloc),
            calls: VecDeque::new(alloc),
            touched: Touched::new(alloc),
        })
    }

    /// Adds to the list what the thread did, with the next stamp. What the act before left for it is
    /// let go; out of memory, that alone.
    pub(crate) fn note(&mut self, links: &mut Links, act: Act) -> Result<(), OutOfMemory>
        ensures thread { OnOk result (self.new ≡ record self.old { part = untaken self.old.part }) }
        ensures links { OnOk result (links.new ≡ record links.old { entries = longer self.old.me links.old.entries act }) }
        ensures err { OnErr result ((self.new ≡ record self.old { part = untaken self.old.part }) × (links.new ≡ links.old)) }
    {
        self.part.prior = None;
        add(&mut links.entries, self.me, act)
    }

    /// Adds to the list what the thread did, with the next stamp, and keeps what that is to the next act, where that
    /// one may have to follow it directly.
    pub(crate) fn note_as(
        &mut self,
        links: &mut Links,
        act: Act,
        prior: Option<Prior>,
    ) -> Result<(), OutOfMemory>
        ensures thread { OnOk result (self.new ≡ record self.old { part = left_by prior self.old.part }) }
        ensures links { OnOk result (links.new ≡ record links.old { entries = longer self.old.me links.old.entries act }) }
    {
        self.part.prior = prior;
        add(&mut links.entries, self.me, act)
    }

    /// Abandons every ticket, where the run halts.
    pub fn abandon(self) {
        let Thread {
            alloc: _,
            me: _,
            setup: _,
            part: _,
            held: _,
            outbox: _,
            retries: _,
            purse,
            time: _,
            holds: _,
            calls: _,
            touched: _,
        } = self;
        purse.abandon();
    }
}
