//! A turn that asks the registry for nothing; whether the registry is wanted; and the counts of messages.
ghost use Rattle.std.specs.Prelude.{◌≡◌, ◌-◌, ◌<◌, length, vec_len, IfOk, OnOk};
ghost use Rattle.std.specs.List.{list_any, range_with_len};
ghost use Rattle.bd_thread.specs.Acted.{Acted};
ghost use Rattle.bd_thread.specs.Looking.{KeepsOwn};
ghost use Rattle.bd_thread.specs.Moves.{AddsMore};
ghost use Rattle.bd_thread.specs.Requests.{KeepsTickets};
ghost use Rattle.bd_thread.specs.Seen.{number_of};
ghost use Rattle.bd_thread.specs.Waits.{Idles};
ghost use Rattle.bd_thread.specs.Work.{calls_with, has_left, is_left_at, put_count, taken_count, wants_registry, ActedAlone, AsksNothing, NoLineAlone, QuietsAlone};

use crate::links::Links;
use crate::thread::Thread;
use crate::turn::{BATCH, Turned, tell};
use bd_base::{DevId, OutOfMemory, ReqId};
use bd_rule_requests::count_at;
use bd_rule_script::undecided_job;
use bd_rule_view::Records;
use bd_steps::{asks_registry, has_duty, is_any_live};

impl<'a> Thread<'a> {
    // Submits what the next lines ask for, and ends lines, as far as they go on by this alone.
    fn submit_all(&mut self, links: &mut Links) -> Result<(), OutOfMemory>
        requires { self.old.me < vec_len links.old.queues }
        ensures acted { OnOk result (Acted self.old links.old self.new links.new) }
        ensures tickets { OnOk result (KeepsTickets self.old → KeepsTickets self.new) }
        ensures quiet { OnOk result (Idles NoLineAlone self.old links.old self.new links.new) }
        ensures alone { OnOk result (AsksNothing links.old links.new) }
    {
        for _round in 0..BATCH {
            self.submit_line(links)?;
            if !self.end_line(links)? {
                break;
            }
        }
        Ok(())
    }

    // After a quiet turn a request that was found waiting for a decision is noted, where none is.
    fn note_found(&mut self, turned: Turned, found: Option<ReqId>) -> Result<(), OutOfMemory>
        ensures thread { OnOk result (self.new ≡ record self.old { calls = self.new.calls }) }
        ensures noted { OnOk result (turned ≡ Turned.Quiet → self.new.calls.items ≡ calls_with found self.old.calls.items) }
    {
        let Some(req) = found else {
            return Ok(());
        };
        if turned == Turned::Quiet && self.calls.len() == 0 {
            self.calls.push_back(req)?;
        }
        Ok(())
    }

    /// A turn that asks the registry for nothing, and leaves it as it is: at most 8 messages, at most 8 pieces of each
    /// base device that are sent again, at most 8 pieces of each store, at most 64 steps for the line of each limited
    /// device, the releases of held requests that are due, at most 8 lines of the script as far as they submit or only
    /// end, the destructs that are due, and what is still to be put, until the queue that it goes to is full; where it
    /// did none of this, it cuts, holds or completes the first open request that can be. `Quiet` only where nothing
    /// could be done; a request that waits for a decision is then noted for a turn that has the registry, so that the
    /// thread wants that. It answers out of memory where `turn` does.
    pub fn work(&mut self, links: &mut Links) -> Result<Turned, OutOfMemory>
        requires { number_of self.old < vec_len links.old.queues }
        ensures acted { OnOk result (Acted self.old links.old self.new links.new) }
        ensures tickets { OnOk result (KeepsOwn self.old → KeepsOwn self.new) }
        ensures turned { IfOk result (AddsMore links.old links.new) }
        ensures quiet { IfOk result (QuietsAlone self.old links.old self.new links.new) }
        ensures alone { OnOk result (ActedAlone self.old links.old self.new links.new) }
    {
        let before = links.entries.len();
        let mut touched = self.take_touched();
        self.receive_all(links)?;
        self.retry_all(links)?;
        self.serve_all(links)?;
        self.harden_all(links)?;
        self.limit_all(links)?;
        self.release_all(links)?;
        self.walk_all(links)?;
        self.submit_all(links)?;
        self.destruct_all(links)?;
        self.put_outbox(links)?;
        self.put_all_due(links)?;
        let found = self.carry_all(links, before, &mut touched)?;
        self.refuse_all(links, before)?;
        let turned = tell(before, links.entries.len());
        self.look_at(links, before, touched)?;
        self.note_found(turned, found)?;
        Ok(turned)
    }

    // Whether on one of these devices a handle is left that the thread closes by itself.
    #[tactic(auto, using(crate::proofs::Left::left_from))]
    fn has_left(&self, links: &Links, count: u32) -> bool
        ensures { result ≡ has_left self.now links.now count }
    {
        if self.part.gone.len() == 0 {
            return false;
        }
        for n in 0..count {
            if self.left_on(links, DevId(n)).is_some() {
                return true;
            }
        }
        false
    }

    /// Whether a turn could use the registry, by what the thread sees of it: something has to follow there, the thread
    /// owes something that an event does, or that one follows, a request is noted for a decision, its next line opens,
    /// closes, claims, removes or resizes, a handle whose remove event it took may be closed, or, after Shutdown on
    /// thread 0, a device is left to remove. It takes no memory.
    pub fn wants_registry(&self, links: &Links) -> bool
        ensures { result ≡ wants_registry self.now links.now }
    {
        if links.registry.between().is_some()
            || has_duty(self.part.owed.as_slice())
            || self.calls.len() > 0
        {
            return true;
        }
        let job = undecided_job(self.setup, self.me, &self.part);
        if !links.shut && asks_registry(self.setup, &self.part, job) {
            return true;
        }
        let Ok(count) = u32::try_from(self.setup.devices.len()) else {
            return true;
        };
        self.has_left(links, count)
            || (links.shut && self.me == 0 && is_any_live(&links.registry, count))
    }

    /// How many messages it put to that thread.
    pub fn put_count(&self, to: u32) -> u128
        ensures { result ≡ put_count self.now to }
    {
        count_at(self.part.put.as_slice(), to)
    }

    /// How many messages it took from that thread.
    pub fn taken_count(&self, from: u32) -> u128
        ensures { result ≡ taken_count self.now from }
    {
        count_at(self.part.taken.as_slice(), from)
    }
}
