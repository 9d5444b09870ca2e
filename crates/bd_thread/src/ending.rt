//! What a thread does by itself: after Shutdown thread 0 removes the devices that are left; a thread closes
//! handles whose device is being removed, and destructs its devices.
ghost use Rattle.std.specs.Prelude.{◌≡◌, ◌==◌, ◌<◌, length, vec_len, IfOk, OnOk};
ghost use Rattle.bd_thread.specs.Acted.{Acted};
ghost use Rattle.bd_thread.specs.Endings.{is_left, left_on, ClosesLeft, RemovesLeft};
ghost use Rattle.bd_thread.specs.Requests.{KeepsTickets};
ghost use Rattle.bd_thread.specs.Waits.{Idles, NoDestruct, NoHandle, NoHandleOn, NoRemoval, NothingLeft, NothingOwn};
ghost use Rattle.bd_thread.specs.Work.{AsksNothing};
ghost use Rattle.bd_registry.specs.State.{rows_of};

use crate::links::Links;
use crate::thread::Thread;
use bd_base::{DevId, OutOfMemory};
use bd_machine::{Handle, Part};
use bd_rule_requests::is_gone;
use bd_steps::{owes_nothing, removal_after};

// Whether a thread owes nothing.
fn owes_none(part: &Part) -> bool
    ensures { result ≡ (length part.now.owed == 0) }
{
    part.owed.len() == 0
}

impl<'a> Thread<'a> {
    // Whether the thread closes the handle by itself: its remove event was taken, and it may be closed (no
    // base handle, and without open requests).
    fn is_left(&self, links: &Links, handle: Handle) -> bool
        ensures { result ≡ is_left self.now links.now handle }
    {
        is_gone(&self.part, handle.id) && self.may_close(links, handle)
    }

    // The first of the thread's handles on the device that it closes by itself.
    pub(crate) fn left_on(&self, links: &Links, dev: DevId) -> Option<Handle>
        ensures { result ≡ left_on dev self.now links.now }
    {
        for h in self.handles_of(links, dev) {
            if h.thread.0 == self.me && h.dev.0 == dev.0 && self.is_left(links, *h) {
                return Some(*h);
            }
        }
        None
    }

    // Closes the first handle that is left on the device.
    fn close_left(&mut self, links: &mut Links, dev: DevId) -> Result<bool, OutOfMemory>
        requires rows { links.old.registry.setup ≡ rows_of self.old.setup.now }
        ensures acted { OnOk result (Acted self.old links.old self.new links.new) }
        ensures tickets { OnOk result (KeepsTickets self.old → KeepsTickets self.new) }
        ensures closes { IfOk result (ClosesLeft self.old links.old self.new links.new dev) }
    {
        let Some(handle) = self.left_on(links, dev) else {
            return Ok(false);
        };
        self.put_and_close(links, handle)?;
        Ok(true)
    }

    // Closes the handles that are left on the device.
    fn close_on(&mut self, links: &mut Links, dev: DevId) -> Result<(), OutOfMemory>
        requires me { self.old.me < vec_len links.old.queues }
        requires rows { links.old.registry.setup ≡ rows_of self.old.setup.now }
        ensures acted { OnOk result (Acted self.old links.old self.new links.new) }
        ensures tickets { OnOk result (KeepsTickets self.old → KeepsTickets self.new) }
        ensures quiet { OnOk result (Idles (NoHandleOn dev) self.old links.old self.new links.new) }
    {
        let most = self.handles_of(links, dev).len();
        for _round in 0..most {
            if !self.close_left(links, dev)? {
                break;
            }
        }
        Ok(())
    }

    fn close_all_left(&mut self, links: &mut Links) -> Result<(), OutOfMemory>
        requires me { self.old.me < vec_len links.old.queues }
        requires rows { links.old.registry.setup ≡ rows_of self.old.setup.now }
        ensures acted { OnOk result (Acted self.old links.old self.new links.new) }
        ensures tickets { OnOk result (KeepsTickets self.old → KeepsTickets self.new) }
        ensures quiet { OnOk result (Idles NoHandle self.old links.old self.new links.new) }
    {
        for place in 0..self.setup.devices.len() {
            let Ok(dev) = u32::try_from(place) else {
                return Ok(());
            };
            self.close_on(links, DevId(dev))?;
        }
        Ok(())
    }

    // Destructs what the thread was told to.
    #[tactic(auto, using(crate::proofs::Alone::alone_none))]
    pub(crate) fn destruct_all(&mut self, links: &mut Links) -> Result<(), OutOfMemory>
        requires { self.old.me < vec_len links.old.queues }
        ensures acted { OnOk result (Acted self.old links.old self.new links.new) }
        ensures tickets { OnOk result (KeepsTickets self.old → KeepsTickets self.new) }
        ensures quiet { OnOk result (Idles NoDestruct self.old links.old self.new links.new) }
        ensures alone { OnOk result (AsksNothing links.old links.new) }
    {
        if owes_none(&self.part) {
            return Ok(());
        }
        for place in 0..self.setup.devices.len() {
            let Ok(dev) = u32::try_from(place) else {
                return Ok(());
            };
            self.destruct(links, DevId(dev))?;
        }
        Ok(())
    }

    // Removes a device that is left, where the rules let the thread ask it.
    fn remove_left(&mut self, links: &mut Links, dev: DevId) -> Result<bool, OutOfMemory>
        requires rows { links.old.registry.setup ≡ rows_of self.old.setup.now }
        ensures acted { OnOk result (Acted self.old links.old self.new links.new) }
        ensures tickets { OnOk result (KeepsTickets self.old → KeepsTickets self.new) }
        ensures removes { IfOk result (RemovesLeft self.old links.old self.new links.new dev) }
    {
        let registry = &links.registry;
        let Some(event) = removal_after(self.setup, registry, self.me, links.shut, dev)? else {
            return Ok(false);
        };
        if !self.may_ask(links, &event) {
            return Ok(false);
        }
        self.ask(links, event)?;
        Ok(true)
    }

    // After Shutdown, on thread 0, removes the devices that are left, the last registered first.
    fn remove_all_left(&mut self, links: &mut Links) -> Result<(), OutOfMemory>
        requires rows { links.old.registry.setup ≡ rows_of self.old.setup.now }
        ensures acted { OnOk result (Acted self.old links.old self.new links.new) }
        ensures tickets { OnOk result (KeepsTickets self.old → KeepsTickets self.new) }
        ensures quiet { OnOk result (Idles NoRemoval self.old links.old self.new links.new) }
    {
        if !(links.shut && self.me == 0) {
            return Ok(());
        }
        let count = self.setup.devices.len();
        for round in 0..count {
            let Ok(dev) = u32::try_from(count - 1 - round) else {
                return Err(OutOfMemory);
            };
            self.remove_left(links, DevId(dev))?;
        }
        Ok(())
    }

    // Closes the handles whose remove event the thread took, and destructs what it was told to.
    fn end_own(&mut self, links: &mut Links) -> Result<(), OutOfMemory>
        requires me { self.old.me < vec_len links.old.queues }
        requires rows { links.old.registry.setup ≡ rows_of self.old.setup.now }
        ensures acted { OnOk result (Acted self.old links.old self.new links.new) }
        ensures tickets { OnOk result (KeepsTickets self.old → KeepsTickets self.new) }
        ensures quiet { OnOk result (Idles NothingOwn self.old links.old self.new links.new) }
    {
        if owes_nothing(&self.part) {
            return Ok(());
        }
        self.close_all_left(links)?;
        self.destruct_all(links)
    }

    /// After Shutdown removes the devices that are left, on thread 0; then puts the channels of the
    /// thread's handles whose remove event it took and closes them, device by device; and then destructs
    /// the devices whose home it is and that it was told to destruct, as far as may be. More devices than
    /// 32 bits count answer out of memory.
    pub(crate) fn end_all(&mut self, links: &mut Links) -> Result<(), OutOfMemory>
        requires me { self.old.me < vec_len links.old.queues }
        requires rows { links.old.registry.setup ≡ rows_of self.old.setup.now }
        ensures acted { OnOk result (Acted self.old links.old self.new links.new) }
        ensures tickets { OnOk result (KeepsTickets self.old → KeepsTickets self.new) }
        ensures quiet { OnOk result (Idles NothingLeft self.old links.old self.new links.new) }
    {
        self.remove_all_left(links)?;
        self.end_own(links)
    }
}
