//! What a thread owes, and does once: it drops channels whose count came to zero, puts the channel of a
//! limited device, closes base handles, removes devices that stand on one that is being removed, lets the
//! content of its devices grow, and tells the registry what it destructed and what has grown.
ghost use Rattle.std.specs.Prelude.{◌≡◌, IfOk, OnOk, Some, true};
ghost use Rattle.bd_base.specs.declared.event.RegEvent.TheVariants as events;
ghost use Rattle.bd_thread.specs.Acted.{Acted};
ghost use Rattle.bd_thread.specs.Duties.{Discharges, NoDuty};
ghost use Rattle.bd_thread.specs.Growing.{growth_due, Grows, IsGrown};
ghost use Rattle.bd_thread.specs.Lines.{may_ask};
ghost use Rattle.bd_thread.specs.Requests.{KeepsTickets};
ghost use Rattle.bd_thread.specs.Waits.{Idles};
ghost use Rattle.bd_registry.specs.State.{rows_of};

use crate::links::Links;
use crate::thread::Thread;
use bd_base::{Act, DevId, OutOfMemory, RegEvent};
use bd_machine::Prior;
use bd_rule_effects::grown;
use bd_rule_requests::may_grow;
use bd_rule_view::Records;
use bd_steps::{duty_owed, growth_owed};

impl<'a> Thread<'a> {
    // Does the first of what the thread owes that an event does, where the rules let the thread ask it:
    // true. Else nothing changes.
    fn discharge(&mut self, links: &mut Links) -> Result<bool, OutOfMemory>
        requires rows { links.old.registry.setup ≡ rows_of self.old.setup.now }
        ensures acted { OnOk result (Acted self.old links.old self.new links.new) }
        ensures tickets { OnOk result (KeepsTickets self.old → KeepsTickets self.new) }
        ensures discharges { IfOk result (Discharges self.old links.old self.new links.new) }
    {
        let Some(event) = duty_owed(self.setup, self.part.owed.as_slice())? else {
            return Ok(false);
        };
        if !self.may_ask(links, &event) {
            return Ok(false);
        }
        self.ask(links, event)?;
        Ok(true)
    }

    // The first device that the thread is to let grow, and to how many blocks, where the rules let it, and nothing has to
    // follow at the registry, which is told directly after.
    fn growth_due(&self, links: &Links) -> Option<(DevId, u64)>
        ensures { result ≡ growth_due self.now links.now }
    {
        let (dev, blocks) = growth_owed(self.part.owed.as_slice())?;
        if links.registry.between().is_none()
            && may_grow(&self.seen(links), self.setup, self.me, dev, blocks)
        {
            Some((dev, blocks))
        } else {
            None
        }
    }

    // Lets a device's content grow. The end of the resize may be asked next.
    fn grow_content(
        &mut self,
        links: &mut Links,
        dev: DevId,
        blocks: u64,
    ) -> Result<(), OutOfMemory>
        requires { growth_due self.old links.old ≡ Some (dev, blocks) }
        ensures acted { OnOk result (Acted self.old links.old self.new links.new) }
        ensures tickets { OnOk result (KeepsTickets self.old → KeepsTickets self.new) }
        ensures grown { OnOk result (IsGrown dev blocks self.old links.old self.new links.new) }
        ensures asks { OnOk result (may_ask self.new links.new (events.EndResize dev) ≡ true) }
    {
        grown(self.alloc, &mut self.part, self.setup, dev, blocks)?;
        self.note_as(links, Act::Grow { dev, blocks }, Some(Prior::Growth(dev)))?;
        Ok(())
    }

    // Lets the first device grow that is to, where the rules let the thread: true, and directly after the resize is
    // ended, so that nothing comes between; each handle's thread is then to be told. Else nothing changes.
    fn grow(&mut self, links: &mut Links) -> Result<bool, OutOfMemory>
        requires rows { links.old.registry.setup ≡ rows_of self.old.setup.now }
        ensures acted { OnOk result (Acted self.old links.old self.new links.new) }
        ensures tickets { OnOk result (KeepsTickets self.old → KeepsTickets self.new) }
        ensures grows { IfOk result (Grows self.old links.old self.new links.new) }
    {
        let Some((dev, blocks)) = self.growth_due(links) else {
            return Ok(false);
        };
        self.grow_content(links, dev, blocks)?;
        self.ask(links, RegEvent::EndResize { dev })?;
        Ok(true)
    }

    // Does one thing that the thread owes, where the rules let it: a device's growth, or what an event does.
    fn do_owed(&mut self, links: &mut Links) -> Result<bool, OutOfMemory>
        requires rows { links.old.registry.setup ≡ rows_of self.old.setup.now }
        ensures acted { OnOk result (Acted self.old links.old self.new links.new) }
        ensures tickets { OnOk result (KeepsTickets self.old → KeepsTickets self.new) }
        ensures quiet { OnOk result (Idles NoDuty self.old links.old self.new links.new) }
    {
        let grew = self.grow(links)?;
        if grew {
            return Ok(true);
        }
        self.discharge(links)
    }

    /// Does what the thread owes, growths and what events do, as far as the rules let it.
    pub(crate) fn discharge_all(&mut self, links: &mut Links) -> Result<(), OutOfMemory>
        requires rows { links.old.registry.setup ≡ rows_of self.old.setup.now }
        ensures acted { OnOk result (Acted self.old links.old self.new links.new) }
        ensures tickets { OnOk result (KeepsTickets self.old → KeepsTickets self.new) }
        ensures quiet { OnOk result (Idles NoDuty self.old links.old self.new links.new) }
    {
        for _round in 0..self.part.owed.len() {
            if !self.do_owed(links)? {
                break;
            }
        }
        Ok(())
    }
}
