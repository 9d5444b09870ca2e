//! How a thread at its seat is shut down.
ghost use Rattle.std.specs.Prelude.{◌≡◌, ◌≢◌, ◌<◌, IfOk};
ghost use Rattle.bd_worker.specs.Seats.{IsLentTo, IsSitting};
ghost use Rattle.bd_worker.specs.Shutting.{LearnsShut, Shuts, ShutsWith};

use crate::seat::Seat;
use crate::worker::Worker;
use bd_base::Act;
use bd_outside::Disk;
use bd_registry::Registry;
use bd_seat::{SeatError, catch_up};
use bd_wires::Wires;
use std::alloc::Global;
use std::sync::Wait;

impl<'a> Worker<'a> {
    // Thread 0 shuts down, with the stamp after this one and after all of its log and of the journal of the
    // registry that it is lent, of which it saw this number of rows. Its registry follows the journal.
    fn shut(
        &mut self,
        alloc: Global,
        lent: &mut Registry,
        seen: usize,
        above: u128,
    ) -> Result<u128, SeatError>
        requires { IsLentTo self.old seen lent.old }
        ensures { IfOk result (λ stamp. ShutsWith seen above self.old lent.old stamp self.new lent.new) }
    {
        self.log.meet(lent.last_stamp());
        self.log.meet(above);
        let _journal = lent.journal();
        catch_up(alloc, &mut self.links.registry, lent, seen)?;
        let stamp = self.log.push(Act::Shutdown)?;
        lent.shut(stamp)?;
        self.links.shut = true;
        Ok(stamp)
    }
}

impl<'a, D: Disk> Seat<'a, D> {
    /// Thread 0 shuts down, with a stamp above this one, which it answers. Where the registry isn't in its slot it waits
    /// until it is.
    pub fn shut<W: Wait>(
        &mut self,
        rt: &W,
        alloc: Global,
        wires: &Wires,
        above: u128,
    ) -> Result<u128, SeatError>
        requires sits { IsSitting D.state wires.now self.old }
        requires first { self.old.worker.me ≡ 0 }
        ensures shut { IfOk result (λ stamp. (above < stamp) × Shuts D.state wires.now stamp self.old self.new) }
        ensures disks { self.new.disks ≡ self.old.disks }
    {
        let mut lent = wires.slot.take(rt, &mut self.passes.slot);
        let stamp = self.worker.shut(alloc, &mut lent, self.seen, above)?;
        self.seen = lent.journal().len();
        wires.slot.give(rt, &mut self.passes.slot, lent);
        Ok(stamp)
    }
}

impl<'a, D> Seat<'a, D> {
    /// Another thread learns of the Shutdown, whose stamp its log meets.
    pub fn learn_shut(&mut self, stamp: u128)
        requires other { self.old.worker.me ≢ 0 }
        requires later { self.old.worker.log.last < stamp }
        ensures shut { LearnsShut stamp self.old self.new }
        ensures disks { self.new.disks ≡ self.old.disks }
    {
        self.worker.log.meet(stamp);
        self.worker.links.shut = true;
    }
}
