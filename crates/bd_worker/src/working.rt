//! What a worker does in a turn.
ghost use Rattle.std.specs.Prelude.{◌≡◌, [], IfErr, IfOk, OnOk};
ghost use Rattle.bd_disks.specs.Rows.{places};
ghost use Rattle.bd_thread.specs.Timely.{HasBegun, HasSameTime};
ghost use Rattle.bd_thread.specs.Work.{wants_registry};
ghost use Rattle.bd_worker.specs.Seats.{made_in, GoesAlone, GoesWith, HasCause, IsLentTo, IsWorking, Tells};
ghost use Rattle.bd_worker.specs.Waits.{IdlesAlone, IdlesWith};

use crate::worker::Worker;
use bd_base::{Entry, Rows};
use bd_disks::Disks;
use bd_outside::Disk;
use bd_registry::Registry;
use bd_seat::{SeatError, append_all, catch_up, take_over};
use bd_storage::{turn_with_disks, work_with_disks};
use bd_thread::Turned;
use std::alloc::Global;
use std::mem;

impl<'a> Worker<'a> {
    /// Whether a turn could use the registry.
    pub fn wants_registry(&self) -> bool
        ensures { result ≡ wants_registry self.now.thread self.now.links }
    {
        self.thread.wants_registry(&self.links)
    }

    // What the last turn did, taken out of the links.
    fn take_entries(&mut self, alloc: Global) -> Rows<Entry>
        ensures entries { result ≡ self.old.links.entries }
        ensures left { self.new ≡ record self.old { links = record self.old.links { entries = [] } } }
    {
        mem::replace(&mut self.links.entries, Rows::new(alloc))
    }

    /// A turn, which began, with the thread's disks that asks the registry for nothing. What it did is in the log; the
    /// list that it was in stays with its memory, for the next turn.
    pub(crate) fn work<D: Disk>(
        &mut self,
        alloc: Global,
        disks: &mut Disks<D>,
    ) -> Result<Turned, SeatError>
        requires works { IsWorking self.old }
        requires begun { HasBegun self.old.thread }
        ensures goes { OnOk result (GoesAlone D.state disks.old disks.new self.old self.new) }
        ensures time { OnOk result (HasSameTime self.old.thread self.new.thread) }
        ensures turned { IfOk result (Tells (made_in self.old) (made_in self.new)) }
        ensures quiet { IfOk result (IdlesAlone self.old self.new) }
        ensures cause { IfErr result (λ error. HasCause error self.new) }
        ensures kept { places D.state disks.new ≡ places D.state disks.old }
    {
        let turned = work_with_disks(&mut self.thread, &mut self.links, disks)?;
        let entries = self.take_entries(alloc);
        let left = append_all(&mut self.log, entries)?;
        self.links.entries = left;
        Ok(turned)
    }

    /// A turn, which began, with the registry, of whose journal the thread saw this number of rows, and with the
    /// thread's disks. What it did is in the log, and its events are in the registry.
    pub(crate) fn work_with<D: Disk>(
        &mut self,
        alloc: Global,
        disks: &mut Disks<D>,
        lent: &mut Registry,
        seen: usize,
    ) -> Result<Turned, SeatError>
        requires lent { IsLentTo self.old seen lent.old }
        requires begun { HasBegun self.old.thread }
        ensures goes { OnOk result (GoesWith D.state disks.old disks.new seen self.old lent.old self.new lent.new) }
        ensures time { OnOk result (HasSameTime self.old.thread self.new.thread) }
        ensures turned { IfOk result (Tells (made_in self.old) (made_in self.new)) }
        ensures quiet { IfOk result (IdlesWith lent.old self.old self.new) }
        ensures cause { IfErr result (λ error. HasCause error self.new) }
        ensures kept { places D.state disks.new ≡ places D.state disks.old }
    {
        self.log.meet(lent.last_stamp());
        let _rows = lent.journal();
        catch_up(alloc, &mut self.links.registry, lent, seen)?;
        let turned = turn_with_disks(&mut self.thread, &mut self.links, disks)?;
        let entries = self.take_entries(alloc);
        take_over(alloc, self.me, &mut self.log, lent, entries)?;
        Ok(turned)
    }
}
