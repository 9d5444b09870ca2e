//! A seat's turns.
ghost use Rattle.std.specs.Prelude.{◌≡◌, None, IfErr, IfOk, OnOk, Option};
ghost use Rattle.bd_outside.specs.Clock.{IsWithin, Moments};
ghost use Rattle.bd_thread.specs.Timely.{HadTurn, HasBegun};
ghost use Rattle.bd_worker.specs.Seats.{has_moved, made_by, Continues, HasCause, HasMoved, HasSameDisks, HasSameEntries, IsSitting, IsWorking, KeepsOn, SeatHasSameTime, SitsOrHalts, Tells, TellsIfAny, WentOn};
ghost use Rattle.bd_worker.specs.Waits.{begun_seat, Idles, IdlesAlone, IdlesIfLent, QuietTurns, Receives, Sends};

use crate::seat::Seat;
use bd_outside::Disk;
use bd_seat::{SeatError, fetch, flush_all};
use bd_thread::Turned;
use bd_wires::Wires;
use std::alloc::Global;
use std::sync::Wait;

/// Whether a turn that answers this added entries.
pub fn has_moved(turned: Turned) -> bool
    ensures { result ≡ has_moved turned }
{
    matches!(turned, Turned::Moved(_))
}

impl<'a, D: Disk> Seat<'a, D> {
    // Posts of its ring come into its queue.
    fn receive<W: Wait>(&mut self, rt: &W, wires: &Wires) -> Result<(), SeatError>
        requires { IsSitting D.state wires.now self.old }
        ensures goes { OnOk result (Continues D.state wires.now self.old self.new) }
        ensures entries { OnOk result (HasSameEntries self.old self.new) }
        ensures came { OnOk result (Receives self.old self.new) }
        ensures cause { IfErr result (λ error. HasCause error self.new.worker) }
        ensures disks { self.new.disks ≡ self.old.disks }
    {
        let me = self.worker.me;
        let worker = &mut self.worker;
        fetch(
            rt,
            &wires.rings[me as usize],
            &mut self.passes.take,
            &mut worker.log,
            &mut worker.links.queues,
            me,
        )?;
        Ok(())
    }

    // The thread's turn begins while the clock tells this moment (microseconds).
    fn begin(&mut self, now: u64)
        ensures begun { self.new ≡ begun_seat now self.old }
        ensures disks { self.new.disks ≡ self.old.disks }
    {
        self.worker.thread.begin(now);
    }

    // What is in its queues to others goes into their rings.
    fn send<W: Wait>(&mut self, rt: &W, wires: &Wires) -> Result<(), SeatError>
        requires { IsSitting D.state wires.now self.old }
        ensures goes { OnOk result (Continues D.state wires.now self.old self.new) }
        ensures entries { OnOk result (HasSameEntries self.old self.new) }
        ensures went { OnOk result (Sends self.old self.new) }
        ensures cause { IfErr result (λ error. HasCause error self.new.worker) }
        ensures disks { self.new.disks ≡ self.old.disks }
    {
        let me = self.worker.me;
        let worker = &mut self.worker;
        flush_all(
            rt,
            wires.rings.as_slice(),
            &mut self.passes.sends,
            &mut worker.links.queues,
            me as usize,
            worker.log.last(),
        )?;
        Ok(())
    }

    // A turn with the registry, where it is in its slot; the turn began.
    fn borrow<W: Wait>(
        &mut self,
        rt: &W,
        alloc: Global,
        wires: &Wires,
    ) -> Result<Option<Turned>, SeatError>
        requires sits { IsSitting D.state wires.now self.old }
        requires begun { HasBegun self.old.worker.thread }
        ensures goes { OnOk result (Continues D.state wires.now self.old self.new) }
        ensures time { OnOk result (SeatHasSameTime self.old self.new) }
        ensures turned { IfOk result (TellsIfAny (made_by self.old) (made_by self.new)) }
        ensures quiet { IfOk result (IdlesIfLent self.old self.new) }
        ensures cause { IfErr result (λ error. HasCause error self.new.worker) }
        ensures kept { HasSameDisks D.state self.old self.new }
    {
        let Some(mut lent) = wires.slot.try_take(rt, &mut self.passes.slot) else {
            return Ok(None);
        };
        let turned = self
            .worker
            .work_with(alloc, &mut self.disks, &mut lent, self.seen)?;
        self.seen = lent.journal().len();
        wires.slot.give(rt, &mut self.passes.slot, lent);
        Ok(Some(turned))
    }

    // A turn without the registry; the turn began.
    fn work(&mut self, alloc: Global) -> Result<Turned, SeatError>
        requires works { IsWorking self.old.worker }
        requires begun { HasBegun self.old.worker.thread }
        ensures goes { OnOk result (KeepsOn D.state self.old self.new) }
        ensures time { OnOk result (SeatHasSameTime self.old self.new) }
        ensures turned { IfOk result (Tells (made_by self.old) (made_by self.new)) }
        ensures quiet { IfOk result (IdlesAlone self.old.worker self.new.worker) }
        ensures cause { IfErr result (λ error. HasCause error self.new.worker) }
        ensures passes { self.new.passes ≡ self.old.passes }
        ensures kept { HasSameDisks D.state self.old self.new }
    {
        self.worker.work(alloc, &mut self.disks)
    }

    // A turn with the registry, where the thread wants it and it is in its slot; else one without. The turn began.
    fn act<W: Wait>(&mut self, rt: &W, alloc: Global, wires: &Wires) -> Result<Turned, SeatError>
        requires sits { IsSitting D.state wires.now self.old }
        requires begun { HasBegun self.old.worker.thread }
        ensures goes { OnOk result (Continues D.state wires.now self.old self.new) }
        ensures time { OnOk result (SeatHasSameTime self.old self.new) }
        ensures turned { IfOk result (Tells (made_by self.old) (made_by self.new)) }
        ensures quiet { IfOk result (Idles self.old self.new) }
        ensures cause { IfErr result (λ error. HasCause error self.new.worker) }
        ensures kept { HasSameDisks D.state self.old self.new }
    {
        if !self.worker.wants_registry() {
            return self.work(alloc);
        }
        match self.borrow(rt, alloc, wires)? {
            Some(turned) => Ok(turned),
            None => self.work(alloc),
        }
    }

    /// A turn while the clock tells this moment (microseconds): what came in its ring, what the thread does, and what
    /// it put to others.
    pub fn turn<W: Wait>(
        &mut self,
        rt: &W,
        alloc: Global,
        wires: &Wires,
        now: u64,
    ) -> Result<Turned, SeatError>
        requires { IsSitting D.state wires.now self.old }
        ensures goes { OnOk result (Continues D.state wires.now self.old self.new) }
        ensures turned { IfOk result (Tells (made_by self.old) (made_by self.new)) }
        ensures quiet { IfOk result (QuietTurns now self.old self.new) }
        ensures cause { IfErr result (λ error. HasCause error self.new.worker) }
        ensures time { OnOk result (HadTurn now self.old.worker.thread self.new.worker.thread) }
        ensures kept { HasSameDisks D.state self.old self.new }
    {
        self.receive(rt, wires)?;
        self.begin(now);
        let turned = self.act(rt, alloc, wires)?;
        self.send(rt, wires)?;
        Ok(turned)
    }

    /// A turn in a round while the clock tells this moment (microseconds), unless the seat has to halt; true where it
    /// moved. What halts it is kept, and from then on nothing changes.
    pub fn step<W: Wait>(&mut self, rt: &W, alloc: Global, wires: &Wires, now: u64) -> bool
        requires { SitsOrHalts D.state wires.now self.old }
        ensures went { (range : Option Moments) → IsWithin range now → WentOn D.state wires.now range self.old self.new }
        ensures moved { self.new.halted ≡ None → HasMoved (made_by self.old) (made_by self.new) result }
    {
        if self.halted.is_some() {
            return false;
        }
        match self.turn(rt, alloc, wires, now) {
            Ok(turned) => has_moved(turned),
            Err(error) => {
                self.halted = Some(error);
                false
            }
        }
    }
}
