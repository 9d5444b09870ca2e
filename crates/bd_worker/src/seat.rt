//! A seat: a worker with its passes for the rings and the slot, and the disks of its thread.
ghost use Rattle.std.specs.Prelude.{◌≡◌, ◌≤◌, ◌<◌, ◌++◌, ◌∷◌, [], length};
ghost use Rattle.bd_log.specs.Log.{log_part};
ghost use Rattle.bd_worker.specs.Seats.{IsHandedOut};

use crate::worker::Worker;
use bd_disks::{Disks, Shelf};
use bd_log::LogPart;
use bd_seat::SeatError;
use bd_wires::Passes;

/// A thread of a setup with all that it has.
pub struct Seat<'a, D> {
    pub worker: Worker<'a>,
    /// Its passes for the rings and for the registry's slot.
    pub passes: Passes,
    /// How many rows of the registry's journal it saw.
    pub seen: usize,
    /// Why it has to halt, if it has.
    pub halted: Option<SeatError>,
    /// The disks of its thread's aio devices.
    pub disks: Disks<D>,
}

impl<'a, D> Seat<'a, D> {
    /// Its passes. Its disks go on the shelf, after the others, its tickets are abandoned, and all else is dropped.
    pub fn take_apart(self, shelf: &mut Shelf<D>) -> Passes
        requires { length shelf.old.items < shelf.old.capacity }
        ensures passes { result ≡ self.entry.passes }
        ensures disks { shelf.new.items ≡ shelf.old.items ++ self.entry.disks ∷ [] }
        ensures capacity { shelf.old.capacity ≤ shelf.new.capacity }
    {
        let Seat {
            worker,
            passes,
            seen: _,
            halted: _,
            disks,
        } = self;
        let Worker {
            me: _,
            thread,
            links: _,
            log: _,
        } = worker;
        thread.abandon();
        shelf.put(disks);
        passes
    }

    /// What is in its log, which meets this stamp, so that all that comes later is above it. The log is empty then, and takes
    /// memory for as many entries with the next ones.
    pub fn hand_out(&mut self, stamp: u128) -> LogPart
        requires { self.old.worker.log.last ≤ stamp }
        ensures handed { result ≡ log_part self.old.worker.log }
        ensures out { IsHandedOut stamp self.old self.new }
    {
        self.worker.log.meet(stamp);
        self.worker.log.hand_out()
    }
}
