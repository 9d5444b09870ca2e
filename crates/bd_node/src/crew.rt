//! A reactor's turns in a round: its seats have turns until all reactors are quiet at the same moment.
ghost use Rattle.std.specs.Prelude.{◌≡◌, ◌<◌, All, length};
ghost use Rattle.bd_worker.specs.Seats.{AllWentOn, SitsOrHalts};

use crate::outside::Outside;
use crate::sharing::Deal;
use bd_outside::{Clock, Disk, Gate};
use bd_wires::Wires;
use bd_worker::Seat;
use std::alloc::Global;
use std::sync::Wait;
use std::sync::atomic::{AtomicU32, Ordering};
use std::thread;

/// After how many turns that moved something a reactor ends a round, once it has ended its pass: what a round did is in
/// the logs until its end, so a round is short, and it is no longer for a reactor with more seats.
const MOVES: u32 = 64;

/// What the reactors of a round share: the gate that they pass and the clock that they ask, how threads are dealt to
/// them, and how many of them are at work.
#[derive(Drop)]
pub(crate) struct Watch<'g, C, G> {
    outside: &'g Outside<'g, C, G>,
    round: u64,
    deal: Deal,
    working: AtomicU32,
}

impl<'g, C: Clock, G: Gate> Watch<'g, C, G> {
    /// Before the reactors of the round begin.
    pub fn new(outside: &'g Outside<'g, C, G>, round: u64, deal: Deal) -> Self
        ensures { result.outside.now ≡ outside.now }
    {
        Watch {
            outside,
            round,
            deal,
            working: AtomicU32::new(0),
        }
    }

    // The reactor to which these seats are dealt.
    fn reactor_of<D>(&self, seats: &[Seat<D>]) -> u32 {
        match seats {
            [] => 0,
            [first, ..] => self.deal.place(first.worker.me).0,
        }
    }

    // Whether no reactor is at work: each that began a round made a quiet pass since it last moved.
    fn is_quiet(&self) -> bool {
        self.working.load(Ordering::SeqCst) == 0
    }
}

// One reactor in a round.
#[derive(Drop)]
struct Crew<'w, 'g, C, G> {
    watch: &'w Watch<'g, C, G>,
    reactor: u32,
    // how many turns it gave, and in how many of them something moved
    turns: u32,
    moves: u32,
    // whether it is counted among those at work
    working: bool,
}

impl<'w, 'g, C: Clock, G: Gate> Crew<'w, 'g, C, G> {
    fn begin(&mut self)
        ensures { self.new.watch ≡ self.old.watch }
    {
        if !self.working {
            self.watch.working.fetch_add(1, Ordering::SeqCst);
            self.working = true;
        }
    }

    fn rest(&mut self)
        ensures { self.new.watch ≡ self.old.watch }
    {
        if self.working {
            self.watch.working.fetch_sub(1, Ordering::SeqCst);
            self.working = false;
        }
    }

    // A turn of the seat at this place, before which the reactor passes the gate; its moment is what the clock tells
    // then. True where it moved: the reactor is at work from then on.
    fn turn<W: Wait, D: Disk>(
        &mut self,
        rt: &W,
        alloc: Global,
        wires: &Wires,
        seats: &mut [Seat<D>],
        place: usize,
    ) -> bool
        requires within { place < length seats.old }
        requires sit { All (SitsOrHalts D.state wires.now) seats.old }
        ensures seats { AllWentOn D.state wires.now (C.range self.old.watch.now.outside.now.clock.now) seats.old seats.new }
        ensures watch { self.new.watch ≡ self.old.watch }
    {
        self.turns = self.turns.saturating_add(1);
        let watch = self.watch;
        watch
            .outside
            .gate
            .pass(self.reactor, watch.round, self.turns);
        let now = watch.outside.clock.now();
        let moved = seats[place].step(rt, alloc, wires, now);
        if moved {
            self.begin();
            self.moves = self.moves.saturating_add(1);
        }
        moved
    }

    // A turn of the seat at this place, and where it moved one more of the first. True where it moved.
    fn turn_then_first<W: Wait, D: Disk>(
        &mut self,
        rt: &W,
        alloc: Global,
        wires: &Wires,
        seats: &mut [Seat<D>],
        place: usize,
    ) -> bool
        requires within { place < length seats.old }
        requires sit { All (SitsOrHalts D.state wires.now) seats.old }
        ensures seats { AllWentOn D.state wires.now (C.range self.old.watch.now.outside.now.clock.now) seats.old seats.new }
        ensures watch { self.new.watch ≡ self.old.watch }
    {
        let moved = self.turn(rt, alloc, wires, seats, place);
        if moved {
            self.turn(rt, alloc, wires, seats, 0);
        }
        moved
    }

    // A pass: each seat has a turn, and after each that moved the first has one more. A device's home is the thread
    // of its number, so where a home is among them it is mostly the first, and pieces there don't wait for a pass.
    fn pass<W: Wait, D: Disk>(
        &mut self,
        rt: &W,
        alloc: Global,
        wires: &Wires,
        seats: &mut [Seat<D>],
    ) -> bool
        requires { All (SitsOrHalts D.state wires.now) seats.old }
        ensures seats { AllWentOn D.state wires.now (C.range self.old.watch.now.outside.now.clock.now) seats.old seats.new }
        ensures watch { self.new.watch ≡ self.old.watch }
    {
        let mut moved = false;
        for place in 0..seats.len() {
            let turned = self.turn_then_first(rt, alloc, wires, seats, place);
            moved = moved || turned;
        }
        moved
    }

    // A pass; true where the round goes on for the reactor after it.
    fn pass_once<W: Wait, D: Disk>(
        &mut self,
        rt: &W,
        alloc: Global,
        wires: &Wires,
        seats: &mut [Seat<D>],
    ) -> bool
        requires { All (SitsOrHalts D.state wires.now) seats.old }
        ensures seats { AllWentOn D.state wires.now (C.range self.old.watch.now.outside.now.clock.now) seats.old seats.new }
        ensures watch { self.new.watch ≡ self.old.watch }
    {
        if self.pass(rt, alloc, wires, seats) {
            return self.moves < MOVES;
        }
        self.rest();
        thread::yield_now();
        !self.watch.is_quiet()
    }

    // Passes, as long as the round goes on.
    fn work<W: Wait, D: Disk>(
        &mut self,
        rt: &W,
        alloc: Global,
        wires: &Wires,
        seats: &mut [Seat<D>],
    )
        requires { All (SitsOrHalts D.state wires.now) seats.old }
        ensures { AllWentOn D.state wires.now (C.range self.old.watch.now.outside.now.clock.now) seats.old seats.new }
    {
        for _ in rt.forever() {
            if !self.pass_once(rt, alloc, wires, seats) {
                return;
            }
        }
        unreachable!()
    }
}

/// The turns that a reactor gives its seats in a round: it goes over all of them, until none moved in a pass
/// while no other reactor was at work, or until 64 turns in which something moved, and the end of that pass. It gives
/// turns also while it has nothing to do itself and others have, so that what they send is taken at once.
pub(crate) fn give_turns<W: Wait, C: Clock, G: Gate, D: Disk>(
    rt: &W,
    alloc: Global,
    wires: &Wires,
    watch: &Watch<C, G>,
    seats: &mut [Seat<D>],
)
    requires { All (SitsOrHalts D.state wires.now) seats.old }
    ensures { AllWentOn D.state wires.now (C.range watch.now.outside.now.clock.now) seats.old seats.new }
{
    let mut crew = Crew {
        watch,
        reactor: watch.reactor_of(seats),
        turns: 0,
        moves: 0,
        working: false,
    };
    crew.begin();
    crew.work(rt, alloc, wires, seats);
    crew.rest();
}
