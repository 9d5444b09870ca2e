//! What a node does: its turns and rounds, its shutdown, and its end.
ghost use Rattle.std.specs.Prelude.{◌≡◌, ◌<◌, ◌≤◌, ◌+◌, List, Option, [], None, false, length, sum_by, vec_len, true, IfErr, IfOk, IsPermutation, OnErr, OnOk};
ghost use Rattle.std.specs.List.{list_all};
ghost use Rattle.bd_law_threads.specs.Steps.{first_phase};
ghost use Rattle.bd_log.specs.Merge.{IsMerge};
ghost use Rattle.bd_machine.specs.Run.{IsCompleteRun};
ghost use Rattle.bd_outside.specs.Clock.{Moments};
ghost use Rattle.bd_base.specs.declared.id.DevId.{DevId};
ghost use Rattle.bd_law_disks.specs.Told.{AreBasesLowest};
ghost use Rattle.bd_node.specs.Disks.{disks_of, told_of, SaysOfDisks};
ghost use Rattle.bd_node.specs.Schedule.{advance, advance_by};
ghost use Rattle.bd_worker.specs.Seats.{made_by, HasMoved, Tells};
ghost use Rattle.bd_node.specs.Shutting.{AddsShutdown};
ghost use Rattle.bd_node.specs.Times.{AreHoldsWithin, AreMomentsWithin, AreStartsWithin, HaveTimesWithin, KeepsTimes};
ghost use Rattle.bd_node.specs.Waits.{TurnsQuietly};
ghost use Rattle.bd_report.specs.Stats.{stats_of};
ghost use Rattle.bd_node.specs.Whole.{disks_in, AreSeated, HasAllDisks, HasSameFlag, HasSameLogs, KeepsDisks, HasSameSetup, IsNode, IsNodeOf, MakesMore, are_all_taken, entries_left, entries_made, halt_of, has_taken, is_spent, is_at_rest, is_idle, is_over, logs_of, past_of, seat_goes, seat_has_destructed, seat_has_stamps, seat_is_blocked, seat_is_done, seat_rests, seed_of, setup_in, state_of};

use crate::building::{abandon_all, seats_of};
use crate::crew::Watch;
use crate::ending::{learn_all, take_all_apart};
use crate::gathering::greatest;
use crate::history::{History, Played};
use crate::node::{Node, NodeState};
use crate::outside::Outside;
use crate::schedule::Schedule;
use crate::sharing::{Deal, turn_all};
use bd_base::{OutOfMemory, Rows, Setup};
use bd_disks::Shelf;
use bd_outside::{Clock, Disk, Gate};
use bd_registry::Registry;
use bd_report::counter::Counter;
use bd_report::stats::Stats;
use bd_seat::SeatError;
use bd_thread::Turned;
use bd_wires::{Wires, connect, disconnect};
use bd_worker::{Seat, has_moved};
use std::alloc::Global;
use std::sync::Wait;
use std::thread::Threads;

/// How many turns a round by the schedule has.
const TURNS: u32 = 256;

fn all_rest<'a, D>(seats: &[Seat<'a, D>]) -> bool
    ensures { result ≡ list_all seat_rests seats.now }
{
    seats
        .iter()
        .all(|seat| seat.worker.thread.rests(&seat.worker.links))
}

fn are_all_done<'a, D>(seats: &[Seat<'a, D>]) -> bool
    ensures { result ≡ list_all seat_is_done seats.now }
{
    seats.iter().all(|seat| seat.worker.thread.is_done())
}

// Whether nothing goes on by itself on any thread but holds, lines of limited devices, and scripts.
fn all_rest_but_for_time<'a, D>(seats: &[Seat<'a, D>]) -> bool {
    seats.iter().all(|seat| { seat.worker.thread.rests_but_for_time(&seat.worker.links) })
}

fn are_all_blocked<'a, D>(seats: &[Seat<'a, D>]) -> bool
    ensures { result ≡ list_all seat_is_blocked seats.now }
{
    seats
        .iter()
        .all(|seat| seat.worker.thread.is_blocked(&seat.worker.links))
}

fn have_all_destructed<'a, D>(seats: &[Seat<'a, D>]) -> bool
    ensures { result ≡ list_all seat_has_destructed seats.now }
{
    seats
        .iter()
        .all(|seat| seat.worker.thread.has_destructed_all())
}

// Whether each message that one thread put to the other was taken.
fn has_taken<'a, D>(from: &Seat<'a, D>, to: &Seat<'a, D>) -> bool
    ensures { result ≡ has_taken from.now to.now }
{
    let put = from.worker.thread.put_count(to.worker.me);
    put == to.worker.thread.taken_count(from.worker.me)
}

// Whether each message of this thread was taken.
fn are_taken_from<'a, D>(from: &Seat<'a, D>, seats: &[Seat<'a, D>]) -> bool
    ensures { result ≡ list_all (λ to. has_taken from.now to) seats.now }
{
    seats.iter().all(|to| has_taken(from, to))
}

fn are_all_taken<'a, D>(seats: &[Seat<'a, D>]) -> bool
    ensures { result ≡ are_all_taken seats.now }
{
    seats.iter().all(|from| are_taken_from(from, seats))
}

// Whether no seat has to halt.
fn all_go<'a, D>(seats: &[Seat<'a, D>]) -> bool
    ensures { result ≡ list_all seat_goes seats.now }
{
    seats.iter().all(|seat| seat.halted.is_none())
}

// Whether no thread's stamps are spent.
fn all_have_stamps<'a, D>(seats: &[Seat<'a, D>]) -> bool
    ensures { result ≡ list_all seat_has_stamps seats.now }
{
    seats.iter().all(|seat| !is_spent(seat.halted))
}

// Why seats have to halt, where some have to: a thread's stamps are spent, or there was no memory.
fn halt_of<'a, D>(seats: &[Seat<'a, D>]) -> SeatError
    ensures { result ≡ halt_of seats.now }
{
    if all_have_stamps(seats) {
        SeatError::OutOfMemory
    } else {
        SeatError::StampsSpent
    }
}

fn is_spent(halted: Option<SeatError>) -> bool
    ensures { result ≡ is_spent halted }
{
    matches!(halted, Some(SeatError::StampsSpent))
}

// The lesser of two numbers of microseconds, of which the first may be missing.
fn lesser(least: Option<u64>, micros: u64) -> u64 {
    match least {
        Some(least) => least.min(micros),
        None => micros,
    }
}

// The threads of a setup before any entry, each with the disks at its place of the shelf, and what they share.
fn seat_all<'a, R: Wait, D: Disk>(
    rt: &R,
    alloc: Global,
    setup: &'a Setup,
    shelf: &mut Shelf<D>,
) -> Result<(Wires, Vec<Seat<'a, D>>), OutOfMemory>
    requires some { 0 < setup.now.threads }
    requires disks { length shelf.old.items ≡ setup.now.threads }
    requires room { setup.now.threads ≤ shelf.old.capacity }
    ensures seated { IfOk result (λ made. AreSeated D.state setup.now made.0 shelf.old.items (past_of 0 []) made.1.items false
        (first_phase setup.now (told_of D.state setup.now shelf.old.items))) }
    ensures times { IfOk result (λ made. (range : Option Moments) → HaveTimesWithin range made.1.items) }
    ensures none { IfOk result (λ made. sum_by made_by made.1.items ≡ 0) }
    ensures disks { IfOk result (λ made. disks_of made.1.items ≡ shelf.old.items) }
    ensures empty { IfOk result (λ _made. shelf.new.items ≡ []) }
    ensures room { IfOk result (λ made. vec_len made.1 + length shelf.new.items ≤ shelf.new.capacity) }
    ensures kept { OnErr result (IsPermutation shelf.old.items shelf.new.items) }
{
    let registry = Registry::of(alloc, setup)?;
    let (wires, passes) = connect(rt, alloc, registry, setup.threads)?;
    let seats = seats_of(alloc, setup, passes, shelf)?;
    Ok((wires, seats))
}

impl<'a, D: Disk> Node<'a, D> {
    /// A node whose threads did nothing yet, with the schedule of this seed. The disks are those of each thread, in
    /// the order of the threads' numbers; out of memory gives them back, in some order.
    pub fn build<R: Wait>(
        rt: &R,
        alloc: Global,
        setup: &'a Setup,
        disks: Shelf<D>,
        seed: u64,
    ) -> Result<Node<'a, D>, (OutOfMemory, Shelf<D>)>
        requires some { 0 < setup.now.threads }
        requires disks { length disks.items ≡ setup.now.threads }
        requires room { setup.now.threads ≤ disks.capacity }
        ensures node { IfOk result (IsNode D.state) }
        ensures opened { IfOk result (IsNodeOf D.state disks.items) }
        ensures times { IfOk result (λ node. (range : Option Moments) → HaveTimesWithin range node.seats.items) }
        ensures setup { IfOk result (λ node. setup_in node ≡ setup.now) }
        ensures seed { IfOk result (λ node. seed_of node ≡ seed) }
        ensures none { IfOk result (λ node. entries_made node ≡ 0) }
        ensures disks { IfOk result (λ node. disks_of node.seats.items ≡ disks.items) }
        ensures shelf { IfOk result (λ node. node.shelf.items ≡ []) }
        ensures kept { IfErr result (λ error. IsPermutation disks.items error.1.items) }
    {
        let Ok(counter) = Counter::new(alloc, setup) else {
            return Err((OutOfMemory, disks));
        };
        let mut shelf = disks;
        match seat_all(rt, alloc, setup, &mut shelf) {
            Ok((wires, seats)) => Ok(Node {
                alloc,
                setup,
                wires,
                seats,
                schedule: Schedule { state: seed },
                shut: false,
                rounds: 0,
                trace: Vec::new(alloc),
                counter,
                shelf,
            }),
            Err(OutOfMemory) => Err((OutOfMemory, shelf)),
        }
    }

    /// A turn of a thread, whose moment the clock tells; quiet where there is no such thread.
    pub fn turn_of<R: Wait, C: Clock>(
        &mut self,
        rt: &R,
        thread: u32,
        clock: &C,
    ) -> Result<Turned, SeatError>
        requires { IsNode D.state self.old }
        ensures node { OnOk result (IsNode D.state self.new) }
        ensures setup { OnOk result (HasSameSetup self.old self.new) }
        ensures flag { OnOk result (HasSameFlag self.old self.new) }
        ensures schedule { OnOk result (seed_of self.new ≡ seed_of self.old) }
        ensures turned { IfOk result (Tells (entries_made self.old) (entries_made self.new)) }
        ensures quiet { IfOk result (TurnsQuietly (C.range clock.now) thread self.old self.new) }
        ensures none { (setup_in self.old).threads ≤ thread → OnOk result (self.new ≡ self.old) }
        ensures disks { OnOk result (KeepsDisks D.state self.old self.new) }
        ensures times { OnOk result (KeepsTimes (C.range clock.now) self.old self.new) }
        ensures kept { HasAllDisks D.state self.old self.new }
    {
        let place = thread as usize;
        if place >= self.seats.len() {
            return Ok(Turned::Quiet);
        }
        let now = clock.now();
        let seat = &mut self.seats[place];
        seat.turn(rt, self.alloc, &self.wires, now)
    }

    // The next turn by the schedule; whether it moved.
    fn next_turn<R: Wait, C: Clock>(&mut self, rt: &R, clock: &C) -> Result<bool, SeatError>
        requires { IsNode D.state self.old }
        ensures node { OnOk result (IsNode D.state self.new) }
        ensures setup { OnOk result (HasSameSetup self.old self.new) }
        ensures flag { OnOk result (HasSameFlag self.old self.new) }
        ensures schedule { OnOk result (seed_of self.new ≡ advance (seed_of self.old)) }
        ensures disks { OnOk result (KeepsDisks D.state self.old self.new) }
        ensures times { OnOk result (KeepsTimes (C.range clock.now) self.old self.new) }
        ensures kept { HasAllDisks D.state self.old self.new }
        ensures moved { IfOk result (HasMoved (entries_made self.old) (entries_made self.new)) }
    {
        let thread = self.schedule.next(self.setup.threads);
        let turned = self.turn_of(rt, thread, clock)?;
        Ok(has_moved(turned))
    }

    // 256 turns by the schedule. True where some turn moved.
    fn turn_by_schedule<R: Wait, C: Clock>(&mut self, rt: &R, clock: &C) -> Result<bool, SeatError>
        requires { IsNode D.state self.old }
        ensures node { OnOk result (IsNode D.state self.new) }
        ensures setup { OnOk result (HasSameSetup self.old self.new) }
        ensures flag { OnOk result (HasSameFlag self.old self.new) }
        ensures schedule { OnOk result (seed_of self.new ≡ advance_by 256 (seed_of self.old)) }
        ensures disks { OnOk result (KeepsDisks D.state self.old self.new) }
        ensures times { OnOk result (KeepsTimes (C.range clock.now) self.old self.new) }
        ensures kept { HasAllDisks D.state self.old self.new }
        ensures moved { IfOk result (HasMoved (entries_made self.old) (entries_made self.new)) }
    {
        let mut moved = false;
        for _ in 0..TURNS {
            let turned = self.next_turn(rt, clock)?;
            moved = moved || turned;
        }
        Ok(moved)
    }

    /// 256 turns by the schedule, which goes on from call to call, and then what they did is gathered. For each turn the
    /// clock is asked once. True where some turn moved.
    pub fn round_by<R: Wait, C: Clock>(&mut self, rt: &R, clock: &C) -> Result<bool, SeatError>
        requires { IsNode D.state self.old }
        ensures node { OnOk result (IsNode D.state self.new) }
        ensures setup { OnOk result (HasSameSetup self.old self.new) }
        ensures flag { OnOk result (HasSameFlag self.old self.new) }
        ensures schedule { OnOk result (seed_of self.new ≡ advance_by 256 (seed_of self.old)) }
        ensures disks { OnOk result (KeepsDisks D.state self.old self.new) }
        ensures times { OnOk result (KeepsTimes (C.range clock.now) self.old self.new) }
        ensures moved { IfOk result (HasMoved (entries_made self.old) (entries_made self.new)) }
        ensures gathered { OnOk result (entries_left self.new ≡ 0) }
        ensures kept { HasAllDisks D.state self.old self.new }
    {
        let moved = self.turn_by_schedule(rt, clock)?;
        self.gather()?;
        Ok(moved)
    }
}

impl<'a, D: Disk + Send> Node<'a, D> {
    // Each seat has its turns of a round, by this number of reactors.
    fn turn_in_round<R: Threads + Wait + Sync, C: Clock + Sync, G: Gate + Sync>(
        &mut self,
        rt: &R,
        reactors: u32,
        outside: &Outside<C, G>,
    ) -> Result<(), SeatError>
        requires { IsNode D.state self.old }
        ensures node { OnOk result (IsNode D.state self.new) }
        ensures setup { OnOk result (HasSameSetup self.old self.new) }
        ensures flag { OnOk result (HasSameFlag self.old self.new) }
        ensures schedule { OnOk result (seed_of self.new ≡ seed_of self.old) }
        ensures disks { OnOk result (KeepsDisks D.state self.old self.new) }
        ensures times { OnOk result (KeepsTimes (C.range outside.now.clock.now) self.old self.new) }
        ensures made { OnOk result (MakesMore self.old self.new) }
        ensures kept { HasAllDisks D.state self.old self.new }
    {
        self.rounds = self.rounds.saturating_add(1);
        let deal = Deal::of(self.setup.threads, reactors);
        let watch = Watch::new(outside, self.rounds, deal);
        turn_all(
            rt,
            self.alloc,
            &self.wires,
            &watch,
            deal,
            self.seats.as_mut_slice(),
        );
        if all_go(self.seats.as_slice()) {
            Ok(())
        } else {
            Err(halt_of(self.seats.as_slice()))
        }
    }

    /// A round: this number of reactors (from 1 on; else one) share the threads round-robin, of N reactors number
    /// r has those whose number is r modulo N. No reactor has more than (threads / reactors, rounded up): the last
    /// may have fewer, and some none. Where there are more than one they run in parallel, if the system has
    /// threads for them. A reactor goes over its threads, a turn each, and after each that moved one more for the
    /// first, until none of them moved in a pass while no other reactor was at work, or until 64 turns moved something
    /// and that pass ended. Before each turn it passes the gate, and then asks the clock once for the turn's moment.
    /// Then what they did is gathered. True where some turn moved.
    pub fn round<R: Threads + Wait + Sync, C: Clock + Sync, G: Gate + Sync>(
        &mut self,
        rt: &R,
        reactors: u32,
        outside: &Outside<C, G>,
    ) -> Result<bool, SeatError>
        requires { IsNode D.state self.old }
        ensures node { OnOk result (IsNode D.state self.new) }
        ensures setup { OnOk result (HasSameSetup self.old self.new) }
        ensures flag { OnOk result (HasSameFlag self.old self.new) }
        ensures schedule { OnOk result (seed_of self.new ≡ seed_of self.old) }
        ensures disks { OnOk result (KeepsDisks D.state self.old self.new) }
        ensures times { OnOk result (KeepsTimes (C.range outside.now.clock.now) self.old self.new) }
        ensures moved { IfOk result (HasMoved (entries_made self.old) (entries_made self.new)) }
        ensures gathered { OnOk result (entries_left self.new ≡ 0) }
        ensures kept { HasAllDisks D.state self.old self.new }
    {
        let before = self.entries_left()?;
        self.turn_in_round(rt, reactors, outside)?;
        let after = self.entries_left()?;
        self.gather()?;
        Ok(before < after)
    }
}

impl<'a, D> Node<'a, D> {
    fn is_at_rest(&self) -> bool
        ensures { result ≡ is_at_rest self.now }
    {
        all_rest(self.seats.as_slice()) && are_all_taken(self.seats.as_slice())
    }

    fn is_idle(&self) -> bool
        ensures { result ≡ is_idle self.now }
    {
        self.is_at_rest() && are_all_blocked(self.seats.as_slice())
    }

    /// For how many microseconds all that is left waits for time alone, from about this moment on: nothing is under way
    /// but requests that are held, kept without an answer, or wait in the line of a limited device, no thread is shut
    /// down, and each thread whose script isn't blocked sleeps: the least time until a hold, a timeslice or a sleep
    /// ends. None where something else may go on. It is a hint for who waits between rounds, and asks no clock.
    pub(crate) fn waits_for(&self) -> Option<u64> {
        let seats = self.seats.as_slice();
        if self.shut || !all_rest_but_for_time(seats) || !are_all_taken(seats) {
            return None;
        }
        let mut least = None;
        for seat in seats {
            let worker = &seat.worker;
            if let Some(micros) = worker.thread.held_for() {
                least = Some(lesser(least, micros));
            }
            if let Some(micros) = worker.thread.softened_for() {
                least = Some(lesser(least, micros));
            }
            if let Some(micros) = worker.thread.limited_for() {
                least = Some(lesser(least, micros));
            }
            if !worker.thread.is_blocked(&worker.links) {
                let micros = worker.thread.sleeps_for(&worker.links)?;
                least = Some(lesser(least, micros));
            }
        }
        least
    }

    fn is_over(&self) -> bool
        ensures { result ≡ is_over self.now }
    {
        are_all_done(self.seats.as_slice())
            && are_all_taken(self.seats.as_slice())
            && have_all_destructed(self.seats.as_slice())
    }

    /// How far the node is.
    pub fn state(&self) -> NodeState
        ensures { result ≡ state_of self.now }
    {
        if self.shut {
            if self.is_over() {
                NodeState::Done
            } else {
                NodeState::Busy
            }
        } else if self.is_idle() {
            NodeState::Idle
        } else {
            NodeState::Busy
        }
    }
}

impl<'a, D: Disk> Node<'a, D> {
    /// Thread 0 shuts down, with a stamp above all others, and each other thread learns of it.
    pub fn shut<R: Wait>(&mut self, rt: &R) -> Result<(), SeatError>
        requires node { IsNode D.state self.old }
        requires idle { state_of self.old ≡ NodeState.Idle }
        ensures node { OnOk result (IsNode D.state self.new) }
        ensures setup { OnOk result (HasSameSetup self.old self.new) }
        ensures shut { OnOk result (self.new.shut ≡ true) }
        ensures logs { OnOk result (AddsShutdown self.old self.new) }
        ensures disks { OnOk result (KeepsDisks D.state self.old self.new) }
        ensures times { OnOk result ((range : Option Moments) → KeepsTimes range self.old self.new) }
        ensures kept { HasAllDisks D.state self.old self.new }
    {
        let above = greatest(self.seats.as_slice());
        let first = &mut self.seats[0];
        let stamp = first.shut(rt, self.alloc, &self.wires, above)?;
        learn_all(self.seats.as_mut_slice(), stamp);
        self.shut = true;
        Ok(())
    }

    /// The history of a run that is complete, with its statistics: all that the threads did, merged by stamp and
    /// thread. The disks are given back, also where there was no memory for the history.
    pub fn settle<R: Wait>(self, rt: &R) -> (Result<Played, OutOfMemory>, Shelf<D>)
        requires node { IsNode D.state self }
        requires done { state_of self ≡ NodeState.Done }
        ensures merged { IfOk result.0 (λ run. IsMerge (logs_of self.entry) run.history) }
        ensures counted { IfOk result.0 (λ run. run.stats ≡ stats_of (setup_in self.entry) run.history) }
        ensures complete { (starts : List (List (DevId × D))) → IsNodeOf D.state starts self.entry → AreBasesLowest (setup_in self.entry)
            → IfOk result.0 (λ run. IsCompleteRun (setup_in self.entry) (told_of D.state (setup_in self.entry) starts) run.history) }
        ensures disks { (starts : List (List (DevId × D))) → self.entry.shelf.items ≡ []
            → IsNodeOf D.state starts self.entry → AreBasesLowest (setup_in self.entry)
            → IfOk result.0 (λ run. SaysOfDisks D.state (setup_in self.entry) run.history starts result.1.items) }
        ensures moments { (range : Option Moments) → HaveTimesWithin range self.entry.seats.items → IfOk result.0 (λ run. AreMomentsWithin range run.history) }
        ensures holds { (range : Option Moments) → HaveTimesWithin range self.entry.seats.items → AreBasesLowest (setup_in self.entry)
            → IfOk result.0 (λ run. AreHoldsWithin range (setup_in self.entry) run.history) }
        ensures starts { (range : Option Moments) → HaveTimesWithin range self.entry.seats.items → AreBasesLowest (setup_in self.entry)
            → IfOk result.0 (λ run. AreStartsWithin range run.history) }
        ensures kept { IsPermutation (disks_in self.entry) result.1.items }
    {
        let mut node = self;
        match node.gather_and_count() {
            Ok(stats) => node.end(rt, stats),
            Err(OutOfMemory) => (Err(OutOfMemory), node.abandon()),
        }
    }

    // What is still in the logs is gathered too; the statistics of all of it.
    fn gather_and_count(&mut self) -> Result<Stats, OutOfMemory>
        requires { IsNode D.state self.old }
        ensures node { OnOk result (IsNode D.state self.new) }
        ensures same { OnOk result (HasSameLogs self.old self.new) }
        ensures disks { OnOk result (KeepsDisks D.state self.old self.new) }
        ensures times { OnOk result ((range : Option Moments) → KeepsTimes range self.old self.new) }
        ensures left { OnOk result (entries_left self.new ≡ 0) }
        ensures stats { IfOk result (λ stats. stats ≡ stats_of (setup_in self.new) self.new.trace.items) }
        ensures kept { disks_in self.new ≡ disks_in self.old }
    {
        self.gather()?;
        self.counter.stats()
    }

    // The history of a complete run of which all is gathered, with these statistics.
    fn end<R: Wait>(self, rt: &R, stats: Stats) -> (Result<Played, OutOfMemory>, Shelf<D>)
        requires node { IsNode D.state self }
        requires done { state_of self ≡ NodeState.Done }
        requires left { entries_left self ≡ 0 }
        ensures history { IfOk result.0 (λ run. run.history ≡ self.entry.trace.items) }
        ensures stats { IfOk result.0 (λ run. run.stats ≡ stats) }
        ensures complete { (starts : List (List (DevId × D))) → IsNodeOf D.state starts self.entry → AreBasesLowest (setup_in self.entry)
            → IfOk result.0 (λ run. IsCompleteRun (setup_in self.entry) (told_of D.state (setup_in self.entry) starts) run.history) }
        ensures disks { (starts : List (List (DevId × D))) → self.entry.shelf.items ≡ []
            → IsNodeOf D.state starts self.entry → AreBasesLowest (setup_in self.entry)
            → IfOk result.0 (λ run. SaysOfDisks D.state (setup_in self.entry) run.history starts result.1.items) }
        ensures moments { (range : Option Moments) → HaveTimesWithin range self.entry.seats.items → IfOk result.0 (λ run. AreMomentsWithin range run.history) }
        ensures holds { (range : Option Moments) → HaveTimesWithin range self.entry.seats.items → AreBasesLowest (setup_in self.entry)
            → IfOk result.0 (λ run. AreHoldsWithin range (setup_in self.entry) run.history) }
        ensures starts { (range : Option Moments) → HaveTimesWithin range self.entry.seats.items → AreBasesLowest (setup_in self.entry)
            → IfOk result.0 (λ run. AreStartsWithin range run.history) }
        ensures kept { IsPermutation (disks_in self.entry) result.1.items }
    {
        let Node {
            alloc,
            setup: _,
            wires,
            seats,
            schedule: _,
            shut: _,
            rounds: _,
            trace,
            counter: _,
            shelf,
        } = self;
        let mut shelf = shelf;
        let passes = match take_all_apart(alloc, seats, &mut shelf) {
            Ok(taken) => taken,
            Err(OutOfMemory) => return (Err(OutOfMemory), shelf),
        };
        let registry = disconnect(rt, wires, passes);
        let _journal = registry.journal();
        let history = History::of(Rows::from_vec(trace));
        (Ok(Played { history, stats }), shelf)
    }
}

impl<'a, D> Node<'a, D> {
    /// Abandons every ticket, where the run halts, and gives the disks back, in some order.
    pub fn abandon(self) -> Shelf<D>
        ensures { IsPermutation (disks_in self.entry) result.items }
    {
        let Node {
            alloc: _,
            setup: _,
            wires: _,
            seats,
            schedule: _,
            shut: _,
            rounds: _,
            trace: _,
            counter: _,
            shelf,
        } = self;
        let mut shelf = shelf;
        abandon_all(seats, &mut shelf);
        shelf
    }
}
