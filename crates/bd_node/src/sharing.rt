//! How reactors share the threads of a node.
ghost use Rattle.std.specs.Prelude.{◌≡◌, ◌<◌, ◌≤◌, true, All, IsPermutation, length, sum_by};
ghost use Rattle.std.specs.List.{list_all};
ghost use Rattle.std.specs.List.Sorted.{IsNonDecreasingBy};
ghost use Rattle.bd_disks.specs.Shelf.{AreAllThere};
ghost use Rattle.bd_node.specs.Disks.{disks_of};
ghost use Rattle.bd_worker.specs.Seats.{made_by, AllWentOn, IsSitting, number_in};
ghost use Rattle.bd_node.specs.Times.{StayWithin};
ghost use Rattle.bd_node.specs.Whole.{seat_goes, StaySeated};

use crate::crew::{Watch, give_turns};
use bd_outside::{Clock, Disk, Gate};
use bd_wires::Wires;
use bd_worker::Seat;
use std::alloc::Global;
use std::sync::Wait;
use std::thread::{self, Threads};

/// How threads are dealt to reactors: by turns, so that number r of N has the threads whose number is r modulo N.
/// No reactor has more than (threads / reactors, rounded up); where the last then has fewer, the threads that are
/// left are dealt to the others by turns.
#[derive(Clone, Copy, PartialEq, Eq)]
pub(crate) struct Deal {
    /// How many threads a reactor has, at least one; the last may have fewer.
    pub each: u32,
    /// How many reactors there are.
    reactors: u32,
    /// How many threads the last of them has.
    common: u32,
}

impl Deal {
    pub fn of(threads: u32, reactors: u32) -> Self
        ensures { 0 < result.each }
    {
        let each = threads.div_ceil(reactors.max(1)).max(1);
        let reactors = threads.div_ceil(each).max(1);
        let others = each.saturating_mul(reactors - 1);
        Deal {
            each,
            reactors,
            common: threads.saturating_sub(others),
        }
    }

    /// The reactor of a thread, and how many it has before that one.
    pub fn place(&self, thread: u32) -> (u32, u32) {
        let all = self.reactors.max(1);
        let dealt = all.saturating_mul(self.common);
        if thread < dealt || all == 1 {
            return (thread % all, thread / all);
        }
        let left = thread - dealt;
        let others = all - 1;
        (left % others, self.common.saturating_add(left / others))
    }
}

// The seats of the first reactor come first, then those of the next.
fn deal_out<'a, D>(deal: &Deal, seats: &mut [Seat<'a, D>])
    ensures { IsPermutation seats.old seats.new }
{
    seats.sort_unstable_by_key(|seat| deal.place(seat.worker.me));
}

// The seats in the order of their numbers.
fn gather<'a, D>(seats: &mut [Seat<'a, D>])
    ensures same { IsPermutation seats.old seats.new }
    ensures sorted { IsNonDecreasingBy number_in seats.new }
{
    seats.sort_unstable_by_key(|seat| seat.worker.me);
}

// Each reactor gives its seats their turns: each has this number of neighbours, the last the rest.
fn turn_each<R: Threads + Wait + Sync, C: Clock + Sync, G: Gate + Sync, D: Disk + Send>(
    rt: &R,
    alloc: Global,
    wires: &Wires,
    watch: &Watch<C, G>,
    each: usize,
    seats: &mut [Seat<D>],
)
    requires some { 0 < each }
    requires sits { All (IsSitting D.state wires.now) seats.old }
    ensures len { length seats.new ≡ length seats.old }
    ensures each { AllWentOn D.state wires.now (C.range watch.now.outside.now.clock.now) seats.old seats.new }
{
    thread::for_each_chunk_mut(
        rt,
        seats,
        each,
        &|_, crew: &mut [Seat<D>]| { give_turns(rt, alloc, wires, watch, crew) },
    );
}

/// Each seat has its turns of a round, by the reactor to which its thread is dealt.
pub(crate) fn turn_all<R: Threads + Wait + Sync, C: Clock + Sync, G: Gate + Sync, D: Disk + Send>(
    rt: &R,
    alloc: Global,
    wires: &Wires,
    watch: &Watch<C, G>,
    deal: Deal,
    seats: &mut [Seat<D>],
)
    requires some { 0 < deal.each }
    requires sits { All (IsSitting D.state wires.now) seats.old }
    ensures len { length seats.new ≡ length seats.old }
    ensures seats { StaySeated D.state wires.now seats.old seats.new }
    ensures times { StayWithin (C.range watch.now.outside.now.clock.now) seats.old seats.new }
    ensures grows { list_all seat_goes seats.new ≡ true → sum_by made_by seats.old ≤ sum_by made_by seats.new }
    ensures kept { AreAllThere D.state (disks_of seats.old) (disks_of seats.new) }
{
    deal_out(&deal, seats);
    turn_each(rt, alloc, wires, watch, deal.each as usize, seats);
    gather(seats);
}
