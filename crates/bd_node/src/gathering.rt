//! What the threads of a node did, gathered: merged after the trace, counted, and gone from their logs.
ghost use Rattle.std.specs.Prelude.{◌≡◌, ◌≤◌, ◌+◌, ◌++◌, ℕ, Option, Some, All, [], length, map, max, sum_by, vec_len, vec_capacity, slice_get, IfOk, SomeIff, IsOk, OnOk, OnErr};
ghost use Rattle.bd_log.specs.Merge.{AreOfDifferentThreads};
ghost use Rattle.bd_node.specs.Gathering.{greatest_last, Gathers};
ghost use Rattle.bd_outside.specs.Clock.{Moments};
ghost use Rattle.bd_worker.specs.Seats.{part_in, IsHandedOut, made_by};
ghost use Rattle.bd_node.specs.Shutting.{IsUnchanged};
ghost use Rattle.bd_node.specs.Times.{KeepsTimes};
ghost use Rattle.bd_node.specs.Whole.{disks_in, CountsTheSame, HasSameLogs, IsNode, KeepsDisks, entries_left};

use crate::node::Node;
use bd_base::OutOfMemory;
use bd_log::{LogPart, merge_onto};
use bd_outside::Disk;
use bd_worker::Seat;

// The greater of two stamps.
fn greater(first: u128, second: u128) -> u128
    ensures { result ≡ max first second }
{
    if first < second { second } else { first }
}

/// The greatest of the logs' last stamps; 0 where there is no log.
pub(crate) fn greatest<'a, D>(seats: &[Seat<'a, D>]) -> u128
    ensures is { result ≡ greatest_last seats.now }
    ensures above { All (λ s. s.worker.log.last ≤ result) seats.now }
{
    let mut greatest = 0;
    for seat in seats {
        greatest = greater(greatest, seat.worker.log.last());
    }
    greatest
}

// How many entries are in the logs; none where that number doesn't fit.
fn count_left<'a, D>(seats: &[Seat<'a, D>]) -> Option<usize>
    ensures { SomeIff result (sum_by made_by seats.now ≤ usize.MAX) (sum_by made_by seats.now) }
{
    let mut total: usize = 0;
    for seat in seats {
        total = total.checked_add(seat.worker.log.entries().len())?;
    }
    Some(total)
}

// What is in the logs of all seats, in their order; they all meet this stamp. There is room for the parts.
fn hand_out_all<'a, D>(seats: &mut [Seat<'a, D>], stamp: u128, parts: &mut Vec<LogPart>)
    requires below { All (λ s. s.worker.log.last ≤ stamp) seats.old }
    requires room { vec_len parts.old + length seats.old ≤ vec_capacity parts.old }
    ensures len { length seats.new ≡ length seats.old }
    ensures each { (i : ℕ) (a b : _) → slice_get seats.old i ≡ Some a → slice_get seats.new i ≡ Some b → IsHandedOut stamp a b }
    ensures parts { parts.new.items ≡ parts.old.items ++ map part_in seats.old }
{
    for place in 0..seats.len() {
        let part = seats[place].hand_out(stamp);
        parts.push_reserved(part);
    }
}

impl<'a, D> Node<'a, D> {
    /// How many entries are in the threads' logs. Out of memory where that number doesn't fit.
    pub(crate) fn entries_left(&self) -> Result<usize, OutOfMemory>
        ensures { IfOk result (λ left. left ≡ entries_left self.now) }
    {
        count_left(self.seats.as_slice()).ok_or(OutOfMemory)
    }

    // Room for the parts of all logs, and for this number of entries more after the trace.
    fn make_room(&mut self, left: usize) -> Result<Vec<LogPart>, OutOfMemory>
        ensures same { IsUnchanged self.old self.new }
        ensures none { IfOk result (λ parts. parts.items ≡ []) }
        ensures parts { IfOk result (λ parts. length self.old.seats.items ≤ vec_capacity parts) }
        ensures room { OnOk result (length self.old.trace.items + left ≤ vec_capacity self.new.trace) }
    {
        let mut parts = Vec::new(self.alloc);
        parts.reserve(self.seats.len())?;
        self.trace.reserve(left)?;
        Ok(parts)
    }

    // What is in the logs goes after the trace. There is room for it, and for the parts.
    fn merge_logs(&mut self, parts: Vec<LogPart>)
        requires apart { AreOfDifferentThreads (map part_in self.old.seats.items) }
        requires none { parts.items ≡ [] }
        requires parts { length self.old.seats.items ≤ vec_capacity parts }
        requires room { length self.old.trace.items + sum_by made_by self.old.seats.items ≤ vec_capacity self.old.trace }
        ensures { Gathers self.old self.new }
    {
        let mut parts = parts;
        let stamp = greatest(self.seats.as_slice());
        hand_out_all(self.seats.as_mut_slice(), stamp, &mut parts);
        merge_onto(parts, &mut self.trace);
    }
}

impl<'a, D: Disk> Node<'a, D> {
    /// What is in the threads' logs is merged, put after the trace, counted, and gone from the logs; whatever comes
    /// there later has greater stamps, the first one above the greatest so far. Where there is nothing it takes no memory. Out of memory loses no entry.
    pub fn gather(&mut self) -> Result<(), OutOfMemory>
        requires { IsNode D.state self.old }
        ensures node { OnOk result (IsNode D.state self.new) }
        ensures same { HasSameLogs self.old self.new }
        ensures disks { OnOk result (KeepsDisks D.state self.old self.new) }
        ensures times { OnOk result ((range : Option Moments) → KeepsTimes range self.old self.new) }
        ensures left { OnOk result (entries_left self.new ≡ 0) }
        ensures stamps { OnOk result (greatest_last self.new.seats.items ≡ greatest_last self.old.seats.items) }
        ensures none { entries_left self.old ≡ 0 → IsOk result × (self.new ≡ self.old) }
        ensures err { OnErr result (CountsTheSame self.old self.new) }
        ensures kept { disks_in self.new ≡ disks_in self.old }
    {
        let left = count_left(self.seats.as_slice()).ok_or(OutOfMemory)?;
        if left == 0 {
            return Ok(());
        }
        let parts = self.make_room(left)?;
        let gathered = self.trace.len();
        self.merge_logs(parts);
        self.counter.add(&self.trace.as_slice()[gathered..])
    }
}
