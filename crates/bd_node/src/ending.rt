//! How a node is shut down, and its seats taken apart at the end.
ghost use Rattle.std.specs.Prelude.{◌≡◌, ◌≤◌, ◌<◌, ◌+◌, ◌++◌, ℕ, Some, length, map, vec_len, slice_get, IfOk, IsPermutation};
ghost use Rattle.bd_node.specs.Disks.{disks_of};
ghost use Rattle.bd_node.specs.Shutting.{AreToLearn};
ghost use Rattle.bd_worker.specs.Shutting.{LearnsShut};

use crate::building::abandon_all;
use bd_base::OutOfMemory;
use bd_disks::Shelf;
use bd_wires::Passes;
use bd_worker::Seat;
use std::alloc::Global;
use std::collections::VecDeque;

/// All threads but the first learn of the Shutdown.
pub(crate) fn learn_all<'a, D>(seats: &mut [Seat<'a, D>], stamp: u128)
    requires { AreToLearn stamp seats.old }
    ensures len { length seats.new ≡ length seats.old }
    ensures first { slice_get seats.new 0 ≡ slice_get seats.old 0 }
    ensures disks { disks_of seats.new ≡ disks_of seats.old }
    ensures others { (i : ℕ) (a b : _) → 0 < i → slice_get seats.old i ≡ Some a → slice_get seats.new i ≡ Some b → LearnsShut stamp a b }
{
    for place in 1..seats.len() {
        seats[place].learn_shut(stamp);
    }
}

/// The passes of all seats, in their order. Their disks go on the shelf, and their tickets are abandoned.
pub(crate) fn take_all_apart<'a, D>(
    alloc: Global,
    seats: Vec<Seat<'a, D>>,
    shelf: &mut Shelf<D>,
) -> Result<Vec<Passes>, OutOfMemory>
    requires { vec_len seats + length shelf.old.items ≤ shelf.old.capacity }
    ensures passes { IfOk result (λ passes. passes.items ≡ map (λ s. s.passes) seats.entry.items) }
    ensures disks { IfOk result (λ _passes. shelf.new.items ≡ shelf.old.items ++ disks_of seats.entry.items) }
    ensures kept { IsPermutation (shelf.old.items ++ disks_of seats.entry.items) shelf.new.items }
{
    let mut passes = Vec::new(alloc);
    let mut left = VecDeque::from(seats);
    while let Some(seat) = left.pop_front() {
        let own = seat.take_apart(shelf);
        if passes.push(own).is_err() {
            abandon_all(left.into(), shelf);
            return Err(OutOfMemory);
        }
    }
    left.destroy_empty();
    Ok(passes)
}
