//! Seats before any entry.
ghost use Rattle.std.specs.Prelude.{◌≡◌, ◌<◌, ◌≤◌, ◌+◌, ◌++◌, ◌∷◌, [], length, vec_len, IfOk, IsPermutation, OnOk, OnErr};
ghost use Rattle.bd_node.specs.Disks.{disks_of};
ghost use Rattle.bd_node.specs.Starting.{AreNewSeats, IsNewSeat};

use bd_base::{OutOfMemory, Setup, ThreadId};
use bd_disks::{Disks, Shelf};
use bd_log::Log;
use bd_thread::{Links, Thread};
use bd_wires::Passes;
use bd_worker::{Seat, Worker};
use std::alloc::Global;

/// Abandons the tickets of all seats. Their disks go on the shelf.
pub(crate) fn abandon_all<'a, D>(seats: Vec<Seat<'a, D>>, shelf: &mut Shelf<D>)
    requires { vec_len seats + length shelf.old.items ≤ shelf.old.capacity }
    ensures { IsPermutation (shelf.old.items ++ disks_of seats.entry.items) shelf.new.items }
{
    let mut left = seats;
    while let Some(seat) = left.pop() {
        seat.take_apart(shelf);
    }
    left.destroy_empty();
}

// The disks of the first thread on a shelf that isn't empty.
fn first_disks<D>(shelf: &mut Shelf<D>) -> Disks<D>
    requires { 0 < length shelf.old.items }
    ensures first { shelf.old.items ≡ result ∷ shelf.new.items }
    ensures rest { length shelf.new.items + 1 ≡ length shelf.old.items }
    ensures capacity { shelf.old.capacity ≤ shelf.new.capacity }
{
    match shelf.take() {
        Some(disks) => disks,
        None => unreachable!(),
    }
}

// Thread number `me` of the setup before any entry, with these passes and the first disks on the shelf.
fn seat_of<'a, D>(
    alloc: Global,
    me: u32,
    setup: &'a Setup,
    passes: Passes,
    shelf: &mut Shelf<D>,
) -> Result<Seat<'a, D>, OutOfMemory>
    requires { 0 < length shelf.old.items }
    ensures new { IfOk result (IsNewSeat me setup.now passes) }
    ensures disks { IfOk result (λ seat. shelf.old.items ≡ seat.disks ∷ shelf.new.items) }
    ensures rest { OnOk result (length shelf.new.items + 1 ≡ length shelf.old.items) }
    ensures capacity { shelf.old.capacity ≤ shelf.new.capacity }
    ensures same { OnErr result (shelf.new ≡ shelf.old) }
{
    let links = Links::new(alloc, setup)?;
    let thread = Thread::new(alloc, me, setup)?;
    Ok(Seat {
        worker: Worker {
            me,
            thread,
            links,
            log: Log::new(alloc, ThreadId(me)),
        },
        passes,
        seen: 0,
        halted: None,
        disks: first_disks(shelf),
    })
}

/// A seat for each thread of the setup, with its passes and the disks at its place of the shelf; where there is no
/// memory for one, all are abandoned, and the disks are on the shelf again.
pub(crate) fn seats_of<'a, D>(
    alloc: Global,
    setup: &'a Setup,
    passes: Vec<Passes>,
    shelf: &mut Shelf<D>,
) -> Result<Vec<Seat<'a, D>>, OutOfMemory>
    requires passes { vec_len passes ≡ setup.now.threads }
    requires disks { length shelf.old.items ≡ setup.now.threads }
    requires room { setup.now.threads ≤ shelf.old.capacity }
    ensures len { IfOk result (λ seats. length seats.items ≡ setup.now.threads) }
    ensures each { IfOk result (λ seats. AreNewSeats setup.now passes.items seats.items) }
    ensures disks { IfOk result (λ seats. disks_of seats.items ≡ shelf.old.items) }
    ensures none { IfOk result (λ _seats. shelf.new.items ≡ []) }
    ensures room { IfOk result (λ seats. vec_len seats + length shelf.new.items ≤ shelf.new.capacity) }
    ensures kept { OnErr result (IsPermutation shelf.old.items shelf.new.items) }
{
    let mut left = passes;
    let mut seats = Vec::new(alloc);
    for me in 0..setup.threads {
        let seat = match seat_of(alloc, me, setup, left.remove(0), shelf) {
            Ok(seat) => seat,
            Err(OutOfMemory) => {
                abandon_all(seats, shelf);
                return Err(OutOfMemory);
            }
        };
        if let Err(failed) = seats.push(seat) {
            failed.value.take_apart(shelf);
            abandon_all(seats, shelf);
            return Err(OutOfMemory);
        }
    }
    Ok(seats)
}
