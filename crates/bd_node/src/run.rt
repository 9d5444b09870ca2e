//! A whole run.
ghost use Rattle.std.specs.Prelude.{◌≡◌, ◌<◌, ◌≤◌, [], true, length, IfOk, OnOk};
ghost use Rattle.bd_disks.specs.Shelf.{AreAllThere};
ghost use Rattle.bd_machine.specs.Run.{IsCompleteRun};
ghost use Rattle.bd_node.specs.declared.node.NodeState.TheVariants as states;
ghost use Rattle.bd_node.specs.Schedule.{seed_by};
ghost use Rattle.bd_node.specs.Disks.{told_of, SaysOfDisks};
ghost use Rattle.bd_report.specs.Stats.{stats_of};
ghost use Rattle.bd_law_disks.specs.Told.{AreBasesLowest};
ghost use Rattle.bd_node.specs.Times.{AreHoldsWithin, AreMomentsWithin, AreStartsWithin, KeepsTimes};
ghost use Rattle.bd_node.specs.Whole.{HasAllDisks, HasSameSetup, IsNode, KeepsDisks, state_of};

use crate::history::Played;
use crate::node::{Node, NodeState};
use crate::outside::Outside;
use bd_base::{OutOfMemory, Setup};
use bd_disks::Shelf;
use bd_outside::{Clock, Disk, Gate};
use bd_seat::SeatError;
use std::alloc::Global;
use std::sync::Wait;
use std::thread::Threads;

/// Who drives the threads of a node.
#[derive(Clone, Copy, Debug, PartialEq, Eq)]
pub enum Drive {
    /// One system thread gives turns by the schedule of this seed.
    Schedule(u64),
    /// This number of reactors, beside each other.
    Reactors(u32),
}

impl Drive {
    // Where the schedule of the turns begins; reactors need none.
    fn seed(self) -> u64
        ensures { result ≡ seed_by self }
    {
        match self {
            Drive::Schedule(seed) => seed,
            Drive::Reactors(_) => 0,
        }
    }
}

// The longest pause between two rounds, in microseconds.
const LONGEST_PAUSE: u64 = 100_000;

// Where all that is left waits for time alone, it waits for that, but for no longer than a tenth of a second.
fn pause<C: Clock, D>(node: &Node<D>, clock: &C) {
    if let Some(micros) = node.waits_for() {
        clock.pause(micros.min(LONGEST_PAUSE));
    }
}

// Rounds until every script is blocked and the node was shut, and then until it is done. Between rounds in which
// time alone has to pass it pauses.
#[tactic(auto, using(crate::proofs::Histories::keeps_disks_still, crate::proofs::Histories::keeps_disks_then, crate::proofs::Kept::node_still))]
fn play_out<'a, R: Threads + Wait + Sync, C: Clock + Sync, G: Gate + Sync, D: Disk + Send>(
    rt: &R,
    node: &mut Node<'a, D>,
    drive: Drive,
    outside: &Outside<C, G>,
) -> Result<(), SeatError>
    requires { IsNode D.state node.old }
    ensures node { OnOk result (IsNode D.state node.new) }
    ensures setup { OnOk result (HasSameSetup node.old node.new) }
    ensures disks { OnOk result (KeepsDisks D.state node.old node.new) }
    ensures times { OnOk result (KeepsTimes (C.range outside.now.clock.now) node.old node.new) }
    ensures done { OnOk result (state_of node.new ≡ states.Done) }
    ensures kept { HasAllDisks D.state node.old node.new }
{
    for _ in rt.forever() {
        match node.state() {
            NodeState::Done => return Ok(()),
            NodeState::Idle => {
                node.shut(rt)?;
            }
            NodeState::Busy => {
                pause(node, outside.clock);
                match drive {
                    Drive::Schedule(_) => {
                        node.round_by(rt, outside.clock)?;
                    }
                    Drive::Reactors(reactors) => {
                        node.round(rt, reactors, outside)?;
                    }
                }
            }
        }
    }
    unreachable!()
}

/// Plays the setup's scripts to their end on as many threads as it has, with the moments that the clock tells: however
/// they are driven, and whatever it tells, what is
/// returned is a complete run of the machine, over what the disks told when it was called, where the setup's
/// base devices stand on nothing, and the moments in it are such as the clock tells; beside it are its statistics. It answers out of memory also where a number of a
/// thread runs out, as after 2^62 requests or 2^128 stamps. The disks are those of each thread, in the order of the
/// threads' numbers, and are all given back however the run ends, those of a thread together, the threads in some
/// order.
pub fn play<R: Threads + Wait + Sync, C: Clock + Sync, G: Gate + Sync, D: Disk + Send>(
    rt: &R,
    alloc: Global,
    setup: &Setup,
    disks: Shelf<D>,
    drive: Drive,
    outside: &Outside<C, G>,
) -> (Result<Played, OutOfMemory>, Shelf<D>)
    requires some { 0 < setup.now.threads }
    requires disks { length disks.items ≡ setup.now.threads }
    requires room { setup.now.threads ≤ disks.capacity }
    ensures complete { AreBasesLowest setup.now → IfOk result.0 (λ run. IsCompleteRun setup.now (told_of D.state setup.now disks.items) run.history) }
    ensures disks { AreBasesLowest setup.now → IfOk result.0 (λ run. SaysOfDisks D.state setup.now run.history disks.items result.1.items) }
    ensures moments { IfOk result.0 (λ run. AreMomentsWithin (C.range outside.now.clock.now) run.history) }
    ensures holds { AreBasesLowest setup.now → IfOk result.0 (λ run. AreHoldsWithin (C.range outside.now.clock.now) setup.now run.history) }
    ensures starts { AreBasesLowest setup.now → IfOk result.0 (λ run. AreStartsWithin (C.range outside.now.clock.now) run.history) }
    ensures counted { IfOk result.0 (λ run. run.stats ≡ stats_of setup.now run.history) }
    ensures kept { AreAllThere D.state disks.items result.1.items }
{
    let mut node = match Node::build(rt, alloc, setup, disks, drive.seed()) {
        Ok(node) => node,
        Err((error, shelf)) => return (Err(error), shelf),
    };
    match play_out(rt, &mut node, drive, outside) {
        Ok(()) => node.settle(rt),
        Err(_) => (Err(OutOfMemory), node.abandon()),
    }
}
