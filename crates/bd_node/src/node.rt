//! A node: the seats of all threads, and what they share.
ghost use Rattle.std.specs.Prelude.{◌≤◌, ◌+◌, length, vec_len};

use crate::schedule::Schedule;
use bd_base::{Entry, Setup};
use bd_disks::Shelf;
use bd_report::counter::Counter;
use bd_wires::Wires;
use bd_worker::Seat;
use std::alloc::Global;

/// How far a node is.
#[derive(Clone, Copy, PartialEq, Eq)]
pub enum NodeState {
    /// Nothing is under way and every script waits or is at its end: a Shutdown may come.
    Idle,
    /// It was shut, nothing is under way and every device was destructed: the run is complete.
    Done,
    Busy,
}

/// The threads of a setup, each at its seat with its disks, and what they share. Once a call answered an error,
/// only `abandon` may be called.
pub struct Node<'a, D> {
    pub(crate) alloc: Global,
    pub(crate) setup: &'a Setup,
    pub(crate) wires: Wires,
    pub(crate) seats: Vec<Seat<'a, D>>,
    pub(crate) schedule: Schedule,
    pub(crate) shut: bool,
    pub(crate) rounds: u64,
    /// What was gathered of the threads' logs, by stamp and thread.
    pub(crate) trace: Vec<Entry>,
    /// It has counted the trace.
    pub(crate) counter: Counter,
    /// Where the disks go at the end.
    pub(crate) shelf: Shelf<D>,
    ghost room: { vec_len seats + length shelf.items ≤ shelf.capacity },
}
