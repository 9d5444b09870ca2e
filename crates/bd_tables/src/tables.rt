//! The requests of one thread, by place.
ghost use Rattle.std.specs.Prelude.{◌≡◌, ◌<◌, ◌≤◌, ◌+◌, ◌-◌, ◌++◌, ◌∷◌, [], length, slice_get, ◌↔◌, IsTrue, OnOk, OnErr, MatchOption, false};
ghost use Rattle.bd_tables.specs.Firsts.{at, NonePasses, IsFirst};
ghost use Rattle.bd_tables.specs.Rows.{keeps, is_out, is_in, is_kept, is_remembered, request_of, without_first, moved, parked, first_at, open_requests, first_id, waits_under, counted_under};
ghost use Rattle.bd_tables.specs.declared.place.Place.TheVariants.{Away};

use crate::board::Board;
use crate::place::Place;
use crate::row::Row;
use crate::under::Under;
use bd_base::{DevId, HandleId, OutOfMemory, ReqId, ThreadId};
use bd_msg::Request;
use std::alloc::Global;
use std::marker::Model;

/// The open requests that a thread keeps, each at its place. A place is the list of its requests in
/// the order in which they came there. Of each device it is kept beside this who waits over it, and how
/// many requests of each thread hold up a drain of it.
#[derive(Drop)]
pub struct Tables {
    board: Board,
}

impl Model for Tables {
    ghost use Rattle.bd_tables.specs.Rows.{Rows};

    ghost Value = { Rows };

    ghost view = { λ t. t.board };
}

impl Tables {
    /// No requests, and room for none. It takes no memory.
    pub fn new(alloc: Global) -> Tables
        ensures { result ≡ record { rows = []; room = 0 } }
    {
        Tables {
            board: Board::new(alloc),
        }
    }

    /// Makes room for `n` more requests, of at most 2^32 - 1 in all, and for the lists and counts of the
    /// first so many devices. Out of memory, nothing changed.
    pub fn reserve(&mut self, n: u32, devices: u32) -> Result<(), OutOfMemory>
        ensures ok { OnOk result (n ≤ self.new.room) }
        ensures grows { self.old.room ≤ self.new.room }
        ensures rows { self.new.rows ≡ self.old.rows }
        ensures err { OnErr result (self.new ≡ self.old) }
    {
        self.board.reserve(n, devices)
    }

    /// Whether there is room for one more request.
    pub fn has_room(&self) -> bool
        ensures { IsTrue result ↔ (0 < self.now.room) }
    {
        self.board.has_room()
    }

    /// Whether a row keeps the request of this id (one that was handed out is kept by none).
    pub fn keeps(&self, id: ReqId) -> bool
        ensures { result ≡ is_kept id self.now.rows }
    {
        self.kept_at(id).is_some()
    }

    /// Keeps a request at a place, after those that are there, with the devices over which it stands: its
    /// own and those below. No row keeps a request of its id. A row that remembers the id as handed out
    /// goes; where there is none, there is room for one more. It takes no memory.
    pub fn park(&mut self, request: Request, place: Place, under: &[DevId])
        requires room { is_remembered request.id self.old.rows ≡ false → 0 < self.old.room }
        requires fresh { is_kept request.id self.old.rows ≡ false }
        ensures rows { self.new.rows ≡ parked request place under.now self.old.rows }
        ensures room { self.new.room + length self.new.rows ≡ self.old.room + length self.old.rows }
    {
        self.forget(request.id);
        self.board.join(Row {
            request,
            place,
            under: Under::of(under),
        });
    }

    // Takes out the row that remembers the request of this id as handed out, if there is one.
    fn forget(&mut self, id: ReqId)
        ensures rows { self.new.rows ≡ without_first (is_out id) self.old.rows }
        ensures room { self.new.room + length self.new.rows ≡ self.old.room + length self.old.rows }
        ensures spare { (is_remembered id self.old.rows ≡ false → 0 < self.old.room) → 0 < self.new.room }
    {
        let Some(i) = self.out_at(id) else {
            return;
        };
        let _copy = self.board.take(i);
    }

    /// Gives up the request of this id. None exactly where no row keeps it (one that was handed out
    /// is kept by none), and nothing changes then. It takes no memory.
    pub fn unpark(&mut self, id: ReqId) -> Option<Request>
        ensures request { result ≡ request_of id self.old.rows }
        ensures rows { self.new.rows ≡ without_first (keeps id) self.old.rows }
        ensures room { self.new.room + length self.new.rows ≡ self.old.room + length self.old.rows }
    {
        let Some(i) = self.kept_at(id) else {
            return None;
        };
        Some(self.board.take(i).request)
    }

    /// Brings the request of this id to another place, after those that are there. False exactly
    /// where no row keeps it, and nothing changes then. It takes no memory.
    pub fn move_to(&mut self, id: ReqId, place: Place) -> bool
        ensures kept { result ≡ is_kept id self.old.rows }
        ensures rows { self.new.rows ≡ moved id place self.old.rows }
        ensures room { self.new.room ≡ self.old.room }
    {
        let Some(i) = self.kept_at(id) else {
            return false;
        };
        let row = self.board.take(i);
        self.board.join(Row {
            request: row.request,
            place,
            under: row.under,
        });
        true
    }

    /// Hands out the request of this id, to travel to a home's limits; its row remembers it at
    /// `Away`. None exactly where no row keeps it, and nothing changes then. It takes no memory.
    pub fn away(&mut self, id: ReqId) -> Option<Request>
        ensures request { result ≡ request_of id self.old.rows }
        ensures rows { self.new.rows ≡ moved id Away self.old.rows }
        ensures room { self.new.room ≡ self.old.room }
    {
        let Some(i) = self.kept_at(id) else {
            return None;
        };
        let row = self.board.take(i);
        self.board.join(Row {
            request: row.request,
            place: Place::Away,
            under: row.under,
        });
        Some(row.request)
    }

    /// How many rows there are, those that remember a request too: at most 2^32 - 1.
    pub fn len(&self) -> u32
        ensures { result ≡ length self.now.rows }
    {
        self.board.len()
    }

    /// Whether there is no row.
    pub fn is_empty(&self) -> bool
        ensures { IsTrue result ↔ (self.now.rows ≡ []) }
    {
        self.board.is_empty()
    }

    /// A row, by its place in the order from 0.
    pub fn row(&self, i: u32) -> Row
        requires { i < length self.now.rows }
        ensures { slice_get self.now.rows i ≡ Some result }
    {
        self.board.at(i)
    }

    /// The request that came to a place first. None exactly where the place is empty.
    pub fn first_in(&self, place: Place) -> Option<ReqId>
        ensures { result ≡ first_at place self.now.rows }
    {
        let Some(i) = self.first_row_in(place) else {
            return None;
        };
        Some(self.board.at(i).request.id)
    }

    /// The request that came to its place first of those that stand over a device and wait here: the next
    /// that a mark of the device may stop. None exactly where none waits. It goes over no rows, for the
    /// devices that `reserve` named.
    pub fn first_under(&self, dev: DevId) -> Option<ReqId>
        ensures { result ≡ first_id (waits_under dev self.now.rows) }
    {
        self.board.first_under(dev)
    }

    /// How many requests of a thread stand over a device and keep a drain of it from leaving, those that
    /// were handed out too: all but resets. It goes over no rows, for the devices that `reserve` named and
    /// the threads that there are.
    pub fn count_under(&self, dev: DevId, thread: ThreadId) -> u32
        ensures { result ≡ length (counted_under dev thread.0 self.now.rows) }
    {
        self.board.count_under(dev, thread)
    }

    /// How many open requests a handle has, those that were handed out too.
    pub fn open_on(&self, handle: HandleId) -> u32
        ensures { result ≡ open_requests handle self.now.rows }
    {
        let mut open = 0;
        for i in 0..self.board.len() {
            if self.board.at(i).is_on(handle) {
                open += 1;
            }
        }
        open
    }

    // The row that keeps the request of this id.
    fn kept_at(&self, id: ReqId) -> Option<u32>
        ensures { MatchOption result (NonePasses (keeps id) self.now.rows (length self.now.rows)) (IsFirst (keeps id) self.now.rows) }
    {
        for i in 0..self.board.len() {
            if self.board.at(i).keeps(id) {
                return Some(i);
            }
        }
        None
    }

    // The row that remembers the request of this id as handed out.
    fn out_at(&self, id: ReqId) -> Option<u32>
        ensures { MatchOption result (NonePasses (is_out id) self.now.rows (length self.now.rows)) (IsFirst (is_out id) self.now.rows) }
    {
        for i in 0..self.board.len() {
            if self.board.at(i).is_out(id) {
                return Some(i);
            }
        }
        None
    }

    // The first row at a place.
    fn first_row_in(&self, place: Place) -> Option<u32>
        ensures { MatchOption result (NonePasses (is_in place) self.now.rows (length self.now.rows)) (IsFirst (is_in place) self.now.rows) }
    {
        for i in 0..self.board.len() {
            if self.board.at(i).is_in(place) {
                return Some(i);
            }
        }
        None
    }
}
