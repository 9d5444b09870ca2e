//! Rows in order. They lie in a slab, and a list of their keys has their order, so a row that comes
//! or goes moves keys alone.
ghost use Rattle.std.specs.Prelude.{◌≡◌, ◌<◌, ◌≤◌, ◌+◌, ◌-◌, ◌++◌, ◌∷◌, [], length, remove, ◌↔◌, IsTrue, OnOk};
ghost use Rattle.bd_tables.specs.Firsts.{at};

use crate::row::Row;
use bd_base::OutOfMemory;
use slab::Slab;
use std::alloc::Global;
use std::marker::Model;

/// Rows in the order in which they came.
#[derive(Debug, Drop)]
pub struct Shelf {
    slab: Slab<Row>,
    order: Vec<usize>,
}

impl Model for Shelf {
    ghost use Rattle.std.specs.Prelude.{◌≤◌, ◌-◌, ◌^◌, vec_len, vec_capacity};
    ghost use Rattle.bd_tables.specs.Rows.{Rows};

    ghost Value = { Rows };

    ghost use Rattle.bd_tables.specs.Shelf.{rows_of, room_of, IsInOrder};

    ghost view = { λ s. record { rows = rows_of s.slab.slots s.order.items; room = room_of s.slab.capacity (vec_capacity s.order) (vec_len s.order) } };

    ghost invariant = { λ s. IsInOrder s.slab.slots s.order.items × (vec_len s.order ≤ 2 ^ 32 - 1) };
}

impl Shelf {
    /// No rows, and room for none. It takes no memory.
    pub fn new(alloc: Global) -> Shelf
        ensures { result ≡ record { rows = []; room = 0 } }
    {
        Shelf {
            slab: Slab::new(alloc),
            order: Vec::new(alloc),
        }
    }

    /// Makes room for `n` more rows, of at most 2^32 - 1 in all. Out of memory, the rows stay as they
    /// were.
    pub fn reserve(&mut self, n: u32) -> Result<(), OutOfMemory>
        ensures ok { OnOk result (n ≤ self.new.room) }
        ensures grows { self.old.room ≤ self.new.room }
        ensures rows { self.new.rows ≡ self.old.rows }
    {
        let n = n as usize;
        if n > u32::MAX as usize - self.order.len() {
            return Err(OutOfMemory);
        }
        self.slab.reserve(n)?;
        self.order.reserve(n)?;
        Ok(())
    }

    /// Whether there is room for one more row.
    pub fn has_room(&self) -> bool
        ensures { IsTrue result ↔ (0 < self.now.room) }
    {
        let n = self.order.len();
        n < self.slab.capacity() && n < self.order.capacity() && n < u32::MAX as usize
    }

    /// How many rows there are: at most 2^32 - 1.
    pub fn len(&self) -> u32
        ensures { result ≡ length self.now.rows }
    {
        self.order.len() as u32
    }

    /// Whether there is no row.
    pub fn is_empty(&self) -> bool
        ensures { IsTrue result ↔ (self.now.rows ≡ []) }
    {
        self.order.is_empty()
    }

    /// The row at a place of the order.
    pub fn at(&self, i: u32) -> Row
        requires { i < length self.now.rows }
        ensures { result ≡ at self.now.rows i }
    {
        self.slab[self.order[i as usize]]
    }

    /// Takes a row out; the others stay in order. It takes no memory.
    pub fn take(&mut self, i: u32) -> Row
        requires { i < length self.old.rows }
        ensures row { result ≡ at self.old.rows i }
        ensures rest { self.new ≡ record { rows = remove self.old.rows i; room = self.old.room + 1 } }
    {
        let key = self.order.remove(i as usize);
        self.slab.remove(key)
    }

    /// Puts a row at the end. There is room for it. It takes no memory.
    pub fn join(&mut self, row: Row)
        requires { 0 < self.old.room }
        ensures { self.new ≡ record { rows = self.old.rows ++ row ∷ []; room = self.old.room - 1 } }
    {
        let key = self.slab.insert_reserved(row);
        self.order.push_reserved(key);
    }
}
