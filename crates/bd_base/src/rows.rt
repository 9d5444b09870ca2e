//! A table of rows in order, which contracts see as the list of its rows.
ghost use Rattle.std.specs.Prelude.{◌≡◌, ◌<◌, ◌++◌, ◌∷◌, [], List, ℕ, length, IfOk, OnOk, OnErr, slice_set, slice_index_or, remove};
ghost use Rattle.std.specs.Borrow.{Lends, sem};
ghost use Rattle.std.specs.List.{list_any};
ghost use Rattle.bd_base.specs.Name.{same_name};
ghost use Rattle.bd_base.specs.contracts.rows.Rows.{the_row};

use crate::id::{DevId, HandleId, ThreadId};
use crate::memory::OutOfMemory;
use crate::name::Name;
use std::alloc::Global;
use std::marker::Model;

/// Rows in order, seen as their list.
#[derive(Drop)]
pub struct Rows<T> {
    items: Vec<T>,
}

/// Devices, seen as their list.
pub type DevList = Rows<DevId>;

/// Names, seen as their list.
pub type NameList = Rows<Name>;

/// Names with numbers of blocks, seen as their list.
pub type SizeList = Rows<(Name, u64)>;

/// Handles with their threads, seen as their list.
pub type HandleList = Rows<(HandleId, ThreadId)>;

impl<T> Model for Rows<T> {
    ghost use Rattle.std.specs.Prelude.{List};

    ghost Value = { List T };

    ghost view = { λ r. r.items.items };
}

impl<T> Rows<T> {
    /// No rows. It takes no memory.
    pub fn new(alloc: Global) -> Rows<T>
        ensures { result ≡ [] }
    {
        Rows {
            items: Vec::new(alloc),
        }
    }

    /// The items of a vector as rows. It takes no memory.
    pub fn from_vec(items: Vec<T>) -> Rows<T>
        ensures { result ≡ items.items }
    {
        Rows { items }
    }

    /// The rows as a vector. It takes no memory.
    pub fn into_vec(self) -> Vec<T>
        ensures { result.items ≡ self }
    {
        self.items
    }

    pub fn len(&self) -> usize
        ensures { result ≡ length self.now }
    {
        self.items.len()
    }

    pub fn as_slice(&self) -> &[T]
        ensures { result.now ≡ self.now }
    {
        self.items.as_slice()
    }

    /// The row at a place, to be changed.
    pub fn at_mut(&mut self, i: usize) -> &mut T
        requires { i < length self.old }
        ensures* writes_back { sem 𝓛 (Lends (the_row T.row) T.row self.entry result (λ w. slice_set self.old i w)) }
        ensures value { result.now ≡ slice_index_or self.old i result.now }
    {
        &mut self.items[i]
    }

    /// Takes a row out; the later ones move up.
    pub fn remove(&mut self, i: usize) -> T
        requires { i < length self.old }
        ensures row { result ≡ slice_index_or self.old i result }
        ensures rest { self.new ≡ remove self.old i }
    {
        self.items.remove(i)
    }
}

impl<T: Drop> Rows<T> {
    /// Appends a row; out of memory, the rows stay as they were.
    pub fn push(&mut self, row: T) -> Result<(), OutOfMemory>
        ensures ok { OnOk result (self.new ≡ self.old ++ row ∷ []) }
        ensures err { OnErr result (self.new ≡ self.old) }
    {
        self.items.push(row)?;
        Ok(())
    }

    /// Replaces a row.
    pub fn set(&mut self, i: usize, row: T)
        requires { i < length self.old }
        ensures { self.new ≡ slice_set self.old i row }
    {
        self.items[i] = row;
    }
}

impl<T: Copy> Rows<T> {
    /// Equal rows, or out of memory.
    pub fn copy(&self) -> Result<Rows<T>, OutOfMemory>
        ensures { IfOk result (λ r. r ≡ self.now) }
    {
        let items = Vec::from_slice(*self.items.allocator(), self.items.as_slice())?;
        Ok(Rows { items })
    }
}

impl Rows<Name> {
    /// Whether the name is among them.
    pub fn has(&self, name: &Name) -> bool
        ensures { result ≡ list_any (same_name name.now) self.now }
    {
        self.items.iter().any(|other| name.is(other))
    }
}
