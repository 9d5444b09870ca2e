//! Rows in order with an index by device: the line of each device has who waits over it, and the counts of its drain.
ghost use Rattle.std.specs.Prelude.{◌≡◌, ◌<◌, ◌≤◌, ◌+◌, ◌-◌, ◌++◌, ◌∷◌, ◌^◌, ℕ, List, [], true, length, remove, ◌↔◌, IsTrue, IfOk, OnOk, OnErr, MatchOption, option_copied, slice_get};
ghost use Rattle.bd_tables.specs.Firsts.{at, NonePasses, IsFirst};
ghost use Rattle.bd_tables.specs.Lines.{AreChanged, AreKept, AreLines, AreRoomy, Fits, IsExact, line_at, with_row, without_row};
ghost use Rattle.bd_tables.specs.Rows.{counted_under, first_id, holds_up_of, is_waiting, keeps, row_id, waits_over, waits_under};

use crate::line::{Line, THREADS};
use crate::row::Row;
use crate::shelf::Shelf;
use bd_base::{DevId, OutOfMemory, ReqId, Rows, ThreadId};
use std::alloc::Global;
use std::marker::Model;

/// Rows in the order in which they came, and a line for each of the first devices. Each line has room for
/// as many rows as there may be, so that a row comes and goes without memory.
#[derive(Drop)]
pub struct Board {
    alloc: Global,
    shelf: Shelf,
    lines: Rows<Line>,
    // For how many rows the shelf and each line have room.
    limit: u32,
}

impl Model for Board {
    ghost use Rattle.std.specs.Prelude.{◌-◌, length};
    ghost use Rattle.bd_tables.specs.Rows.{Rows as Table};
    ghost use Rattle.bd_tables.specs.Lines.{IsIndexed};

    ghost Value = { Table };

    ghost view = { λ b. record { rows = b.shelf.rows; room = b.limit - length b.shelf.rows } };

    ghost invariant = { λ b. IsIndexed b.shelf b.lines b.limit };
}

// A row came to each line.
fn come(lines: &mut Rows<Line>, row: &Row)
    requires few { length lines.old ≤ 256 }
    requires fits { (d : ℕ) → d < length lines.old → Fits (line_at lines.old d) }
    ensures { AreChanged (λ dev line. with_row dev row.now line) lines.old lines.new }
{
    for d in 0..lines.len() {
        lines.at_mut(d).come(DevId(d as u32), row);
    }
}

// A row went from each line.
fn leave(lines: &mut Rows<Line>, row: &Row)
    requires { length lines.old ≤ 256 }
    ensures { AreChanged (λ dev line. without_row dev row.now line) lines.old lines.new }
{
    for d in 0..lines.len() {
        lines.at_mut(d).leave(DevId(d as u32), row);
    }
}

// Each line has room for so many rows.
fn widen(lines: &mut Rows<Line>, limit: u32) -> Result<(), OutOfMemory>
    ensures ok { OnOk result (AreRoomy limit lines.new) }
    ensures kept { AreKept lines.old lines.new }
{
    for d in 0..lines.len() {
        lines.at_mut(d).reserve(limit)?;
    }
    Ok(())
}

// The line of a device, with room for so many rows.
fn line_of(alloc: Global, shelf: &Shelf, dev: DevId, limit: u32) -> Result<Line, OutOfMemory>
    requires { length shelf.now.rows ≤ limit }
    ensures { IfOk result (λ line. IsExact dev shelf.now.rows line × (limit ≤ line.capacity)) }
{
    let mut line = Line::new(alloc);
    line.reserve(limit)?;
    for i in 0..shelf.len() {
        let row = shelf.at(i);
        line.come(dev, &row);
    }
    Ok(line)
}

// A line for a device, where it is the next that has none.
fn add_next(
    alloc: Global,
    shelf: &Shelf,
    lines: &mut Rows<Line>,
    dev: DevId,
    limit: u32,
) -> Result<(), OutOfMemory>
    requires few { dev.0 < 256 }
    requires fits { length shelf.now.rows ≤ limit }
    requires lines { AreLines shelf.now.rows lines.old limit }
    ensures { AreLines shelf.now.rows lines.new limit }
{
    if dev.0 as usize != lines.len() {
        return Ok(());
    }
    let line = line_of(alloc, shelf, dev, limit)?;
    lines.push(line)?;
    Ok(())
}

// Lines for the first devices, as far as they had none.
fn add(
    alloc: Global,
    shelf: &Shelf,
    lines: &mut Rows<Line>,
    devices: u32,
    limit: u32,
) -> Result<(), OutOfMemory>
    requires few { devices ≤ 256 }
    requires fits { length shelf.now.rows ≤ limit }
    requires lines { AreLines shelf.now.rows lines.old limit }
    ensures { AreLines shelf.now.rows lines.new limit }
{
    for d in 0..devices {
        add_next(alloc, shelf, lines, DevId(d), limit)?;
    }
    Ok(())
}

// The line of a device.
fn line_under(lines: &[Line], dev: DevId) -> Option<&Line>
    ensures { option_copied result ≡ slice_get lines.now dev.0 }
{
    lines.get(dev.0 as usize)
}

// The first request that waits over a device, found among all rows.
fn first_found(shelf: &Shelf, dev: DevId) -> Option<ReqId>
    ensures { result ≡ first_id (waits_under dev shelf.now.rows) }
{
    for i in 0..shelf.len() {
        let row = shelf.at(i);
        if row.waits_under(dev) {
            return Some(row.request.id);
        }
    }
    None
}

// How many requests of a thread hold up a drain of a device, counted among all rows.
fn count(shelf: &Shelf, dev: DevId, thread: ThreadId) -> u32
    ensures { result ≡ length (counted_under dev thread.0 shelf.now.rows) }
{
    let mut count = 0;
    for i in 0..shelf.len() {
        if shelf.at(i).holds_up_of(dev, thread) {
            count += 1;
        }
    }
    count
}

impl Board {
    /// No rows, and room for none. It takes no memory.
    pub fn new(alloc: Global) -> Board
        ensures { result ≡ record { rows = []; room = 0 } }
    {
        Board {
            alloc,
            shelf: Shelf::new(alloc),
            lines: Rows::new(alloc),
            limit: 0,
        }
    }

    /// Makes room for `n` more rows, of at most 2^32 - 1 in all, and gives each of the first devices a line.
    /// Out of memory, nothing changed.
    pub fn reserve(&mut self, n: u32, devices: u32) -> Result<(), OutOfMemory>
        ensures ok { OnOk result (n ≤ self.new.room) }
        ensures grows { self.old.room ≤ self.new.room }
        ensures rows { self.new.rows ≡ self.old.rows }
        ensures err { OnErr result (self.new ≡ self.old) }
    {
        let Some(limit) = self.shelf.len().checked_add(n) else {
            return Err(OutOfMemory);
        };
        let limit = limit.max(self.limit);
        self.shelf.reserve(n)?;
        widen(&mut self.lines, limit)?;
        add(
            self.alloc,
            &self.shelf,
            &mut self.lines,
            devices.min(256),
            limit,
        )?;
        self.limit = limit;
        Ok(())
    }

    /// Whether there is room for one more row.
    pub fn has_room(&self) -> bool
        ensures { IsTrue result ↔ (0 < self.now.room) }
    {
        self.shelf.len() < self.limit
    }

    /// How many rows there are: at most 2^32 - 1.
    pub fn len(&self) -> u32
        ensures { result ≡ length self.now.rows }
    {
        self.shelf.len()
    }

    /// Whether there is no row.
    pub fn is_empty(&self) -> bool
        ensures { IsTrue result ↔ (self.now.rows ≡ []) }
    {
        self.shelf.is_empty()
    }

    /// The row at a place of the order.
    pub fn at(&self, i: u32) -> Row
        requires { i < length self.now.rows }
        ensures { result ≡ at self.now.rows i }
    {
        self.shelf.at(i)
    }

    /// Takes a row out; the others stay in order. One that waits is the first that keeps its request. It
    /// takes no memory.
    pub fn take(&mut self, i: u32) -> Row
        requires inside { i < length self.old.rows }
        requires first { is_waiting (at self.old.rows i) ≡ true → NonePasses (keeps (row_id (at self.old.rows i))) self.old.rows i }
        ensures row { result ≡ at self.old.rows i }
        ensures rest { self.new ≡ record { rows = remove self.old.rows i; room = self.old.room + 1 } }
    {
        let row = self.shelf.take(i);
        leave(&mut self.lines, &row);
        row
    }

    /// Puts a row at the end. There is room for it. It takes no memory.
    pub fn join(&mut self, row: Row)
        requires { 0 < self.old.room }
        ensures { self.new ≡ record { rows = self.old.rows ++ row ∷ []; room = self.old.room - 1 } }
    {
        come(&mut self.lines, &row);
        self.shelf.join(row);
    }

    /// The request of the first row that waits over a device. None exactly where none waits.
    pub fn first_under(&self, dev: DevId) -> Option<ReqId>
        ensures { result ≡ first_id (waits_under dev self.now.rows) }
    {
        match line_under(self.lines.as_slice(), dev) {
            Some(line) => line.first(),
            None => first_found(&self.shelf, dev),
        }
    }

    /// How many requests of a thread hold up a drain of a device.
    pub fn count_under(&self, dev: DevId, thread: ThreadId) -> u32
        ensures { result ≡ length (counted_under dev thread.0 self.now.rows) }
    {
        if thread.0 >= THREADS {
            return count(&self.shelf, dev, thread);
        }
        match line_under(self.lines.as_slice(), dev) {
            Some(line) => line.count(thread.0),
            None => count(&self.shelf, dev, thread),
        }
    }
}
