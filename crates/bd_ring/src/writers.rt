//! A slot at work: two threads that write into one journal in turn.
ghost use Rattle.std.specs.Prelude.{◌≡◌, ◌≤◌, [], ◌∷◌, ◌++◌, false, length, IfOk, OnOk, OnErr};
ghost use Rattle.bd_ring.specs.Counting.{row_at as counted, first_rows, bare_start};
ghost use Rattle.bd_ring.specs.SlotRule.{rows_of};
ghost use Rattle.bd_ring.specs.Slots.{holder};

use crate::slot::{Slot, SlotPass};
use bd_base::{Act, Entry, Journaled, OutOfMemory, Outcome};
use std::alloc::Global;
use std::marker::Model;
use std::sync::Wait;
use std::thread;
use std::thread::Threads;

/// A journal and nothing else, seen as its rows and the number of threads.
#[derive(Drop)]
pub struct Journal {
    rows: Vec<Entry>,
    threads: u32,
}

impl Model for Journal {
    ghost use Rattle.bd_ring.specs.Counting.{Bare};

    ghost Value = { Bare };

    ghost view = { λ r. record { rows = r.rows.items; threads = r.threads } };
}

impl Journaled for Journal {
    ghost use Rattle.bd_ring.specs.Counting.{bare_start};

    ghost journal = { λ r. r.rows };

    ghost start = { λ r. bare_start r.threads };
}

impl Journal {
    /// A journal with no rows. It takes no memory.
    pub fn new(alloc: Global, threads: u32) -> Journal
        ensures { result ≡ record { rows = []; threads = threads } }
    {
        Journal {
            rows: Vec::new(alloc),
            threads,
        }
    }

    /// How many rows it has.
    pub fn len(&self) -> usize
        ensures { result ≡ length self.now.rows }
    {
        self.rows.len()
    }

    /// Adds a row. Out of memory, it stays as it was.
    pub fn add(&mut self, row: Entry) -> Result<(), OutOfMemory>
        ensures ok { OnOk result (self.new ≡ record self.old { rows = self.old.rows ++ row ∷ [] }) }
        ensures err { OnErr result (self.new ≡ self.old) }
    {
        self.rows.push(row)?;
        Ok(())
    }

    /// The rows.
    pub fn into_rows(self) -> Vec<Entry>
        ensures { result.items ≡ self.rows }
    {
        self.rows
    }
}

// The row with this number.
fn row(thread: u32, number: u32) -> Entry
    ensures { result ≡ counted thread number }
{
    Entry {
        stamp: u128::from(number),
        thread,
        act: Act::Script {
            line: number,
            outcome: Outcome::Done,
        },
    }
}

// Writes this number of rows, each under a take of its own, or fewer where memory runs out. A slot
// whose value is away is tried again.
fn write_all<R: Wait>(
    rt: &R,
    slot: &Slot<Journal>,
    mut pass: SlotPass<Journal>,
    thread: u32,
    count: u32,
) -> (SlotPass<Journal>, u32)
    requires { (pass.slot ≡ slot.now) × (pass.thread ≡ thread) × (pass.holds ≡ false) × (pass.wrote ≡ []) × (pass.start ≡ bare_start 2) }
    ensures pass { (result.0.slot ≡ slot.now) × (result.0.thread ≡ thread) × (result.0.holds ≡ false) × (result.0.passes ≡ pass.passes) }
    ensures wrote { result.0.wrote ≡ first_rows thread result.1 }
    ensures most { result.1 ≤ count }
{
    let mut next = 0;
    for _ in rt.forever() {
        if next >= count {
            break;
        }
        match slot.try_take(rt, &mut pass) {
            Some(mut journal) => match journal.add(row(thread, next)) {
                Ok(()) => {
                    slot.give(rt, &mut pass, journal);
                    next += 1;
                }
                Err(_) => {
                    slot.give(rt, &mut pass, journal);
                    break;
                }
            },
            None => thread::yield_now(),
        }
    }
    (pass, next)
}

/// The journal that two threads wrote, and how many rows each wrote: its rows of each thread are
/// those that the thread wrote, in their order.
pub fn two_writers<R: Threads + Wait + Sync>(
    rt: &R,
    alloc: Global,
    count: u32,
) -> Result<(Journal, u32, u32), OutOfMemory>
    ensures first { IfOk result (λ r. rows_of 0 r.0.rows ≡ first_rows 0 r.1) }
    ensures second { IfOk result (λ r. rows_of 1 r.0.rows ≡ first_rows 1 r.2) }
{
    let (slot, mut passes) = Slot::new(rt, alloc, Journal::new(alloc, 2), 2)?;
    let (Some(second), Some(first)) = (passes.pop(), passes.pop()) else {
        unreachable!()
    };
    let shared = &slot;
    let ((first, wrote_first), (second, wrote_second)) = thread::join(
        rt,
        move || -> (SlotPass<Journal>, u32)
            requires { first ≡ holder shared.now (bare_start 2) 0 2 }
            ensures { (result.0.slot ≡ shared.entry.now) × (result.0.thread ≡ 0) × (result.0.holds ≡ false) × (result.0.passes ≡ 2)
                × (result.0.wrote ≡ first_rows 0 result.1) }
        { write_all(rt, shared, first, 0, count) },
        move || -> (SlotPass<Journal>, u32)
            requires { second ≡ holder shared.now (bare_start 2) 1 0 }
            ensures { (result.0.slot ≡ shared.entry.now) × (result.0.thread ≡ 1) × (result.0.holds ≡ false) × (result.0.wrote ≡ first_rows 1 result.1) }
        { write_all(rt, shared, second, 1, count) },
    );
    passes.push(first)?;
    passes.push(second)?;
    Ok((slot.settle(rt, passes), wrote_first, wrote_second))
}
