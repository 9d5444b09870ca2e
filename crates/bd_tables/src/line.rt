//! What is kept of one device: who waits over it, in order, and how many requests of each thread hold up its drain.
ghost use Rattle.std.specs.Prelude.{◌≡◌, ◌<◌, ◌≤◌, ◌^◌, ◌-◌, [], position, slice_get, slice_index, vec_capacity, OnOk};
ghost use Rattle.bd_msg.specs.Purse.{same_request, without};
ghost use Rattle.bd_tables.specs.Lines.{blank_counts, Fits, lowered, raised, with_row, without_row};

use crate::row::Row;
use bd_base::{DevId, OutOfMemory, ReqId};
use std::alloc::Global;
use std::marker::Model;

/// How many threads have a count; there are at most as many.
pub const THREADS: u32 = 16;

/// The line of one device: the ids of the requests that wait over it, in order, and for each thread how
/// many of its requests hold up a drain of the device.
#[derive(Debug, Drop)]
pub struct Line {
    waiting: Vec<ReqId>,
    counts: [u32; 16],
}

impl Model for Line {
    ghost use Rattle.std.specs.Prelude.{vec_capacity};
    ghost use Rattle.bd_tables.specs.Lines.{Line as Kept};

    ghost Value = { Kept };

    ghost view = { λ l. record { waiting = l.waiting.items; counts = l.counts; capacity = vec_capacity l.waiting } };
}

// One more request of a thread; those of 16 and on have no count.
fn raise(counts: &mut [u32; 16], thread: u32)
    requires { thread < 16 → slice_index counts.old thread < 2 ^ 32 - 1 }
    ensures { counts.new ≡ raised thread counts.old }
{
    if thread < THREADS {
        let count = counts[thread as usize];
        counts[thread as usize] = count + 1;
    }
}

// One request of a thread less.
fn lower(counts: &mut [u32; 16], thread: u32)
    ensures { counts.new ≡ lowered thread counts.old }
{
    if thread < THREADS {
        let count = counts[thread as usize];
        counts[thread as usize] = count.saturating_sub(1);
    }
}

// The place of the first of these ids that is this one.
fn place_of(waiting: &[ReqId], id: ReqId) -> Option<usize>
    ensures { result ≡ position (λ x. same_request x id) waiting.now }
{
    waiting.iter().position(|other| *other == id)
}

// The first of these ids that is this one goes.
fn forget(waiting: &mut Vec<ReqId>, id: ReqId)
    ensures items { waiting.new.items ≡ without id waiting.old.items }
    ensures capacity { vec_capacity waiting.new ≡ vec_capacity waiting.old }
{
    if let Some(place) = place_of(waiting.as_slice(), id) {
        let _id = waiting.remove(place);
    }
}

impl Line {
    /// No request, and room for none. It takes no memory.
    pub fn new(alloc: Global) -> Line
        ensures waiting { result.waiting ≡ [] }
        ensures counts { result.counts ≡ blank_counts }
    {
        Line {
            waiting: Vec::new(alloc),
            counts: [0; 16],
        }
    }

    /// Makes room for so many requests in all. Out of memory, the requests stay as they were.
    pub fn reserve(&mut self, limit: u32) -> Result<(), OutOfMemory>
        ensures ok { OnOk result (limit ≤ self.new.capacity) }
        ensures grows { self.old.capacity ≤ self.new.capacity }
        ensures waiting { self.new.waiting ≡ self.old.waiting }
        ensures counts { self.new.counts ≡ self.old.counts }
    {
        let more = (limit as usize).saturating_sub(self.waiting.len());
        self.waiting.reserve(more)?;
        Ok(())
    }

    /// The request that came first of those that wait.
    pub fn first(&self) -> Option<ReqId>
        ensures { result ≡ slice_get self.now.waiting 0 }
    {
        self.waiting.first().copied()
    }

    /// How many requests of a thread hold up a drain.
    pub fn count(&self, thread: u32) -> u32
        requires { thread < 16 }
        ensures { result ≡ slice_index self.now.counts thread }
    {
        self.counts[thread as usize]
    }

    /// A row came, as the last one. There is room for it. It takes no memory.
    pub fn come(&mut self, dev: DevId, row: &Row)
        requires { Fits self.old }
        ensures { self.new ≡ with_row dev row.now self.old }
    {
        if row.waits_under(dev) {
            self.waiting.push_reserved(row.request.id);
        }
        if row.holds_up(dev) {
            raise(&mut self.counts, row.request.id.thread);
        }
    }

    /// A row went. It takes no memory.
    pub fn leave(&mut self, dev: DevId, row: &Row)
        ensures { self.new ≡ without_row dev row.now self.old }
    {
        if row.waits_under(dev) {
            forget(&mut self.waiting, row.request.id);
        }
        if row.holds_up(dev) {
            lower(&mut self.counts, row.request.id.thread);
        }
    }
}
