//! Statistics of a trace that comes part by part.
ghost use Rattle.std.specs.Prelude.{◌≡◌, ℕ, ◌+◌, List, [], ◌∷◌, ◌++◌, length, map, IfOk, OnOk, OnErr};
ghost use Rattle.bd_base.specs.declared.act.Entry.{Entry};
ghost use Rattle.bd_base.specs.declared.setup.Setup.{Setup};
ghost use Rattle.bd_report.specs.Counter.{HasCounted, HasRoom};
ghost use Rattle.bd_report.specs.Counts.{thread_counts};
ghost use Rattle.bd_report.specs.Index.{TellsSuccesses};
ghost use Rattle.bd_report.specs.Stats.{sizes_of, stats_of};
ghost use Rattle.bd_report.specs.Traffic.{device_traffic};

use crate::counts::{Counts, CountsList, counts_in, is_counted, note_act};
use crate::stats::Stats;
use crate::submitted::{Submitted, note_submitted};
use crate::successes::{Successes, note_success};
use crate::traffic::{Traffic, TrafficList, note_if_moved};
use bd_base::{DevRow, Entry, OutOfMemory, Rows, Setup};
use std::alloc::Global;

/// Counts the entries of a run as they come. Contracts see it by the entries that it has counted.
#[derive(Drop)]
pub struct Counter {
    threads: CountsList,
    all: Counts,
    sizes: Rows<u32>,
    submitted: Vec<Submitted>,
    successes: Successes,
}

impl Counter {
    /// A counter of no entries, for the threads and devices of this setup. Out of memory is the only
    /// error.
    pub fn new(alloc: Global, setup: &Setup) -> Result<Counter, OutOfMemory>
        ensures { IfOk result (HasCounted setup.now []) }
    {
        Ok(Counter {
            threads: no_counts(alloc, setup.threads)?,
            all: Counts::new(),
            sizes: sizes_of(alloc, setup.devices.as_slice())?,
            submitted: Vec::new(alloc),
            successes: Successes::new(alloc, setup.threads)?,
        })
    }

    /// Counts the entries of a part, after those that were counted before.
    ///
    /// Out of memory is the only error, and then none of the part is counted.
    pub fn add(&mut self, part: &[Entry]) -> Result<(), OutOfMemory>
        ensures counted { (setup : Setup) (entries : List Entry) → HasCounted setup entries self.old →
            OnOk result (HasCounted setup (entries ++ part.now) self.new) }
        ensures kept { (setup : Setup) (entries : List Entry) → HasCounted setup entries self.old →
            OnErr result (HasCounted setup entries self.new) }
    {
        let counts = counts_in(part);
        self.submitted.reserve(counts.accepted as usize)?;
        self.successes.reserve(counts.success as usize)?;
        for entry in part {
            self.note(entry);
        }
        Ok(())
    }

    // Counts an entry, where there is room for it. Most acts don't count.
    fn note(&mut self, entry: &Entry)
        requires { HasRoom (entry.now ∷ []) self.old }
        ensures counted { (setup : Setup) (entries : List Entry) → HasCounted setup entries self.old → HasCounted setup (entries ++ entry.now ∷ []) self.new }
        ensures room { (rest : List Entry) → HasRoom (entry.now ∷ rest) self.old → HasRoom rest self.new }
    {
        if !is_counted(&entry.act) {
            return;
        }
        note_act(&mut self.threads, entry.thread, &entry.act);
        self.all.note(&entry.act);
        note_submitted(&mut self.submitted, &entry.act);
        note_success(&mut self.successes, &entry.act);
    }

    /// The statistics of the entries that were counted. Out of memory is the only error.
    pub fn stats(&self) -> Result<Stats, OutOfMemory>
        ensures { (setup : Setup) (entries : List Entry) → HasCounted setup entries self.now → IfOk result (λ stats. stats ≡ stats_of setup entries) }
    {
        Ok(Stats {
            threads: self.threads.copy()?,
            devices: self.traffic()?,
            all: self.all,
        })
    }

    // What each device moved.
    fn traffic(&self) -> Result<TrafficList, OutOfMemory>
        ensures { (trace : List Entry) → TellsSuccesses self.now.successes trace →
            IfOk result (λ devices. devices ≡ device_traffic trace self.now.submitted.items self.now.sizes) }
    {
        let sizes = self.sizes.as_slice();
        let mut devices = no_traffic(*self.submitted.allocator(), sizes.len())?;
        for submitted in self.submitted.as_slice() {
            let request = submitted.request;
            let has_succeeded = self.successes.has(request);
            note_if_moved(&mut devices, sizes, submitted, has_succeeded);
        }
        Ok(devices)
    }
}

// Counts of no acts for each thread.
fn no_counts(alloc: Global, threads: u32) -> Result<CountsList, OutOfMemory>
    ensures { IfOk result (λ counts. counts ≡ thread_counts threads []) }
{
    let mut counts = Rows::new(alloc);
    for _thread in 0..threads {
        counts.push(Counts::new())?;
    }
    Ok(counts)
}

// Nothing moved on any device.
fn no_traffic(alloc: Global, devices: usize) -> Result<TrafficList, OutOfMemory>
    ensures { (trace : List Entry) (sizes : List ℕ) → length sizes ≡ devices → IfOk result (λ traffic. traffic ≡ device_traffic trace [] sizes) }
{
    let mut traffic = Rows::new(alloc);
    for _device in 0..devices {
        traffic.push(Traffic::new())?;
    }
    Ok(traffic)
}

// The bytes of a block of each device.
fn sizes_of(alloc: Global, devices: &[DevRow]) -> Result<Rows<u32>, OutOfMemory>
    ensures { IfOk result (λ sizes. sizes ≡ map (λ row. row.size) devices.now) }
{
    let mut sizes = Rows::new(alloc);
    for row in devices {
        sizes.push(row.size)?;
    }
    Ok(sizes)
}

/// The statistics of a run from its setup and its trace. Out of memory is the only error.
pub fn stats(alloc: Global, setup: &Setup, trace: &[Entry]) -> Result<Stats, OutOfMemory>
    ensures { IfOk result (λ stats. stats ≡ stats_of setup.now trace.now) }
{
    let mut counter = Counter::new(alloc, setup)?;
    counter.add(trace)?;
    counter.stats()
}
