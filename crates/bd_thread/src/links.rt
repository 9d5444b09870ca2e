//! A thread's own side of what threads have together: a queue of messages to each, a registry, and its entries.
ghost use Rattle.std.specs.Prelude.{◌≡◌, IfOk, OnOk};
ghost use Rattle.bd_thread.specs.Resting.{are_empty, shut_down};
ghost use Rattle.bd_thread.specs.Starts.{IsNewLinks};

use bd_base::{Act, Entry, OutOfMemory, Rows, Setup};
use bd_links::{Queue, add, empty_queues};
use bd_registry::Registry;
use std::alloc::Global;

/// A thread's own side of what threads have together: each thread has links for itself.
#[derive(Drop)]
pub struct Links {
    pub queues: Vec<Queue>,
    pub registry: Registry,
    pub entries: Rows<Entry>,
    /// Whether the Shutdown came.
    pub shut: bool,
}

impl Links {
    /// The links before any entry: an empty queue for each thread, the registry with the base
    /// handles and the channels of limited devices' homes, and no entry.
    #[tactic(auto, using(bd_registry::proofs::Rows::start_of_rows))]
    pub fn new(alloc: Global, setup: &Setup) -> Result<Links, OutOfMemory>
        ensures { IfOk result (λ links. IsNewLinks setup.now links) }
    {
        let queues = empty_queues(alloc, setup.threads)?;
        let registry = Registry::of(alloc, setup)?;
        Ok(Links {
            queues,
            registry,
            entries: Rows::new(alloc),
            shut: false,
        })
    }

    /// Whether no message is on its way.
    pub fn are_empty(&self) -> bool
        ensures { result ≡ are_empty self.now.queues.items }
    {
        self.queues.iter().all(|queue| queue.len() == 0)
    }

    /// Thread 0 shuts down.
    pub fn shut_down(&mut self) -> Result<(), OutOfMemory>
        ensures { OnOk result (self.new ≡ shut_down self.old) }
    {
        add(&mut self.entries, 0, Act::Shutdown)?;
        self.shut = true;
        Ok(())
    }
}
