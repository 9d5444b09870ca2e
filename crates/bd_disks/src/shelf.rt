//! The disks of all threads.
ghost use Rattle.std.specs.Prelude.{◌≡◌, ◌<◌, ◌≤◌, ◌++◌, ◌∷◌, [], length, IfOk, MatchOption};

use crate::disks::Disks;
use bd_base::OutOfMemory;
use std::alloc::Global;
use std::collections::VecDeque;
use std::marker::Model;

/// The disks of several threads, seen as the list of them, and beside it how many threads' disks it
/// can keep without taking memory. Like its disks it can be neither copied nor dropped.
pub struct Shelf<D> {
    threads: VecDeque<Disks<D>>,
}

impl<D> Model for Shelf<D> {
    ghost use Rattle.std.specs.VecDeque.{deque_capacity};
    ghost use Rattle.bd_disks.specs.Shelf.{Shelved};

    ghost Value = { Shelved D };

    ghost view = { λ s. record { items = s.threads.items; capacity = deque_capacity s.threads } };
}

impl<D> Shelf<D> {
    /// An empty shelf with room for the disks of `n` threads at least, or out of memory.
    pub fn with_room(alloc: Global, n: usize) -> Result<Shelf<D>, OutOfMemory>
        ensures items { IfOk result (λ s. s.items ≡ []) }
        ensures capacity { IfOk result (λ s. n ≤ s.capacity) }
    {
        let threads = VecDeque::with_capacity(alloc, n)?;
        Ok(Shelf { threads })
    }

    /// Keeps a thread's disks, as the last. It takes no memory, and needs a spare place.
    pub fn put(&mut self, disks: Disks<D>)
        requires { length self.old.items < self.old.capacity }
        ensures items { self.new.items ≡ self.old.items ++ disks ∷ [] }
        ensures capacity { self.new.capacity ≡ self.old.capacity }
    {
        match self.threads.push_back(disks) {
            Ok(()) => (),
            Err(_) => unreachable!(),
        }
    }

    /// Takes the first thread's disks out. None exactly where there are none, and then nothing
    /// changed.
    pub fn take(&mut self) -> Option<Disks<D>>
        ensures items { MatchOption result ((self.old.items ≡ []) × (self.new.items ≡ [])) (λ disks. self.old.items ≡ disks ∷ self.new.items) }
        ensures capacity { self.new.capacity ≡ self.old.capacity }
    {
        self.threads.pop_front()
    }

    /// How many threads' disks there are.
    pub fn len(&self) -> usize
        ensures { result ≡ length self.now.items }
    {
        self.threads.len()
    }

    /// Ends a shelf that is empty.
    pub fn end(self)
        requires { self.items ≡ [] }
    {
        let Shelf { threads } = self;
        threads.destroy_empty();
    }
}
